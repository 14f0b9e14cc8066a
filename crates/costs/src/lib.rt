// What it costs to claim code bits against those observed: what a kind of cost is, and the two kinds of the receiver.
#![tactic(auto)]

ghost use Rattle.std.specs.Prelude.{◌≡◌};
ghost use Rattle.costs.specs.Differences.{CountIsTheDifferences, GradedIsTheDifferences};
ghost use Rattle.costs.specs.Kind.{Kind, Laws, most_charges};
ghost use Rattle.costs.specs.Kinds.{count_kind, graded_kind};
ghost use Rattle.costs.specs.Observed.{observation, bit_of, doubt_of};
ghost use Rattle.costs.specs.declared.Observation.{Observation};
ghost use Rattle.costs.specs.TwoKinds.{count_laws, graded_laws};

// What is observed of a code bit.
#[derive(Clone, Copy, PartialEq, Eq, Debug)]
pub enum Observation {
    Sure(bool),
    Doubtful(bool),
}

impl Observation {
    // A bit that is read, and whether it is in doubt.
    pub fn of(bit: bool, doubtful: bool) -> Observation
        ensures { result ≡ observation bit doubtful }
    {
        if doubtful {
            Observation::Doubtful(bit)
        } else {
            Observation::Sure(bit)
        }
    }

    pub fn bit(self) -> bool
        ensures { result ≡ bit_of self }
    {
        let (Observation::Sure(bit) | Observation::Doubtful(bit)) = self;
        bit
    }

    pub fn is_doubtful(self) -> bool
        ensures { result ≡ doubt_of self }
    {
        matches!(self, Observation::Doubtful(_))
    }
}

// A kind of cost. Every call answers always and changes nothing.
pub trait CostKind: Copy {
    // What the calls answer.
    ghost kind: { Kind Observation Self };

    // Not by `Default`: the literal is as short, and shows what costs nothing.
    fn nothing() -> Self
        ensures { result ≡ kind.nothing };

    fn charge(self, observed: Observation, claimed: bool) -> Self
        ensures { result ≡ kind.charge self observed claimed };

    // Not by `Ord`, which would ask for an order that is total among all costs, and not only among those that a frame can come to.
    fn at_most(self, other: Self) -> bool
        ensures { result ≡ kind.at_most self other };

    // The order is total and the same charge keeps it, among the costs of as many charges as a frame can need.
    ghost lawful: { Laws most_charges kind };
}

// The count: how many observed bits differ from the claimed ones.
#[derive(Clone, Copy, PartialEq, Eq, PartialOrd, Ord, Debug)]
pub struct Count {
    pub differing: u32,
}

impl CostKind for Count {
    ghost kind = { count_kind };

    ghost lawful = { count_laws };

    fn nothing() -> Count {
        Count { differing: 0 }
    }

    fn charge(self, observed: Observation, claimed: bool) -> Count {
        if observed.bit() != claimed {
            Count {
                differing: self.differing.saturating_add(1),
            }
        } else {
            self
        }
    }

    fn at_most(self, other: Count) -> bool {
        self <= other
    }
}

// The graded cost: the differences at sure bits, and then those at doubtful ones. The fields stand in the order in which costs compare them.
#[derive(Clone, Copy, PartialEq, Eq, PartialOrd, Ord, Debug)]
pub struct Graded {
    pub sure: u32,
    pub doubtful: u32,
}

impl CostKind for Graded {
    ghost kind = { graded_kind };

    ghost lawful = { graded_laws };

    fn nothing() -> Graded {
        Graded {
            sure: 0,
            doubtful: 0,
        }
    }

    fn charge(self, observed: Observation, claimed: bool) -> Graded {
        if observed.bit() == claimed {
            self
        } else if observed.is_doubtful() {
            Graded {
                doubtful: self.doubtful.saturating_add(1),
                ..self
            }
        } else {
            Graded {
                sure: self.sure.saturating_add(1),
                ..self
            }
        }
    }

    fn at_most(self, other: Graded) -> bool {
        self <= other
    }
}

// The count keeps the laws of a kind of cost. This theorem and the next name the kinds, as readers look for them; one for every kind would name none.
pub fn count_keeps_the_laws()
    ensures { Laws most_charges count_kind }
{}

// So does the graded cost.
pub fn graded_keeps_the_laws()
    ensures { Laws most_charges graded_kind }
{}

// What the two kinds tell of claimed bits is the number of their differences from the observed ones.
pub fn costs_are_the_differences()
    ensures count { CountIsTheDifferences }
    ensures graded { GradedIsTheDifferences }
{}
