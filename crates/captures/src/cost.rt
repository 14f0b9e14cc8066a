// What a decoded PSDU costs, as a line tells it.
ghost use Rattle.std.specs.Prelude.{◌≡◌};
ghost use Rattle.captures.specs.Costs.{told_count, told_graded};

use costs::{Count, Graded};

#[derive(Clone, Copy, PartialEq, Eq, Debug)]
pub enum Cost {
    Count(u32),
    // sure and doubtful
    Graded(u32, u32),
}

impl From<Count> for Cost {
    ghost from_gives = { λ cost r. r ≡ told_count cost };

    fn from(cost: Count) -> Cost {
        Cost::Count(cost.differing)
    }
}

impl From<Graded> for Cost {
    ghost from_gives = { λ cost r. r ≡ told_graded cost };

    fn from(cost: Graded) -> Cost {
        Cost::Graded(cost.sure, cost.doubtful)
    }
}
