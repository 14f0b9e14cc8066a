// How much harm is mended: few enough wrong or doubtful code bits, and the PSDU that was sent is the only nearest one.
#![tactic(auto)]

ghost use Rattle.costs.specs.Kinds.{count_kind, graded_kind};
ghost use Rattle.exact.specs.Mended.{FourWrongBitsMended, ErrorsAndErasuresMended};
ghost use Rattle.exact.specs.Touched.{MoveKeepsCount, FewTouchedMended, CleanCostsNothing};

// At most four observed code bits differ from those of a PSDU: by the count it alone is the nearest.
pub fn four_wrong_bits_are_mended()
    ensures { FourWrongBitsMended }
{}

// Twice the sure differences and the doubtful places are at most nine: by the graded cost it alone is the nearest.
pub fn errors_and_erasures_are_mended()
    ensures { ErrorsAndErasuresMended }
{}

// At most four code bits are touched, and all others are observed as sent: either kind mends them.
pub fn few_touched_bits_are_mended()
    ensures count { FewTouchedMended count_kind }
    ensures graded { FewTouchedMended graded_kind }
{}

// No code bit is touched: in either kind the PSDU that was sent costs nothing.
pub fn clean_bits_cost_nothing()
    ensures count { CleanCostsNothing count_kind }
    ensures graded { CleanCostsNothing graded_kind }
{}

// Interleaving keeps the number of the code bits that are touched.
pub fn move_keeps_count()
    ensures { MoveKeepsCount }
{}
