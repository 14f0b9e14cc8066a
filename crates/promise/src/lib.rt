// The promise of the receiver over every list of calls, whole, and clean frames that come back.
#![tactic(auto)]

ghost use Rattle.costs.specs.Kinds.{count_kind, graded_kind};
ghost use Rattle.promise.specs.Chain.{EveryChainReturns};
ghost use Rattle.promise.specs.Clean.{CleanFramesComeBack};
ghost use Rattle.promise.specs.Sent.{FourWrongBits, NineByDoubt, AcceptedClosesReturn};
ghost use Rattle.promise.specs.Steps.{CallsAreSteps};
ghost use Rattle.promise.specs.Whole.{WholeRun};

use costs::CostKind;

// Over every list of calls, each accepted close returns the nearest PSDU, judged by the book before it.
// It is the PSDU that was sent if few observed code bits are wrong or doubtful, or few groups are wrecked.
pub fn accepted_closes_return_what_was_sent()
    ensures count { AcceptedClosesReturn count_kind FourWrongBits }
    ensures graded { AcceptedClosesReturn graded_kind NineByDoubt }
{}

// A PSDU that is received as it was sent comes back: every call is accepted, and the cost is nothing.
pub fn clean_frames_come_back()
    ensures count { CleanFramesComeBack count_kind }
    ensures graded { CleanFramesComeBack graded_kind }
{}

// So for every band, mode and PSDU: its header is read back, its blocks are those that the cursor writes, and it comes back.
pub fn every_chain_returns()
    ensures count { EveryChainReturns count_kind }
    ensures graded { EveryChainReturns graded_kind }
{}

// What each call answers and leaves is the next step of the list that led to it, so no call falls out of the promise.
pub fn calls_are_steps<K: CostKind>()
    ensures { CallsAreSteps K.CostKind.kind }
{}

// There is a list of calls, with memory and a buffer, whose close is accepted: the promise is about something.
pub fn one_whole_run()
    ensures count { WholeRun count_kind }
    ensures graded { WholeRun graded_kind }
{}
