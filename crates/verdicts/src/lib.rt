// What the report on a capture promises: the PSDU that it prints is the nearest, and a clean frame comes back.
#![tactic(auto)]

ghost use Rattle.verdicts.specs.Accepted.{AcceptedNearest};
ghost use Rattle.verdicts.specs.Clean.{CleanCapturesComeBack};
ghost use Rattle.verdicts.specs.Unread.{NothingReadBehind};

// The PSDU that is printed of an accepted capture is the nearest to what its chips show, and the cost is that PSDU's.
pub fn accepted_captures_are_nearest()
    ensures { AcceptedNearest }
{}

// A capture of a frame as it is sent gives the lines of that frame, with a cost of nothing.
pub fn clean_captures_come_back()
    ensures { CleanCapturesComeBack }
{}

// Octets behind the longest capture change nothing, so that a program may stop reading there.
pub fn nothing_is_read_behind()
    ensures { NothingReadBehind }
{}
