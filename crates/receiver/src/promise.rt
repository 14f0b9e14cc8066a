// The promise over every list of calls, as contracts.
ghost use Rattle.receiver.specs.Promise.{AcceptedClosesNearest, RefusalsByTheBook};

use costs::CostKind;

// Over every list of calls, each accepted close returns the nearest PSDU, judged by the book before it.
pub fn accepted_closes_are_nearest<K: CostKind>()
    ensures { AcceptedClosesNearest K.CostKind.kind }
{}

// Which calls are accepted and which refused, and with which fault, is told by the book alone.
pub fn the_book_tells_every_refusal<K: CostKind>()
    ensures { RefusalsByTheBook K.CostKind.kind }
{}
