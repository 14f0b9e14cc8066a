// How many wrecked groups of chips a frame can have and still come back as it was sent, whatever its line code.
#![tactic(auto)]

ghost use Rattle.wrecked.specs.Wrecked.{DamagedUnlikeSent};
ghost use Rattle.wrecked.specs.Mended.{FewWreckedMended, SentUnharmed, ByEveryCode, ByCode};

use linecode::lines::LineCode;

// The damaged chips of a group are those unlike what is sent for a PSDU.
pub fn damaged_chips_are_unlike_sent()
    ensures { ByEveryCode DamagedUnlikeSent }
{}

// Wrecked groups that reach at most four code bits are mended, by the count and by the graded cost.
pub fn few_wrecked_groups_are_mended()
    ensures { ByEveryCode FewWreckedMended }
{}

// The chips that are sent for a PSDU have no wrecked group, are read as its code bits, and return it alone, at no cost.
pub fn sent_chips_are_unwrecked()
    ensures { ByEveryCode SentUnharmed }
{}

// Both hold of the line code at hand, with nothing left to ask of it.
pub fn line_code_mends_frames<L: LineCode>(line: &L)
    ensures few { ByCode (L.LineCode.code line.now) FewWreckedMended }
    ensures sent { ByCode (L.LineCode.code line.now) SentUnharmed }
{
    let _ = line;
}
