// Octets that are sent and read bit by bit, by a line code with one bit to a group.
ghost use Rattle.std.specs.Prelude.{◌≡◌, ◌+◌, ◌*◌, ◌<◌, ◌≤◌, [], ◌∷◌, length};
ghost use Rattle.codebits.specs.Bits.{number_at};
ghost use Rattle.frames.specs.Heard.{encoded_bit};
ghost use Rattle.header.specs.Headers.{octet_chips, last_encoded};
ghost use Rattle.header.specs.Reading.{AllChips, decoded, encoded_before, heard_octet};

use codebits::message_bit;
use linecode::lines::LineCode;

// Writes the chips of octets, coded differentially from 0, and answers the last encoded bit.
pub fn write_octets<L: LineCode>(line: &L, octets: &[u8], chips: &mut [u8]) -> bool
    requires single { (L.LineCode.code line.now).bits ≡ 1 }
    requires few { length octets.now ≤ 11 }
    requires room { length chips.old ≡ 8 * length octets.now * (L.LineCode.code line.now).chips }
    ensures chips { chips.new ≡ octet_chips (L.LineCode.code line.now) octets.now }
    ensures last { result ≡ last_encoded octets.now }
{
    let n = line.chips_per_group();
    let mut last = false;
    // The groups are cut by their numbers: after `chunks_exact_mut` the proof knows only how many chips there are, and what was written stays open.
    for j in 0..8 * octets.len() {
        let bit = message_bit(octets, j) ^ last;
        let from = n * j;
        let _ = line.spread(j as u32, u32::from(bit), &mut chips[from..from + n]);
        last = bit;
    }
    last
}

// The bits of chips, one after the other. The chips are all 0 or 1.
// A cursor's bits are a struct of their own: they come out of code bits and not out of chips, and share no more than a place and a bit.
#[derive(Drop)]
pub struct HeardBits<'a, L: LineCode> {
    line: &'a L,
    chips: &'a [u8],
    // the next bit's place, and the encoded bit before it
    place: usize,
    last: bool,
    ghost single: { (L.LineCode.code line.now).bits ≡ 1 },
    ghost binary: { AllChips chips.now },
    ghost before: { last ≡ encoded_before (L.LineCode.code line.now) chips.now place },
}

impl<'a, L: LineCode> HeardBits<'a, L> {
    // The bits from the first on, which is decoded after 0.
    pub fn new(line: &'a L, chips: &'a [u8]) -> HeardBits<'a, L>
        requires single { (L.LineCode.code line.now).bits ≡ 1 }
        requires binary { AllChips chips.now }
        ensures line { result.line ≡ line.entry }
        ensures chips { result.chips ≡ chips.entry }
    {
        HeardBits {
            line,
            chips,
            place: 0,
            last: false,
        }
    }

    // Encoded bit `i`.
    fn encoded(&self, i: usize) -> bool
        requires few { i ≤ 88 }
        requires within { i * (L.LineCode.code self.now.line.now).chips + (L.LineCode.code self.now.line.now).chips ≤ length self.now.chips.now }
        ensures { result ≡ encoded_bit (L.LineCode.code self.now.line.now) 0 self.now.chips.now i }
    {
        let n = self.line.chips_per_group();
        let from = n * i;
        let group = &self.chips[from..from + n];
        let (value, _) = self.line.despread(i as u32, group).unwrap();
        value == 1
    }

    // The next bit, decoded by the encoded bit before it.
    fn next_bit(&mut self) -> bool
        requires few { self.old.place ≤ 88 }
        requires within { self.old.place * (L.LineCode.code self.old.line.now).chips + (L.LineCode.code self.old.line.now).chips ≤ length self.old.chips.now }
        ensures bit { result ≡ decoded (L.LineCode.code self.old.line.now) self.old.chips.now self.old.place }
        ensures place { self.new.place ≡ self.old.place + 1 }
        ensures line { self.new.line ≡ self.old.line }
        ensures chips { self.new.chips ≡ self.old.chips }
    {
        let encoded = self.encoded(self.place);
        let bit = encoded ^ self.last;
        self.last = encoded;
        self.place += 1;
        bit
    }

    // The octet of the next eight bits.
    fn next_octet(&mut self) -> u8
        requires few { self.old.place ≤ 80 }
        requires within { (self.old.place + 8) * (L.LineCode.code self.old.line.now).chips ≤ length self.old.chips.now }
        ensures octet { result ≡ number_at (decoded (L.LineCode.code self.old.line.now) self.old.chips.now) self.old.place 8 }
        ensures place { self.new.place ≡ self.old.place + 8 }
        ensures line { self.new.line ≡ self.old.line }
        ensures chips { self.new.chips ≡ self.old.chips }
    {
        let mut octet = 0;
        for i in 0..8u32 {
            octet += u8::from(self.next_bit()) << i;
        }
        octet
    }

    // The three octets after a preamble. Of the preamble only its last bit is read.
    pub fn octets_after(&mut self, preamble: usize) -> [u8; 3]
        requires some { (0 < preamble) × (preamble ≤ 8) }
        requires room { length self.old.chips.now ≡ 8 * (preamble + 3) * (L.LineCode.code self.old.line.now).chips }
        ensures octets { result ≡ heard_octet (L.LineCode.code self.old.line.now) self.old.chips.now preamble ∷ heard_octet (L.LineCode.code self.old.line.now) self.old.chips.now (preamble + 1) ∷ heard_octet (L.LineCode.code self.old.line.now) self.old.chips.now (preamble + 2) ∷ [] }
        ensures place { self.new.place ≡ 8 * (preamble + 3) }
        ensures line { self.new.line ≡ self.old.line }
        ensures chips { self.new.chips ≡ self.old.chips }
    {
        let start = 8 * preamble;
        self.last = self.encoded(start - 1);
        self.place = start;
        [self.next_octet(), self.next_octet(), self.next_octet()]
    }

    // The encoded bit before the next one.
    pub fn last(&self) -> bool
        ensures { result ≡ encoded_before (L.LineCode.code self.now.line.now) self.now.chips.now self.now.place }
    {
        self.last
    }
}
