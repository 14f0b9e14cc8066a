// The bits of a cursor's next block as they are sent: interleaved, and coded differentially where that is set.
ghost use Rattle.std.specs.Prelude.{◌≡◌, ◌+◌, ◌*◌, ◌^◌, ◌<◌, ◌≤◌};
ghost use Rattle.codebits.specs.Bits.{number_at};
ghost use Rattle.sender.specs.Stored.{IsCoded};
ghost use Rattle.sender.specs.Sending.{sent_stream, sent_before};

use super::Cursor;
use crate::coding::origin_of;
use codebits::BLOCK_BITS;

#[derive(Drop)]
pub struct SentBits<'a, 'b> {
    cursor: &'a Cursor<'b>,
    // the block's code bits, two for each message bit
    coded: &'a [[bool; 2]; BLOCK_BITS],
    // the next bit's place in the block, and the bit that is sent before it
    place: usize,
    last: bool,
    ghost code: { IsCoded cursor.now.psdu cursor.now.block coded.now },
    ghost before: { last ≡ sent_before cursor.now place },
}

impl<'a, 'b> SentBits<'a, 'b> {
    // The bits from the block's first on.
    pub fn new(cursor: &'a Cursor<'b>, coded: &'a [[bool; 2]; BLOCK_BITS]) -> SentBits<'a, 'b>
        requires code { IsCoded cursor.now.psdu cursor.now.block coded.now }
        ensures cursor { result.cursor ≡ cursor.entry }
        ensures place { result.place ≡ 0 }
    {
        SentBits {
            cursor,
            coded,
            place: 0,
            last: cursor.last,
        }
    }

    fn next_bit(&mut self) -> bool
        requires { self.old.place < 176 }
        ensures bit { result ≡ sent_stream self.old.cursor.now (176 * self.old.cursor.now.block + self.old.place) }
        ensures place { self.new.place ≡ self.old.place + 1 }
        ensures cursor { self.new.cursor ≡ self.old.cursor }
    {
        let cursor = self.cursor;
        let origin = origin_of(self.place);
        let code = self.coded[origin / 2][origin % 2];
        let bit = code ^ (cursor.differential & self.last);
        self.last = bit;
        self.place += 1;
        bit
    }

    // The value of the next group of `g` bits.
    pub fn next_value(&mut self, g: u32) -> u32
        requires few { g ≤ 8 }
        requires within { self.old.place + g ≤ 176 }
        ensures value { result ≡ number_at (sent_stream self.old.cursor.now) (176 * self.old.cursor.now.block + self.old.place) g }
        ensures fits { result < 2 ^ g }
        ensures place { self.new.place ≡ self.old.place + g }
        ensures cursor { self.new.cursor ≡ self.old.cursor }
    {
        let mut value = 0;
        for i in 0..g {
            value += u32::from(self.next_bit()) << i;
        }
        value
    }

    // The bit that is sent before the next one.
    pub fn last(&self) -> bool
        ensures { result ≡ sent_before self.now.cursor.now self.now.place }
    {
        self.last
    }
}
