// The calls of the cursor.
ghost use Rattle.std.specs.Prelude.{◌≡◌, ◌+◌, ◌*◌, ◌<◌, length, drop};
ghost use Rattle.codebits.specs.Message.{message_bit};
ghost use Rattle.frames.specs.Sent.{block_groups, block_chips};
ghost use Rattle.sender.specs.Stored.{last_six, IsCoded};
ghost use Rattle.sender.specs.Sending.{sent_before, block_words, blocks_to_send, answer, chips_after, advanced, state_after, Filled};

use super::Cursor;
use super::bits::SentBits;
use crate::check::blocks_to_send;
use crate::coding::{Register, encode_block};
use crate::whole::block_chips;
use codebits::{BLOCK_BITS, BLOCK_CODE_BITS};
use faults::{Fault, FaultKind, Layer};
use linecode::lines::LineCode;

impl<'a> Cursor<'a> {
    // A cursor at the first block, after the header's last encoded bit.
    // The coding and that bit stay two parameters: a struct of the two would be made at each call only to be taken apart here.
    pub fn new(psdu: &'a [u8], differential: bool, last: bool) -> Cursor<'a>
        ensures state { result ≡ record { psdu = psdu.entry.now; differential = differential; last = last; block = 0 } }
    {
        Cursor {
            psdu,
            differential,
            start: last,
            block: 0,
            register: Register::new(),
            last,
        }
    }

    // Writes the words of the next block's groups, and answers the last bit that is sent.
    fn write_words<L: LineCode>(
        &self,
        line: &L,
        coded: &[[bool; 2]; BLOCK_BITS],
        chips: &mut [u8],
    ) -> bool
        requires few { self.now.block < 187 }
        requires coded { IsCoded self.now.psdu self.now.block coded.now }
        requires room { length chips.old ≡ block_chips (L.LineCode.code line.now) }
        ensures chips { chips.new ≡ block_words (L.LineCode.code line.now) self.now (block_groups (L.LineCode.code line.now)) }
        ensures last { result ≡ sent_before self.now 176 }
    {
        let g = line.bits_per_group();
        let n = line.chips_per_group();
        let groups = BLOCK_CODE_BITS as u32 / g;
        let first = self.block * groups;
        let mut bits = SentBits::new(self, coded);
        // The groups are cut by their numbers: after `chunks_exact_mut` the proof knows only how many chips there are, and what was written stays open.
        for j in 0..groups {
            let value = bits.next_value(g);
            let from = n * j as usize;
            let _ = line.spread(first + j, value, &mut chips[from..from + n]);
        }
        bits.last()
    }

    // Moves on by a block, and writes its chips. That a block is left is a fact of this call and of what it calls, and of no cursor that is done.
    fn advance<L: LineCode>(&mut self, line: &L, chips: &mut [u8])
        requires few { self.old.block < 187 }
        requires room { length chips.old ≡ block_chips (L.LineCode.code line.now) }
        ensures chips { chips.new ≡ block_words (L.LineCode.code line.now) self.old (block_groups (L.LineCode.code line.now)) }
        ensures state { self.new ≡ advanced self.old }
    {
        let mut coded = [[false; 2]; BLOCK_BITS];
        let block = self.block;
        let register = encode_block(self.psdu, block as usize, self.register, &mut coded);
        let last = self.write_words(line, &coded, chips);
        self.register = register;
        self.last = last;
        self.block = block + 1;
    }

    // Writes the chips of the next block, and answers its number, or nothing after the last one.
    // Only a block that is left to write judges the buffer, which has exactly one block's chips.
    pub fn next_block<L: LineCode>(
        &mut self,
        line: &L,
        chips: &mut [u8],
    ) -> Result<Option<u32>, Fault>
        ensures answer { result ≡ answer (L.LineCode.code line.now) self.old (length chips.old) }
        ensures memory { chips.new ≡ chips_after (L.LineCode.code line.now) self.old chips.old }
        ensures state { self.new ≡ state_after (L.LineCode.code line.now) self.old (length chips.old) }
    {
        let block = self.block;
        let blocks = blocks_to_send(self.psdu.len());
        if block >= blocks {
            return Ok(None);
        }
        if chips.len() != block_chips(line) {
            return Err(Layer::Frame.refusal(FaultKind::ChipCount, chips.len()));
        }
        self.advance(line, chips);
        Ok(Some(block))
    }

    // Writes the next block behind those before it, in the chips of the whole frame.
    pub(crate) fn next_in_frame<L: LineCode>(
        &mut self,
        line: &L,
        chips: &mut [u8],
    ) -> Result<Option<u32>, Fault>
        requires room { length chips.old ≡ blocks_to_send (length self.old.psdu) * block_chips (L.LineCode.code line.now) }
        requires filled { Filled (L.LineCode.code line.now) self.old chips.old }
        ensures answer { result ≡ answer (L.LineCode.code line.now) self.old (block_chips (L.LineCode.code line.now)) }
        ensures state { self.new ≡ state_after (L.LineCode.code line.now) self.old (block_chips (L.LineCode.code line.now)) }
        ensures filled { Filled (L.LineCode.code line.now) self.new chips.new }
    {
        // A part of lent memory, by the number of the block: a parted rest would have to come back to the caller.
        let size = block_chips(line);
        let from = self.block as usize * size;
        let end = chips.len().min(from + size);
        self.next_block(line, &mut chips[from..end])
    }

    // The part of the PSDU that no block has begun: a block begins eleven octets.
    pub fn rest(&self) -> &'a [u8]
        ensures answer { result.now ≡ drop (11 * self.now.block) self.now.psdu }
    {
        self.psdu.get(11 * self.block as usize..).unwrap_or(&[])
    }

    // The six message bits before the next block, the newest first.
    pub fn stored_bits(&self) -> [bool; 6]
        ensures answer { result ≡ last_six (message_bit self.now.psdu) (88 * self.now.block) }
    {
        self.register.bits()
    }
}
