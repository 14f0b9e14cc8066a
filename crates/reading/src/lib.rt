// The reading half of a block: from its chips to what is observed of its 176 code bits.
#![tactic(auto)]

ghost use Rattle.std.specs.Prelude.{◌≡◌, ℕ, ◌+◌, ◌*◌, ◌/◌, ◌^◌, ◌<◌, ◌≤◌, map, length};
ghost use Rattle.std.specs.List.{range_with_len};
ghost use Rattle.codebits.specs.Interleaving.{moved_in};
ghost use Rattle.faults.specs.declared.Layer.TheVariants.{Frame};
ghost use Rattle.linecode.specs.Chips.{judged};
ghost use Rattle.frames.specs.Sent.{block_groups};
ghost use Rattle.reading.specs.Groups.{values_after, encoded_seen, decoded_seen};
ghost use Rattle.reading.specs.Reading.{read_answer, read_after};
ghost use Rattle.reading.specs.Frames.{FrameReads};

use codebits::BLOCK_CODE_BITS;
use costs::Observation;
use faults::{Fault, Layer};
use linecode::checks::judge;
use linecode::lines::LineCode;

// The value of each group, and whether another ties with it. Group j is at position first + j, and its chips are the next ones of the block.
// The block's chips are judged first; a refusal leaves the values as they were.
fn despread_groups<L: LineCode>(
    line: &L,
    first: u32,
    chips: &[u8],
    values: &mut [(u32, bool)],
) -> Result<(), Fault>
    requires few { length values.old ≤ 176 }
    requires room { first + length values.old ≤ 2 ^ 32 }
    ensures answer { result ≡ judged Frame (length values.old * (L.LineCode.code line.now).chips) chips.now }
    ensures memory { values.new ≡ values_after result (L.LineCode.code line.now) first chips.now values.old }
{
    let count = line.chips_per_group();
    judge(Layer::Frame, values.len() * count, chips)?;
    for (j, value) in values.iter_mut().enumerate() {
        // The part is cut by its number: after `zip` with values that are lent to be written the proof knows only how many there are.
        let start = j * count;
        *value = line.despread(first + j as u32, &chips[start..start + count])?;
    }
    Ok(())
}

// Where place `k` of a block moves.
fn moved_in(k: usize) -> usize
    requires { k < 176 }
    ensures value { result ≡ moved_in k }
    ensures within { result < 176 }
{
    16 * ((175 - k) % 11) + (175 - k) / 11
}

// A block whose groups are despread: their values, of so many bits each, and the encoded bit before it, after which differential decoding goes on.
// The bit before is always there, whether the coding is differential or not, and goes on to the next block: it is no value that a flag tells of.
#[derive(Clone, Copy)]
struct Groups<'a> {
    values: &'a [(u32, bool)],
    bits: usize,
    differential: bool,
    last: Observation,
    ghost some: { 0 < bits },
    ghost few: { bits ≤ 8 },
    ghost whole: { length values.now * bits ≡ 176 },
}

impl Groups<'_> {
    // Encoded bit `place`.
    fn encoded(&self, place: usize) -> Observation
        requires { place < 176 }
        ensures { result ≡ encoded_seen self.now.values.now self.now.bits place }
    {
        let (value, tied) = self.values[place / self.bits];
        Observation::of((value >> (place % self.bits)) & 1 == 1, tied)
    }

    // Decoded bit `place`.
    fn decoded(&self, place: usize) -> Observation
        requires { place < 176 }
        ensures { result ≡ decoded_seen self.now.differential self.now.last (encoded_seen self.now.values.now self.now.bits) place }
    {
        let here = self.encoded(place);
        if !self.differential {
            return here;
        }
        let before = if place == 0 {
            self.last
        } else {
            self.encoded(place - 1)
        };
        Observation::of(
            here.bit() != before.bit(),
            here.is_doubtful() || before.is_doubtful(),
        )
    }

    // What is observed of the code bits.
    fn decode(&self, observed: &mut [Observation; BLOCK_CODE_BITS])
        ensures { observed.new ≡ map (λ j. decoded_seen self.now.differential self.now.last (encoded_seen self.now.values.now self.now.bits) (moved_in j)) (range_with_len 0 176) }
    {
        for (j, seen) in observed.iter_mut().enumerate() {
            *seen = self.decoded(moved_in(j));
        }
    }
}

// Reads block number `block` of a frame after the encoded bit `last`: writes what is observed of its code bits, and answers its last encoded bit.
// A refusal leaves the observations as they were.
pub fn read_block<L: LineCode>(
    line: &L,
    differential: bool,
    block: u32,
    last: Observation,
    chips: &[u8],
    observed: &mut [Observation; BLOCK_CODE_BITS],
) -> Result<Observation, Fault>
    requires { block < 187 }
    ensures answer { result ≡ read_answer (L.LineCode.code line.now) (block * block_groups (L.LineCode.code line.now)) chips.now }
    ensures memory { observed.new ≡ read_after result (L.LineCode.code line.now) differential last (block * block_groups (L.LineCode.code line.now)) chips.now observed.old }
{
    let bits = line.bits_per_group();
    let count = BLOCK_CODE_BITS as u32 / bits;
    let mut values = [(0, false); BLOCK_CODE_BITS];
    // No heap, so the values take a part of the most groups that a block has.
    let part = &mut values[..count as usize];
    despread_groups(line, block * count, chips, part)?;
    let groups = Groups {
        values: part,
        bits: bits as usize,
        differential,
        last,
    };
    groups.decode(observed);
    Ok(groups.encoded(BLOCK_CODE_BITS - 1))
}

// A frame whose blocks are read one after the other is read whole.
pub fn frame_is_read_by_its_blocks()
    ensures { FrameReads }
{}
