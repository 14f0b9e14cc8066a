// The 88 steps of a block, from bank to bank.
ghost use Rattle.std.specs.Prelude.{◌≡◌, ℕ, ◌*◌, ◌^◌, ◌<◌, ◌≤◌, length};
ghost use Rattle.codebits.specs.Message.{block_bits};
ghost use Rattle.nearest.specs.Trellis.{free};
ghost use Rattle.trellis.specs.Block.{start_of, costs_after, block_words};
ghost use Rattle.trellis.specs.Memory.{state_count, cost_in, observed_at};

use crate::STATES;
use crate::butterfly::{Section, step};
use codebits::{BLOCK_BITS, BLOCK_CODE_BITS, TAIL_BITS};
use costs::{CostKind, Observation};

// Whether the bit that step k drops is one of the PSDU's: that of place k - 6.
fn is_free(k: usize, octets: u16) -> bool
    ensures { result ≡ free (8 * octets) k }
{
    (TAIL_BITS..8 * usize::from(octets) + TAIL_BITS).contains(&k)
}

// Before the first block of a frame every state costs nothing.
fn begin<K: CostKind>(block: usize, one: &mut [K])
    ensures { (s : ℕ) → s < length one.old → cost_in K.CostKind.kind one.new 0 s ≡ start_of K.CostKind.kind block one.old s }
{
    if block == 0 {
        // No `fill`, which asks that a clone cannot fail: of a kind of cost only a copy is known.
        for cost in one.iter_mut() {
            *cost = K::nothing();
        }
    }
}

// The steps of block number `block` of a frame. Even ones go from bank one to bank two, odd ones back, so that the costs end in bank one.
pub fn run<K: CostKind>(
    observed: &[Observation; BLOCK_CODE_BITS],
    block: usize,
    octets: u16,
    costs: &mut [K],
    words: &mut [u64],
)
    requires block { block_bits * block < 2 ^ 32 }
    requires costs { 2 * state_count ≤ length costs.old }
    requires words { length words.old ≡ block_bits }
    ensures costs { costs.new ≡ costs_after K.CostKind.kind observed.now octets block costs.old }
    ensures words { words.new ≡ block_words K.CostKind.kind (observed_at observed.now) (8 * octets) (block_bits * block) (start_of K.CostKind.kind block costs.old) }
{
    let first = BLOCK_BITS * block;
    let (one, rest) = costs.split_at_mut(STATES);
    let (two, _rest) = rest.split_at_mut(STATES);
    begin(block, one);
    for (k, word) in words.iter_mut().enumerate() {
        // The two code bits of a step are read by its number, as the free bit is: pairs cut by the library would need it too.
        let section = Section {
            free: is_free(first + k, octets),
            first: observed[2 * k],
            second: observed[2 * k + 1],
        };
        // The turn of the banks is the step's number, and no choice that could be handed in.
        *word = if k % 2 == 0 {
            step(one, two, section)
        } else {
            step(two, one, section)
        };
    }
}
