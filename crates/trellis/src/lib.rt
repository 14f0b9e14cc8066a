// The decoder's running part over memory that its caller lends: the 88 steps of a block through the trellis, and the trace back of a PSDU.
#![tactic(auto)]

ghost use Rattle.std.specs.Prelude.{◌≡◌, ◌+◌, ◌*◌, ◌<◌, ◌≤◌, length};
ghost use Rattle.codebits.specs.Message.{block_bits, blocks, message_length};
ghost use Rattle.nearest.specs.Messages.{longest_psdu};
ghost use Rattle.trellis.specs.Block.{costs_after, words_after};
ghost use Rattle.trellis.specs.Frame.{BlocksRunTheTrellis};
ghost use Rattle.trellis.specs.Memory.{state_count};
ghost use Rattle.trellis.specs.Trace.{psdu_after};

use codebits::{BLOCK_BITS, BLOCK_CODE_BITS, block_count};
use costs::{CostKind, Observation};

mod back;
mod butterfly;
mod steps;

// How many states there are, and so how many costs a bank has.
pub const STATES: usize = 64;

// Runs the trellis over the observed code bits of a block.
pub fn run_block<K: CostKind>(
    observed: &[Observation; BLOCK_CODE_BITS],
    block: usize,
    octets: usize,
    costs: &mut [K],
    words: &mut [u64],
)
    requires { (2 * state_count ≤ length costs.old) × ((block_bits * block + block_bits ≤ length words.old) × ((block < blocks longest_psdu) × (octets ≤ longest_psdu))) }
    ensures memory { (costs.new ≡ costs_after K.CostKind.kind observed.now octets block costs.old) × (words.new ≡ words_after K.CostKind.kind observed.now octets block costs.old words.old) }
{
    let first = BLOCK_BITS * block;
    // Memory that a device lends: the words of the whole message, of which a block has its part.
    let words = &mut words[first..first + BLOCK_BITS];
    steps::run(observed, block, octets as u16, costs, words);
}

// Writes the PSDU that the words trace back from state zero, whatever they hold.
// The octets are written by index: after `rev` over octets that are lent to be written a proof knows only their number.
pub fn trace(words: &[u64], octets: usize, psdu: &mut [u8])
    requires { (message_length octets ≤ length words.now) × ((octets ≤ length psdu.old) × (octets ≤ longest_psdu)) }
    ensures memory { psdu.new ≡ psdu_after octets words.now psdu.old }
{
    let end = BLOCK_BITS * block_count(octets as u16) as usize;
    let mut state = back::settle(words, 8 * octets, end);
    for i in (0..octets).rev() {
        (psdu[i], state) = back::octet(words, i, state);
    }
}

// Run block by block, the memory holds the trellis of the whole frame, and what it then traces is the nearest PSDU.
pub fn blocks_run_the_trellis<K: CostKind>()
    ensures { BlocksRunTheTrellis K.CostKind.kind }
{}
