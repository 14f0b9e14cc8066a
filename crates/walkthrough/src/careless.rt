// The decoder that this project replaces: it leaves tail and pad bits free, and starts its trace at the cheapest state.
ghost use Rattle.std.specs.Prelude.{◌<◌};

use codebits::{BLOCK_BITS, BLOCK_CODE_BITS};
use costs::{CostKind, Count, Observation};
use receiver::COSTS;
use trellis::{STATES, run_block};

// The octets that one block begins.
const OCTETS: usize = BLOCK_BITS / 8;

// The first eleven octets of what it traces from one block's observed code bits, and its cost.
pub fn careless(observed: &[Observation; BLOCK_CODE_BITS]) -> ([u8; OCTETS], u32) {
    let mut costs = [Count::nothing(); COSTS];
    let mut words = [0; BLOCK_BITS];
    run_block(observed, 0, OCTETS, &mut costs, &mut words);
    let (start, cost) = cheapest(&costs);
    (traced(&words, start), cost)
}

// The first of the cheapest states, and its cost, both in the first bank.
fn cheapest(costs: &[Count]) -> (usize, u32)
    ensures { result.0 < 64 }
{
    let cheapest = costs
        .iter()
        .take(STATES)
        .enumerate()
        .min_by_key(|(_, cost)| cost.differing);
    cheapest.map_or((0, 0), |(state, cost)| (state, cost.differing))
}

// Apart from the decoder of this project, as it shows another one.
fn traced(words: &[u64; BLOCK_BITS], start: usize) -> [u8; OCTETS] {
    let mut octets = [0; OCTETS];
    let mut state = start % STATES;
    for (k, word) in words.iter().enumerate().rev() {
        octets[k / 8] |= ((state % 2) as u8) << (k % 8);
        state = state / 2 + STATES / 2 * ((word >> state) % 2) as usize;
    }
    octets
}
