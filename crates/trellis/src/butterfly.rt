// One step of the trellis by butterflies: states j and j + 32 lead to states 2 * j and 2 * j + 1, and claim opposite code bits on the way to each.
ghost use Rattle.std.specs.Prelude.{◌≡◌, ◌+◌, ◌*◌, ◌<◌, ◌≤◌, false, not, ◌&&◌, length, if◌then◌else◌};
ghost use Rattle.codebits.specs.Bits.{bit_at, number_at};
ghost use Rattle.nearest.specs.Trellis.{first_of, second_of, charged_both, takes, stepped};
ghost use Rattle.trellis.specs.Memory.{state_count, cost_in, bank_of, Written, step_word};

use costs::{CostKind, Observation};

// What a step goes by: whether the bit that it drops is free, and what is observed of its two code bits.
#[derive(Clone, Copy)]
pub struct Section {
    pub free: bool,
    pub first: Observation,
    pub second: Observation,
}

impl Section {
    // A cost charged for both code bits.
    fn charge<K: CostKind>(self, cost: K, claimed: (bool, bool)) -> K
        ensures { result ≡ charged_both K.CostKind.kind self.first self.second cost claimed.0 claimed.1 }
    {
        cost.charge(self.first, claimed.0)
            .charge(self.second, claimed.1)
    }

    // The lesser cost, the first on a tie, and whether it is the second one; where the choice is not free, the first.
    // A pair, as the cost goes into the bank and the flag into the word.
    fn choose<K: CostKind>(self, first: K, second: K) -> (K, bool)
        ensures { (result.1 ≡ (self.free && not (K.CostKind.kind.at_most first second))) × (result.0 ≡ (if result.1 then second else first)) }
    {
        let taken = self.free && !first.at_most(second);
        (if taken { second } else { first }, taken)
    }
}

// Whether bit i of a state is 1. A function of its own: the other layers ask this of other types of number, in one expression each.
fn has(state: usize, i: u32) -> bool
    requires { i < 6 }
    ensures { result ≡ bit_at state i }
{
    (state >> i) % 2 == 1
}

// The two code bits claimed where a 0 follows a state: the taps on its number, as a sender has them on its six bits.
fn claims(state: usize) -> (bool, bool)
    ensures { (result.0 ≡ first_of state false) × (result.1 ≡ second_of state false) }
{
    let first = has(state, 1) ^ has(state, 2) ^ has(state, 4) ^ has(state, 5);
    let second = has(state, 0) ^ has(state, 1) ^ has(state, 2) ^ has(state, 5);
    (first, second)
}

// The bit of a state in its word, if it is taken: a choice, which compiles to a mask in the vectors.
fn noted(taken: bool, bit: u32) -> u32
    ensures { result ≡ (if taken then bit else 0) }
{
    if taken { bit } else { 0 }
}

// Sixteen butterflies from `base` on, which compile to vectors. Bit t of the word is that of state 2 * base + t.
// The bank is written by index: after chunks that are lent to be written a proof knows only its length.
fn half<K: CostKind>(from: &[K], to: &mut [K], base: usize, section: Section) -> u32
    requires from { length from.now ≡ state_count }
    requires to { length to.old ≡ state_count }
    requires base { base ≤ 16 }
    ensures memory { Written K.CostKind.kind.nothing (stepped K.CostKind.kind section.first section.second section.free (cost_in K.CostKind.kind from.now 0)) (2 * base) (2 * (base + 16)) to.old to.new }
    ensures answer { result ≡ number_at (takes K.CostKind.kind section.first section.second section.free (cost_in K.CostKind.kind from.now 0)) (2 * base) 32 }
{
    let mut word: u32 = 0;
    for i in 0..16 {
        let j = base + i;
        let (x, y) = claims(j);
        let low = from[j];
        let high = from[j + 32];
        let (zero, zero_took) = section.choose(
            section.charge(low, (x, y)),
            section.charge(high, (!x, !y)),
        );
        let (one, one_took) = section.choose(
            section.charge(low, (!x, !y)),
            section.charge(high, (x, y)),
        );
        to[2 * j] = zero;
        to[2 * j + 1] = one;
        word += noted(zero_took, 1 << (2 * i)) + noted(one_took, 2 << (2 * i));
    }
    word
}

// One step of all states, from one bank to the other. Bit s of the word says whether state s came from the one with oldest bit 1.
// Banks are slices and not arrays, which would carry their length: that 64 costs of any kind fit the memory stays unproved.
pub fn step<K: CostKind>(from: &[K], to: &mut [K], section: Section) -> u64
    requires from { length from.now ≡ state_count }
    requires to { length to.old ≡ state_count }
    ensures memory { to.new ≡ bank_of (stepped K.CostKind.kind section.first section.second section.free (cost_in K.CostKind.kind from.now 0)) }
    ensures answer { result ≡ step_word K.CostKind.kind section.first section.second section.free 0 from.now }
{
    let low = half(from, to, 0, section);
    let high = half(from, to, 16, section);
    u64::from(low) + (u64::from(high) << 32)
}
