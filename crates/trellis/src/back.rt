// Going back through the trellis by the words of survivors.
ghost use Rattle.std.specs.Prelude.{◌≡◌, ◌+◌, ◌*◌, ◌<◌, ◌≤◌, length};
ghost use Rattle.codebits.specs.Bits.{bit_at};
ghost use Rattle.codebits.specs.Message.{octet_of};
ghost use Rattle.nearest.specs.Trellis.{before, traced};
ghost use Rattle.trellis.specs.Memory.{state_count};
ghost use Rattle.trellis.specs.Trace.{ComesTo, took_by};

// A state of the trellis, by its number.
#[derive(Clone, Copy)]
pub struct State {
    number: usize,
    ghost small: { number < state_count },
}

impl State {
    // The state at rest, in which a message begins and ends.
    fn rest() -> State
        ensures { result.number ≡ 0 }
    {
        State { number: 0 }
    }

    // The state before this one, by the word of the step between them.
    fn previous(self, word: u64) -> State
        ensures { result.number ≡ before self.number (bit_at word self.number) }
    {
        let oldest = (word >> self.number) % 2;
        State {
            number: self.number / 2 + 32 * oldest as usize,
        }
    }
}

// Goes back from state zero after `end` steps to the state after `start` steps.
pub fn settle(words: &[u64], start: usize, end: usize) -> State
    requires { (start ≤ end) × (end ≤ length words.now) }
    ensures { ComesTo words.now end 0 start result.number }
{
    let mut state = State::rest();
    for word in words[start..end].iter().rev() {
        state = state.previous(*word);
    }
    state
}

// Octet i of the message that is traced back from the state after its last bit; and the state before its first.
pub fn octet(words: &[u64], i: usize, state: State) -> (u8, State)
    requires { 8 * i + 8 ≤ length words.now }
    ensures answer { result.0 ≡ octet_of (traced (took_by words.now) (8 * i + 8) state.number) i }
    ensures state { ComesTo words.now (8 * i + 8) state.number (8 * i) result.1.number }
{
    let mut value: u8 = 0;
    let mut at = state;
    // The words of one octet, by its number: whoever traces writes the octets by number too.
    for word in words[8 * i..8 * i + 8].iter().rev() {
        value = value * 2 + (at.number % 2) as u8;
        at = at.previous(*word);
    }
    (value, at)
}
