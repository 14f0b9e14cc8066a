// The code bits of a block, from the message bits and the six before them.
ghost use Rattle.std.specs.Prelude.{◌≡◌, ◌+◌, ◌*◌, ◌<◌, false, [], ◌∷◌, replicate, get_or, slice_index_or};
ghost use Rattle.codebits.specs.Bits.{◌⊕◌};
ghost use Rattle.codebits.specs.Message.{message_bit};
ghost use Rattle.codebits.specs.Interleaving.{origin_in};
ghost use Rattle.sender.specs.Stored.{last_six, IsCoded};

use codebits::{BLOCK_BITS, TAIL_BITS, message_bit};

// The coder's register: the six message bits before the next one, the newest first.
#[derive(Clone, Copy)]
pub struct Register {
    bits: [bool; TAIL_BITS],
}

impl Register {
    // The coder at rest, as before the first message bit. No `Default`, which would not name the coder's rest.
    pub fn new() -> Register
        ensures { result.bits ≡ replicate 6 false }
    {
        Register {
            bits: [false; TAIL_BITS],
        }
    }

    pub fn bits(&self) -> [bool; TAIL_BITS]
        ensures { result ≡ self.now.bits }
    {
        self.bits
    }

    // The two code bits of message bit `m`.
    fn code_pair(&self, m: bool) -> [bool; 2]
        ensures { result ≡ (m ⊕ get_or self.now.bits 1 false ⊕ get_or self.now.bits 2 false ⊕ get_or self.now.bits 4 false ⊕ get_or self.now.bits 5 false) ∷ (m ⊕ get_or self.now.bits 0 false ⊕ get_or self.now.bits 1 false ⊕ get_or self.now.bits 2 false ⊕ get_or self.now.bits 5 false) ∷ [] }
    {
        let [b1, b2, b3, _, b5, b6] = self.bits;
        [m ^ b2 ^ b3 ^ b5 ^ b6, m ^ b1 ^ b2 ^ b3 ^ b6]
    }

    // Takes message bit `m` in, and lets the oldest bit go.
    fn push(&mut self, m: bool)
        ensures { self.new.bits ≡ m ∷ slice_index_or self.old.bits 0 false ∷ slice_index_or self.old.bits 1 false ∷ slice_index_or self.old.bits 2 false ∷ slice_index_or self.old.bits 3 false ∷ slice_index_or self.old.bits 4 false ∷ [] }
    {
        let [b1, b2, b3, b4, b5, _] = self.bits;
        self.bits = [m, b1, b2, b3, b4, b5];
    }
}

// Writes the code bits of a block of a PSDU, two for each message bit, and answers the register after it.
pub fn encode_block(
    psdu: &[u8],
    block: usize,
    before: Register,
    coded: &mut [[bool; 2]; BLOCK_BITS],
) -> Register
    requires few { block < 187 }
    requires six { before.bits ≡ last_six (message_bit psdu.now) (88 * block) }
    ensures six { result.bits ≡ last_six (message_bit psdu.now) (88 * (block + 1)) }
    ensures coded { IsCoded psdu.now block coded.new }
{
    let mut register = before;
    for (k, pair) in coded.iter_mut().enumerate() {
        let m = message_bit(psdu, BLOCK_BITS * block + k);
        *pair = register.code_pair(m);
        register.push(m);
    }
    register
}

// The place of a block that interleaving moves to place `p`.
pub fn origin_of(p: usize) -> usize
    requires { p < 176 }
    ensures value { result ≡ origin_in p }
    ensures within { result < 176 }
{
    175 - (11 * (p % 16) + p / 16)
}
