// The sizes of a message and of its blocks, and its bits.
ghost use Rattle.std.specs.Prelude.{◌≡◌};
ghost use Rattle.codebits.specs.Message.{is_length, blocks, message_bit};

// The fewest and the most octets of a PSDU.
pub const LEAST_OCTETS: usize = 4;

pub const MOST_OCTETS: usize = 2047;

// The zeros that end a message and bring the coder back to rest.
pub const TAIL_BITS: usize = 6;

// The message bits of a block, and its code bits, two for each.
pub const BLOCK_BITS: usize = 88;

pub const BLOCK_CODE_BITS: usize = 2 * BLOCK_BITS;

// Whether a PSDU can have so many octets.
pub fn is_length(octets: usize) -> bool
    ensures answer { result ≡ is_length octets }
{
    (LEAST_OCTETS..=MOST_OCTETS).contains(&octets)
}

// The blocks of a PSDU of so many octets: its bits and the tail in whole blocks.
pub fn block_count(octets: u16) -> u32
    ensures answer { result ≡ blocks octets }
{
    (8 * u32::from(octets) + TAIL_BITS as u32).div_ceil(BLOCK_BITS as u32)
}

// Message bit `k` of a PSDU, each octet from its least bit on, and zero past its octets.
pub fn message_bit(psdu: &[u8], k: usize) -> bool
    ensures answer { result ≡ message_bit psdu.now k }
{
    match psdu.get(k / 8) {
        Some(octet) => (octet >> (k % 8)) % 2 == 1,
        None => false,
    }
}
