// Whitening: chips added modulo 2 to a sequence of period 511.
ghost use Rattle.std.specs.Prelude.{◌≡◌, ◌*◌, ◌<◌, ◌≤◌, T, length};
ghost use Rattle.linecode.specs.Chips.{word_of};
ghost use Rattle.layers.specs.Whitening.{sequence, starts, whiten};

// One period of the sequence, in digits.
static PERIOD: [u8; 511] = *b"0000100011000010011100101010110000110111101001101110010001010000\
    1010110100111111011001001001011011111100100110101001100110000000\
    1100011001010001101001011111110100010110001110101100101100111100\
    0111110111010000011010110110111011000001011010111110101010100000\
    0101001010111100101110111000000111001110100100111101011101010001\
    0010000110011100001011110110110011010000111011110000111111111000\
    0011110111110001011100110010000010010100111011010001111001111100\
    110110001010100100011100011011010101110001001100010001000000001";

fn period() -> &'static [u8; 511]
    ensures { T (starts (word_of result.now)) }
{
    &PERIOD
}

fn sequence_chip(index: usize) -> u8
    requires { index < 511 }
    ensures { result ≡ sequence index }
{
    period()[index] % 2
}

// Whitens the chips of a group in place, by the elements of the sequence that its position has.
pub fn whiten_group(position: u32, chips: &mut [u8])
    requires { length chips.old ≤ 128 }
    ensures { chips.new ≡ whiten (position * length chips.old) chips.old }
{
    let start = u64::from(position) * chips.len() as u64;
    for (i, chip) in chips.iter_mut().enumerate() {
        *chip ^= sequence_chip(((start + i as u64) % 511) as usize);
    }
}
