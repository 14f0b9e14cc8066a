// The words of a table: how far chips are from one, which is nearest, and one written out.
ghost use Rattle.std.specs.Prelude.{◌≡◌, ◌^◌, ◌<◌, [], length, slice_index_or};
ghost use Rattle.linecode.specs.Chips.{chip_of, word_of};
ghost use Rattle.linecode.specs.Codes.{distance, value_of};
ghost use Rattle.tables.specs.Codes.{words, group_bits, word_chips, code_of};

use crate::code::TableCode;
use linecode::lines::LineCode;

// The chip that a digit of a word stands for.
fn chip(digit: u8) -> u8
    ensures { result ≡ chip_of digit }
{
    digit % 2
}

// Writes the chips that the digits of a word stand for, in one pass: with a copy and a pass over it, sending takes up to 1.4 times as long.
fn write_chips(word: &[u8], chips: &mut [u8])
    requires { length word.now ≡ length chips.old }
    ensures { chips.new ≡ word_of word.now }
{
    for (i, c) in chips.iter_mut().enumerate() {
        *c = chip(word[i]);
    }
}

// In how many places the chips differ from the word.
fn chip_distance(word: &[u8], chips: &[u8]) -> usize
    requires { length word.now ≡ length chips.now }
    ensures { result ≡ distance (word_of word.now) chips.now }
{
    let mut differing = 0;
    // `filter` and `count` in place of this loop take eight times as long, and here a receiver spends most of its time.
    for (digit, c) in word.iter().zip(chips) {
        if chip(*digit) != *c {
            differing += 1;
        }
    }
    differing
}

impl TableCode {
    // The word of a value, in `n` digits: cut out by its number, where the search goes over all of them.
    fn word(self, value: usize, n: usize) -> &'static [u8]
        requires known { value < 2 ^ group_bits self }
        requires long { n ≡ word_chips self }
        ensures chips { word_of result.now ≡ slice_index_or (words self) value [] }
        ensures sized { length result.now ≡ word_chips self }
    {
        let start = value * n;
        &self.digits()[start..start + n]
    }

    // The first value whose word is nearest to the chips, and whether another is as near.
    pub(crate) fn nearest_value(self, chips: &[u8]) -> (u32, bool)
        requires { length chips.now ≡ word_chips self }
        ensures { result ≡ value_of (code_of self) 0 chips.now }
    {
        // By hand, as no method of the library tells of a tie.
        let mut value = 0;
        let mut least = usize::MAX;
        let mut tied = false;
        for (v, word) in self.digits().chunks_exact(chips.len()).enumerate() {
            let found = chip_distance(word, chips);
            if found < least {
                value = v;
                least = found;
                tied = false;
            } else if found == least {
                tied = true;
            }
        }
        (value as u32, tied)
    }

    // Writes the chips of the word of a value.
    pub(crate) fn write_word(self, value: usize, chips: &mut [u8])
        requires known { value < 2 ^ group_bits self }
        requires room { length chips.old ≡ word_chips self }
        ensures { chips.new ≡ slice_index_or (words self) value [] }
    {
        write_chips(self.word(value, chips.len()), chips);
    }
}
