// The message and the code bits of a PSDU: their sizes, definitions over the whole frame, and the laws that tie them together.
#![tactic(auto)]

ghost use Rattle.codebits.specs.Differential.{DecodingUndoesCoding};
ghost use Rattle.codebits.specs.Interleaving.{Permutation};
ghost use Rattle.codebits.specs.Message.{MessageListed, MessageDetermines};

mod message;

pub use message::{
    BLOCK_BITS, BLOCK_CODE_BITS, LEAST_OCTETS, MOST_OCTETS, TAIL_BITS, block_count, is_length,
    message_bit,
};

// Differential decoding gives back what was coded.
pub fn decoding_undoes_coding()
    ensures { DecodingUndoesCoding }
{}

// Interleaving is a permutation of a block's places.
pub fn interleaving_is_a_permutation()
    ensures { Permutation }
{}

// The message is the octets' bits, six zeros and pads up to N_D bits.
pub fn message_is_listed()
    ensures { MessageListed }
{}

// Two PSDUs of one length with the same message are equal.
pub fn message_determines_psdu()
    ensures { MessageDetermines }
{}
