// A cursor over a PSDU, with the state of the coding before its next block.
use crate::coding::Register;
use std::marker::Model;

mod bits;
mod calls;

#[derive(Drop)]
pub struct Cursor<'a> {
    psdu: &'a [u8],
    differential: bool,
    // the header's last encoded bit, after which the PSDU's bits are coded
    start: bool,
    // the blocks written so far
    block: u32,
    // the six message bits before the next block, the newest first
    register: Register,
    // the bit sent last, before the next block
    last: bool,
}

// Callers see what is sent, after which bit, and how many blocks of it are written. The stored bits and the bit sent last follow from that.
impl<'a> Model for Cursor<'a> {
    ghost use Rattle.sender.specs.Sending.{State};

    ghost Value = { State };

    ghost use Rattle.sender.specs.View.{state_of, Follows};

    ghost view = { state_of };

    ghost invariant = { Follows };
}
