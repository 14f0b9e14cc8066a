// The states of a receiver, as types. No state can be copied or let go.
use costs::Observation;
use header::Header;
use std::marker::Model;
use trellis::STATES;

mod calls;

// The costs that a device lends: two banks of one for each of the 64 states.
pub const COSTS: usize = 2 * STATES;

// A receiver between frames.
pub struct Listening {
    unit: (),
}

// A receiver within a frame.
pub struct OpenFrame {
    header: Header,
    // how many blocks were accepted
    accepted: u32,
    // what is observed of the last encoded bit before the next block
    last: Observation,
}

// It never has more blocks than its header tells of.
impl Model for OpenFrame {
    ghost use Rattle.receiver.specs.Open.{Open};

    ghost Value = { Open };

    ghost use Rattle.receiver.specs.Inside.{open_of, HasRoom};

    ghost view = { open_of };

    ghost invariant = { HasRoom };
}

// What an open frame owes: a close or an abandon takes it back.
pub struct Ticket {
    unit: (),
}
