// A whole frame at once: the chips that are sent for a PSDU, what is read from chips, and the laws that tie the two together.
#![tactic(auto)]

ghost use Rattle.frames.specs.Sent.{SentCut};
ghost use Rattle.frames.specs.Heard.{UnwreckedHeard, SentHeard};
ghost use Rattle.frames.specs.Joined.{BlocksJoin};

// The chips of a PSDU are its groups' words one after the other, and its blocks one after the other.
pub fn sent_chips_are_cut()
    ensures { SentCut }
{}

// A group with few damaged chips is read as it was sent, for sure.
pub fn unwrecked_group_is_heard()
    ensures { UnwreckedHeard }
{}

// The chips of a PSDU are read as its code bits, none of them doubtful.
pub fn sent_chips_are_heard()
    ensures { SentHeard }
{}

// What is read from a frame's chips is read from its blocks in turn.
pub fn blocks_join()
    ensures { BlocksJoin }
{}
