// What a list of calls on a cursor sends.
ghost use Rattle.sender.specs.Runs.{RunsSend};

// Over any list of calls, accepted or refused, the blocks come in order, each once, and their chips together are the frame's.
pub fn blocks_come_in_order()
    ensures { RunsSend }
{}
