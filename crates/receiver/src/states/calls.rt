// The calls of a receiver: begin, block, close and abandon.
ghost use Rattle.std.specs.Prelude.{◌≡◌, ◌+◌, ◌≤◌, Ok};
ghost use Rattle.codebits.specs.Message.{blocks};
ghost use Rattle.receiver.specs.Judging.{memory_judged, room_judged, close_judged};
ghost use Rattle.receiver.specs.Receiver.{begun, octets, block_step, close_step};
ghost use Rattle.receiver.specs.Promise.{NearestOfEveryList};

use super::{COSTS, Listening, OpenFrame, Ticket};
use codebits::{BLOCK_BITS, BLOCK_CODE_BITS, block_count};
use costs::{CostKind, Observation};
use faults::{Fault, FaultKind, Layer};
use header::Header;
use linecode::lines::LineCode;
use reading::read_block;
use trellis::{run_block, trace};

// Refusal 1: too few costs, or too few words for the message.
// Costs and words stay two slices, and here two numbers: a block writes both and a close only reads them, which would take two structs, and a refusal tells which of them is short.
fn judge_memory(octets: u16, costs: usize, words: usize) -> Result<(), Fault>
    ensures { result ≡ memory_judged octets costs words (Ok tt) }
{
    if costs < COSTS {
        return Err(Layer::Frame.refusal(FaultKind::ShortMemory, costs));
    }
    if words < BLOCK_BITS * block_count(octets) as usize {
        return Err(Layer::Frame.refusal(FaultKind::ShortMemory, words));
    }
    Ok(())
}

impl Listening {
    // A receiver that is switched on.
    pub fn new() -> Listening {
        Listening { unit: () }
    }

    // Ends a receiver that has no frame open.
    pub fn switch_off(self) {
        let Listening { unit: _ } = self;
    }

    // Opens a frame for this header.
    pub fn begin(self, header: Header) -> (OpenFrame, Ticket)
        ensures state { result.0 ≡ begun header }
        ensures room { result.0.accepted ≤ blocks (octets result.0.header) }
    {
        let Listening { unit } = self;
        let frame = OpenFrame {
            header,
            accepted: 0,
            last: Observation::Sure(header.last_bit()),
        };
        (frame, Ticket { unit })
    }
}

impl OpenFrame {
    // Refusals 1 and 2: too few costs or words, or a frame that has all its blocks.
    fn judge_room(&self, costs: usize, words: usize) -> Result<(), Fault>
        ensures { result ≡ room_judged (octets self.now.header) self.now.accepted costs words (Ok tt) }
    {
        let octets = self.header.length();
        judge_memory(octets, costs, words)?;
        let blocks = block_count(octets);
        if self.accepted >= blocks {
            return Err(Layer::Frame.refusal(FaultKind::FullFrame, blocks as usize));
        }
        Ok(())
    }

    // Refusals 1, 3 and 5: too few costs or words, a block that is lacking, or a short buffer.
    fn judge_close(&self, costs: usize, words: usize, room: usize) -> Result<(), Fault>
        ensures { result ≡ close_judged (octets self.now.header) self.now.accepted costs words room }
    {
        let octets = self.header.length();
        judge_memory(octets, costs, words)?;
        if self.accepted < block_count(octets) {
            return Err(Layer::Frame.refusal(FaultKind::EarlyClose, self.accepted as usize));
        }
        if room < octets as usize {
            return Err(Layer::Frame.refusal(FaultKind::ShortBuffer, room));
        }
        Ok(())
    }

    // Charges the costs with one block's chips, or refuses and writes nothing.
    pub fn block<L: LineCode, K: CostKind>(
        &mut self,
        line: &L,
        costs: &mut [K],
        words: &mut [u64],
        chips: &[u8],
    ) -> Result<(), Fault>
        ensures answer { result ≡ (block_step K.CostKind.kind (L.LineCode.code line.now) self.old costs.old words.old chips.now).answer }
        ensures state { self.new ≡ (block_step K.CostKind.kind (L.LineCode.code line.now) self.old costs.old words.old chips.now).frame }
        ensures costs { costs.new ≡ (block_step K.CostKind.kind (L.LineCode.code line.now) self.old costs.old words.old chips.now).costs }
        ensures words { words.new ≡ (block_step K.CostKind.kind (L.LineCode.code line.now) self.old costs.old words.old chips.now).words }
        ensures room { self.new.accepted ≤ blocks (octets self.new.header) }
    {
        self.judge_room(costs.len(), words.len())?;
        let differential = self.header.differential();
        let mut observed = [Observation::Sure(false); BLOCK_CODE_BITS];
        let last = read_block(
            line,
            differential,
            self.accepted,
            self.last,
            chips,
            &mut observed,
        )?;
        let octets = self.header.length() as usize;
        run_block(&observed, self.accepted as usize, octets, costs, words);
        self.last = last;
        self.accepted += 1;
        Ok(())
    }

    // Writes the PSDU that the words trace to the start of the buffer and tells its cost, or refuses and writes nothing.
    // Either way the receiver listens again.
    pub fn close<K: CostKind>(
        self,
        ticket: Ticket,
        costs: &[K],
        words: &[u64],
        psdu: &mut [u8],
    ) -> (Listening, Result<K, Fault>)
        ensures answer { result.1 ≡ (close_step K.CostKind.kind self costs.now words.now psdu.old).answer }
        ensures memory { psdu.new ≡ (close_step K.CostKind.kind self costs.now words.now psdu.old).psdu }
        ensures promise { (told : K) → result.1 ≡ Ok told → NearestOfEveryList K.CostKind.kind told psdu.old psdu.new (λ _. record { receiver = self; costs = costs.now; words = words.now }) }
    {
        let judged = self.judge_close(costs.len(), words.len(), psdu.len());
        let octets = self.header.length() as usize;
        let listening = self.abandon(ticket);
        match judged {
            Err(fault) => (listening, Err(fault)),
            Ok(()) => {
                trace(words, octets, psdu);
                (listening, Ok(costs[0]))
            }
        }
    }

    // How many blocks the frame still lacks.
    pub fn blocks_left(&self) -> u32
        ensures answer { self.now.accepted + result ≡ blocks (octets self.now.header) }
    {
        block_count(self.header.length()) - self.accepted
    }

    // Ends the frame without a PSDU.
    pub fn abandon(self, ticket: Ticket) -> Listening {
        let Ticket { unit } = ticket;
        let OpenFrame {
            header: _,
            accepted: _,
            last: _,
        } = self;
        Listening { unit }
    }
}
