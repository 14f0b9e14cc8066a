// One group on its way from a sender to a receiver.
use faults::Fault;
use linecode::lines::LineCode;

#[derive(Clone, Copy)]
pub struct Passage {
    pub sent: [u8; 8],
    pub received: [u8; 8],
    pub flipped: usize,
    pub answer: (u32, bool),
}

// How many chips the way flips in a group: none, one, one, or two.
const FLIPS: [usize; 4] = [0, 1, 1, 2];

// Spreads a value, flips some of its chips and despreads what is left.
pub fn pass<L: LineCode>(line: &L, position: u32, value: u32) -> Result<Passage, Fault> {
    let mut sent = [0; 8];
    line.spread(position, value, &mut sent)?;
    let flipped = FLIPS[position as usize % 4];
    let mut received = sent;
    // The places are scattered: from the group's position on, every third one.
    for i in 0..flipped {
        received[(position as usize + 3 * i) % 8] ^= 1;
    }
    let answer = line.despread(position, &received)?;
    Ok(Passage {
        sent,
        received,
        flipped,
        answer,
    })
}
