// Chips and answers as text.
use std::alloc::{AllocError, Global};

// Chips in groups of four.
pub fn chips_text(heap: Global, chips: &[u8]) -> Result<String, AllocError> {
    let mut text = String::new(heap);
    for four in chips.chunks(4) {
        if !text.is_empty() {
            text.push(' ')?;
        }
        for chip in four {
            text.push(if *chip == 0 { '0' } else { '1' })?;
        }
    }
    Ok(text)
}

// Octets in hexadecimal.
pub fn hex_text(heap: Global, octets: &[u8]) -> Result<String, AllocError> {
    let mut text = String::new(heap);
    for octet in octets {
        write!(text, "{octet:02x}")?;
    }
    Ok(text)
}

// What became of a group. Whether it came as sent is seen by this program, and the tie told by the line code: four cases, each with its words.
pub fn verdict(as_sent: bool, tied: bool) -> &'static str {
    match (as_sent, tied) {
        (true, false) => "as sent, and sure",
        (true, true) => "as sent, but doubtful",
        (false, true) => "doubtful, and another value",
        (false, false) => "another value",
    }
}
