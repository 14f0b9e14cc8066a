// The lines that are printed of a capture.
ghost use Rattle.std.specs.Prelude.{◌≡◌, ◌<◌, [], ◌∷◌, ◌++◌, IfOk, OnOk, Some, string_bytes};
ghost use Rattle.captures.specs.Lines.{hex_digit, hex_of, cost_text, frame_lines, refused_line};

use crate::cost::Cost;
use faults::Fault;
use std::alloc::{AllocError, Global};
use std::fmt;

// As the second line has it: one number, or two.
impl fmt::Display for Cost {
    ghost output = { λ c. Some (cost_text c) };

    fn fmt<W: fmt::Write>(&self, f: &mut fmt::Formatter<W>) -> fmt::Result {
        match self {
            Cost::Count(n) => write!(f, "{n}"),
            Cost::Graded(sure, doubtful) => write!(f, "{sure} {doubtful}"),
        }
    }
}

fn hex_digit(n: u8) -> char
    requires { n < 16 }
    ensures value { result ≡ hex_digit n }
    ensures bound { result < 128 }
{
    char::from_digit(u32::from(n), 16).unwrap()
}

// An octet's two digits, at the end of `text`.
fn push_octet(text: &mut String, octet: u8) -> Result<(), AllocError>
    ensures { OnOk result (string_bytes text.new ≡ string_bytes text.old ++ hex_of (octet ∷ [])) }
{
    text.push(hex_digit(octet / 16))?;
    text.push(hex_digit(octet % 16))?;
    Ok(())
}

// Two lower-case digits for each octet, at the end of the text itself: the heap holds no other. `{:02x}` takes four times as long.
fn push_hex(text: &mut String, octets: &[u8]) -> Result<(), AllocError>
    ensures { OnOk result (string_bytes text.new ≡ string_bytes text.old ++ hex_of octets.now) }
{
    for octet in octets {
        push_octet(text, *octet)?;
    }
    Ok(())
}

// The line of a refused capture.
pub fn refused_line(heap: Global, fault: Fault) -> Result<String, AllocError>
    ensures answer { IfOk result (λ s. string_bytes s ≡ refused_line fault) }
{
    let number = fault.kind.number();
    let place = fault.place;
    format!(in heap; "refused {number} {place}\n")
}

// The three lines of an accepted capture. The mode and the length are numbers, as they are printed: a call with types for them would take fewer.
pub fn frame_lines(
    heap: Global,
    mode: u8,
    psdu_length: u16,
    cost: Cost,
    psdu: &[u8],
) -> Result<String, AllocError>
    ensures answer { IfOk result (λ s. string_bytes s ≡ frame_lines mode psdu_length cost psdu.now) }
{
    let mut text = format!(in heap; "frame {mode} {psdu_length}\ncost {cost}\n")?;
    push_hex(&mut text, psdu)?;
    text.push_str("\n")?;
    Ok(text)
}
