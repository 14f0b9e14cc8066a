// The words that a capture is made from.
use crate::making::Order;
use anyhow::anyhow;
use bands::{Band, RateMode};
use captures::CostChoice;
use std::alloc::Global;
use std::str::FromStr;

// The band or the mode whose number is written, or a word on what is wanted.
fn numbered<N: FromStr, T: TryFrom<N>>(text: &str, wanted: &'static str) -> anyhow::Result<T>
where
    N::Err: Drop,
    T::Error: Drop,
{
    let Ok(number) = text.parse::<N>() else {
        return Err(anyhow!(wanted));
    };
    match T::try_from(number) {
        Ok(named) => Ok(named),
        Err(_) => Err(anyhow!(wanted)),
    }
}

// A word of the command line, and no octet of a capture, so that it is matched here and not by the captures' letters.
fn cost_named(text: &str) -> anyhow::Result<CostChoice> {
    match text {
        "p" => Ok(CostChoice::Count),
        "g" => Ok(CostChoice::Graded),
        _ => Err(anyhow!("the cost is p or g")),
    }
}

// What is to be sent, beside the PSDU.
pub fn order_of(band: &str, mode: &str, cost: &str) -> anyhow::Result<Order> {
    let band = numbered::<u16, Band>(band, "the band is 780, 868, 915 or 2450")?;
    let mode = numbered::<u8, RateMode>(mode, "the mode is 0, 1, 2 or 3")?;
    let cost = cost_named(cost)?;
    Ok(Order { band, mode, cost })
}

// A place, a rate or a starting number.
pub fn number_of(text: &str) -> anyhow::Result<u64> {
    text.parse().map_err(|_| anyhow!("places, rate and starting number are decimal numbers"))
}

fn digit_of(code: u8) -> anyhow::Result<u8> {
    match char::from(code).to_digit(16) {
        Some(digit) => Ok(digit as u8),
        None => Err(anyhow!("the PSDU is written in hexadecimal digits")),
    }
}

// The octets that pairs of hexadecimal digits write. By hand, as the library's reader tells of a missing digit before a wrong one.
pub fn octets_of(heap: Global, text: &str) -> anyhow::Result<Vec<u8>> {
    let mut octets = Vec::new(heap);
    for digits in text.as_bytes().chunks(2) {
        let [high, low] = digits else {
            return Err(anyhow!("the PSDU needs two digits for each octet"));
        };
        octets.push(digit_of(*high)? << 4 | digit_of(*low)?)?;
    }
    Ok(octets)
}
