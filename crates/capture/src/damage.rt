// Chips flipped on the way.
use crate::words::number_of;
use anyhow::anyhow;

// Flips one chip: 0 to 1, or 1 to 0.
fn flip(chips: &mut [u8], place: usize) -> anyhow::Result<()> {
    let Some(chip) = chips.get_mut(place) else {
        return Err(anyhow!("a place to flip is past the last chip of the PSDU"));
    };
    *chip ^= 1;
    Ok(())
}

// Flips the chips at these places, counted from 0 at the PSDU's first chip.
pub fn flip_places(chips: &mut [u8], places: &[String]) -> anyhow::Result<()> {
    for place in places {
        flip(chips, number_of(place.as_str())? as usize)?;
    }
    Ok(())
}

// Flips so many of a thousand chips, by numbers that follow from the starting one.
pub fn flip_by_rate(chips: &mut [u8], thousandths: u64, start: u64) {
    let mut number = start;
    for chip in chips.iter_mut() {
        number = number
            .wrapping_mul(6364136223846793005)
            .wrapping_add(1442695040888963407);
        if (number >> 33) % 1000 < thousandths {
            *chip ^= 1;
        }
    }
}
