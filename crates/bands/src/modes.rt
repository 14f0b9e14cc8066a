// The line code of each band and mode.
ghost use Rattle.std.specs.Prelude.{◌≡◌, Some};
ghost use Rattle.bands.specs.declared.band.Band.TheVariants.{Mhz780, Mhz868, Mhz2450};
ghost use Rattle.bands.specs.Lines.{line_code};
ghost use Rattle.bands.specs.Modes.{psdu_line, psdu_differential, header_code, held};

use crate::band::{Band, RateMode};
use crate::line::BandLine;
use layers::{Alternating, Whitened};
use linecode::straight::Straight;
use tables::TableCode;

// The line code of a PSDU, or nothing where the band lacks the mode.
// Calls take a band and a mode one by one, as whoever tunes a radio has them: a pair may be one that no band has, which is what this call tells.
pub fn psdu_line(band: Band, mode: RateMode) -> Option<BandLine>
    ensures { held result ≡ psdu_line band mode }
{
    match band {
        Band::Mhz780 | Band::Mhz915 => Some(line_at_1000(mode)),
        Band::Mhz868 => line_at_125(mode),
        Band::Mhz2450 => Some(line_at_2000(mode)),
    }
}

// The bands of 1000 kchip/s.
fn line_at_1000(mode: RateMode) -> BandLine
    ensures { Some (line_code result) ≡ psdu_line Mhz780 mode }
{
    match mode {
        RateMode::Mode0 => BandLine::AlternatingTables(Alternating {
            even: TableCode::Dsss16x1k0,
            odd: TableCode::Dsss16x1k1,
        }),
        RateMode::Mode1 => BandLine::Table(TableCode::Dsss16x4),
        RateMode::Mode2 => BandLine::WhitenedTable(Whitened {
            line: TableCode::Dsss8x4,
        }),
        RateMode::Mode3 => BandLine::WhitenedStraight(Whitened { line: Straight }),
    }
}

// The band of 125 kchip/s, which has two modes.
fn line_at_125(mode: RateMode) -> Option<BandLine>
    ensures { held result ≡ psdu_line Mhz868 mode }
{
    match mode {
        RateMode::Mode0 => Some(BandLine::WhitenedTable(Whitened {
            line: TableCode::Dsss4x1,
        })),
        RateMode::Mode1 => Some(BandLine::WhitenedStraight(Whitened { line: Straight })),
        RateMode::Mode2 | RateMode::Mode3 => None,
    }
}

// The band of 2000 kchip/s.
fn line_at_2000(mode: RateMode) -> BandLine
    ensures { Some (line_code result) ≡ psdu_line Mhz2450 mode }
{
    match mode {
        RateMode::Mode0 => BandLine::AlternatingTables(Alternating {
            even: TableCode::Dsss32x1k0,
            odd: TableCode::Dsss32x1k1,
        }),
        RateMode::Mode1 => BandLine::Table(TableCode::Dsss32x4),
        RateMode::Mode2 => BandLine::Table(TableCode::Dsss16x4),
        RateMode::Mode3 => BandLine::WhitenedTable(Whitened {
            line: TableCode::Dsss8x4,
        }),
    }
}

// Whether a PSDU is coded differentially: in mode 0 only.
pub fn is_differential(band: Band, mode: RateMode) -> bool
    ensures { result ≡ psdu_differential band mode }
{
    // The rule is the same in every band.
    let _ = band;
    mode == RateMode::Mode0
}

// The line code of a header.
pub fn header_line(band: Band) -> BandLine
    ensures { line_code result ≡ header_code band }
{
    BandLine::Table(match band {
        Band::Mhz780 | Band::Mhz915 => TableCode::Dsss64x1,
        Band::Mhz868 => TableCode::Dsss16x1k0,
        Band::Mhz2450 => TableCode::Dsss128x1,
    })
}
