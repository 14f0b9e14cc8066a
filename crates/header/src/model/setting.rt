// What band and mode of a header fix.
ghost use Rattle.std.specs.Prelude.{◌≡◌, Some};
ghost use Rattle.bands.specs.Lines.{line_code};
ghost use Rattle.bands.specs.Modes.{psdu_line, psdu_differential};
ghost use Rattle.header.specs.View.{view};

use super::Header;
use bands::{BandLine, is_differential, psdu_line};

impl Header {
    // The line code of the band's mode, which every header has.
    pub fn line(&self) -> BandLine
        ensures answer { Some (line_code result) ≡ psdu_line (view self.now).band (view self.now).mode }
    {
        psdu_line(self.band, self.mode).unwrap()
    }

    // Whether the PSDU's bits are coded differentially.
    pub fn differential(&self) -> bool
        ensures answer { result ≡ psdu_differential (view self.now).band (view self.now).mode }
    {
        is_differential(self.band, self.mode)
    }
}
