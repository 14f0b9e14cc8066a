// What is known of the numbers of bands and rate modes.
ghost use Rattle.bands.specs.Numbers.{NumbersReadBack};

// The number of a band is read back as that band, and so is that of a rate mode.
pub fn numbers_read_back()
    ensures { NumbersReadBack }
{}
