// What the layers leave as it is.
ghost use Rattle.layers.specs.Layers.{LayersKeepDistance};

// Whitening leaves the least distance as it is at every position, and alternation has that of the code in use.
pub fn layers_keep_least_distance()
    ensures { LayersKeepDistance }
{}
