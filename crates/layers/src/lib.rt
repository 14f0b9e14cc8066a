// Layers over line codes, which are line codes again: alternation and whitening.
#![tactic(auto)]

mod alternating;
pub mod laws;
mod whitened;
mod whitening;

pub use alternating::Alternating;
pub use whitened::Whitened;
