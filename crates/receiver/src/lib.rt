// The receiving end: a receiver whose states are types, over memory that its caller lends.
#![tactic(auto)]

mod promise;
mod states;

pub use promise::{accepted_closes_are_nearest, the_book_tells_every_refusal};
pub use states::{COSTS, Listening, OpenFrame, Ticket};
