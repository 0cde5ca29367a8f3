//! What `bmcnet pair` does: a board is served in threads, a plan is run on it over UDP beside them and taken back, and what came of it is told.
#![tactic(auto)]

mod inputs;
mod links;
pub mod pairing;
mod side;

pub use inputs::{InputFault, Inputs, read_inputs};
pub use pairing::{PairOptions, PairWords, changed_of, pair};
