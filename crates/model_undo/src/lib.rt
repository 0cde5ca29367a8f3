//! A plan that changes a controller's records, and its undo: where they stand, over both buses, whatever frames are lost,
//! repeated or delayed.
#![tactic(auto)]

mod call;
pub mod examples;
pub mod laws;
mod phase;
pub mod series_laws;

pub use call::Call;
pub use phase::{Phase, Why};
