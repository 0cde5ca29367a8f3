//! The records of effecters, which PLDM sets and gets.
#![tactic(auto)]

pub mod field_changes;
pub mod numeric;
pub mod request;
pub mod state;

pub use numeric::NumericLimits;
pub use state::StateLimits;
