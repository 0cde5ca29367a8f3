//! A manager that runs a plan on a controller's records over two buses, and takes it back.
#![tactic(auto)]

mod calls;
mod entering;
mod getting;
mod hearing;
mod joining;
mod journal;
mod keeping;
pub mod laws;
mod manager;
mod opening;
mod phase;
mod restarting;
mod reviving;
mod room;
mod sending;
mod showing;
mod stage;

pub use manager::{Manager, OpenFault, ResumeFault};
pub use model_undo::{Phase, Why};
pub use phase::WrongPhase;
pub use sending::Sent;
