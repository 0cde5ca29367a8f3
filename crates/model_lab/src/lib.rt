//! The lab: a board with its two ports, a manager and the links between them. What each does with a frame, how requests are bytes, what
//! a run is, what is wrong with an event, what the links are trusted with, and what the play of a schedule gives. The records and the commands of a
//! board are a family of kinds of record, so what holds of a plan and its undo holds of them. Each law is the contract of a function without a body.
//! The code is what faults, names and ways are.
#![tactic(auto)]

pub mod examples;
pub mod family_examples;
pub mod family_laws;
mod fault;
pub mod laws;
mod names;
mod way;

pub use fault::Fault;
pub use names::lab_names;
pub use way::Way;
