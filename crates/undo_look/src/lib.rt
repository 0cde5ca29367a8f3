//! A look at a controller's records and at parts of its own tables, one after another: the requests of each record's Get, and those for the
//! parts, sent until they are answered, and nothing else.
#![tactic(auto)]

mod calls;
mod data;
mod hearing;
pub mod laws;
mod looker;
mod replies;
mod requests;
mod showing;
mod stage;
mod target;

pub use looker::{Looker, Seen, WrongPhase};
pub use stage::Stage;
pub use target::{TablePart, Target};
