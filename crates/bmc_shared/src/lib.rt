//! A board with the history of what was asked and answered, which threads share under one lock, the seats of those who may call it, and a worker of
//! one port, which serves it over a link, past a gate.
#![tactic(auto)]

mod caller;
mod entry;
pub mod event;
pub mod events;
pub mod gate;
pub mod held;
pub mod history;
pub mod laws;
pub mod opening;
pub mod seat;
pub mod shared;
pub mod worker;

pub use event::{Call, Event};
pub use events::{Calls, Events};
pub use gate::Gate;
pub use held::{Held, MOST_EVENTS, OpenFault, PeriodFull};
pub use history::History;
pub use opening::Opening;
pub use seat::{Seat, Seats};
pub use shared::{CloseFault, Locked, Shared};
pub use worker::{End, TurnResult, WorkerState, serve_port, turn};
