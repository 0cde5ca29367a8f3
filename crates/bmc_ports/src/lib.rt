//! Workers that serve a board's ports in threads of their own, under one lock. It passes on names of `bmc_shared` and `wire_links`.
#![tactic(auto)]

pub mod agenda;
mod at_once;
mod driver;
mod event_room;
mod greeter;
pub mod happening;
pub mod lane;
mod laws;
mod observer;
pub mod run;
pub mod runner;
pub mod scanner;
pub mod scanner_play;
mod sender;
pub mod silence;
pub mod slices;
pub mod stop_signal;
pub mod timetable;

pub use agenda::{Agenda, TICK_MS};
pub use at_once::NoThread;
pub use bmc_shared::{
    Call, Calls, CloseFault, End, Event, Events, Gate, Held, History, Locked, MOST_EVENTS,
    OpenFault, Opening, PeriodFull, Seat, Seats, Shared, serve_port,
};
pub use driver::{DriveEnd, drive, drive_observed};
pub use greeter::{GreetEnd, drive_greeting};
pub use happening::happen_in_time;
pub use lane::{Lane, Lanes};
pub use laws::drives_on;
pub use observer::{KeptBack, NoObserver, Observer};
pub use run::run_two;
pub use runner::{RunResult, run_agenda, run_slices};
pub use silence::Silence;
pub use stop_signal::StopRules;
pub use timetable::{Stops, Timed, TimedEnd, Timetable};
pub use wire_links::{Counts, Heard, Link, LinkFault, MOST_KEPT, MemFault, MemLink, UdpLink};
