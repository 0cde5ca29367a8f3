//! A board: the tables of commands, and its answer to each request, and what happens on it beside requests.
//! Requests that are looked at where they lie, and what carries them out there.
#![tactic(auto)]

pub mod activity;
pub mod asked_ref;
pub mod bench;
pub mod board;
pub mod carrier;
pub mod command;
pub mod direct_carrier;
pub mod laws;
pub mod live;
pub mod reply;
pub mod request;
pub mod storage;

pub use activity::Activity;
pub use asked_ref::AskedRef;
pub use bench::{Bench, NoSensor};
pub use board::{Board, Records};
pub use carrier::Carrier;
pub use command::{Command, Lengths, Line, is_changing};
pub use direct_carrier::{DirectCarrier, answer_into};
pub use live::LiveCommand;
pub use reply::{Reply, answered, code_of};
pub use request::read_request;
