//! The text of a board file.
#![tactic(auto)]

mod attribute_items;
mod board;
mod channel_items;
mod check;
mod effecters;
mod fault;
mod item_groups;
mod items;
mod lan_items;
mod laws;
mod sensors;
mod state_items;
mod tables;
mod users;

pub use board::read_board;
pub use channel_items::has_sessions;
pub use fault::{FileFault, Item, Place};
pub use lan_items::LAN;
pub use laws::one_board;
pub use tables::{DEVICE, NUMERIC, SENSOR, SESSIONS, STATE, TOP, attribute_rows};
