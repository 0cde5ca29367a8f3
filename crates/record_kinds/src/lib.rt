//! The kinds of record as one kind, the limits that a board file gives to its records, and the records that a board keeps: how Sets change them, with
//! values that are whole or come in parts, and what is staged of parts (DSP0247, SetBIOSAttributeCurrentValue).
#![tactic(auto)]

pub mod board_laws;
mod entry;
pub mod kept;
pub mod laws;
pub mod limits;
pub mod parts;
mod series;
pub mod set_part;
pub mod setup;
pub mod stagings;
pub mod unknown;

pub use entry::Entry;
pub use kept::{KeptRecords, place_to_make};
pub use laws::starts_sound;
pub use limits::{Limits, PlainKind};
pub use parts::is_last;
pub use set_part::{SetPart, part_in};
pub use setup::Setup;
pub use stagings::{MOST_STAGINGS, Staging, Stagings};
pub use unknown::{sessionless_channel, unknown_code};
