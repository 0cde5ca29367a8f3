//! The System Event Log: a list of records with a capacity, its reservations and its clock.
#![tactic(auto)]

mod clock;
mod info;
mod log_record;
mod reservations;
mod sel;

pub use clock::Clock;
pub use info::Info;
pub use log_record::{LogRecord, RECORD_SIZE, record_size_is_the_definition};
pub use reservations::Reservations;
pub use sel::{Entry, FIRST_RECORD, LAST_RECORD, Sel, SelFault};
