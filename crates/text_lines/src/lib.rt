//! Texts of lines. What they have in common: lines, words with one space between two, decimal numbers, bytes in hexadecimal, and the line that says how
//! many records are changed. The undo text, which is the list of requests that undo a plan as a file keeps it, with its versions. And schedules of a
//! lab: what happens there, a line an event.
#![tactic(auto)]

mod cut;
mod decimals;
mod event;
mod event_line;
mod laws;
mod octets;
mod records;
mod schedule;
mod schedule_cuts;
mod schedule_laws;
mod schedule_writing;
mod spelt;
mod undo_laws;
mod undo_line;
mod undo_names;
mod undo_text;
mod undo_version;

pub use cut::{behind, first_line, first_word};
pub use decimals::{number, plain_number};
pub use event::{BenchEvent, Event, MOST_NOISE, OtherMessage, OtherRequest};
pub use laws::{one_cut, one_plain_number};
pub use octets::Octets;
pub use records::push_records;
pub use schedule::{Schedule, ScheduleFault, read_schedule};
pub use schedule_cuts::{call_name, lines, words};
pub use schedule_laws::{one_schedule, refused_or_told};
pub use schedule_writing::{has_line, push_event, write_schedule};
pub use spelt::{byte, bytes};
pub use undo_laws::one_undo_list;
pub use undo_text::{UndoFault, push_requests, read_undo, write_undo};
pub use undo_version::{Version, first_version, head_lines};
