//! What `bmcnet serve` does, over files and writers of any kind: it serves a board's two ports over UDP, and tells of what was asked.
#![tactic(auto)]

pub mod board;
mod counting;
mod ends;
mod inputs;
mod laws;
pub mod periods;
mod readings;
mod readings_line;
mod readings_text;
pub mod run;
pub mod tally;
mod wakeful_link;

pub use board::{ClosedBoard, MOST_EVENTS, close_board, controller_ports, open_board, work};
pub use laws::one_readings_list;
pub use periods::{PeriodState, ServeRules, serve_periods};
pub use readings_text::{ReadingsFault, read_readings};
pub use run::{ServeWords, WAIT_MS, serve};
pub use tally::{Begun, Tally, begin, tally_of};
