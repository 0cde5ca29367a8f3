//! What `bmclab` asks of a board that it doesn't serve, over files and writers of any kind: `bmclab frame` and `bmclab ask`, a request by its bytes, its
//! frames, what a controller replies, and frames in words; and a plan against a board: what the board lacks of it, what it would refuse, and what
//! couldn't be taken back, step by step.
#![tactic(auto)]

mod ask_files;
pub mod asked;
mod asking;
mod command_name;
mod explained;
mod explained_run;
pub mod files;
mod finding;
pub mod frame;
mod frames;
mod getting;
mod lines;
mod reply;
pub mod report;
mod request;
mod setting;
mod steps;

pub use ask_files::answer_of_file;
pub use asked::{AskedFrame, asked_frame, bus_named};
pub use explained_run::explained_of_file;
pub use files::frame_of_file;
pub use finding::Finding;
pub use frame::{board_or_sample, controller_place, frame_run};
pub use lines::push_findings;
pub use report::port_report;
pub use request::asked_request;
pub use steps::try_steps;
