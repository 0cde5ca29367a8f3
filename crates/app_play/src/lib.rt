//! What `bmclab play` does, over files and writers of any kind: a plan run and undone by a schedule. It reads the board file, the
//! plan and the schedule that tell a play, and writes the lines that are said of it, or the chart that its notes are drawn as.
#![tactic(auto)]

mod account;
mod arrivals;
mod cells;
mod chart_text;
mod columns;
mod drawn;
mod ended;
pub mod files;
mod inputs;
pub mod laws;
mod lines;
mod report;
mod restart_rows;
mod restarted;
pub mod run;
mod strict;

pub use account::Account;
pub use files::{PlayFiles, ReadTexts, play_of_files, texts_of};
pub use inputs::{InputFault, Inputs, read_inputs};
pub use lab_play::Stopped;
pub use lines::push_stopped;
pub use run::{Shown, chart_run, is_memory, play_run, refusal_report, show};
pub use strict::{PlayOptions, PlayTexts, show_asked};
