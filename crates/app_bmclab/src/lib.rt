//! `bmclab` but its `main`: the words of its command line, why a file of the host gives no text, what it does with both, and what `bmclab schedule`
//! does, over files and writers of any kind: it reads a board file and a plan, and writes a schedule of the plan on that board.
#![tactic(auto)]

mod against;
pub mod ask_words;
pub mod check;
pub mod check_words;
mod explained;
mod file;
mod notes;
mod number;
mod places;
pub mod run;
pub mod schedule_files;
pub mod schedule_text;
pub mod schedule_words;
pub mod words;

pub use against::check_against;
pub use ask_words::AskWords;
pub use check::{Cause, TellsCause, check_files};
pub use check_words::{CheckWay, CheckWords};
pub use explained::explained_play_of_files;
pub use file::ToldFiles;
pub use lab_play::{Chances, Links, Percent, ScheduleOptions};
pub use notes::{Notes, notes_on};
pub use run::run_line;
pub use schedule_files::{ScheduleFiles, schedule_of_files};
pub use schedule_text::schedule_run;
pub use schedule_words::ScheduleWords;
pub use words::{FrameWords, PlayWords, Words};
