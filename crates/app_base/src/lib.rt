//! What the programs' command lines have in common: how one is built of the kit's `clap`, what was matched, why words are refused, the words of
//! the process, the files of the host, and the word `version`. And what `--strict` adds to the runs of both: the status by which a run says what came
//! of it, and the refusal of a file with a key that nothing reads, or of a plan without a step.
#![tactic(auto)]

pub mod build;
pub mod console;
pub mod ending;
pub mod file;
pub mod files;
pub mod matched;
pub mod number;
pub mod process;
pub mod refusal;
pub mod report;
pub mod status;
mod strict_ends;
mod strict_refusal;
pub mod version;

pub use build::{Argument, new_command, new_program, with_command};
pub use console::{Console, Stream};
pub use ending::{Ending, ReportFault, end_run};
pub use file::HostFiles;
pub use files::{ReadFault, TextFiles, UnreadFile, text_of};
pub use matched::{all_named, given, has_flag, lacking, named, word_of};
pub use number::has_plus;
pub use process::words_of_process;
pub use refusal::{Refusal, refusal_by, refusal_of, refuse};
pub use report::Report;
pub use status::Status;
pub use strict_ends::{end_status, halts, records_status, strict_status};
pub use strict_refusal::{NamedText, board_refusal, files_refusal, plan_refusal};
pub use version::{VERSION_LINE, tell_version, version_command};
