//! The text of a journal: what is kept of a manager, as a file keeps it.
#![tactic(auto)]

mod draft;
mod laws;
mod line;
mod reading;
mod request;
mod room;
mod stage;
mod step;
mod writing;

pub use laws::one_journal;
pub use reading::{JournalTextFault, read_journal};
pub use room::journal_growth;
pub use writing::{write_journal, write_journal_into};
