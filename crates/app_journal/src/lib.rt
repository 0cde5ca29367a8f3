//! The file of a journal: a manager's journal is put there before the manager's frames go out, and a manager is made again of it.
#![tactic(auto)]

mod claiming;
mod files;
mod keeper;
mod laws;
mod reviving;
mod standing;
mod undo_files;

pub use claiming::{Claim, Taken, claim_files, free_name, hold_files, is_free};
pub use files::{HoldFault, Place, PlaceFault, WriteFault, WritesFiles};
pub use keeper::{JournalKeeper, JournalTexts};
pub use laws::{journals_are_kept, kept_texts_revive};
pub use reviving::{ReviveFault, revive_text};
pub use standing::{Standing, standing_in};
pub use undo_files::UndoFiles;
