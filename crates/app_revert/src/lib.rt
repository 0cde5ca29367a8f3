//! What `bmcnet revert` does, over files and writers of any kind: what a file says is taken back on a controller over UDP, and each record is looked
//! at behind that. Those that aren't as before have the names that the controller's own tables give.
#![tactic(auto)]

mod leaving;
mod looking;
mod naming;
pub mod reading;
mod reverted_json;
mod reverted_words;
pub mod reverting;
mod taking;

pub use looking::{Looked, Sight, Sighting};
pub use reverted_json::revert_json;
pub use reverted_words::{revert_text, unfit_text};
pub use reverting::{RevertWords, Reverted, revert};
