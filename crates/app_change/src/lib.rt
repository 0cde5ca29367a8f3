//! What `bmcnet preview` tells: what a plan would make of a controller's records, by what their Gets showed. What `bmcnet apply` does: a plan, all of
//! it or none, or those of its steps alone that change something, by a look at the records. And what `bmcnet revert` does with its option: what a
//! file would take back, told from the file alone.
#![tactic(auto)]

pub mod changing;
mod foreseeing;
mod foretold_json;
mod foretold_words;
mod keep_look;
mod keeping;
pub mod laws;
mod looking;
mod narrowed_json;
mod narrowed_words;
mod outlook_json;
mod outlook_text;
mod outlooks;
pub mod preview_laws;
mod previewing;
pub mod taking_back;

pub use changing::{ChangeWords, change};
pub use foreseeing::{Foreseen, foresee};
pub use foretold_json::foretell_json;
pub use foretold_words::foretell_text;
pub use keep_look::{NamedSteps, keep_by_look};
pub use keeping::{Narrowed, kept_steps};
pub use narrowed_json::{left_out_json, unchanged_json, unlooked_json};
pub use narrowed_words::{left_out_text, unchanged_text, unlooked_text};
pub use outlook_json::outlooks_json;
pub use outlook_text::outlooks_text;
pub use outlooks::{Outlook, foresee_all};
pub use previewing::{PreviewWords, preview};
pub use taking_back::{BackWords, take_back};
