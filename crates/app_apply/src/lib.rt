//! What `bmcnet apply` does, over files and writers of any kind: a plan is run on a controller over UDP, by a file that has at each moment what takes
//! it back. What `bmcnet revert` does likewise is here, too: how that file is held, a manager that is called meanwhile, and sentences.
#![tactic(auto)]

mod applied_json;
mod applied_words;
pub mod applying;
mod driving;
pub mod guarding;
mod kept_calls;
pub mod objects;
mod outcome;
pub mod refusing;
pub mod sentences;
mod strict;

pub use applied_json::apply_json;
pub use applied_words::apply_text;
pub use applying::{Applied, ApplyWords};
pub use driving::Calling;
pub use kept_calls::{MOST_TURNS, Reach, call_on};
pub use outcome::Outcome;
pub use strict::{StrictFault, strict_plan};
