//! What a controller's records are set to: the steps that set each to what its Get shows, in plans, and what no plan says. `bmcnet show` prints them.
#![tactic(auto)]

mod backup;
mod keys;
mod objects;
mod putting;
mod reading;
mod showing;
mod texts;
mod writing;

pub use backup::{Backup, Remark, Why};
pub use keys::IdRange;
pub use showing::{ShowWords, show};
