//! What a Get of a configuration record shows once an operation was carried out, what a step of a plan makes of that, and the text of a plan that sets
//! records as they are shown.
#![tactic(auto)]

mod after;
mod as_it_is;
mod controller_steps;
mod effecter_steps;
mod effecters;
pub mod laws;
mod meaning;
mod plan_kept;
mod plan_step;
mod plan_texts;
mod plan_writing;
mod probes;
mod sensor_steps;
mod sensors;
mod settings;
mod slices;
mod user_steps;
mod users;

pub use after::shown_after;
pub use as_it_is::{Unsaid, op_as_it_is};
pub use meaning::{Meaning, meaning_of};
pub use plan_writing::{is_sayable, write_plan};
