//! What `bmcnet run` and `bmcnet undo` do, over files and writers of any kind: a manager runs a plan on a controller over UDP, and another takes
//! it back.
#![tactic(auto)]

mod buses;
pub mod driven;
mod greeting;
mod kept_run;
mod lines;
mod links;
mod observer;
mod preparing;
pub mod progress;
mod reverting;
pub mod running;
mod strict;
mod trying;
pub mod undoing;

pub use buses::{requests_use, steps_use};
pub use driven::{RemakeFault, open_manager, resume_manager, run_plan, undo_plan};
pub use greeting::{GreetFault, Greetings, Unanswered, greet_first};
pub use kept_run::revive_last;
pub use lines::push_phase;
pub use links::{BusLinks, WAIT_MS, open_ends};
pub use observer::{ProgressWriter, RunWatch};
pub use preparing::{Ready, make_ready};
pub use progress::{PlanOutline, Progress};
pub use reverting::{is_journal, settles_none};
pub use running::{RunWords, run};
pub use trying::{drive_heeded, try_plan};
pub use undoing::{UndoWords, undo};
