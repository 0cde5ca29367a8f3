//! Plans, the lists of requests that undo them, and the names of a manager and its controller on both buses. A manager's journal: what is kept of it, so
//! that another can be made again of it once the process of the first ended. And a greeting: requests of two live commands, with data that these
//! don't take, by which a controller's port forgets what it kept.
#![tactic(auto)]

mod greeting;
mod greeting_calls;
mod greeting_hearing;
mod greeting_places;
mod greeting_requests;
mod journal;
mod journal_asking;
mod journal_bounds;
mod journal_kept;
mod journal_view;
mod kept_stage;
mod names;
pub mod owned_op;
mod plan;
mod pldm_undo;
mod requests;
mod showing;
mod undo_list;
mod undo_request;

pub use greeting::{Greeting, GreetingStage, WrongStage};
pub use journal::{Contents, Journal, JournalFault};
pub use journal_view::JournalView;
pub use kept_stage::{Counts, KeptStage, KeptTask};
pub use names::Names;
pub use plan::{MOST_STEPS, Plan, Steps};
pub use pldm_undo::{MOST_UNDO_DATA, PldmUndo};
pub use requests::Requests;
pub use showing::shown_alone;
pub use undo_list::{NextNumbers, UndoList};
pub use undo_request::{MOST_REQUESTS, UndoRequest};
