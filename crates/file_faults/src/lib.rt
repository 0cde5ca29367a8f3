//! The faults of a file that is TOML, of each of its tables the first, and what is told of them: where a fault is, what stands there, and what would
//! be right. The line of a fault is that of its key, or of its item's head.
#![tactic(auto)]

mod expression;
mod faults;
mod group;
mod place;
mod rows;
mod search;
mod sheet;
mod source;
mod step_telling;
mod steps;
mod telling;
mod value;

pub use faults::{Placed, TableFault, board_faults, plan_faults};
pub use group::{Group, known_rows};
pub use rows::rows_in;
pub use sheet::Sheet;
pub use source::{Source, Spot};
pub use steps::step_fault;
pub use telling::{tell_faults, tell_twice};
