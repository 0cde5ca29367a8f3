//! What board files and plans have in common: the fields of a table of a file, what each can hold, and the first that has a fault.
#![tactic(auto)]

pub mod attributes;
pub mod channels;
mod check;
mod checked;
mod fault;
mod field;
pub mod lan;
mod lan_field;
pub mod numeric;
pub mod range;
mod row;
pub mod states;
pub mod tree;
pub mod users;

pub use check::first_fault;
pub use checked::Checked;
pub use fault::FieldFault;
pub use field::Field;
pub use lan::LanShape;
pub use lan_field::LanField;
pub use row::{BYTE, Need, Row, Shape};
