//! Records in words: the name of a record, an operation over what a Get showed, a request that undoes, and a changed record, each in one line of
//! printable ASCII, in the terms of the standards.
#![tactic(auto)]

mod attribute;
mod boot_way;
mod controller;
mod digits;
mod effecters;
mod field;
mod in_words;
mod laws;
mod meaning;
mod name;
mod named;
mod numbers;
mod parts;
mod quoted;
mod request;
mod sensors;
mod shown;
mod term;
mod users;
mod values;

pub use attribute::{AttributeLine, Valued};
pub use boot_way::BootWay;
pub use field::{Field, Fields, Label, MOST_FIELDS};
pub use in_words::{InWords, change_in_words, op_in_words};
pub use laws::{fields_are_told_apart, lines_are_printable, no_password_is_shown};
pub use meaning::Meaning;
pub use name::RecordName;
pub use named::push_named;
pub use numbers::SizedNumber;
pub use parts::{Line, Part, Parts, Said, Way};
pub use quoted::Quoted;
pub use request::{UndoInWords, undo_in_words, undone_op};
pub use shown::{ChosenState, MaskedByte, Shown};
pub use term::Term;
