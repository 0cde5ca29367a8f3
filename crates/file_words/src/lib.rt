//! What files hold, and can hold, in words: values, ranges, the member of a list that doesn't fit, the word that is nearest, and what a bad line
//! lacks. Texts are shown as printable ASCII.
#![tactic(auto)]

mod escape;
mod forms;
mod lists;
mod member;
mod near;
mod numbers;
mod range;
mod slip;
mod texts;
mod value;

pub use escape::push_escaped;
pub use forms::{
    LineForm, READING_LINES, SCHEDULE_LINES, UNDO_LINES, push_form, push_line, push_reason,
};
pub use member::first_unfit;
pub use near::{nearest, within};
pub use range::push_range;
pub use slip::{Slip, slip_of};
pub use value::push_value;
