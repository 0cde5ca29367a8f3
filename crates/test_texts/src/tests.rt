//! What the texts hold, and their faults: worked examples, a file for each theme, and calls one by one.
mod attributes;
mod board;
mod calls;
mod came;
mod channels;
mod checks;
mod faulty;
mod files;
mod foreseen;
mod journal;
mod lan;
mod lines;
mod named_steps;
mod numeric;
mod order;
mod plan;
mod play;
mod readings;
mod schedule;
mod states;
mod story;
mod undo;
mod users;
mod worded;
mod words;
mod written_plan;
mod wrong;

use std::alloc::Global;
use std::process::Abort;
use story::expect_otherwise;

/// All of the stories comes as it is told.
pub(crate) fn expect_told(rt: &impl Abort, alloc: Global, stories: &str) {
    expect_otherwise(rt, alloc, stories, "");
}
