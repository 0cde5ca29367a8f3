//! What runs write and how they end: stories by theme, and calls one by one.
mod ages;
mod asked;
mod calls;
mod charts;
mod drawn;
mod explained;
mod faults;
mod frames;
mod host_files;
mod lines;
mod long_texts;
mod paper;
mod parts_text;
mod player;
mod plays;
mod random;
mod runs;
mod scene;
mod schedules;
mod steps;
mod strict;
mod text;
mod told_wrong;
mod two_steps;

use parts_text::SHARED;
use player::expect_otherwise;
use std::alloc::Global;
use std::fmt::Debug;
use std::process::Abort;

/// The value is the one that is wanted.
fn expect_equal<T: Copy + Debug + PartialEq>(rt: &impl Abort, value: T, wanted: T) {
    assert_eq!(rt; value, wanted);
}

/// This came otherwise than the stories tell.
fn expect_noticed(rt: &impl Abort, alloc: Global, stories: &str, noticed: &str) {
    expect_otherwise(rt, alloc, SHARED, stories, noticed);
}

/// All of the stories comes as it is told.
fn expect_told(rt: &impl Abort, alloc: Global, stories: &str) {
    expect_noticed(rt, alloc, stories, "");
}
