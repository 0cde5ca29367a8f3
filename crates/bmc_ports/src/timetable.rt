//! What happens on a board at times of its own, and why it ends.
ghost use Rattle.std.specs.Prelude.{◌≡◌};

use bmc_board::Bench;
use std::sync::atomic::{AtomicBool, Ordering};
use std::time::Instant;

/// What happens on a board, and when.
#[derive(Clone, Copy, Debug, PartialEq, Eq)]
pub struct Timed {
    /// How many milliseconds after the start.
    pub at_ms: u64,
    /// What happens then.
    pub event: Bench,
}

/// What is to happen on a board, and how far it has come.
#[derive(Clone, Copy)]
pub struct Timetable<'a> {
    /// All that is to happen, in its order.
    pub list: &'a [Timed],
    /// The place of the first that hasn't happened, from 0. At the list's length nothing is left.
    pub next: usize,
    /// The start, from which the times count. Without one nothing waits for its time.
    pub start: Option<Instant>,
}

impl<'a> Timetable<'a> {
    /// A list of which nothing has happened.
    pub fn new(list: &'a [Timed], start: Option<Instant>) -> Self
        ensures list { result.list ≡ list.entry }
        ensures next { result.next ≡ 0 }
        ensures start { result.start ≡ start }
    {
        Timetable {
            list,
            next: 0,
            start,
        }
    }

    /// The timetable of the same list and start, of which the entry at this place is next.
    pub fn from(&self, next: usize) -> Self
        ensures list { result.list ≡ self.now.list }
        ensures next { result.next ≡ next }
        ensures start { result.start ≡ self.now.start }
    {
        Timetable {
            list: self.list,
            next,
            start: self.start,
        }
    }
}

/// What tells a scanner to stop: either of these, once it's true.
#[derive(Clone, Copy)]
pub struct Stops<'a> {
    /// A worker found no room.
    pub bell: &'a AtomicBool,
    /// Both workers ended.
    pub over: &'a AtomicBool,
}

impl<'a> Stops<'a> {
    /// Whether it's to stop.
    pub(crate) fn are_set(self) -> bool {
        self.bell.load(Ordering::SeqCst) || self.over.load(Ordering::SeqCst)
    }
}

/// Why a scanner of a timetable ended.
#[derive(Clone, Copy, Debug, PartialEq, Eq)]
pub enum TimedEnd {
    /// All has happened.
    Over,
    /// The scanner was told to stop.
    Stopped,
    /// The board's history had no room for what is next.
    Full,
}
