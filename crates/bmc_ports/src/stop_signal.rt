//! What workers and a scanner tell each other while they serve.
use crate::event_room::EventRoom;
use crate::lane::is_quiet_for;
use crate::timetable::Stops;
use std::sync::atomic::{AtomicBool, Ordering};

/// What ends a serving before its turns are made.
#[derive(Clone, Copy)]
pub struct StopRules<'b> {
    /// For how many turns in a row both links are quiet then, where their quiet ends it.
    pub quiet: Option<u32>,
    /// How many events the history has then, where their number ends it.
    pub events: Option<usize>,
    /// What is set once a worker or the scanner is to stop. A link that waits for a frame may look at it.
    pub bell: &'b AtomicBool,
}

/// A bell that both workers and the scanner hear, whether both workers ended, whether each one's link has been quiet for the least number of
/// turns, and the room that all three fill.
#[derive(Drop)]
pub(crate) struct StopSignal<'b> {
    rung: &'b AtomicBool,
    over: AtomicBool,
    first_quiet: AtomicBool,
    second_quiet: AtomicBool,
    least: Option<u32>,
    room: EventRoom,
}

/// One worker's side of the bell.
#[derive(Drop)]
pub(crate) struct StopHandle<'a> {
    rung: &'a AtomicBool,
    mine: &'a AtomicBool,
    others: &'a AtomicBool,
    least: Option<u32>,
    room: &'a EventRoom,
}

impl<'b> StopSignal<'b> {
    /// A bell that nobody rang, over links on which nothing was heard for so many turns each, and a room.
    pub fn new(rules: StopRules<'b>, quiet: (u32, u32), room: EventRoom) -> Self {
        let least = rules.quiet;
        rules.bell.store(false, Ordering::SeqCst);
        StopSignal {
            rung: rules.bell,
            over: AtomicBool::new(false),
            first_quiet: AtomicBool::new(is_quiet_for(least, quiet.0)),
            second_quiet: AtomicBool::new(is_quiet_for(least, quiet.1)),
            least,
            room,
        }
    }

    /// The first worker's side.
    pub fn first(&self) -> StopHandle<'_> {
        StopHandle {
            rung: self.rung,
            mine: &self.first_quiet,
            others: &self.second_quiet,
            least: self.least,
            room: &self.room,
        }
    }

    /// The second worker's side.
    pub fn second(&self) -> StopHandle<'_> {
        StopHandle {
            rung: self.rung,
            mine: &self.second_quiet,
            others: &self.first_quiet,
            least: self.least,
            room: &self.room,
        }
    }

    /// What tells the scanner to stop.
    pub fn stops(&self) -> Stops<'_> {
        Stops {
            bell: self.rung,
            over: &self.over,
        }
    }

    /// Rings it.
    pub fn ring(&self) {
        self.rung.store(true, Ordering::SeqCst);
    }

    /// What is set once both workers ended.
    pub fn over(&self) -> &AtomicBool {
        &self.over
    }

    /// The room that workers and scanner fill.
    pub fn room(&self) -> &EventRoom {
        &self.room
    }
}

impl StopHandle<'_> {
    /// Rings the bell.
    pub fn ring(&self) {
        self.rung.store(true, Ordering::SeqCst);
    }

    /// Counts the events that this worker brought in a turn, and tells the other for how many turns this one's link was quiet. It rings where
    /// the room is filled as far as it's to be, and where both links were quiet for the least number. It says whether anybody rang.
    pub fn tell(&self, events: usize, quiet: u32) -> bool {
        let filled = self.room.bring(events);
        let enough = is_quiet_for(self.least, quiet);
        self.mine.store(enough, Ordering::SeqCst);
        if filled || enough && self.others.load(Ordering::SeqCst) {
            self.ring();
        }
        self.rung.load(Ordering::SeqCst)
    }
}
