//! A scanner that waits for the times of what happens.
ghost use Rattle.std.specs.Prelude.{◌≡◌};
ghost use Rattle.bmc_board.specs.State.{state_of};

use super::{expect_equal, history_of, open_sample, open_shared};
use bmc_board::{Bench, Board, Records};
use bmc_ports::{Call, History, Opening, Stops, Timed, TimedEnd, Timetable, happen_in_time};
use std::alloc::Global;
use std::io;
use std::marker::Brand;
use std::process::Abort;
use std::sync::Wait;
use std::sync::atomic::{AtomicBool, AtomicU64, Ordering};
use std::sync::ledger::Blank;
use std::thread::Threads;
use std::time::{Clock, Duration, Instant};

/// A sensor's reading.
pub(super) const READING: Timed = Timed {
    at_ms: 0,
    event: Bench::Reading {
        sensor: 5,
        raw: 0x55,
    },
};

/// A tick behind it.
pub(super) const TICK: Timed = Timed {
    at_ms: 100,
    event: Bench::Tick,
};

/// Another one.
pub(super) const LATER_TICK: Timed = Timed {
    at_ms: 145,
    event: Bench::Tick,
};

/// The reading, and both ticks.
pub(super) const WARMS_UP: [Timed; 3] = [READING, TICK, LATER_TICK];

/// The longest nap of the scanner, in milliseconds.
const NAP_MS: u64 = 20;

/// A clock that goes on by what is slept, and not by itself.
#[derive(Drop)]
pub(super) struct Slept<'a, R> {
    pub rt: &'a R,
    /// How many milliseconds were slept.
    pub ms: AtomicU64,
    /// The longest sleep, in milliseconds.
    longest_ms: AtomicU64,
    /// Once so many milliseconds were slept, the bell rings.
    rings_at: u64,
    bell: AtomicBool,
    over: AtomicBool,
    /// Whether the clock can be read.
    is_whole: AtomicBool,
}

impl<'a, R> Slept<'a, R> {
    /// A clock that can be read, whose bell rings once so many milliseconds were slept.
    pub fn new(rt: &'a R, rings_at: u64) -> Self {
        Slept {
            rt,
            ms: AtomicU64::new(0),
            longest_ms: AtomicU64::new(0),
            rings_at,
            bell: AtomicBool::new(false),
            over: AtomicBool::new(false),
            is_whole: AtomicBool::new(true),
        }
    }

    /// How many milliseconds were slept.
    pub fn slept(&self) -> u64 {
        self.ms.load(Ordering::SeqCst)
    }
}

impl<'a, R: Wait> Wait for Slept<'a, R> {}

impl<'a, R: Threads> Threads for Slept<'a, R> {}

impl<'a, R> Clock for Slept<'a, R> {
    fn monotonic(&self) -> io::Result<Duration> {
        if !self.is_whole.load(Ordering::SeqCst) {
            return Err(io::Error::from(io::ErrorKind::Unsupported));
        }
        Ok(Duration::from_millis(self.slept()))
    }

    fn since_1970(&self) -> io::Result<Duration> {
        self.monotonic()
    }

    fn sleep(&self, duration: Duration) {
        let ms = u64::from(duration.subsec_millis());
        let now = self.slept().wrapping_add(ms);
        self.ms.store(now, Ordering::SeqCst);
        if ms > self.longest_ms.load(Ordering::SeqCst) {
            self.longest_ms.store(ms, Ordering::SeqCst);
        }
        if now >= self.rings_at {
            self.bell.store(true, Ordering::SeqCst);
        }
    }
}

/// Why a scanner ended, what is next, and the history.
#[derive(Drop)]
struct Told {
    end: TimedEnd,
    next: usize,
    history: History,
}

/// Has the scanner of a board go through a timetable from one place on.
fn scan<J: Opening, R: Wait + Abort>(
    rt: &Slept<'_, R>,
    alloc: Global,
    blank: Blank,
    board: Board<Records>,
    room: usize,
    table: Timetable<'_>,
) -> Told
    requires name { blank.name ≡ J.name }
    requires parts { blank.parts ≡ J.parts }
    requires three { blank.parts ≡ 3 }
    requires setup { board.setup ≡ J.setup }
    requires opening { state_of board ≡ J.opening }
    requires room { room ≡ J.room }
{
    let (shared, mut seats) = open_shared::<J, R>(rt.rt, alloc, blank, board, room);
    let mut table = table;
    let stops = Stops {
        bell: &rt.bell,
        over: &rt.over,
    };
    let end = happen_in_time(rt, &shared, &mut seats.scanner, &mut table, stops);
    Told {
        end,
        next: table.next,
        history: history_of(rt.rt, shared, seats),
    }
}

/// The same, with a ledger of its own.
fn scan_at<R: Wait + Abort>(
    rt: &Slept<'_, R>,
    alloc: Global,
    board: Board<Records>,
    room: usize,
    table: Timetable<'_>,
) -> Told {
    scan::<Brand, R>(rt, alloc, Blank::new(3), board, room, table)
}

/// Whether this happened at the place.
fn has_happened(history: &History, place: usize, wanted: Bench) -> bool {
    match history.get(place) {
        Some(event) => match event.call {
            Call::Benched { bench, answered: _ } => bench == wanted,
            Call::Exchanged { .. } => false,
        },
        None => false,
    }
}

/// Whether these happened, in their order, and nothing else.
fn have_happened(history: &History, list: &[Timed]) -> bool {
    for (place, timed) in list.iter().enumerate() {
        if !has_happened(history, place, timed.event) {
            return false;
        }
    }
    history.len() == list.len()
}

/// The scanner ended at this place of the list and so, and all happened that stands before it, from another place on, and nothing else.
pub(super) fn expect_happened(
    rt: &impl Abort,
    name: &str,
    history: &History,
    list: &[Timed],
    from: usize,
    told: (usize, TimedEnd),
    wanted: (usize, TimedEnd),
) {
    expect_equal(rt, name, told, wanted);
    let happened = list.get(from..wanted.0).unwrap_or(&[]);
    expect_equal(rt, name, have_happened(history, happened), true);
}

/// How a scanner goes through the list above, and what comes of it.
#[derive(Clone, Copy)]
struct Case {
    name: &'static str,
    /// The events for which the history has room.
    room: usize,
    /// Once so many milliseconds were slept, the bell rings.
    rings_at: u64,
    /// Whether all is over before.
    is_over: bool,
    /// The place of the list at which it begins.
    from: usize,
    /// The place that is next then: what stands before it happens.
    next: usize,
    end: TimedEnd,
    /// How many milliseconds are slept.
    slept: u64,
}

/// The scanner goes through the list by this clock and from this start on, so as the case tells.
fn expect_scanned<R: Wait + Abort>(
    clock: &Slept<'_, R>,
    alloc: Global,
    start: Option<Instant>,
    case: Case,
) {
    let table = Timetable {
        list: &WARMS_UP,
        next: case.from,
        start,
    };
    let board = open_sample(clock.rt, alloc);
    let told = scan_at(clock, alloc, board, case.room, table);
    let ended = (told.next, told.end);
    let wanted = (case.next, case.end);
    expect_happened(
        clock.rt,
        case.name,
        &told.history,
        &WARMS_UP,
        case.from,
        ended,
        wanted,
    );
    drop(told);
    let longest = clock.longest_ms.load(Ordering::SeqCst);
    let slept = (case.slept, case.slept.min(NAP_MS));
    expect_equal(clock.rt, case.name, (clock.slept(), longest), slept);
}

/// The same from now on, by a clock that can be read.
fn expect_case<R: Wait + Abort>(rt: &R, alloc: Global, case: Case) {
    let clock = Slept::new(rt, case.rings_at);
    clock.over.store(case.is_over, Ordering::SeqCst);
    let start = Instant::now(&clock).ok();
    expect_scanned(&clock, alloc, start, case);
}

const IN_NAPS: Case = Case {
    name: "each happens at its time in naps",
    room: 8,
    rings_at: u64::MAX,
    is_over: false,
    from: 0,
    next: 3,
    end: TimedEnd::Over,
    slept: 145,
};

const BELL: Case = Case {
    name: "the bell ends it",
    rings_at: 60,
    next: 1,
    end: TimedEnd::Stopped,
    slept: 60,
    ..IN_NAPS
};

const ALL_OVER: Case = Case {
    name: "nothing happens once all is over",
    is_over: true,
    next: 0,
    end: TimedEnd::Stopped,
    slept: 0,
    ..IN_NAPS
};

const FULL: Case = Case {
    name: "a full history keeps the place",
    room: 1,
    next: 1,
    end: TimedEnd::Full,
    slept: 100,
    ..IN_NAPS
};

#[test]
fn a_scanner_ends_with_its_list_or_before(rt: HostRuntime) {
    for case in [IN_NAPS, BELL, ALL_OVER, FULL] {
        expect_case(&rt, rt.alloc(), case);
    }
}

/// What happened before doesn't happen again.
const FROM_PLACES: [Case; 4] = [
    Case {
        name: "the reading happened before",
        from: 1,
        ..IN_NAPS
    },
    Case {
        name: "a tick happened before, too",
        from: 2,
        ..IN_NAPS
    },
    Case {
        name: "all happened before",
        from: 3,
        slept: 0,
        ..IN_NAPS
    },
    Case {
        name: "the place is past the list",
        from: 4,
        next: 4,
        slept: 0,
        ..IN_NAPS
    },
];

#[test]
fn what_happened_before_does_not_happen_again(rt: HostRuntime) {
    for case in FROM_PLACES {
        expect_case(&rt, rt.alloc(), case);
    }
}

#[test]
fn nothing_waits_for_a_clock_that_cannot_be_read(rt: HostRuntime) {
    let clock = Slept::new(&rt, u64::MAX);
    let start = Instant::now(&clock).ok();
    assert!(rt; start.is_some());
    clock.is_whole.store(false, Ordering::SeqCst);
    let case = Case {
        name: "nothing is slept",
        slept: 0,
        ..IN_NAPS
    };
    expect_scanned(&clock, rt.alloc(), start, case);
    expect_scanned(&clock, rt.alloc(), Instant::now(&clock).ok(), case);
}
