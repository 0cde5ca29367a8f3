//! A timetable that goes on while two workers serve a board.
ghost use Rattle.std.specs.Prelude.{◌≡◌};
ghost use Rattle.bmc_board.specs.State.{state_of};

use super::gates::{Open, wait_for};
use super::times::{LATER_TICK, READING, Slept, TICK, expect_happened};
use super::{close, expect_equal, open_sample, open_shared};
use bmc_board::{Bench, Board, Records};
use bmc_core::{At, Port};
use bmc_ports::{
    Counts, Heard, History, Lane, Lanes, Link, LinkFault, Opening, RunResult, Seats, Shared, Timed,
    TimedEnd, Timetable, run_slices,
};
use mctp_net::EndpointId;
use std::alloc::Global;
use std::marker::Brand;
use std::process::Abort;
use std::sync::Wait;
use std::sync::atomic::AtomicU64;
use std::sync::ledger::Blank;
use std::thread::Threads;
use std::time::Instant;
use two_wire::{Address, Bus, Frame};

/// A tick that no test waits for.
const NEVER: Timed = Timed {
    at_ms: u64::MAX,
    event: Bench::Tick,
};

/// The reading, both ticks, and that one.
const GOES_ON: [Timed; 4] = [READING, TICK, LATER_TICK, NEVER];

/// Once so many milliseconds were slept, all has happened that is to happen before.
const LATER_MS: u64 = 200;

/// A link on which nothing is heard, and whose `next` waits until so many milliseconds were slept.
#[derive(Drop)]
struct Patient<'a> {
    slept: &'a AtomicU64,
    until: u64,
    counts: Counts,
}

impl<'a> Link for Patient<'a> {
    ghost counts_of = { λ link. link.counts };

    // It states nothing of what its calls may give and take.
    ghost gives = { λ link answer after. Unit {0} };

    ghost takes = { λ link frame answer after. Unit {0} };

    fn next(&mut self) -> Result<Heard, LinkFault> {
        let _ = wait_for(self.slept, self.until);
        let answer = Ok(Heard::Quiet);
        self.counts.count_next(&answer);
        answer
    }

    fn send(&mut self, _frame: &Frame) -> Result<(), LinkFault> {
        let answer = Ok(());
        self.counts.count_send(&answer);
        answer
    }

    fn counts(&self) -> Counts {
        self.counts
    }
}

/// A lane of this bus with so many turns, each of which waits until so much was slept.
fn lane<'a>(
    rt: &impl Abort,
    alloc: Global,
    bus: Bus,
    slept: &'a AtomicU64,
    turns: u32,
    until: u64,
) -> Lane<Patient<'a>> {
    let at = At {
        wire: Address::new(0x20).unwrap(),
        eid: EndpointId::new(0x0A).unwrap(),
    };
    let port = Port::new(alloc, bus, at).expect(rt, "memory");
    let link = Patient {
        slept,
        until,
        counts: Counts::NONE,
    };
    Lane::new(port, link, turns, None)
}

/// Both lanes, with so many turns each.
fn lanes<'a, R: Abort>(
    rt: &'a Slept<'_, R>,
    alloc: Global,
    turns: u32,
    until: u64,
) -> Lanes<Patient<'a>, Patient<'a>> {
    Lanes {
        first: lane(rt.rt, alloc, Bus::Ipmb, &rt.ms, turns, until),
        second: lane(rt.rt, alloc, Bus::Smbus, &rt.ms, turns, until),
    }
}

/// What a history left.
struct Left {
    board: Board<Records>,
    history: History,
    next: usize,
    end: TimedEnd,
}

/// Serves a board that is shared, while a timetable goes on: the seats, the place of the list that is next then, and
/// why the scanner ended.
fn serve_shared<J: Opening + Send + Sync, R: Threads + Wait + Abort + Sync>(
    rt: &Slept<'_, R>,
    shared: &Shared<J, Records>,
    seats: Seats<J>,
    lanes: Lanes<Patient<'_>, Patient<'_>>,
    table: Timetable<'_>,
) -> (Seats<J>, usize, TimedEnd) {
    let sliced = run_slices(rt, shared, seats, lanes, table, &Open, None);
    let RunResult {
        seats,
        lanes: _,
        next,
        first_end: _,
        second_end: _,
        scanner_end: end,
    } = sliced.ok().expect(rt.rt, "three threads");
    (seats, next, end)
}

/// Serves a board with one history, while a timetable goes on.
fn serve_opened<J: Opening + Send + Sync, R: Threads + Wait + Abort + Sync>(
    rt: &Slept<'_, R>,
    alloc: Global,
    blank: Blank,
    board: Board<Records>,
    room: usize,
    lanes: Lanes<Patient<'_>, Patient<'_>>,
    table: Timetable<'_>,
) -> Left
    requires name { blank.name ≡ J.name }
    requires parts { blank.parts ≡ J.parts }
    requires three { blank.parts ≡ 3 }
    requires setup { board.setup ≡ J.setup }
    requires opening { state_of board ≡ J.opening }
    requires room { room ≡ J.room }
{
    let (shared, seats) = open_shared::<J, R>(rt.rt, alloc, blank, board, room);
    let (seats, next, end) = serve_shared(rt, &shared, seats, lanes, table);
    let (board, history) = close(rt.rt, shared, seats);
    Left {
        board,
        history,
        next,
        end,
    }
}

/// The same with a ledger of its own, from this place of the list above on.
fn serve<R: Threads + Wait + Abort + Sync>(
    rt: &Slept<'_, R>,
    alloc: Global,
    board: Board<Records>,
    room: usize,
    lanes: Lanes<Patient<'_>, Patient<'_>>,
    next: usize,
) -> Left {
    let table = Timetable {
        list: &GOES_ON,
        next,
        start: Instant::now(rt).ok(),
    };
    serve_opened::<Brand, R>(rt, alloc, Blank::new(3), board, room, lanes, table)
}

/// A history, and what happens in it.
#[derive(Clone, Copy)]
struct Period {
    name: &'static str,
    /// The events for which it has room.
    room: usize,
    /// How many turns each worker has.
    turns: u32,
    /// The place of the list above at which it begins.
    from: usize,
    /// The place that is next then: what stands before it happens.
    next: usize,
    /// Why the scanner ends.
    end: TimedEnd,
}

/// Serves a board with one history, in which this happens, where each turn waits until so much was slept. The board.
fn expect_served<R: Threads + Wait + Abort + Sync>(
    clock: &Slept<'_, R>,
    alloc: Global,
    board: Board<Records>,
    period: Period,
    until: u64,
) -> Board<Records> {
    let lanes = lanes(clock, alloc, period.turns, until);
    let left = serve(clock, alloc, board, period.room, lanes, period.from);
    let Left {
        board,
        history,
        next,
        end,
    } = left;
    let wanted = (period.next, period.end);
    expect_happened(
        clock.rt,
        period.name,
        &history,
        &GOES_ON,
        period.from,
        (next, end),
        wanted,
    );
    drop(history);
    board
}

#[test]
fn what_comes_while_workers_serve_happens(rt: HostRuntime) {
    let clock = Slept::new(&rt, u64::MAX);
    let board = open_sample(&rt, rt.alloc());
    let all = Period {
        name: "what comes while workers serve happens",
        room: 8,
        turns: 1,
        from: 0,
        next: 3,
        end: TimedEnd::Stopped,
    };
    drop(expect_served(&clock, rt.alloc(), board, all, LATER_MS));
}

/// There is room for all but the last tick. Only the bell ends these workers.
const FOUND_ROOM: Period = Period {
    name: "what finds room happens",
    room: 2,
    turns: u32::MAX,
    from: 0,
    next: 2,
    end: TimedEnd::Full,
};

const FOUND_NONE: Period = Period {
    name: "what finds no room happens in the next history",
    room: 2,
    turns: 1,
    from: 2,
    next: 3,
    end: TimedEnd::Stopped,
};

#[test]
fn what_finds_no_room_happens_in_the_next_history(rt: HostRuntime) {
    let clock = Slept::new(&rt, u64::MAX);
    let board = open_sample(&rt, rt.alloc());
    let board = expect_served(&clock, rt.alloc(), board, FOUND_ROOM, 0);
    let until = clock.slept().saturating_add(LATER_MS);
    drop(expect_served(&clock, rt.alloc(), board, FOUND_NONE, until));
}

#[test]
fn nothing_happens_where_nothing_is_left(rt: HostRuntime) {
    let clock = Slept::new(&rt, u64::MAX);
    let board = open_sample(&rt, rt.alloc());
    let none = Period {
        name: "nothing happens where nothing is left",
        room: 8,
        turns: 1,
        from: 4,
        next: 4,
        end: TimedEnd::Over,
    };
    drop(expect_served(&clock, rt.alloc(), board, none, 0));
    expect_equal(&rt, none.name, clock.slept(), 0);
}
