//! Workers that are lent ports and links, from one history to the next.
ghost use Rattle.std.specs.Prelude.{◌≡◌};
ghost use Rattle.bmc_board.specs.State.{state_of};

use super::served::{GET, Open, SET};
use super::shared::{close, expect_equal, open_shared};
use super::wired::{open_sample, port_on};
use app_serve::{ServeRules, serve_periods};
use bmc_board::{Board, Records};
use bmc_ports::{
    Agenda, End, Lane, Lanes, Opening, RunResult, Seats, Shared, Timetable, run_slices,
};
use std::alloc::Global;
use std::marker::Brand;
use std::process::Abort;
use std::sync::Wait;
use std::sync::atomic::AtomicBool;
use std::sync::ledger::Blank;
use std::thread::Threads;
use std::time::Clock;
use two_wire::{Bus, Frame};
use wire_links::MemLink;

/// The Get under another number.
const LATER_GET: [u8; 10] = [0x20, 0x00, 0xE0, 0x2C, 0x08, 0x09, 0x05, 0x00, 0x00, 0xBE];

/// The reply to the Set.
pub(super) const SET_REPLY: [u8; 8] = [0x2C, 0x04, 0xD0, 0x20, 0x00, 0x08, 0x00, 0xD8];

/// The reply to the first Get, and to the one that first found no room.
const GET_REPLY: [u8; 15] = [
    0x2C, 0x04, 0xD0, 0x20, 0x04, 0x09, 0x00, 0x01, 0x05, 0x80, 0x04, 0x00, 0x00, 0x00, 0x49,
];

const LATER_REPLY: [u8; 15] = [
    0x2C, 0x04, 0xD0, 0x20, 0x08, 0x09, 0x00, 0x01, 0x05, 0x80, 0x04, 0x00, 0x00, 0x00, 0x45,
];

/// A Set of boot parameter 5, a Get of it, and the Get under another number. Then the Set and that Get again.
const SCRIPT: [&[u8]; 5] = [&SET, &GET, &LATER_GET, &SET, &LATER_GET];

/// How many turns the port on IPMB has for it.
const TURNS: u32 = 6;

/// What a history left.
struct Left {
    board: Board<Records>,
    lanes: Lanes<MemLink, MemLink>,
    events: usize,
    end: End,
}

/// Serves a board that is shared: the seats, what is left of the lanes, and why the worker on IPMB ended.
fn serve_shared<J: Opening + Send + Sync, R: Threads + Wait + Clock + Abort + Sync>(
    rt: &R,
    shared: &Shared<J, Records>,
    seats: Seats<J>,
    lanes: Lanes<MemLink, MemLink>,
) -> (Seats<J>, Lanes<MemLink, MemLink>, End) {
    let table = Timetable::new(&[], None);
    let sliced = run_slices(rt, shared, seats, lanes, table, &Open, None);
    let RunResult {
        seats,
        lanes,
        next: _,
        first_end: end,
        second_end: _,
        scanner_end: _,
    } = sliced.ok().expect(rt, "two threads");
    (seats, lanes, end)
}

/// Serves a board with one history.
fn serve_opened<J: Opening + Send + Sync, R: Threads + Wait + Clock + Abort + Sync>(
    rt: &R,
    alloc: Global,
    blank: Blank,
    board: Board<Records>,
    room: usize,
    lanes: Lanes<MemLink, MemLink>,
) -> Left
    requires name { blank.name ≡ J.name }
    requires parts { blank.parts ≡ J.parts }
    requires three { blank.parts ≡ 3 }
    requires setup { board.setup ≡ J.setup }
    requires opening { state_of board ≡ J.opening }
    requires room { room ≡ J.room }
{
    let (shared, seats) = open_shared::<J, R>(rt, alloc, blank, board, room);
    let (seats, lanes, end) = serve_shared(rt, &shared, seats, lanes);
    let (board, events) = close(rt, shared, seats);
    Left {
        board,
        lanes,
        events,
        end,
    }
}

/// The same with a ledger of its own.
fn serve_at<R: Threads + Wait + Clock + Abort + Sync>(
    rt: &R,
    alloc: Global,
    board: Board<Records>,
    room: usize,
    lanes: Lanes<MemLink, MemLink>,
) -> Left {
    serve_opened::<Brand, R>(rt, alloc, Blank::new(3), board, room, lanes)
}

/// A port on this bus that hears the script, has so many turns, and forgets those that are silent for so many, where a number is given.
fn lane(
    rt: &impl Abort,
    alloc: Global,
    bus: Bus,
    script: &[&[u8]],
    turns: u32,
    forget: Option<u32>,
) -> Lane<MemLink> {
    let link = MemLink::new(alloc, script).ok().expect(rt, "a link");
    Lane::new(port_on(rt, alloc, bus), link, turns, forget)
}

/// Such a port on IPMB, and one on SMBus that hears nothing in its one turn.
pub(super) fn new_lanes(
    rt: &impl Abort,
    alloc: Global,
    script: &[&[u8]],
    turns: u32,
    forget: Option<u32>,
) -> Lanes<MemLink, MemLink> {
    Lanes {
        first: lane(rt, alloc, Bus::Ipmb, script, turns, forget),
        second: lane(rt, alloc, Bus::Smbus, &[], 1, forget),
    }
}

/// The board is served with a history that has so much room. So many events are in it then, the worker on IPMB ends so and has so many turns
/// left, and that on SMBus has none. The board, and what is left of the lanes.
pub(super) fn expect_served<R: Threads + Wait + Clock + Abort + Sync>(
    rt: &R,
    alloc: Global,
    board: Board<Records>,
    room: usize,
    lanes: Lanes<MemLink, MemLink>,
    name: &str,
    wanted: (usize, End, u32),
) -> (Board<Records>, Lanes<MemLink, MemLink>) {
    let Left {
        board,
        lanes,
        events,
        end,
    } = serve_at(rt, alloc, board, room, lanes);
    expect_equal(rt, name, (events, end, lanes.first.turns), wanted);
    expect_equal(rt, name, lanes.second.turns, 0);
    (board, lanes)
}

/// Whether these frames were sent, and no others.
fn are_sent(sent: &[Frame], wanted: &[&[u8]]) -> bool {
    if sent.len() != wanted.len() {
        return false;
    }
    for (frame, bytes) in sent.iter().zip(wanted.iter()) {
        if !frame.is(bytes) {
            return false;
        }
    }
    true
}

/// These frames were sent over IPMB's link, and no others.
pub(super) fn expect_sent(
    rt: &impl Abort,
    name: &str,
    lanes: Lanes<MemLink, MemLink>,
    wanted: &[&[u8]],
) {
    assert!(rt; are_sent(lanes.first.link.sent(), wanted), "{name}");
    drop(lanes);
}

#[test]
fn a_request_answered_before_a_change_gets_its_kept_reply_after_it(rt: HostRuntime) {
    let alloc = rt.alloc();
    let board = open_sample(&rt, alloc);
    let lanes = new_lanes(&rt, alloc, &SCRIPT, TURNS, None);
    let name = "there is no room for the second Get";
    let (board, lanes) = expect_served(&rt, alloc, board, 2, lanes, name, (2, End::Full, 3));
    let name = "the Set's repeat is no event, and the Get that found no room is one";
    let (board, lanes) = expect_served(&rt, alloc, board, 2, lanes, name, (1, End::Turns, 0));
    drop(board);
    let sent: [&[u8]; 4] = [&SET_REPLY, &GET_REPLY, &SET_REPLY, &LATER_REPLY];
    expect_sent(&rt, name, lanes, &sent);
}

#[test]
fn a_board_is_served_in_periods_until_all_turns_are_made(rt: HostRuntime) {
    let alloc = rt.alloc();
    let board = open_sample(&rt, alloc);
    let lanes = new_lanes(&rt, alloc, &SCRIPT, TURNS, None);
    let bell = AtomicBool::new(false);
    let rules = ServeRules {
        periods: true,
        quiet: None,
        bell: &bell,
    };
    let agenda = Agenda::once(Timetable::new(&[], None));
    let served = serve_periods(&rt, alloc, board, lanes, agenda, rules).ok();
    let course = served.expect(&rt, "two threads");
    let first = &course.lanes.first;
    let came = (course.events, first.turns, first.link.sent().len());
    drop(course);
    // Both repeats are no events.
    expect_equal(&rt, "events, turns and frames", came, (3, 0, 5));
}
