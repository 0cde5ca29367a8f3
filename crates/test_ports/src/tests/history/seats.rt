//! Threads that share a board.
ghost use Rattle.std.specs.Prelude.{◌≡◌};
ghost use Rattle.bmc_board.specs.State.{state_of};

use super::{expect_equal, history_of, open_sample, open_shared};
use bmc_board::{Board, Records};
use bmc_ports::{Call, History, Opening, Seat, Seats, Shared};
use record_base::{Asked, net_fn};
use std::alloc::Global;
use std::marker::Brand;
use std::process::Abort;
use std::snapshot::Snapshot;
use std::sync::Wait;
use std::sync::ledger::Blank;
use std::thread;
use std::thread::{Promise, PromisedHandle, Scope, Threads};
use two_wire::NetFn;

/// What a thread gives back: the seat that it was given.
#[derive(Drop)]
struct SeatOf<J: Opening>(Snapshot<Seat<J>>);

impl<J: Opening> Promise<Seat<J>> for SeatOf<J> {
    ghost kept_by = { λ promise seat. seat.number ≡ promise.0.value.number };
}

/// Has a seat ask the board, and gives it back.
fn ask<J: Opening, R: Wait>(
    rt: &R,
    shared: &Shared<J, Records>,
    mut seat: Seat<J>,
    asked: &Asked,
) -> Seat<J>
    ensures { result.number ≡ seat.number }
{
    let _ = shared.exchange(rt, &mut seat, asked);
    seat
}

/// Has a seat ask the board, in a thread of its own that gives it back.
fn spawn_ask<'s, E, J: Opening + Send + Sync + 's, R: Threads + Wait + Abort + Sync>(
    scope: &Scope<'s, E>,
    rt: &'s R,
    shared: &'s Shared<J, Records>,
    seat: Seat<J>,
    asked: &'s Asked,
) -> PromisedHandle<Seat<J>, SeatOf<J>>
    ensures { result.promise.0.value.number ≡ seat.number }
{
    let promise = SeatOf(Snapshot::of(&seat));
    let spawned = scope.spawn_with(promise, move || ask(rt, shared, seat, asked));
    spawned.ok().expect(rt, "a thread")
}

/// Each seat asks the board once, in a thread of its own.
fn ask_each<J: Opening + Send + Sync, R: Threads + Wait + Abort + Sync>(
    rt: &R,
    shared: &Shared<J, Records>,
    seats: Seats<J>,
    asked: &Asked,
) -> Seats<J> {
    let Seats {
        first,
        second,
        scanner,
    } = seats;
    thread::scope(
        thread::scope_env(),
        rt,
        |scope| -> Seats<J>
            requires { (first.number ≡ 0) × (second.number ≡ 1) × (scanner.number ≡ 2) }
        {
            let first = spawn_ask(scope, rt, shared, first, asked);
            let second = spawn_ask(scope, rt, shared, second, asked);
            let scanner = spawn_ask(scope, rt, shared, scanner, asked);
            Seats {
                first: first.join(rt),
                second: second.join(rt),
                scanner: scanner.join(rt),
            }
        },
    )
}

/// Three threads ask a board for its device's identifier.
fn share<J: Opening + Send + Sync, R: Threads + Wait + Abort + Sync>(
    rt: &R,
    alloc: Global,
    blank: Blank,
    board: Board<Records>,
    room: usize,
) -> History
    requires name { blank.name ≡ J.name }
    requires parts { blank.parts ≡ J.parts }
    requires three { blank.parts ≡ 3 }
    requires setup { board.setup ≡ J.setup }
    requires opening { state_of board ≡ J.opening }
    requires room { room ≡ J.room }
{
    let (shared, seats) = open_shared::<J, R>(rt, alloc, blank, board, room);
    let asked = Asked::ipmi(NetFn::new(net_fn::APPLICATION), 0x01, &[]);
    let seats = ask_each(rt, &shared, seats, &asked);
    history_of(rt, shared, seats)
}

/// The same, with a ledger of its own.
fn share_at<R: Threads + Wait + Abort + Sync>(
    rt: &R,
    alloc: Global,
    board: Board<Records>,
    room: usize,
) -> History {
    share::<Brand, R>(rt, alloc, Blank::new(3), board, room)
}

/// The code of the exchange at this place.
pub(super) fn code_at(history: &History, place: usize) -> Option<u8> {
    match history.get(place)?.call {
        Call::Exchanged { asked: _, answered } => Some(answered.code),
        Call::Benched { .. } => None,
    }
}

/// Three threads ask a board for its device's identifier, and its history, which has so much room, gains so many answers.
fn expect_asked<R: Threads + Wait + Abort + Sync>(
    rt: &R,
    alloc: Global,
    name: &str,
    room: usize,
    answers: usize,
) {
    let history = share_at(rt, alloc, open_sample(rt, alloc), room);
    expect_equal(rt, name, history.len(), answers);
    for place in 0..answers {
        expect_equal(rt, name, code_at(&history, place), Some(0x00));
    }
}

#[test]
fn three_threads_ask_one_board(rt: HostRuntime) {
    let alloc = rt.alloc();
    expect_asked(&rt, alloc, "three threads ask one board", 8, 3);
    expect_asked(&rt, alloc, "a full history refuses two of three", 1, 1);
}
