//! How many events a history has room for.
ghost use Rattle.std.specs.Prelude.{◌≡◌};
ghost use Rattle.bmc_board.specs.State.{state_of};

use super::{expect_equal, open_sample};
use bmc_board::{Bench, Board};
use bmc_ports::{Held, OpenFault, Opening, PeriodFull, Shared};
use cfg_records::Store;
use record_base::{Asked, net_fn};
use std::alloc::Global;
use std::marker::Brand;
use std::process::Abort;
use std::sync::ledger::Blank;
use two_wire::NetFn;

/// Opens the board alone, and gives the fault with the board.
fn hold<J: Opening, S: Store + Drop>(
    rt: &impl Abort,
    alloc: Global,
    board: Board<S>,
    room: usize,
) -> (OpenFault, Board<S>)
    requires setup { board.setup ≡ J.setup }
    requires opening { state_of board ≡ J.opening }
    requires room { room ≡ J.room }
{
    let opened = Held::<J, S>::open(alloc, board, room);
    opened.err().expect(rt, "a fault")
}

/// Opens the board for threads, and gives the fault with the board.
fn share<J: Opening, S: Store + Drop>(
    rt: &impl Abort,
    alloc: Global,
    blank: Blank,
    board: Board<S>,
    room: usize,
) -> (OpenFault, Board<S>)
    requires name { blank.name ≡ J.name }
    requires parts { blank.parts ≡ J.parts }
    requires three { blank.parts ≡ 3 }
    requires setup { board.setup ≡ J.setup }
    requires opening { state_of board ≡ J.opening }
    requires room { room ≡ J.room }
{
    let opened = Shared::<J, S>::open(alloc, blank, board, room);
    let (fault, _, board) = opened.err().expect(rt, "a fault");
    (fault, board)
}

/// The room is refused, both alone and for threads. The board.
fn expect_refused<S: Store + Drop>(
    rt: &impl Abort,
    alloc: Global,
    board: Board<S>,
    room: usize,
) -> Board<S> {
    let (alone, board) = hold::<Brand, S>(rt, alloc, board, room);
    let (shared, board) = share::<Brand, S>(rt, alloc, Blank::new(3), board, room);
    let refused = (room, OpenFault::Room, OpenFault::Room);
    expect_equal(rt, "a room is refused", (room, alone, shared), refused);
    board
}

/// Has a board answer a request for its device's identifier from this port. The code, where the history has room.
fn ask<J: Opening, S: Store>(held: &mut Held<J, S>, port: u8) -> Option<u8> {
    let asked = Asked::ipmi(NetFn::new(net_fn::APPLICATION), 0x01, &[]);
    match held.exchange(port, &asked) {
        Ok(answered) => Some(answered.code),
        Err(PeriodFull) => None,
    }
}

/// A board answers and has something happen, once each. Then its history is full, and refuses both.
fn call_until_full<J: Opening, S: Store>(rt: &impl Abort, held: &mut Held<J, S>) {
    expect_equal(rt, "a request", ask(held, 0), Some(0x00));
    expect_equal(rt, "a tick", held.bench(2, Bench::Tick), Ok(Ok(())));
    expect_equal(rt, "a request that is refused", ask(held, 1), None);
    let refused = held.bench(2, Bench::Tick);
    expect_equal(rt, "a tick that is refused", refused, Err(PeriodFull));
    expect_equal(rt, "whether it is full", held.is_full(), true);
}

/// Calls a board until its history, which has room for two events, is full.
fn fill<J: Opening, S: Store + Drop>(rt: &impl Abort, alloc: Global, board: Board<S>, room: usize)
    requires setup { board.setup ≡ J.setup }
    requires opening { state_of board ≡ J.opening }
    requires room { room ≡ J.room }
{
    let opened = Held::<J, S>::open(alloc, board, room).ok();
    let mut held = opened.expect(rt, "a board that is held");
    call_until_full(rt, &mut held);
    let (board, history) = held.into_parts();
    drop(board);
    expect_equal(rt, "events", history.len(), 2);
}

/// The same, with an opening of its own.
fn fill_two<S: Store + Drop>(rt: &impl Abort, alloc: Global, board: Board<S>) {
    fill::<Brand, S>(rt, alloc, board, 2)
}

#[test]
fn a_history_has_room_for_1_to_4096_events(rt: HostRuntime) {
    let board = open_sample(&rt, rt.alloc());
    let board = expect_refused(&rt, rt.alloc(), board, 0);
    let board = expect_refused(&rt, rt.alloc(), board, 4_097);
    fill_two(&rt, rt.alloc(), board);
}
