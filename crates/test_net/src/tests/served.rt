//! A worker whose link fails.
ghost use Rattle.std.specs.Prelude.{◌≡◌};
ghost use Rattle.bmc_board.specs.State.{state_of};

use super::shared::{close, expect_equal, open_shared};
use super::wired::{Faulty, open_sample, port_on};
use bmc_board::{Board, Records};
use bmc_ports::{End, Gate, Opening, serve_port};
use std::alloc::Global;
use std::marker::Brand;
use std::process::Abort;
use std::sync::Wait;
use std::sync::ledger::Blank;
use two_wire::Bus;
use wire_links::{Link, MemLink};

/// A Set of boot parameter 5.
pub(super) const SET: [u8; 13] = [
    0x20, 0x00, 0xE0, 0x2C, 0x00, 0x08, 0x05, 0x80, 0x04, 0x00, 0x00, 0x00, 0x43,
];

/// A Get of it.
pub(super) const GET: [u8; 10] = [0x20, 0x00, 0xE0, 0x2C, 0x04, 0x09, 0x05, 0x00, 0x00, 0xC2];

const TURNS: u32 = 5;

/// A gate that holds nobody.
#[derive(Drop)]
pub(super) struct Open;

impl Gate for Open {
    fn pass(&self, _port: u8, _n: u64) {}
}

/// Has a worker serve port 0 of a board: why it ended, and how long the history is.
fn serve_first<J: Opening, R: Wait + Abort>(
    rt: &R,
    alloc: Global,
    blank: Blank,
    board: Board<Records>,
    room: usize,
    link: &mut Faulty<MemLink>,
) -> (End, usize)
    requires name { blank.name ≡ J.name }
    requires parts { blank.parts ≡ J.parts }
    requires three { blank.parts ≡ 3 }
    requires setup { board.setup ≡ J.setup }
    requires opening { state_of board ≡ J.opening }
    requires room { room ≡ J.room }
{
    let (shared, mut seats) = open_shared::<J, R>(rt, alloc, blank, board, room);
    let mut port = port_on(rt, alloc, Bus::Ipmb);
    let end = serve_port(rt, &shared, &mut seats.first, &mut port, link, &Open, TURNS);
    drop(port);
    let (board, events) = close(rt, shared, seats);
    drop(board);
    (end, events)
}

/// The same of the sample board, with a ledger of its own and room for eight events.
fn serve_sample<R: Wait + Abort>(
    rt: &R,
    alloc: Global,
    link: &mut Faulty<MemLink>,
) -> (End, usize) {
    let board = open_sample(rt, alloc);
    serve_first::<Brand, R>(rt, alloc, Blank::new(3), board, 8, link)
}

/// The worker hears a Set and a Get and makes its turns, whichever call of its link fails. How many of them failed.
fn failures_at<R: Wait + Abort>(rt: &R, alloc: Global, failing_call: u32) -> u64 {
    let link = MemLink::new(alloc, &[&SET, &GET]).ok().expect(rt, "a link");
    let mut link = Faulty::new(link, failing_call);
    let (end, events) = serve_sample(rt, alloc, &mut link);
    let counts = link.counts();
    drop(link);
    let came = (failing_call, end, events, counts.calls, counts.heard);
    let wanted = (failing_call, End::Turns, 2, 5, 2);
    expect_equal(rt, "the failing call, and what came", came, wanted);
    counts.failures
}

#[test]
fn whichever_call_of_its_link_fails_a_worker_goes_on(rt: HostRuntime) {
    let mut met = 0;
    for call in 1..100 {
        if failures_at(&rt, rt.alloc(), call) == 0 {
            break;
        }
        met = call;
    }
    // Five calls of `next`, and one reply to each of two frames.
    expect_equal(&rt, "calls", met, 7);
}
