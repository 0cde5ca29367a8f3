//! A worker of one port: it hears frames over a link, has the board answer what they ask, and sends the replies.
ghost use Rattle.std.specs.Prelude.{◌≡◌, true, Some, OnOk, OnErr};
ghost use Rattle.bmc_core.specs.Port.{bus_of};
ghost use Rattle.bmc_shared.specs.Serving.{CallsNext, frames_in, StepOver, MakesTurn, OneTurnOver, HeardAndSent, WorkerRun, end_of};
ghost use Rattle.wire_links.specs.Trace.{GivesFrame, TakesEach};
ghost use Rattle.bmc_shared.specs.declared.worker.End.TheVariants.{Turns, Full};

use crate::caller::Caller;
use crate::gate::Gate;
use crate::held::PeriodFull;
use crate::opening::Opening;
use crate::seat::Seat;
use crate::shared::Shared;
use bmc_core::{Out, Port, ServeOutcome};
use cfg_records::Store;
use std::sync::Wait;
use two_wire::Frame;
use wire_links::{Heard, Link};

/// Why a worker ended.
#[derive(Clone, Copy, Debug, PartialEq, Eq)]
pub enum End {
    /// The worker made all of its turns, or the scanner came to the end of its list.
    Turns,
    /// The board's history had no room for its call.
    Full,
}

/// The next frame of a link. A call that fails hears none: what it would have heard is lost.
fn hear_next<L: Link>(link: &mut L) -> Option<Frame>
    ensures gives { GivesFrame L.Link link.old result link.new }
    ensures counts { CallsNext (frames_in result) (L.counts_of link.old) (L.counts_of link.new) }
{
    match link.next() {
        Ok(Heard::Frame(frame)) => Some(frame),
        Ok(Heard::Quiet) | Err(_) => None,
    }
}

/// Sends frames in their order. A frame whose sending fails is lost, and the next one is sent.
fn send_all<L: Link>(link: &mut L, frames: &[Frame])
    ensures took { TakesEach L.Link link.old frames.now link.new }
    ensures calls { (L.counts_of link.new).calls ≡ (L.counts_of link.old).calls }
    ensures heard { (L.counts_of link.new).heard ≡ (L.counts_of link.old).heard }
{
    for frame in frames {
        let _ = link.send(frame);
    }
}

/// What a worker keeps from turn to turn: the gate, how often it passed it, and the place for what its port sends.
#[derive(Drop)]
pub struct WorkerState<'a, G: Gate> {
    gate: &'a G,
    passed: u64,
    out: Out,
}

impl<'a, G: Gate> WorkerState<'a, G> {
    /// A worker's, that passed no gate yet.
    pub fn new(gate: &'a G) -> Self {
        WorkerState {
            gate,
            passed: 0,
            out: Out::new(),
        }
    }

    /// Passes the gate behind an exchange, if there was one, which passed it before.
    fn pass_behind(&mut self, served: ServeOutcome, port: u8) {
        if served == ServeOutcome::CarriedOut {
            self.gate.pass(port, self.passed.wrapping_add(1));
            self.passed = self.passed.wrapping_add(2);
        }
    }
}

/// Has a port take a frame, and does all that the frame asks for. Where the history has no room, the request is dropped.
fn take_frame<J: Opening, S: Store + Drop, L: Link, G: Gate, R: Wait>(
    rt: &R,
    shared: &Shared<J, S>,
    seat: &mut Seat<J>,
    port: &mut Port,
    link: &mut L,
    desk: &mut WorkerState<'_, G>,
    frame: &[u8],
) -> Result<(), PeriodFull>
    ensures takes { StepOver L.Link (end_of result) (Some frame.now) port.old port.new
        seat.old.calls.items seat.new.calls.items link.old link.new }
    ensures marked { OnErr result (seat.new.refused ≡ true) }
    ensures mark { OnOk result (seat.new.refused ≡ seat.old.refused) }
    ensures number { seat.new.number ≡ seat.old.number }
    ensures bus { bus_of port.new ≡ bus_of port.old }
    ensures calls { (L.counts_of link.new).calls ≡ (L.counts_of link.old).calls }
    ensures heard { (L.counts_of link.new).heard ≡ (L.counts_of link.old).heard }
{
    let caller = Caller::new(rt, shared, desk.gate, desk.passed);
    match port.serve(&caller, seat, frame, &mut desk.out) {
        Ok(served) => {
            send_all(link, desk.out.frames.as_slice());
            desk.pass_behind(served, seat.number());
            Ok(())
        }
        Err(full) => Err(full),
    }
}

/// What one turn came to: the frame that the link's `next` heard, if one, and how its worker ends by it, or would.
#[derive(Drop)]
pub struct TurnResult {
    pub heard: Option<Frame>,
    pub end: End,
}

/// One turn: one call of the link's `next`, and all that a frame heard asks for.
pub fn turn<J: Opening, S: Store + Drop, L: Link, G: Gate, R: Wait>(
    rt: &R,
    shared: &Shared<J, S>,
    seat: &mut Seat<J>,
    port: &mut Port,
    link: &mut L,
    desk: &mut WorkerState<'_, G>,
) -> TurnResult
    ensures made { MakesTurn L.Link result.end result.heard port.old port.new
        seat.old.calls.items seat.new.calls.items link.old link.new }
    ensures marked { result.end ≡ Full → seat.new.refused ≡ true }
    ensures mark { result.end ≡ Turns → seat.new.refused ≡ seat.old.refused }
    ensures number { seat.new.number ≡ seat.old.number }
    ensures bus { bus_of port.new ≡ bus_of port.old }
{
    let Some(frame) = hear_next(link) else {
        return TurnResult {
            heard: None,
            end: End::Turns,
        };
    };
    match take_frame(rt, shared, seat, port, link, desk, frame.as_slice()) {
        Ok(()) => TurnResult {
            heard: Some(frame),
            end: End::Turns,
        },
        Err(PeriodFull) => TurnResult {
            heard: Some(frame),
            end: End::Full,
        },
    }
}

/// Makes one turn, and says how its worker ends by it, or would.
fn work_once<J: Opening, S: Store + Drop, L: Link, G: Gate, R: Wait>(
    rt: &R,
    shared: &Shared<J, S>,
    seat: &mut Seat<J>,
    port: &mut Port,
    link: &mut L,
    desk: &mut WorkerState<'_, G>,
) -> End
    ensures worked { WorkerRun result 1 port.old port.new seat.old.calls.items
        seat.new.calls.items (L.counts_of link.old) (L.counts_of link.new) }
    ensures over { OneTurnOver L.Link result port.old port.new seat.old.calls.items
        seat.new.calls.items link.old link.new }
    ensures marked { result ≡ Full → seat.new.refused ≡ true }
    ensures mark { result ≡ Turns → seat.new.refused ≡ seat.old.refused }
    ensures number { seat.new.number ≡ seat.old.number }
    ensures bus { bus_of port.new ≡ bus_of port.old }
{
    let turned = turn(rt, shared, seat, port, link, desk);
    turned.end
}

/// Serves a port over a link for so many turns, or until the board's history is full. A repeat, a control message and what the port
/// ignores take no lock and pass no gate.
pub fn serve_port<J: Opening, S: Store + Drop, L: Link, G: Gate, R: Wait>(
    rt: &R,
    shared: &Shared<J, S>,
    seat: &mut Seat<J>,
    port: &mut Port,
    link: &mut L,
    gate: &G,
    turns: u32,
) -> End
    ensures worked { WorkerRun result turns port.old port.new seat.old.calls.items
        seat.new.calls.items (L.counts_of link.old) (L.counts_of link.new) }
    ensures over { HeardAndSent L.Link result turns port.old port.new seat.old.calls.items
        seat.new.calls.items link.old link.new }
    ensures marked { result ≡ Full → seat.new.refused ≡ true }
    ensures mark { result ≡ Turns → seat.new.refused ≡ seat.old.refused }
    ensures number { seat.new.number ≡ seat.old.number }
    ensures bus { bus_of port.new ≡ bus_of port.old }
{
    let mut desk = WorkerState::new(gate);
    for _ in 0..turns {
        match work_once(rt, shared, seat, port, link, &mut desk) {
            End::Turns => {}
            End::Full => return End::Full,
        }
    }
    End::Turns
}
