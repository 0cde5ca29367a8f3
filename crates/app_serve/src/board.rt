//! A board that threads share, and what is left of it once it is closed.
ghost use Rattle.std.specs.Prelude.{◌≡◌, [], ◌∷◌, IfOk, IfSome};
ghost use Rattle.std.specs.List.{AllZip};
ghost use Rattle.two_wire.specs.declared.Bus.TheVariants as bus;
ghost use Rattle.bmc_board.specs.State.{state_of};
ghost use Rattle.bmc_lab.specs.Run.{IsFreshPort};
ghost use Rattle.bmc_shared.specs.Seated.{IsFreshSeat as HasNoCall};
ghost use Rattle.app_serve.specs.Served.{IsServedBoard};

use app_base::ReportFault;
use bmc_board::{Board, Records};
use bmc_core::Port;
use bmc_lab::controller_place;
pub use bmc_ports::MOST_EVENTS;
use bmc_ports::{Gate, History, Link, NoThread, Opening, Seats, Shared, run_two};
use std::alloc::{AllocError, Global};
use std::sync::Wait;
use std::sync::ledger::Blank;
use std::thread::Threads;
use two_wire::Bus;

/// A gate that holds nobody.
pub(crate) struct OpenGate;

impl Gate for OpenGate {
    fn pass(&self, _port: u8, _n: u64) {}
}

/// A board that was served, with the history that led to it.
#[derive(Drop)]
pub struct ClosedBoard {
    pub board: Board<Records>,
    pub history: History,
}

/// The controller's ports on both buses, which have heard nothing yet.
pub fn controller_ports(alloc: Global) -> Result<[Port; 2], AllocError>
    ensures { IfOk result (λ ports. AllZip IsFreshPort (bus.Ipmb ∷ bus.Smbus ∷ []) ports) }
{
    let at = controller_place();
    Ok([
        Port::new(alloc, Bus::Ipmb, at)?,
        Port::new(alloc, Bus::Smbus, at)?,
    ])
}

/// A board to be shared, and its seats, which have called nothing. All memory is taken here.
pub fn open_board<J: Opening>(
    alloc: Global,
    blank: Blank,
    board: Board<Records>,
    room: usize,
) -> Result<(Shared<J, Records>, Seats<J>), ReportFault>
    requires name { blank.name ≡ J.name }
    requires parts { blank.parts ≡ J.parts }
    requires three { blank.parts ≡ 3 }
    requires setup { board.setup ≡ J.setup }
    requires opening { state_of board ≡ J.opening }
    requires room { room ≡ J.room }
    ensures first { IfOk result (λ opened. HasNoCall opened.1.first) }
    ensures second { IfOk result (λ opened. HasNoCall opened.1.second) }
    ensures scanner { IfOk result (λ opened. HasNoCall opened.1.scanner) }
{
    match Shared::open(alloc, blank, board, room) {
        Ok(opened) => Ok(opened),
        Err((_, blank, board)) => {
            drop(blank);
            drop(board);
            Err(ReportFault::Memory)
        }
    }
}

/// Serves both ports of a board until both workers made their turns, or until its history is full. It gives the seats back.
pub fn work<J, A, B, R>(
    rt: &R,
    shared: &Shared<J, Records>,
    seats: Seats<J>,
    ports: [Port; 2],
    ipmb: &mut A,
    smbus: &mut B,
    turns: u32,
) -> Result<Seats<J>, NoThread>
where
    J: Opening + Send + Sync,
    A: Link + Send,
    B: Link + Send,
    R: Threads + Wait + Sync,
{
    match run_two(rt, shared, seats, ports, ipmb, smbus, &[], &OpenGate, turns) {
        Ok((seats, _)) => Ok(seats),
        Err(NoThread) => Err(NoThread),
    }
}

/// The board and its history, where the seats' lists are the history's.
pub fn close_board<J: Opening>(shared: Shared<J, Records>, seats: Seats<J>) -> Option<ClosedBoard>
    requires three { J.parts ≡ 3 }
    ensures { IfSome result (IsServedBoard J.setup J.opening J.room) }
{
    match shared.close(seats) {
        Ok((board, history)) => Some(ClosedBoard { board, history }),
        Err(_) => None,
    }
}
