//! The port of either bus.
ghost use Rattle.std.specs.Prelude.{◌≡◌, ◌≤◌, IfOk, length};
ghost use Rattle.record_base.specs.Meaning.{room_for};
ghost use Rattle.bmc_core.specs.PortSteps.{PortState, quiet_port, idles};
ghost use Rattle.bmc_core.specs.Rule.{has_window};
ghost use Rattle.bmc_core.specs.Port.{bus_of, bus_asked, asked_of, Represents, PortStepOf, IsStep, IsOn, AnswerStep, ServesFrame};

pub mod laws;

use crate::ipmb_port::{IpmbPending, IpmbPort};
use crate::out::Out;
use crate::smbus_port::{SmbusPending, SmbusPort};
use crate::step::{ServeOutcome, Step};
use bmc_board::{Board, Carrier};
use cfg_records::{Answered, Asked, Store};
use mctp_net::EndpointId;
use std::alloc::{AllocError, Global};
use two_wire::{Address, Bus};

/// Where the controller is on a bus: its two-wire address, and the EID that its endpoint begins with, which a port on IPMB ignores.
#[derive(Clone, Copy)]
pub struct At {
    pub wire: Address,
    pub eid: EndpointId,
}

/// A request that waits for an answer of the board, as a port of its bus heard it.
#[derive(Drop)]
pub enum Pending {
    Ipmb(IpmbPending),
    Smbus(SmbusPending),
}

impl Pending {
    /// What is to be asked of the board.
    pub fn asked(&self) -> Asked
        ensures { result ≡ asked_of self.now }
    {
        match self {
            Pending::Ipmb(pending) => pending.asked(),
            Pending::Smbus(pending) => pending.asked(),
        }
    }
}

/// A port of the controller on one bus.
pub enum Port {
    Ipmb(IpmbPort),
    Smbus(SmbusPort),
}

// Written out: the crates above would prove a derived one anew.
impl Drop for Port {
    fn drop(self) {
        match self {
            Port::Ipmb(port) => drop(port),
            Port::Smbus(port) => drop(port),
        }
    }
}

impl Port {
    /// A port of the bus. All of its memory is taken here.
    pub fn new(alloc: Global, bus: Bus, at: At) -> Result<Port, AllocError>
        ensures bus { IfOk result (λ port. bus_of port ≡ bus) }
        ensures quiet { IfOk result (λ port. Represents port (quiet_port at.wire at.eid)) }
    {
        match bus {
            Bus::Ipmb => Ok(Port::Ipmb(IpmbPort::new(alloc, at.wire)?)),
            Bus::Smbus => Ok(Port::Smbus(SmbusPort::new(alloc, at)?)),
        }
    }

    /// Takes what is heard on the bus, has a new request carried out by the carrier, and fills in what is to be sent. It says whether
    /// a request was carried out. A request that the carrier refuses to carry out counts as not heard, and nothing is to be sent.
    /// It takes no memory: the carrier looks at the request where it lies, and appends the reply's data where they are sent from.
    pub fn serve<C: Carrier>(
        &mut self,
        carrier: &C,
        kept: &mut C::Kept,
        bytes: &[u8],
        out: &mut Out,
    ) -> Result<ServeOutcome, C::Refusal>
        ensures served { ServesFrame C.Carrier carrier.now self.old bytes.now kept.old result
            self.new out.new kept.new }
        ensures bus { bus_of self.new ≡ bus_of self.old }
    {
        match self {
            Port::Ipmb(port) => port.serve(carrier, kept, bytes, out),
            Port::Smbus(port) => port.serve(carrier, kept, bytes, out),
        }
    }

    /// Takes what is heard on the bus, and fills in what is to be sent. It takes no memory.
    pub fn on_frame<S: Store>(&mut self, board: &mut Board<S>, bytes: &[u8], out: &mut Out)
        ensures heard { PortStepOf board.old self.old bytes.now out.new self.new board.new }
        ensures setup { board.new.setup ≡ board.old.setup }
        ensures bus { bus_of self.new ≡ bus_of self.old }
    {
        match self {
            Port::Ipmb(port) => port.on_frame(board, bytes, out),
            Port::Smbus(port) => port.on_frame(board, bytes, out),
        }
    }

    /// Takes what is heard on the bus: asks what a new request asks of the board, or fills in what is to be sent. It takes no memory.
    pub fn hear(&mut self, bytes: &[u8], out: &mut Out) -> Step<Pending>
        ensures steps { IsStep self.old bytes.now self.new out.new result }
        ensures asked { IsOn (bus_of self.new) result }
        ensures bus { bus_of self.new ≡ bus_of self.old }
    {
        match self {
            Port::Ipmb(port) => match port.hear(bytes, out) {
                Step::Ask(pending) => Step::Ask(Pending::Ipmb(pending)),
                Step::Done => Step::Done,
            },
            Port::Smbus(port) => match port.hear(bytes, out) {
                Step::Ask(pending) => Step::Ask(Pending::Smbus(pending)),
                Step::Done => Step::Done,
            },
        }
    }

    /// Takes the answer to a request that a port of this bus heard, and fills in what is to be sent. It takes no memory. Where the
    /// request repeats another by now, it gets the kept reply; where no window is free any more, the port answers that it's busy. The
    /// answer fits a reply, as a board's does.
    pub fn answer(&mut self, pending: Pending, answered: &Answered, out: &mut Out)
        requires bus { bus_asked pending ≡ bus_of self.old }
        requires fits { length answered.now.body ≤ room_for (asked_of pending) }
        ensures answers { AnswerStep self.old pending answered.now self.new out.new }
        ensures bus { bus_of self.new ≡ bus_of self.old }
    {
        match self {
            Port::Ipmb(port) => match pending {
                Pending::Ipmb(pending) => port.answer(pending, answered, out),
                Pending::Smbus(_) => unreachable!(),
            },
            Port::Smbus(port) => match pending {
                Pending::Ipmb(_) => unreachable!(),
                Pending::Smbus(pending) => port.answer(pending, answered, out),
            },
        }
    }

    /// Forgets a requester's window, and says whether there was one.
    pub fn idle(&mut self, requester: u8) -> bool
        ensures keeps { (p : PortState) → Represents self.old p
            → Represents self.new (idles requester p) }
        ensures had { (p : PortState) → Represents self.old p
            → result ≡ has_window requester p.log }
        ensures bus { bus_of self.new ≡ bus_of self.old }
    {
        match self {
            Port::Ipmb(port) => port.idle(requester),
            Port::Smbus(port) => port.idle(requester),
        }
    }
}
