//! A port on the System Management Bus, which carries each distinct request out once.
ghost use Rattle.std.specs.Prelude.{◌≡◌, ◌≤◌, length, IfOk};
ghost use Rattle.two_wire.specs.Sizes.{most_message_bytes};
ghost use Rattle.bmc_core.specs.PortSteps.{PortState, quiet_port, idles};
ghost use Rattle.bmc_core.specs.Rule.{has_window};
ghost use Rattle.bmc_core.specs.SmbusShown.{Represents, ReadsAt, GivesHeard, AskingStep, AnswerStep, PortStepOf};
ghost use Rattle.bmc_core.specs.SmbusServed.{ServesFrame};

mod hearing;
pub mod laws;
mod pending;
mod replying;

use crate::out::{Out, Reason};
use crate::port::At;
use crate::step::{ServeOutcome, Step};
use bmc_board::{Board, Carrier, DirectCarrier};
use cfg_records::{Answered, Store};
use hearing::{hear, take};
use mctp_net::{Assembler, Endpoint, Envelope, Packet, read_packet};
use pending::RequestInMessage;
pub use pending::SmbusPending;
use replying::{Kept, Reply, carry_out, keep_answer, settle};
use std::alloc::{AllocError, Global};
use two_wire::Address;

/// A port of the controller on the System Management Bus.
pub struct SmbusPort {
    /// The port's two-wire address.
    wire: Address,
    /// The endpoint behind it, whose EID a requester can set.
    endpoint: Endpoint,
    /// The packets of messages that aren't whole yet.
    assembler: Assembler,
    /// The requests that it carried out, with their replies.
    windows: Kept,
    /// Where the reply of a new request is made.
    made: Reply,
}

// Written out: the crates above would prove a derived one anew.
impl Drop for SmbusPort {
    fn drop(self) {
        let SmbusPort {
            wire: _,
            endpoint: _,
            assembler,
            windows,
            made: _,
        } = self;
        drop(assembler);
        drop(windows);
    }
}

/// The packet to this address that the bytes are, where it ends a message. Of all else `out` says what was done.
fn read<'a>(
    wire: Address,
    endpoint: &Endpoint,
    assembler: &mut Assembler,
    bytes: &'a [u8],
    out: &mut Out,
) -> Option<Packet<'a>>
    ensures { ReadsAt wire endpoint.now assembler.old bytes.now assembler.new out.new result }
{
    let packet = match read_packet(bytes) {
        Ok(packet) => packet,
        Err(fault) => {
            out.ignore(Reason::Packet(fault));
            return None;
        }
    };
    if !take(wire, endpoint, assembler, &packet, out) {
        return None;
    }
    Some(packet)
}

/// The new request that a message of this envelope and body is. Of all else `out` says what was done.
fn heard<'a>(
    wire: Address,
    endpoint: &mut Endpoint,
    windows: &Kept,
    envelope: Envelope,
    body: &'a [u8],
    out: &mut Out,
) -> Option<RequestInMessage<'a>>
    requires { length body.now ≤ most_message_bytes }
    ensures { GivesHeard wire windows.now endpoint.old endpoint.new envelope body.now
        out.new result }
{
    let Some(request) = hear(wire, endpoint, envelope, body, out) else {
        return None;
    };
    let at = At {
        wire,
        eid: endpoint.eid(),
    };
    if settle(windows, &at, &request, out) {
        return None;
    }
    Some(request)
}

impl SmbusPort {
    /// A port that has heard nothing yet. All of its memory is taken here.
    pub fn new(alloc: Global, at: At) -> Result<SmbusPort, AllocError>
        ensures { IfOk result (λ port. Represents port (quiet_port at.wire at.eid)) }
    {
        Ok(SmbusPort {
            wire: at.wire,
            endpoint: Endpoint::new(at.eid),
            assembler: Assembler::new(alloc)?,
            windows: Kept::new(alloc)?,
            made: Reply::new(),
        })
    }

    /// Where it is, and which EID its endpoint has now.
    pub fn at(&self) -> At
        ensures wire { result.wire ≡ self.now.wire }
        ensures eid { result.eid ≡ self.now.endpoint }
    {
        At {
            wire: self.wire,
            eid: self.endpoint.eid(),
        }
    }

    /// Takes what is heard on the bus: asks what a new request asks of the board, or fills in what is to be sent. It takes no memory.
    pub fn hear(&mut self, bytes: &[u8], out: &mut Out) -> Step<SmbusPending>
        ensures { AskingStep self.old bytes.now self.new out.new result }
    {
        let Some(packet) = read(self.wire, &self.endpoint, &mut self.assembler, bytes, out) else {
            return Step::Done;
        };
        match heard(
            self.wire,
            &mut self.endpoint,
            &self.windows,
            packet.envelope,
            self.assembler.body(&packet),
            out,
        ) {
            Some(request) => Step::Ask(request.pending()),
            None => Step::Done,
        }
    }

    /// Takes the answer to what was asked, and fills in what is to be sent. It takes no memory. Where the request
    /// repeats another by now, it gets the kept reply; where no window is free any more, the port answers that it's busy.
    pub fn answer(&mut self, pending: SmbusPending, answered: &Answered, out: &mut Out)
        ensures { AnswerStep self.old pending answered.now self.new out.new }
    {
        let at = self.at();
        let bytes = pending.bytes();
        let request = pending.request(&bytes);
        if settle(&self.windows, &at, &request, out) {
            return;
        }
        keep_answer(
            &mut self.windows,
            &mut self.made,
            &at,
            &request,
            answered,
            out,
        );
    }

    /// Takes what is heard on the bus, has a new request carried out by the carrier, and fills in what is to be sent. It says whether
    /// a request was carried out. A request that the carrier refuses to carry out counts as not heard, and nothing is to be sent.
    /// It takes no memory.
    pub fn serve<C: Carrier>(
        &mut self,
        carrier: &C,
        kept: &mut C::Kept,
        bytes: &[u8],
        out: &mut Out,
    ) -> Result<ServeOutcome, C::Refusal>
        ensures { ServesFrame C.Carrier carrier.now self.old bytes.now kept.old result
            self.new out.new kept.new }
    {
        let Some(packet) = read(self.wire, &self.endpoint, &mut self.assembler, bytes, out) else {
            return Ok(ServeOutcome::NothingAsked);
        };
        let Some(request) = heard(
            self.wire,
            &mut self.endpoint,
            &self.windows,
            packet.envelope,
            self.assembler.body(&packet),
            out,
        ) else {
            return Ok(ServeOutcome::NothingAsked);
        };
        let at = At {
            wire: self.wire,
            eid: self.endpoint.eid(),
        };
        match carry_out(
            &mut self.windows,
            &mut self.made,
            carrier,
            kept,
            &at,
            &request,
            out,
        ) {
            Ok(()) => Ok(ServeOutcome::CarriedOut),
            Err(why) => Err(why),
        }
    }

    /// Takes what is heard on the bus, has the board carry a new request out, and fills in what is to be sent. It takes no memory.
    pub fn on_frame<S: Store>(&mut self, board: &mut Board<S>, bytes: &[u8], out: &mut Out)
        ensures heard { PortStepOf board.old self.old bytes.now out.new self.new board.new }
        ensures setup { board.new.setup ≡ board.old.setup }
    {
        let _ = self.serve(&DirectCarrier::new(), board, bytes, out);
    }

    /// Forgets a requester's window, and says whether there was one.
    pub fn idle(&mut self, requester: u8) -> bool
        ensures keeps { (p : PortState) → Represents self.old p
            → Represents self.new (idles requester p) }
        ensures had { (p : PortState) → Represents self.old p
            → result ≡ has_window requester p.log }
    {
        self.windows.idle(requester)
    }
}
