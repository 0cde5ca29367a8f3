//! A port on IPMB, which carries each distinct request out once.
ghost use Rattle.std.specs.Prelude.{◌≡◌, ◌≤◌, ℕ, length, IfOk, IfSome};
ghost use Rattle.two_wire.specs.Sizes.{most_ipmi_reply_data};
ghost use Rattle.ipmb_frame.specs.Grammar.{IsRequest};
ghost use Rattle.bmc_core.specs.PortSteps.{PortState, quiet_port, idles};
ghost use Rattle.bmc_core.specs.Rule.{has_window};
ghost use Rattle.bmc_core.specs.IpmbHeard.{IsHeard};
ghost use Rattle.bmc_core.specs.IpmbShown.{Represents, PortStepOf, IsHeardAt, IsNewRequest, IsNewTo, IsStep, AnswerStep};
ghost use Rattle.bmc_core.specs.IpmbServed.{ServesFrame};

pub mod laws;
mod pending;
mod replying;

use crate::out::{Out, Reason};
use crate::step::{ServeOutcome, Step};
use bmc_board::{Board, Carrier, DirectCarrier};
use cfg_records::{Answered, Store};
use ipmb_frame::{Msg, Request, read_frame};
pub use pending::IpmbPending;
use pending::RequestInFrame;
use replying::{Kept, carry_out, keep_answer, settle};
use std::alloc::{AllocError, Global};
use two_wire::Address;

/// A port on IPMB, at one address.
pub struct IpmbPort {
    wire: Address,
    /// The requests that it carried out, with their responses.
    windows: Kept,
}

// Written out: the crates above would prove a derived one anew.
impl Drop for IpmbPort {
    fn drop(self) {
        let IpmbPort { wire: _, windows } = self;
        drop(windows);
    }
}

/// The request to this address that the bytes are, or why nothing is heard in them.
fn read(wire: Address, bytes: &[u8]) -> Result<RequestInFrame<'_>, Reason>
    ensures { IsHeard wire bytes.now result }
{
    let message = match read_frame(bytes) {
        Ok(message) => message,
        Err(fault) => return Err(Reason::Frame(fault)),
    };
    if bytes[0] != wire.byte() {
        return Err(Reason::NotOurs);
    }
    match message {
        Msg::Response(_) => Err(Reason::NotRequest),
        Msg::Request(request) => Ok(in_frame(request, bytes)),
    }
}

/// The request with its bytes in its frame.
fn in_frame<'a>(request: Request<'a>, bytes: &'a [u8]) -> RequestInFrame<'a>
    requires { IsRequest request bytes.now }
    ensures { result ≡ request.entry }
{
    RequestInFrame::new(request, &bytes[4..bytes.len() - 1])
}

/// The new request to this address that the bytes are. Of all else `out` says what was done.
fn heard<'a>(
    wire: Address,
    windows: &Kept,
    bytes: &'a [u8],
    out: &mut Out,
) -> Option<RequestInFrame<'a>>
    ensures heard { IsHeardAt wire windows.now bytes.now result out.new }
    ensures fresh { IfSome result (λ request. IsNewRequest windows.now request) }
    ensures new { IfSome result (λ request. IsNewTo windows.now request) }
{
    let request = match read(wire, bytes) {
        Ok(request) => request,
        Err(why) => {
            out.ignore(why);
            return None;
        }
    };
    if settle(windows, &request, out) {
        return None;
    }
    Some(request)
}

impl IpmbPort {
    /// A port at this address. All of its memory is taken here.
    pub fn new(alloc: Global, wire: Address) -> Result<IpmbPort, AllocError>
        ensures { IfOk result (λ port. (eid : ℕ) → Represents port (quiet_port wire eid)) }
    {
        Ok(IpmbPort {
            wire,
            windows: Kept::new(alloc)?,
        })
    }

    /// Takes what is heard on the bus, has a new request carried out by the carrier, and fills in what is to be sent. It says whether
    /// a request was carried out. A request that the carrier refuses to carry out counts as not heard, and nothing is to be sent.
    /// It takes no memory.
    pub fn serve<C: Carrier>(
        &mut self,
        carrier: &C,
        kept: &mut C::Kept,
        bytes: &[u8],
        out: &mut Out,
    ) -> Result<ServeOutcome, C::Refusal>
        ensures { ServesFrame C.Carrier carrier.now self.old bytes.now kept.old result
            self.new out.new kept.new }
    {
        let Some(request) = heard(self.wire, &self.windows, bytes, out) else {
            return Ok(ServeOutcome::NothingAsked);
        };
        match carry_out(&mut self.windows, carrier, kept, &request, out) {
            Ok(()) => Ok(ServeOutcome::CarriedOut),
            Err(why) => Err(why),
        }
    }

    /// Takes what is heard on the bus, has the board carry a new request out, and fills in what is to be sent. It takes no memory.
    pub fn on_frame<S: Store>(&mut self, board: &mut Board<S>, bytes: &[u8], out: &mut Out)
        ensures heard { PortStepOf board.old self.old bytes.now out.new self.new board.new }
        ensures setup { board.new.setup ≡ board.old.setup }
    {
        let _ = self.serve(&DirectCarrier::new(), board, bytes, out);
    }

    /// Takes what is heard on the bus: asks what a new request asks of the board, or fills in what is to be sent. It takes no memory.
    pub fn hear(&mut self, bytes: &[u8], out: &mut Out) -> Step<IpmbPending>
        ensures { IsStep self.old bytes.now self.new out.new result }
    {
        match heard(self.wire, &self.windows, bytes, out) {
            Some(request) => Step::Ask(request.pending()),
            None => Step::Done,
        }
    }

    /// Takes the answer to a request that `hear` gave, and fills in what is to be sent. Where the request repeats another by
    /// now, it gets the kept response; where no window is free any more, the port answers that it's busy. The answer's
    /// data fit a response, as those of a board's answer to this request do.
    pub fn answer(&mut self, pending: IpmbPending, answered: &Answered, out: &mut Out)
        requires { length answered.now.body ≤ most_ipmi_reply_data }
        ensures { AnswerStep self.old pending answered.now self.new out.new }
    {
        let rest = pending.rest();
        let request = pending.request(&rest);
        if settle(&self.windows, &request, out) {
            return;
        }
        keep_answer(&mut self.windows, &request, answered, out);
    }

    /// Forgets a requester's window, and says whether there was one.
    pub fn idle(&mut self, requester: u8) -> bool
        ensures keeps { (p : PortState) → Represents self.old p
            → Represents self.new (idles requester p) }
        ensures had { (p : PortState) → Represents self.old p
            → result ≡ has_window requester p.log }
    {
        self.windows.idle(requester)
    }
}
