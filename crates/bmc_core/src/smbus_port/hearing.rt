//! Packets to requests, and what becomes of all else.
ghost use Rattle.std.specs.Prelude.{◌≤◌, ℕ, length, None};
ghost use Rattle.two_wire.specs.Sizes.{most_message_bytes};
ghost use Rattle.bmc_core.specs.SmbusShown.{TakesAt, HasHeard};
ghost use Rattle.bmc_core.specs.SmbusHeard.{message_in, control_in, pldm_in};

use super::pending::RequestInMessage;
use super::replying::send;
use crate::out::{Disposition, Out, Reason};
use crate::port::At;
use mctp_net::{Assembler, Endpoint, Envelope, Packet, Taken};
use model_bus::{CONTROL_MESSAGE_TYPE, PLDM_MESSAGE_TYPE};
use pldm_base::{PldmBytes, read_pldm};
use two_wire::Address;

/// Takes a packet at this two-wire address, and returns whether it ends a message. Where it doesn't, `out` says what was done.
pub(super) fn take(
    wire: Address,
    endpoint: &Endpoint,
    assembler: &mut Assembler,
    packet: &Packet<'_>,
    out: &mut Out,
) -> bool
    ensures { TakesAt wire endpoint.now assembler.old packet.now assembler.new out.new result }
{
    let envelope = packet.envelope;
    if envelope.destination.byte() != wire.byte() {
        out.ignore(Reason::NotOurs);
        return false;
    }
    match assembler.take(endpoint.eid().byte(), packet) {
        Taken::Waiting => {
            out.wait();
            false
        }
        Taken::Dropped(cause) => {
            out.ignore(Reason::Dropped(cause));
            false
        }
        Taken::Whole => true,
    }
}

/// Hears a message: gives the request that it is, or fills in what is to be sent.
pub(super) fn hear<'a>(
    wire: Address,
    endpoint: &mut Endpoint,
    envelope: Envelope,
    body: &'a [u8],
    out: &mut Out,
) -> Option<RequestInMessage<'a>>
    requires { length body.now ≤ most_message_bytes }
    ensures { HasHeard wire endpoint.old (message_in envelope body.now) endpoint.new
        out.new result }
{
    if !envelope.tag_owner {
        out.ignore(Reason::NotRequest);
        return None;
    }
    match body {
        [CONTROL_MESSAGE_TYPE, ..] => {
            control(wire, endpoint, envelope, body, out);
            None
        }
        [PLDM_MESSAGE_TYPE, bytes @ ..] => pldm(envelope, bytes, out),
        _ => {
            out.ignore(Reason::MessageType);
            None
        }
    }
}

/// Has a control message answered by the endpoint.
fn control(wire: Address, endpoint: &mut Endpoint, envelope: Envelope, body: &[u8], out: &mut Out)
    ensures { HasHeard wire endpoint.old (control_in envelope body.now) endpoint.new
        out.new None }
{
    match endpoint.control(body) {
        Some(reply) => {
            let at = At {
                wire,
                eid: endpoint.eid(),
            };
            out.done = Disposition::Control;
            send(&at, &envelope, reply.as_slice(), out);
        }
        None => out.ignore(Reason::NotRequest),
    }
}

/// Reads a request in the bytes of a PLDM message, if they are one.
fn pldm<'a>(envelope: Envelope, bytes: &'a [u8], out: &mut Out) -> Option<RequestInMessage<'a>>
    requires { length bytes.now ≤ 255 }
    ensures { (wire eid : ℕ) → HasHeard wire eid (pldm_in envelope bytes.now) eid
        out.new result }
{
    match read_pldm(&PldmBytes::new(bytes)) {
        Ok(request) => Some(RequestInMessage::new(envelope, request, &bytes[1..])),
        Err(fault) => {
            out.ignore(Reason::Pldm(fault));
            None
        }
    }
}
