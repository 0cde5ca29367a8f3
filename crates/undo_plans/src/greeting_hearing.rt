//! Frames that come to a greeting.
ghost use Rattle.std.specs.Prelude.{◌≡◌, ◌↔◌, ◌≤◌, ℕ, length, None, IsTrue};
ghost use Rattle.undo_plans.specs.GreetingRequests.{IsReplyTo, is_code, is_told_by, is_told_in, is_from_controller as goes_to_manager, is_part as is_part_of, is_single as is_single_packet, is_reply as is_reply_of, replies_to};
ghost use Rattle.undo_plans.specs.Greeter.{place_after, begins, IsStepResult, IsHeard, IsIgnored, IsToldBusy};
ghost use Rattle.mctp_net.specs.Assembly.{is_ours as goes_to};
ghost use Rattle.model_bus.specs.Bytes.{is_busy_code};

use crate::greeting::{Greeting, GreetingStage};
use crate::greeting_requests::{
    GET_DEVICE_ID, GET_TID, MESSAGING_CONTROL, instance_at, sequence_at, tag_at,
};
use crate::names::Names;
use ipmb_frame::{Msg, Response, read_frame};
use mctp_net::{Packet, read_packet};
use model_bus::PLDM_MESSAGE_TYPE;
use pldm_base::{PldmBytes, PldmReply, read_pldm_reply};
use record_base::net_fn::APPLICATION;
use two_wire::{Bus, Frame, code};

impl Greeting {
    /// Hears the bytes of a frame. Where they answer the open request, the next one is begun.
    pub fn on_frame(&mut self, bus: Bus, bytes: &[u8]) -> Option<Frame>
        ensures answered { (place : ℕ) → IsHeard self.old bus bytes.now place
            → IsStepResult self.new result (begins self.old (place_after self.old.bus place)) }
        // Nothing else changes it, and it sends nothing then.
        ensures ignored { IsIgnored self.old bus bytes.now
            → (self.new ≡ self.old) × (result ≡ None) }
    {
        let GreetingStage::Opened {
            heeded: true,
            place,
        } = self.stage
        else {
            return None;
        };
        if self.bus != bus || !is_reply_to(false, &self.names, bus, self.count(place), bytes) {
            return None;
        }
        self.begin_after(place)
    }

    /// Whether the bytes of a frame say of the open request that the controller is busy. Such a
    /// frame answers nothing.
    pub fn is_told_busy(&self, bus: Bus, bytes: &[u8]) -> bool
        ensures { IsTrue result ↔ ((place : ℕ) × IsToldBusy self.now bus bytes.now place) }
    {
        let GreetingStage::Opened {
            heeded: true,
            place,
        } = self.stage
        else {
            return false;
        };
        self.bus == bus && is_reply_to(true, &self.names, bus, self.count(place), bytes)
    }
}

/// Whether the bytes are the reply to the greeting's request of this count, with a code of a busy
/// controller, or with another.
fn is_reply_to(busy: bool, names: &Names, bus: Bus, count: u16, bytes: &[u8]) -> bool
    ensures { IsTrue result ↔ IsReplyTo busy names.now bus count bytes.now }
{
    match bus {
        Bus::Ipmb => match read_frame(bytes) {
            Ok(Msg::Response(response)) => is_told_by(busy, names, count, &response),
            _ => false,
        },
        Bus::Smbus => match read_packet(bytes) {
            Ok(packet) => is_told_in(busy, names, count, &packet),
            Err(_) => false,
        },
    }
}

/// Whether the response is that reply.
fn is_told_by(busy: bool, names: &Names, count: u16, response: &Response<'_>) -> bool
    ensures { result ≡ is_told_by busy names.now count response.now }
{
    let header = &response.header;
    is_from_controller(names, response)
        && header.net_fn.number() == APPLICATION
        && header.sequence == sequence_at(count)
        && header.command == GET_DEVICE_ID
        && has_code(busy, response.code)
}

/// Whether the response goes from the controller to the manager.
fn is_from_controller(names: &Names, response: &Response<'_>) -> bool
    ensures { result ≡ goes_to_manager names.now response.now }
{
    let header = &response.header;
    header.requester.address == names.own_address && header.responder.address == names.peer_address
}

/// Whether the packet is that reply.
fn is_told_in(busy: bool, names: &Names, count: u16, packet: &Packet<'_>) -> bool
    ensures { result ≡ is_told_in busy names.now count packet.now }
{
    is_part(names, count, packet)
        && is_ours(names, packet)
        && is_single(packet)
        && is_reply(busy, count, packet.payload.as_slice())
}

/// Whether the packet goes from the controller to the manager, under the request's tag.
fn is_part(names: &Names, count: u16, packet: &Packet<'_>) -> bool
    ensures { result ≡ is_part_of names.now count packet.now }
{
    let envelope = &packet.envelope;
    envelope.destination == names.own_wire
        && envelope.source == names.peer_wire
        && envelope.source_eid == names.peer_eid
        && !envelope.tag_owner
        && envelope.tag == tag_at(count)
}

/// Whether the packet goes to the manager's endpoint, or to whichever has the address.
fn is_ours(names: &Names, packet: &Packet<'_>) -> bool
    ensures { result ≡ goes_to names.now.own_eid packet.now }
{
    let to = packet.envelope.destination_eid;
    to == names.own_eid || to == 0
}

/// Whether the packet is a whole message.
fn is_single(packet: &Packet<'_>) -> bool
    ensures { result ≡ is_single_packet packet.now }
{
    packet.start && packet.end && packet.sequence.number() == 0
}

/// Whether the message is the reply to the request.
fn is_reply(busy: bool, count: u16, message: &[u8]) -> bool
    requires { length message.now ≤ 64 }
    ensures { result ≡ is_reply_of busy count message.now }
{
    let [kind, bytes @ ..] = message else {
        return false;
    };
    if *kind != PLDM_MESSAGE_TYPE {
        return false;
    }
    match read_pldm_reply(&PldmBytes::new(bytes)) {
        Ok(reply) => replies_to(busy, count, &reply),
        Err(_) => false,
    }
}

/// Whether the reply has the number, the type and the command of the request, and such a code.
fn replies_to(busy: bool, count: u16, reply: &PldmReply<'_>) -> bool
    ensures { result ≡ replies_to busy count reply.now }
{
    let header = &reply.header;
    header.instance == instance_at(count)
        && header.pldm_type.number() == MESSAGING_CONTROL
        && header.command == GET_TID
        && has_code(busy, reply.code)
}

/// Whether the code is one of a busy controller, or isn't, as it is to be.
fn has_code(busy: bool, code: u8) -> bool
    ensures { result ≡ is_code busy code }
{
    is_busy(code) == busy
}

/// Whether the code is one of a busy controller.
fn is_busy(code: u8) -> bool
    ensures { result ≡ is_busy_code code }
{
    code == code::NODE_BUSY.value() || code == code::PLDM_NOT_READY.value()
}
