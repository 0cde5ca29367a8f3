//! Frames that come to a looker.
ghost use Rattle.std.specs.Prelude.{◌≡◌, ◌≤◌, length};
ghost use Rattle.std.specs.Option.{option_map};
ghost use Rattle.two_wire.specs.Sizes.{most_message_bytes};
ghost use Rattle.undo_look.specs.Requests.{is_answer_to as is_answer_of, is_from_controller as goes_to_looker, is_header as is_header_of, is_part as is_part_of, reply_of};
ghost use Rattle.undo_look.specs.Looks.{HearsFrame, HearsPacket, IsStepResult, answered_in, hears_message, hears_response, state_of, takes_at};
ghost use Rattle.model_bus.specs.Bytes.{is_busy_code};

use crate::looker::Looker;
use crate::replies::stage_behind;
use crate::requests::{bus_of, numbers_after, tag_of};
use crate::stage::Stage;
use ipmb_frame::{Msg, Response, Sequence, read_frame};
use mctp_net::{Packet, Taken, read_packet};
use model_bus::PLDM_MESSAGE_TYPE;
use pldm_base::{Header, Instance, PldmBytes, read_pldm_reply};
use record_base::Asked;
use two_wire::size::MOST_MESSAGE_BYTES;
use two_wire::{Bus, Bytes, Frame, code};
use undo_plans::Names;

/// The reply to an open request.
#[derive(Clone, Copy)]
pub(crate) struct Reply<'a> {
    pub(crate) code: u8,
    pub(crate) body: &'a [u8],
}

impl Looker {
    /// Hears the bytes of a frame. Where they answer the open request, the next is sent, or the look came to its end.
    pub fn on_frame(&mut self, bus: Bus, bytes: &[u8]) -> Option<Frame>
        ensures { HearsFrame bus bytes.now self.old self.new result }
    {
        match bus {
            Bus::Ipmb => match read_frame(bytes) {
                Ok(Msg::Response(response)) => self.on_response(&response),
                _ => None,
            },
            Bus::Smbus => match read_packet(bytes) {
                Ok(packet) => self.on_packet(&packet),
                Err(_) => None,
            },
        }
    }

    /// Hears a response.
    fn on_response(&mut self, response: &Response<'_>) -> Option<Frame>
        ensures { IsStepResult self.new result (hears_response (state_of self.old) response.now) }
    {
        let Some(asked) = self.stage.heeded() else {
            return None;
        };
        if !is_from_controller(&self.names, response)
            || !is_answer_to(asked, self.next.ipmb, response)
        {
            return None;
        }
        self.on_reply(Reply {
            code: response.code,
            body: response.body.as_slice(),
        })
    }

    /// Hears a packet.
    fn on_packet(&mut self, packet: &Packet<'_>) -> Option<Frame>
        ensures { HearsPacket packet.now self.old self.new result }
    {
        let Some(Bus::Smbus) = self.stage.awaits() else {
            return None;
        };
        if !is_part(&self.names, self.next.smbus, packet) {
            return None;
        }
        let Taken::Whole = self.joined.take(self.names.own_eid, packet) else {
            return None;
        };
        let message: Bytes<{ MOST_MESSAGE_BYTES }> = Bytes::from_slice(self.joined.body(packet));
        self.on_message(message.as_slice())
    }

    /// Hears a whole message.
    fn on_message(&mut self, message: &[u8]) -> Option<Frame>
        requires { length message.now ≤ most_message_bytes }
        ensures { IsStepResult self.new result (hears_message (state_of self.old) message.now) }
    {
        let Some(asked) = self.stage.heeded() else {
            return None;
        };
        let Some(reply) = reply_to(asked, self.next.smbus, message) else {
            return None;
        };
        self.on_reply(reply)
    }

    /// Takes the reply to the open request. The codes of a busy controller count as none.
    fn on_reply(&mut self, reply: Reply<'_>) -> Option<Frame>
        requires { length reply.body.now ≤ most_message_bytes }
        ensures { IsStepResult self.new result
            (takes_at (state_of self.old) (answered_in reply.entry) self.old.stage) }
    {
        if is_busy(reply.code) {
            return None;
        }
        let Stage::Opened {
            heeded: true,
            target,
            parts,
            asked,
        } = &self.stage
        else {
            return None;
        };
        let (target, parts) = (*target, *parts);
        let next = numbers_after(self.next, bus_of(asked));
        self.stage = stage_behind(&mut self.shown, &target, parts, reply);
        self.next = next;
        self.resent = 0;
        self.open_frame()
    }
}

/// Whether the response goes from the controller to the manager.
fn is_from_controller(names: &Names, response: &Response<'_>) -> bool
    ensures { result ≡ goes_to_looker names.now response.now }
{
    let header = &response.header;
    header.requester.address == names.own_address && header.responder.address == names.peer_address
}

/// Whether the response has the number, the network function and the command of the request.
fn is_answer_to(asked: &Asked, sequence: Sequence, response: &Response<'_>) -> bool
    ensures { result ≡ is_answer_of asked.now sequence response.now }
{
    let header = &response.header;
    match asked {
        Asked::Ipmi {
            net_fn,
            command,
            ..
        } => {
            header.net_fn == *net_fn && header.sequence == sequence && header.command == *command
        }
        Asked::Pldm { .. } => false,
    }
}

/// Whether the packet goes from the controller to the manager, under the request's tag.
fn is_part(names: &Names, instance: Instance, packet: &Packet<'_>) -> bool
    ensures { result ≡ is_part_of names.now instance packet.now }
{
    let envelope = &packet.envelope;
    envelope.destination == names.own_wire
        && envelope.source == names.peer_wire
        && envelope.source_eid == names.peer_eid
        && !envelope.tag_owner
        && envelope.tag == tag_of(instance)
}

/// The reply that a message is, where it has the instance, the type and the command of the request.
fn reply_to<'a>(asked: &Asked, instance: Instance, message: &'a [u8]) -> Option<Reply<'a>>
    requires { length message.now ≤ most_message_bytes }
    ensures { option_map answered_in result ≡ reply_of asked.now instance message.now }
{
    let Asked::Pldm { kind, command, .. } = asked else {
        return None;
    };
    let [first, bytes @ ..] = message else {
        return None;
    };
    if *first != PLDM_MESSAGE_TYPE {
        return None;
    }
    let Ok(reply) = read_pldm_reply(&PldmBytes::new(bytes)) else {
        return None;
    };
    if !is_header(&reply.header, instance, kind.number(), *command) {
        return None;
    }
    Some(Reply {
        code: reply.code,
        body: reply.body.as_slice(),
    })
}

/// Whether the header has this instance, type and command.
fn is_header(header: &Header, instance: Instance, kind: u8, command: u8) -> bool
    ensures { result ≡ is_header_of header.now instance kind command }
{
    header.instance == instance && header.pldm_type.number() == kind && header.command == command
}

/// Whether the code is one of a busy controller.
fn is_busy(code: u8) -> bool
    ensures { result ≡ is_busy_code code }
{
    code == code::NODE_BUSY.value() || code == code::PLDM_NOT_READY.value()
}
