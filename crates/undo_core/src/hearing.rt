//! Frames that come to a manager.
ghost use Rattle.std.specs.Prelude.{◌≡◌, ◌≤◌, length, None, IfSome, false};
ghost use Rattle.two_wire.specs.Sizes.{most_message_bytes};
ghost use Rattle.undo_core.specs.Shown.{AcceptsReply, answered_in, TellsButForBusy, TellsMessage, IsReplyTo, IsTakenIf, IsJoinedIf, HearsResponse, HearsPacket, HearsMessage, HearsResponseIn, HearsPacketIn, StaysSilent, IsNoResponse, IsNoPacket, is_header_of as is_header};
ghost use Rattle.model_undo.specs.Words.{is_busy as is_busy_code};
ghost use Rattle.undo_core.specs.Course.{Hears, InputStep};
ghost use Rattle.two_wire.specs.declared.Bus.TheVariants.{Ipmb as IsIpmb, Smbus as IsSmbus};
ghost use Rattle.model_lab.specs.ManagerSteps.{is_answer as is_answer_of, is_part as is_part_of};

use crate::entering::{Reply, stage_after};
use crate::manager::Manager;
use crate::sending::{Sent, bus_of};
use crate::stage::Stage;
use cfg_records::Asked;
use ipmb_frame::{Msg, Response, Sequence, read_frame};
use mctp_net::{Packet, Taken, read_packet};
use model_bus::PLDM_MESSAGE_TYPE;
use pldm_base::{Header, Instance, PldmBytes, read_pldm_reply};
use two_wire::size::MOST_MESSAGE_BYTES;
use two_wire::{Bus, Bytes, code};
use undo_plans::NextNumbers;

impl Manager {
    /// Hears the bytes of a frame.
    pub fn on_frame(&mut self, bus: Bus, bytes: &[u8]) -> Option<Sent>
        // A response on IPMB, and a packet on SMBus, is heard as the machine hears it.
        ensures response { bus ≡ IsIpmb → HearsResponseIn bytes.now self.old self.new result }
        ensures packet { bus ≡ IsSmbus → HearsPacketIn bytes.now self.old self.new result }
        // Of all bytes one thing comes: of a frame what comes of its value, and of others nothing.
        ensures heard { InputStep (Hears bus bytes.now) self.old self.new result }
        // Nothing else changes the manager, and it sends nothing then.
        ensures no_response { bus ≡ IsIpmb → IsNoResponse bytes.now
            → StaysSilent self.old self.new result }
        ensures no_packet { bus ≡ IsSmbus → IsNoPacket bytes.now
            → StaysSilent self.old self.new result }
    {
        match bus {
            Bus::Ipmb => match read_frame(bytes) {
                Ok(Msg::Response(response)) => self.on_response(&response),
                _ => None,
            },
            Bus::Smbus => match read_packet(bytes) {
                Ok(packet) => self.on_packet(&packet),
                Err(_) => None,
            },
        }
    }

    /// Hears a response.
    fn on_response(&mut self, response: &Response<'_>) -> Option<Sent>
        ensures { HearsResponse response.now self.old self.new result }
    {
        if !self.is_answered_by(response) {
            return None;
        }
        self.on_reply(Reply {
            code: response.code,
            body: response.body.as_slice(),
        })
    }

    /// Whether the response comes from the controller, and answers the open request.
    fn is_answered_by(&self, response: &Response<'_>) -> bool
        ensures { IsTakenIf result response.now self.now }
    {
        let Some(asked) = self.stage.heeded_on(Bus::Ipmb) else {
            return false;
        };
        self.is_answer(response) && is_answer_to(asked, self.counts.sequence(), response)
    }

    /// Whether the response goes from the controller to the manager.
    fn is_answer(&self, response: &Response<'_>) -> bool
        ensures { result ≡ is_answer_of self.now.names response.now }
    {
        let header = &response.header;
        header.requester.address == self.names.own_address
            && header.responder.address == self.names.peer_address
    }

    /// Hears a packet.
    fn on_packet(&mut self, packet: &Packet<'_>) -> Option<Sent>
        ensures { HearsPacket packet.now self.old self.new result }
    {
        if !self.joins(packet) {
            return None;
        }
        let Taken::Whole = self.joined.take(self.names.own_eid, packet) else {
            return None;
        };
        let message: Bytes<{ MOST_MESSAGE_BYTES }> = Bytes::from_slice(self.joined.body(packet));
        self.on_message(message.as_slice())
    }

    /// Whether the packet comes from the controller while a request is open on its bus.
    fn joins(&self, packet: &Packet<'_>) -> bool
        ensures { IsJoinedIf result packet.now self.now }
    {
        let Some(_) = self.stage.heeded_on(Bus::Smbus) else {
            return false;
        };
        self.is_part(packet)
    }

    /// Whether the packet goes from the controller to the manager, under the open request's tag.
    fn is_part(&self, packet: &Packet<'_>) -> bool
        ensures { result ≡ is_part_of self.now.names self.now.counts.smbus packet.now }
    {
        let envelope = &packet.envelope;
        envelope.destination == self.names.own_wire
            && envelope.source == self.names.peer_wire
            && envelope.source_eid == self.names.peer_eid
            && !envelope.tag_owner
            && envelope.tag == self.counts.tag()
    }

    /// Hears a whole message.
    fn on_message(&mut self, message: &[u8]) -> Option<Sent>
        requires { length message.now ≤ most_message_bytes }
        ensures { HearsMessage message.now self.old self.new result }
    {
        let Some(asked) = self.stage.heeded_on(Bus::Smbus) else {
            return None;
        };
        let Some(reply) = reply_to(asked, self.counts.instance(), message) else {
            return None;
        };
        self.on_reply(reply)
    }

    /// Takes the reply to the open request. The codes of a busy controller count as none.
    fn on_reply(&mut self, reply: Reply<'_>) -> Option<Sent>
        ensures { AcceptsReply (answered_in reply.entry) self.old self.new result }
    {
        if is_busy(reply.code) {
            return None;
        }
        let Stage::Opened {
            heeded: true,
            task,
            parts,
            asked,
        } = &self.stage
        else {
            return None;
        };
        let counts = self.counts.after(bus_of(asked));
        let (task, parts) = (*task, *parts);
        self.stage = stage_after(
            &self.steps,
            self.stopped,
            &mut self.undo.requests,
            &mut self.replies,
            task,
            parts,
            reply,
        );
        self.resent = 0;
        self.counts = counts;
        self.undo.next = NextNumbers {
            ipmb: self.counts.sequence(),
            smbus: self.counts.instance(),
        };
        self.open_frames()
    }
}

/// Whether the response has the number, the network function and the command of the request.
fn is_answer_to(asked: &Asked, sequence: Sequence, response: &Response<'_>) -> bool
    ensures { TellsButForBusy asked.now sequence response.now result }
{
    let header = response.header;
    let _luns = (header.responder.lun.number(), header.requester.lun.number());
    match asked {
        Asked::Ipmi {
            net_fn,
            lun,
            command,
            ..
        } => {
            let _lun = lun.number();
            header.net_fn == *net_fn && header.sequence == sequence && header.command == *command
        }
        Asked::Pldm { .. } => false,
    }
}

/// The reply that a message is, where it has the instance, the type and the command of the request.
fn reply_to<'a>(asked: &Asked, instance: Instance, message: &'a [u8]) -> Option<Reply<'a>>
    requires { length message.now ≤ most_message_bytes }
    ensures some { IfSome result (λ r. IsReplyTo asked.now instance message.now r) }
    ensures none { result ≡ None → TellsMessage asked.now instance message.now false }
{
    let Asked::Pldm { kind, command, .. } = asked else {
        return None;
    };
    let kind = kind.number();
    let [first, bytes @ ..] = message else {
        return None;
    };
    if *first != PLDM_MESSAGE_TYPE {
        return None;
    }
    let Ok(reply) = read_pldm_reply(&PldmBytes::new(bytes)) else {
        return None;
    };
    if !is_header_of(&reply.header, instance, kind, *command) {
        return None;
    }
    Some(Reply {
        code: reply.code,
        body: reply.body.as_slice(),
    })
}

/// Whether the header has this instance, type and command.
fn is_header_of(header: &Header, instance: Instance, kind: u8, command: u8) -> bool
    ensures { result ≡ is_header header.now instance kind command }
{
    header.instance == instance && header.pldm_type.number() == kind && header.command == command
}

/// Whether the code is one of a busy controller.
fn is_busy(code: u8) -> bool
    ensures { result ≡ is_busy_code code }
{
    code == code::NODE_BUSY.value() || code == code::PLDM_NOT_READY.value()
}
