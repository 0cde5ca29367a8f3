//! Requests as the frames that are sent.
ghost use Rattle.std.specs.Prelude.{◌≡◌, ◌+◌, ◌%◌, ◌<◌, suc};
ghost use Rattle.model_undo.specs.Machine.{count_of, one_answered};
ghost use Rattle.model_undo.specs.Wires.{number_of};
ghost use Rattle.bmc_core.specs.Wires.{bus_of as bus_of_request};
ghost use Rattle.two_wire.specs.Circles.{tags};
ghost use Rattle.two_wire.specs.declared.Bus.TheVariants.{Ipmb as IsIpmb, Smbus as IsSmbus};
ghost use Rattle.undo_core.specs.Bounds.{most_replies};
ghost use Rattle.undo_core.specs.Counted.{counts_of, AreFramesOf, IsIpmiFrame, ArePldmFrames, envelope_at};

use arrayvec::ArrayVec;
use cfg_records::Asked;
use ipmb_frame::{Party, Request, Sequence, write_request};
use mctp_net::{Envelope, Message, SomeData, Tag, split};
use model_bus::PLDM_MESSAGE_TYPE;
use pldm_base::{Instance, PldmRequest, PldmType, write_pldm};
use two_wire::circles::{INSTANCES, SEQUENCE_NUMBERS, TAGS};
use two_wire::size::{MOST_IPMI_REQUEST_DATA, MOST_MESSAGE_BYTES, MOST_PLDM_REQUEST_DATA};
use two_wire::{Bus, Bytes, Data, Frame, Lun, NetFn};
use undo_plans::Names;

/// How many of a manager's requests were answered on each bus. Counted from 0, that is the number of the open request, or
/// of the next where none is open.
#[derive(Clone, Copy)]
pub struct Counts {
    pub ipmb: u16,
    pub smbus: u16,
}

/// The frames of a request, on its bus.
#[derive(Drop)]
pub struct Sent {
    pub bus: Bus,
    /// Which of the manager's requests on that bus it is, counted from 0.
    pub request: u16,
    pub frames: ArrayVec<Frame, 4>,
}

impl Counts {
    /// The counts once the request that is open on this bus was answered.
    pub fn after(self, bus: Bus) -> Counts
        requires { self.ipmb + self.smbus < most_replies }
        ensures counts { counts_of result ≡ one_answered bus (counts_of self) }
        ensures sum { result.ipmb + result.smbus ≡ suc (self.ipmb + self.smbus) }
    {
        match bus {
            Bus::Ipmb => Counts {
                ipmb: self.ipmb + 1,
                smbus: self.smbus,
            },
            Bus::Smbus => Counts {
                ipmb: self.ipmb,
                smbus: self.smbus + 1,
            },
        }
    }

    /// The sequence number of the request on IPMB.
    pub fn sequence(self) -> Sequence
        ensures { result ≡ number_of IsIpmb self.ipmb }
    {
        Sequence::new((self.ipmb % u16::from(SEQUENCE_NUMBERS)) as u8)
    }

    /// The instance of the request on SMBus.
    pub fn instance(self) -> Instance
        ensures { result ≡ number_of IsSmbus self.smbus }
    {
        Instance::new((self.smbus % u16::from(INSTANCES)) as u8)
    }

    /// The tag of its message.
    pub fn tag(self) -> Tag
        ensures { result ≡ self.smbus % tags }
    {
        Tag::new((self.smbus % u16::from(TAGS)) as u8)
    }
}

/// The bus on which a request goes.
pub fn bus_of(asked: &Asked) -> Bus
    ensures { result ≡ bus_of_request asked.now }
{
    match asked {
        Asked::Ipmi { .. } => Bus::Ipmb,
        Asked::Pldm { .. } => Bus::Smbus,
    }
}

/// The frames of a manager's request of this count.
pub fn frames_of(names: &Names, counts: Counts, asked: &Asked) -> Sent
    ensures bus { result.bus ≡ bus_of_request asked.now }
    ensures request { result.request ≡ count_of (bus_of_request asked.now) (counts_of counts) }
    ensures frames { AreFramesOf names.now counts asked.now result.frames.items }
{
    match asked {
        Asked::Ipmi {
            net_fn,
            lun,
            command,
            body,
            ..
        } => {
            let mut frames = ArrayVec::new();
            frames.push(request_frame(names, counts, *net_fn, *lun, *command, body));
            Sent {
                bus: Bus::Ipmb,
                request: counts.ipmb,
                frames,
            }
        }
        Asked::Pldm {
            kind,
            command,
            body,
            ..
        } => Sent {
            bus: Bus::Smbus,
            request: counts.smbus,
            frames: message_frames(names, counts, *kind, *command, body),
        },
    }
}

/// The frame of a request on IPMB, of this network function, logical unit and command.
fn request_frame(
    names: &Names,
    counts: Counts,
    net_fn: NetFn,
    lun: Lun,
    command: u8,
    body: &Bytes<{ MOST_IPMI_REQUEST_DATA }>,
) -> Frame
    ensures { IsIpmiFrame names.now counts net_fn lun command body.now result }
{
    let header = ipmb_frame::Header {
        responder: Party {
            address: names.peer_address,
            lun,
        },
        requester: Party {
            address: names.own_address,
            lun: Lun::new(0),
        },
        net_fn,
        sequence: counts.sequence(),
        command,
    };
    let body = Data::new(body.as_slice());
    write_request(&Request { header, body })
}

/// The frames of a PLDM request, of this type and command.
fn message_frames(
    names: &Names,
    counts: Counts,
    kind: PldmType,
    command: u8,
    body: &Bytes<{ MOST_PLDM_REQUEST_DATA }>,
) -> ArrayVec<Frame, 4>
    ensures { ArePldmFrames names.now counts kind command body.now result.items }
{
    let header = pldm_base::Header {
        instance: counts.instance(),
        pldm_type: kind,
        command,
    };
    let mut bytes: Bytes<{ MOST_MESSAGE_BYTES }> = Bytes::new();
    bytes.push(PLDM_MESSAGE_TYPE);
    let body = Data::new(body.as_slice());
    write_pldm(&PldmRequest { header, body }, &mut bytes);
    split(&Message {
        envelope: envelope_of(names, counts),
        body: SomeData::new(bytes.as_slice()),
    })
}

/// The sender, the receiver and the tag of a request's message.
fn envelope_of(names: &Names, counts: Counts) -> Envelope
    ensures { result ≡ envelope_at names.now counts }
{
    Envelope {
        destination: names.peer_wire,
        source: names.own_wire,
        destination_eid: names.peer_eid,
        source_eid: names.own_eid,
        tag_owner: true,
        tag: counts.tag(),
    }
}
