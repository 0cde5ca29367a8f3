//! The requests of a greeting, as the frames that are sent.
ghost use Rattle.std.specs.Prelude.{◌≡◌, ◌%◌};
ghost use Rattle.two_wire.specs.Circles.{sequence_numbers, instances, tags};
ghost use Rattle.two_wire.specs.declared.Bus.TheVariants.{Ipmb as IsIpmb, Smbus as IsSmbus};
ghost use Rattle.undo_plans.specs.GreetingRequests.{IsGreetingFrame, envelope_at};

use crate::names::Names;
use ipmb_frame::{Header, Party, Request, Sequence, write_request};
use mctp_net::{Envelope, Packet, Payload, Tag, write_packet};
use model_bus::PLDM_MESSAGE_TYPE;
use pldm_base::{Instance, PldmRequest, PldmType, write_pldm};
use record_base::net_fn::APPLICATION;
use two_wire::circles::{INSTANCES, SEQUENCE_NUMBERS, TAGS};
use two_wire::{Below, Bus, Bytes, Data, Frame, Lun, NetFn};

/// Get Device ID (IPMI 2.0), which takes no data.
pub(crate) const GET_DEVICE_ID: u8 = 0x01;

/// The PLDM type of messaging control (DSP0240).
pub(crate) const MESSAGING_CONTROL: u8 = 0x00;

/// GetTID (DSP0240), which takes no data.
pub(crate) const GET_TID: u8 = 0x02;

/// The data of the requests. Since neither command takes any, each request is refused for its
/// length, and no request of a plan is like it.
const DATA: [u8; 4] = [0x48, 0x45, 0x4C, 0x4F];

/// How many bytes the message on SMBus has: its type, the header and the data.
const MESSAGE_BYTES: usize = 8;

/// The sequence number of the manager's request of this count on IPMB.
pub(crate) fn sequence_at(count: u16) -> Sequence
    ensures { result ≡ count % sequence_numbers }
{
    Sequence::new((count % u16::from(SEQUENCE_NUMBERS)) as u8)
}

/// The instance of the manager's request of this count on SMBus.
pub(crate) fn instance_at(count: u16) -> Instance
    ensures { result ≡ count % instances }
{
    Instance::new((count % u16::from(INSTANCES)) as u8)
}

/// The tag of its message.
pub(crate) fn tag_at(count: u16) -> Tag
    ensures { result ≡ count % tags }
{
    Tag::new((count % u16::from(TAGS)) as u8)
}

/// The frame of the greeting's request of this count.
pub(crate) fn frame_at(names: &Names, bus: Bus, count: u16) -> Frame
    ensures { IsGreetingFrame names.now bus count result }
{
    match bus {
        Bus::Ipmb => request_frame(names, count),
        Bus::Smbus => packet_frame(names, count),
    }
}

/// Get Device ID with data.
fn request_frame(names: &Names, count: u16) -> Frame
    ensures { IsGreetingFrame names.now IsIpmb count result }
{
    let header = Header {
        responder: Party {
            address: names.peer_address,
            lun: Lun::new(0),
        },
        requester: Party {
            address: names.own_address,
            lun: Lun::new(0),
        },
        net_fn: NetFn::new(APPLICATION),
        sequence: sequence_at(count),
        command: GET_DEVICE_ID,
    };
    let body = Data::new(&DATA);
    write_request(&Request { header, body })
}

/// GetTID with data.
fn packet_frame(names: &Names, count: u16) -> Frame
    ensures { IsGreetingFrame names.now IsSmbus count result }
{
    let header = pldm_base::Header {
        instance: instance_at(count),
        pldm_type: PldmType::new(MESSAGING_CONTROL),
        command: GET_TID,
    };
    let body = Data::new(&DATA);
    let mut message: Bytes<{ MESSAGE_BYTES }> = Bytes::new();
    message.push(PLDM_MESSAGE_TYPE);
    write_pldm(&PldmRequest { header, body }, &mut message);
    write_packet(&Packet {
        envelope: envelope_of(names, count),
        start: true,
        end: true,
        sequence: Below::new(0),
        payload: Payload::new(message.as_slice()),
    })
}

/// The sender, the receiver and the tag of that message.
fn envelope_of(names: &Names, count: u16) -> Envelope
    ensures { result ≡ envelope_at names.now count }
{
    Envelope {
        destination: names.peer_wire,
        source: names.own_wire,
        destination_eid: names.peer_eid,
        source_eid: names.own_eid,
        tag_owner: true,
        tag: tag_at(count),
    }
}
