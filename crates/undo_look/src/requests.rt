//! The requests of a look, as the frames that are sent.
ghost use Rattle.std.specs.Prelude.{◌≡◌, ◌+◌, ◌%◌, ◌≤◌, length};
ghost use Rattle.two_wire.specs.Circles.{sequence_numbers, instances, tags};
ghost use Rattle.ipmb_frame.specs.Grammar.{IsRequest};
ghost use Rattle.mctp_net.specs.Grammar.{IsSpelled};
ghost use Rattle.undo_look.specs.Requests.{IsLookFrame, IsShort, bus_of as bus_of_request, envelope_at, most_get_data, numbers_after, packet_of, request_of};

use ipmb_frame::{Header, Party, Request, Sequence, write_request};
use mctp_net::{Envelope, Packet, Payload, Tag, write_packet};
use model_bus::PLDM_MESSAGE_TYPE;
use pldm_base::{Instance, PldmRequest, PldmType, write_pldm};
use record_base::Asked;
use two_wire::circles::{INSTANCES, SEQUENCE_NUMBERS, TAGS};
use two_wire::size::{MOST_IPMI_REQUEST_DATA, MOST_PLDM_REQUEST_DATA};
use two_wire::{Below, Bus, Bytes, Data, Frame, Lun, NetFn};
use undo_plans::{Names, NextNumbers};

/// How many bytes the message of a Get over PLDM has at most: its type, the header and seven bytes of data.
const MESSAGE_BYTES: usize = 11;

/// The bus on which a request goes.
pub(crate) fn bus_of(asked: &Asked) -> Bus
    ensures { result ≡ bus_of_request asked.now }
{
    match asked {
        Asked::Ipmi { .. } => Bus::Ipmb,
        Asked::Pldm { .. } => Bus::Smbus,
    }
}

/// The number behind this one on IPMB.
fn sequence_after(sequence: Sequence) -> Sequence
    ensures { result ≡ (sequence + 1) % sequence_numbers }
{
    Sequence::new((sequence.number() + 1) % SEQUENCE_NUMBERS)
}

/// The number behind this one on SMBus.
fn instance_after(instance: Instance) -> Instance
    ensures { result ≡ (instance + 1) % instances }
{
    Instance::new((instance.number() + 1) % INSTANCES)
}

/// The numbers of the next requests, once a request on this bus was answered, or was given up.
pub(crate) fn numbers_after(next: NextNumbers, bus: Bus) -> NextNumbers
    ensures { result ≡ numbers_after next bus }
{
    match bus {
        Bus::Ipmb => NextNumbers {
            ipmb: sequence_after(next.ipmb),
            smbus: next.smbus,
        },
        Bus::Smbus => NextNumbers {
            ipmb: next.ipmb,
            smbus: instance_after(next.smbus),
        },
    }
}

/// The tag of the message of this number.
pub(crate) fn tag_of(instance: Instance) -> Tag
    ensures { result ≡ instance % tags }
{
    Tag::new(instance.number() % TAGS)
}

/// The frame of a Get's request under its bus's next number.
pub(crate) fn frame_of(names: &Names, next: NextNumbers, asked: &Asked) -> Frame
    requires { IsShort asked.now }
    ensures { IsLookFrame names.now next asked.now result }
{
    match asked {
        Asked::Ipmi {
            net_fn,
            lun,
            command,
            body,
            ..
        } => request_frame(names, next.ipmb, *net_fn, *lun, *command, body),
        Asked::Pldm {
            kind,
            command,
            body,
            ..
        } => packet_frame(names, next.smbus, *kind, *command, body),
    }
}

/// The frame of a request on IPMB, of this network function, logical unit and command.
fn request_frame(
    names: &Names,
    sequence: Sequence,
    net_fn: NetFn,
    lun: Lun,
    command: u8,
    body: &Bytes<{ MOST_IPMI_REQUEST_DATA }>,
) -> Frame
    ensures { IsRequest (request_of names.now sequence net_fn lun command body.now) result }
{
    let header = Header {
        responder: Party {
            address: names.peer_address,
            lun,
        },
        requester: Party {
            address: names.own_address,
            lun: Lun::new(0),
        },
        net_fn,
        sequence,
        command,
    };
    let body = Data::new(body.as_slice());
    write_request(&Request { header, body })
}

/// The one packet of a PLDM request, of this type and command.
fn packet_frame(
    names: &Names,
    instance: Instance,
    kind: PldmType,
    command: u8,
    body: &Bytes<{ MOST_PLDM_REQUEST_DATA }>,
) -> Frame
    requires { length body.now ≤ most_get_data }
    ensures { IsSpelled (packet_of names.now instance kind command body.now) 0 result }
{
    let header = pldm_base::Header {
        instance,
        pldm_type: kind,
        command,
    };
    let body = Data::new(body.as_slice());
    let mut message: Bytes<{ MESSAGE_BYTES }> = Bytes::new();
    message.push(PLDM_MESSAGE_TYPE);
    write_pldm(&PldmRequest { header, body }, &mut message);
    write_packet(&Packet {
        envelope: envelope_of(names, instance),
        start: true,
        end: true,
        sequence: Below::new(0),
        payload: Payload::new(message.as_slice()),
    })
}

/// The sender, the receiver and the tag of that message.
fn envelope_of(names: &Names, instance: Instance) -> Envelope
    ensures { result ≡ envelope_at names.now instance }
{
    Envelope {
        destination: names.peer_wire,
        source: names.own_wire,
        destination_eid: names.peer_eid,
        source_eid: names.own_eid,
        tag_owner: true,
        tag: tag_of(instance),
    }
}
