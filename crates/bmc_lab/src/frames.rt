//! The frames of a request.
ghost use Rattle.std.specs.Prelude.{◌≡◌, ◌≤◌, List, length};
ghost use Rattle.two_wire.specs.Sizes.{most_ipmi_request_data, most_pldm_request_data};
ghost use Rattle.ipmb_frame.specs.Grammar.{IsRequest};
ghost use Rattle.mctp_net.specs.declared.packet.Packet.{Packet as AnyPacket};
ghost use Rattle.mctp_net.specs.Cut.{IsCutOf, AreWritten};
ghost use Rattle.bmc_lab.specs.Frames.{AreFramesOf, ipmi_of, message_of, to_controller};

use arrayvec::ArrayVec;
use ipmb_frame::{Party, Request, Sequence, write_request};
use mctp_net::{Envelope, Message, SomeData, Tag, split};
use model_bus::PLDM_MESSAGE_TYPE;
use model_lab::lab_names;
use pldm_base::{Instance, PldmRequest, PldmType, write_pldm};
use record_base::Asked;
use two_wire::size::MOST_MESSAGE_BYTES;
use two_wire::{Bytes, Data, Frame, Lun, NetFn};

/// The frame of an IPMI request: the manager's first.
fn ipmi_frame(net_fn: NetFn, lun: Lun, command: u8, body: &[u8]) -> Frame
    requires { length body.now ≤ most_ipmi_request_data }
    ensures { IsRequest (ipmi_of net_fn lun command body.now) result }
{
    let names = lab_names();
    let header = ipmb_frame::Header {
        responder: Party {
            address: names.peer_address,
            lun,
        },
        requester: Party {
            address: names.own_address,
            lun: Lun::new(0),
        },
        net_fn,
        sequence: Sequence::new(0),
        command,
    };
    let body = Data::new(body);
    write_request(&Request { header, body })
}

/// The sender, the receiver and the tag of the manager's first message.
fn envelope() -> Envelope
    ensures { result ≡ to_controller }
{
    let names = lab_names();
    Envelope {
        destination: names.peer_wire,
        source: names.own_wire,
        destination_eid: names.peer_eid,
        source_eid: names.own_eid,
        tag_owner: true,
        tag: Tag::new(0),
    }
}

/// The frames of a PLDM request: the manager's first.
fn pldm_frames(pldm_type: PldmType, command: u8, body: &[u8]) -> ArrayVec<Frame, 4>
    requires { length body.now ≤ most_pldm_request_data }
    ensures { (packets : List AnyPacket)
        × IsCutOf (message_of pldm_type command body.now) packets
        × AreWritten packets result.items }
{
    let header = pldm_base::Header {
        instance: Instance::new(0),
        pldm_type,
        command,
    };
    let mut bytes: Bytes<{ MOST_MESSAGE_BYTES }> = Bytes::new();
    bytes.push(PLDM_MESSAGE_TYPE);
    let body = Data::new(body);
    write_pldm(&PldmRequest { header, body }, &mut bytes);
    split(&Message {
        envelope: envelope(),
        body: SomeData::new(bytes.as_slice()),
    })
}

/// The frames of a request from the lab's manager, as its first one on that bus.
pub(crate) fn request_frames(asked: &Asked) -> ArrayVec<Frame, 4>
    ensures { AreFramesOf asked.now result.items }
{
    match asked {
        Asked::Ipmi {
            net_fn,
            lun,
            command,
            body,
            ..
        } => {
            let mut frames = ArrayVec::new();
            frames.push(ipmi_frame(*net_fn, *lun, *command, body.as_slice()));
            frames
        }
        Asked::Pldm {
            kind,
            command,
            body,
            ..
        } => pldm_frames(*kind, *command, body.as_slice()),
    }
}
