//! The reply that frames carry.
ghost use Rattle.std.specs.Prelude.{ℕ, List, IfOk, IfSome, IfNone};
ghost use Rattle.bmc_lab.specs.Reply.{AreCarried, IsIpmiReply, IsPldmReply, IsReplyIn, IsReplyMessage};

use ipmb_frame::{Msg, read_frame};
use mctp_net::read_packet;
use model_bus::PLDM_MESSAGE_TYPE;
use pldm_base::{PldmBytes, read_pldm_reply};
use std::alloc::{AllocError, Global};
use two_wire::size::{MOST_MESSAGE_BYTES, MOST_PLDM_REPLY_DATA};
use two_wire::{Bus, Bytes, Frame};

/// What a reply says.
#[derive(Drop)]
pub(crate) struct Reply {
    pub(crate) code: u8,
    pub(crate) body: Bytes<{ MOST_PLDM_REPLY_DATA }>,
}

/// The bytes that packets carry together, where each frame is one.
fn message_in(alloc: Global, frames: &[Frame]) -> Result<Option<Vec<u8>>, AllocError>
    ensures some { IfOk result (λ found.
        IfSome found (λ message. AreCarried frames.now message.items)) }
    ensures none { IfOk result (λ found.
        IfNone found ((message : List ℕ) → ¬ AreCarried frames.now message)) }
{
    let mut message = Vec::new(alloc);
    for frame in frames {
        let Ok(packet) = read_packet(frame.as_slice()) else {
            return Ok(None);
        };
        message.extend_from_slice(packet.payload.as_slice())?;
    }
    Ok(Some(message))
}

/// The reply of PLDM that the bytes of a message are.
fn pldm_in(message: &[u8]) -> Option<Reply>
    ensures some { IfSome result (λ reply. IsReplyMessage message.now reply.code reply.body) }
    ensures none { IfNone result ((code : ℕ) (body : List ℕ)
        → ¬ IsReplyMessage message.now code body) }
{
    let [kind, bytes @ ..] = message else {
        return None;
    };
    if *kind != PLDM_MESSAGE_TYPE || bytes.len() >= MOST_MESSAGE_BYTES {
        return None;
    }
    let Ok(reply) = read_pldm_reply(&PldmBytes::new(bytes)) else {
        return None;
    };
    Some(Reply {
        code: reply.code,
        body: Bytes::from_slice(reply.body.as_slice()),
    })
}

/// The reply of PLDM that the packets carry.
fn pldm_reply(alloc: Global, frames: &[Frame]) -> Result<Option<Reply>, AllocError>
    ensures some { IfOk result (λ found.
        IfSome found (λ reply. IsPldmReply frames.now reply.code reply.body)) }
    ensures none { IfOk result (λ found. IfNone found ((code : ℕ) (body : List ℕ)
        → ¬ IsPldmReply frames.now code body)) }
{
    let Some(message) = message_in(alloc, frames)? else {
        return Ok(None);
    };
    Ok(pldm_in(message.as_slice()))
}

/// The response of IPMI that the frame is.
fn ipmi_reply(frames: &[Frame]) -> Option<Reply>
    ensures some { IfSome result (λ reply. IsIpmiReply frames.now reply.code reply.body) }
    ensures none { IfNone result ((code : ℕ) (body : List ℕ)
        → ¬ IsIpmiReply frames.now code body) }
{
    let [frame] = frames else {
        return None;
    };
    let Ok(Msg::Response(response)) = read_frame(frame.as_slice()) else {
        return None;
    };
    Some(Reply {
        code: response.code,
        body: Bytes::from_slice(response.body.as_slice()),
    })
}

/// The reply that these frames carry on the bus, if they carry one.
pub(crate) fn reply_in(
    alloc: Global,
    bus: Bus,
    frames: &[Frame],
) -> Result<Option<Reply>, AllocError>
    ensures some { IfOk result (λ found.
        IfSome found (λ reply. IsReplyIn bus frames.now reply.code reply.body)) }
    ensures none { IfOk result (λ found. IfNone found ((code : ℕ) (body : List ℕ)
        → ¬ IsReplyIn bus frames.now code body)) }
{
    match bus {
        Bus::Ipmb => Ok(ipmi_reply(frames)),
        Bus::Smbus => pldm_reply(alloc, frames),
    }
}
