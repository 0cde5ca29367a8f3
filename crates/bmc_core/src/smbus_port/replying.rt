//! What a port replies to requests, and what it keeps of them.
ghost use Rattle.std.specs.Prelude.{◌≡◌, ◌<◌, ◌≤◌, length, IfErr, OnOk, OnErr};
ghost use Rattle.two_wire.specs.Sizes.{most_message_bytes};
ghost use Rattle.pldm_base.specs.Message.{IsHeader};
ghost use Rattle.bmc_core.specs.declared.out.Disposition.TheVariants as done_as;
ghost use Rattle.bmc_core.specs.SmbusHeard.{busy_reply, kept_with};
ghost use Rattle.bmc_core.specs.SmbusShown.{SettlesRequest, KeepsNewReply, KeepsReply, ReplyPackets, RepliesWith};
ghost use Rattle.bmc_core.specs.SmbusServed.{reply_before_data, IsEnded, AnswersBy};

use super::pending::RequestInMessage;
use crate::out::{Disposition, Out};
use crate::port::At;
use crate::window_request::Found;
use crate::windows::Windows;
use bmc_board::Carrier;
use cfg_records::Answered;
use mctp_net::{Envelope, Message, SomeData, split_into};
use model_bus::PLDM_MESSAGE_TYPE;
use pldm_base::{Header, begin_pldm_reply};
use two_wire::circles::INSTANCES;
use two_wire::size::MOST_MESSAGE_BYTES;
use two_wire::{Bytes, Code, code};

/// The requests that a port carried out, with their replies.
pub(super) type Kept = Windows<{ INSTANCES }, { MOST_MESSAGE_BYTES }>;

/// A reply's bytes, its type first.
pub(super) type Reply = Bytes<{ MOST_MESSAGE_BYTES }>;

/// Sends a reply of these bytes from this place to the sender of the envelope's message. The caller has noted in `out` what was done.
pub(super) fn send(at: &At, to: &Envelope, body: &[u8], out: &mut Out)
    requires { length body.now ≤ most_message_bytes }
    ensures { 0 < length body.now → ReplyPackets at.now to.now body.now out.old.done out.new }
{
    if body.is_empty() {
        return;
    }
    let message = Message {
        envelope: Envelope {
            destination: to.source,
            source: at.wire,
            destination_eid: to.source_eid,
            source_eid: at.eid.byte(),
            tag_owner: false,
            tag: to.tag,
        },
        body: SomeData::new(body),
    };
    split_into(&message, &mut out.frames.list);
}

/// Replaces the bytes by the start of a reply: all that stands before its data.
fn begin(header: &Header, code: u8, reply: &mut Reply)
    ensures started { reply.new ≡ reply_before_data header.now code }
    ensures header { IsHeader header.now }
{
    reply.replace(&[PLDM_MESSAGE_TYPE]);
    begin_pldm_reply(header, code, reply);
}

/// Answers that the port is busy.
fn refuse(at: &At, request: &RequestInMessage<'_>, out: &mut Out)
    ensures { ReplyPackets at.now request.now.envelope (busy_reply request.now)
        done_as.Busy out.new }
{
    let mut reply = Bytes::new();
    begin(
        &request.request.header,
        code::PLDM_NOT_READY.value(),
        &mut reply,
    );
    out.done = Disposition::Busy;
    send(at, &request.envelope, reply.as_slice(), out);
}

/// Answers a request that isn't new: by the reply that is kept for it, or that the port is busy. Returns whether it did.
pub(super) fn settle(windows: &Kept, at: &At, request: &RequestInMessage<'_>, out: &mut Out) -> bool
    ensures { SettlesRequest at.now windows.now request.now out.old out.new result }
{
    match windows.find(&request.kept()) {
        Found::Repeats(reply) => {
            out.done = Disposition::Repeated;
            send(at, &request.envelope, reply.as_slice(), out);
            true
        }
        Found::Busy => {
            refuse(at, request, out);
            true
        }
        Found::New => false,
    }
}

/// Keeps a new request with its reply, and sends that.
fn keep(windows: &mut Kept, at: &At, request: &RequestInMessage<'_>, reply: &[u8], out: &mut Out)
    requires some { 0 < length reply.now }
    requires fits { length reply.now ≤ most_message_bytes }
    ensures kept { KeepsReply windows.old request.now reply.now windows.new }
    ensures sent { ReplyPackets at.now request.now.envelope reply.now done_as.Answered out.new }
{
    windows.keep(&request.kept(), reply);
    out.done = Disposition::Answered;
    send(at, &request.envelope, reply, out);
}

/// Keeps a new request with the reply of this answer, and sends that.
pub(super) fn keep_answer(
    windows: &mut Kept,
    made: &mut Reply,
    at: &At,
    request: &RequestInMessage<'_>,
    answered: &Answered,
    out: &mut Out,
)
    ensures kept { KeepsNewReply windows.old (kept_with request.now answered.now) windows.new }
    ensures sent { RepliesWith at.now request.now answered.now out.new }
{
    begin(&request.request.header, answered.code, made);
    made.extend_from_slice(answered.body.as_slice());
    keep(windows, at, request, made.as_slice(), out);
}

/// Has a new request carried out, keeps it with its reply, and sends that. Where it isn't carried out, nothing is kept.
pub(super) fn carry_out<C: Carrier>(
    windows: &mut Kept,
    made: &mut Reply,
    carrier: &C,
    kept: &mut C::Kept,
    at: &At,
    request: &RequestInMessage<'_>,
    out: &mut Out,
) -> Result<(), C::Refusal>
    ensures answered { AnswersBy C.Carrier carrier.now kept.old request.now result
        made.new kept.new }
    ensures kept { OnOk result (KeepsReply windows.old request.now made.new windows.new) }
    ensures sent { OnOk result (ReplyPackets at.now request.now.envelope made.new
        done_as.Answered out.new) }
    ensures refused { IfErr result (λ why. C.refuses carrier.now kept.old why kept.new) }
    ensures same { OnErr result (windows.new ≡ windows.old) }
{
    match respond(carrier, kept, request, made) {
        Ok(()) => {
            keep(windows, at, request, made.as_slice(), out);
            Ok(())
        }
        Err(why) => Err(why),
    }
}

/// Has a request carried out, and makes its reply.
fn respond<C: Carrier>(
    carrier: &C,
    kept: &mut C::Kept,
    request: &RequestInMessage<'_>,
    reply: &mut Reply,
) -> Result<(), C::Refusal>
    ensures answered { AnswersBy C.Carrier carrier.now kept.old request.now result
        reply.new kept.new }
    ensures refused { IfErr result (λ why. C.refuses carrier.now kept.old why kept.new) }
{
    let header = &request.request.header;
    begin(header, 0, reply);
    match carrier.carry(kept, &request.asked(), reply) {
        Ok(given) => {
            finish(header, given, reply);
            Ok(())
        }
        Err(why) => Err(why),
    }
}

/// Leaves the reply to which data were appended, or makes it that of a refusal.
#[inline(always)]
fn finish(header: &Header, given: Result<(), Code>, reply: &mut Reply)
    ensures { IsEnded header.now given reply.old reply.new }
{
    match given {
        Ok(()) => {}
        Err(code) => begin(header, code.value(), reply),
    }
}
