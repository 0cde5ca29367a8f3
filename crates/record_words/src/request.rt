//! Requests that undo, read back as the operations that they are, in words.
ghost use Rattle.std.specs.Prelude.{◌≡◌, ◌≢◌, ◌↔◌, IfSome, IfNone, IsTrue, Some};
ghost use Rattle.record_base.specs.declared.op.Op.{Op as AnyOp};
ghost use Rattle.record_kinds.specs.Series.{set_whole};
ghost use Rattle.record_base.specs.declared.message.Asked.TheVariants as asked;
ghost use Rattle.text_journal.specs.JournalSteps.{attribute_step, boot_step, channel_step, lan_step};
ghost use Rattle.user_chan.specs.ChannelRequests.{channel_request_in as any_channel_request};
ghost use Rattle.user_chan.specs.LanRequests.{lan_request_in as any_lan_request};
ghost use Rattle.watch_boot.specs.BootRequests.{boot_request_in as any_boot_request};
ghost use Rattle.bios_attr.specs.BiosAttribute.{attribute_in as any_attribute};
ghost use Rattle.undo_plans.specs.Requests.{meant};
ghost use Rattle.record_words.specs.RequestWords as words;

use crate::in_words::{InWords, op_in_words};
use crate::parts::Way;
use bios_attr::bios_attribute::attribute_in;
use effecter_recs::{NumericLimits, StateLimits};
use record_base::{Asked, CommandReader, Op, RecordKind, UserNumber, byte_at};
use record_kinds::Limits;
use sensor_recs::{EventEnableLimits, HysteresisLimits, ThresholdLimits};
use std::fmt;
use two_wire::{Below, Lun, NetFn};
use undo_plans::UndoRequest;
use user_chan::channel_request::{ChannelRequest, channel_request_in};
use user_chan::lan_request::{LanRequest, lan_request_in};
use user_chan::{UserAccessLimits, UserNameLimits};
use watch_boot::boot_request::{BootRequest, boot_request_in};
use watch_boot::{GlobalEnablesLimits, PowerPolicyLimits, WatchdogLimits};

/// The network function of Set User Password, and its command (IPMI 2.0).
const APPLICATION: u8 = 0x06;

const SET_USER_PASSWORD: u8 = 0x47;

/// The change of a boot parameter that the data say, where they say one.
fn boot_param(body: &[u8]) -> Option<Op<'_>>
    ensures { result ≡ boot_step (any_boot_request body.now) }
{
    match boot_request_in(body) {
        Ok(BootRequest::Param(set)) => Some(Op::BootParam(set)),
        _ => None,
    }
}

/// The change of a channel's access that the data say, where they say one alone.
fn channel_access(body: &[u8]) -> Option<Op<'_>>
    ensures { result ≡ channel_step (any_channel_request body.now) }
{
    match channel_request_in(body) {
        ChannelRequest::One(set) => Some(Op::ChannelAccess(set)),
        _ => None,
    }
}

/// The change of a LAN parameter that the data say, where they say one.
fn lan_param(body: &[u8]) -> Option<Op<'_>>
    ensures { result ≡ lan_step (any_lan_request body.now) }
{
    match lan_request_in(body) {
        LanRequest::Param(set) => Some(Op::LanParam(set)),
        _ => None,
    }
}

/// The change of an attribute that the data say, where they say one.
fn bios_attribute(body: &[u8]) -> Option<Op<'_>>
    ensures { result ≡ attribute_step (any_attribute body.now) }
{
    match attribute_in(body) {
        Ok(set) => Some(Op::BiosAttribute(set)),
        Err(_) => None,
    }
}

/// The operation that the data of an IPMI command may carry out.
fn ipmi_op(net_fn: NetFn, lun: Lun, command: u8, body: &[u8]) -> Option<Op<'_>>
    ensures { result ≡ words.candidate (asked.Ipmi 0 net_fn lun command body.now) }
{
    match (net_fn.number() * 4 + lun.number(), command) {
        (0x00, 0x06) => Some(PowerPolicyLimits::op_in(body)),
        (0x00, 0x08) => boot_param(body),
        (0x10, 0x24) => Some(HysteresisLimits::op_in(body)),
        (0x10, 0x26) => Some(ThresholdLimits::op_in(body)),
        (0x10, 0x28) => Some(EventEnableLimits::op_in(body)),
        (0x18, 0x24) => Some(WatchdogLimits::op_in(body)),
        (0x18, 0x2E) => Some(GlobalEnablesLimits::op_in(body)),
        (0x18, 0x40) => channel_access(body),
        (0x18, 0x43) => Some(UserAccessLimits::op_in(body)),
        (0x18, 0x45) => Some(UserNameLimits::op_in(body)),
        (0x30, 0x01) => lan_param(body),
        _ => None,
    }
}

/// That of a PLDM command.
fn pldm_op(kind: Below<64>, command: u8, body: &[u8]) -> Option<Op<'_>>
    ensures { result ≡ words.candidate (asked.Pldm 0 kind command body.now) }
{
    match (kind.number(), command) {
        (0x02, 0x31) => Some(NumericLimits::op_in(body)),
        (0x02, 0x39) => Some(<StateLimits as CommandReader>::op_in(body)),
        (0x03, 0x07) => bios_attribute(body),
        _ => None,
    }
}

/// Whether the request carries the operation out: with its head, and all its data.
fn carries(request: &UndoRequest<'_>, op: &Op<'_>) -> bool
    ensures { IsTrue result ↔ (set_whole op.now ≡ meant request.now) }
{
    if !Limits::set_data(op).is(request.body()) {
        return false;
    }
    match (request, Limits::set_asked(op)) {
        (
            UndoRequest::Ipmi {
                net_fn,
                lun,
                command,
                ..
            },
            Asked::Ipmi {
                net_fn: own_function,
                lun: own_unit,
                command: own_command,
                ..
            },
        ) => {
            net_fn.number() == own_function.number()
                && lun.number() == own_unit.number()
                && *command == own_command
        }
        (
            UndoRequest::Pldm(request),
            Asked::Pldm {
                kind,
                command: own_command,
                ..
            },
        ) => request.kind.number() == kind.number() && request.command == own_command,
        _ => false,
    }
}

/// The operation that the request may carry out, by its command.
fn candidate<'a>(request: &'a UndoRequest<'a>) -> Option<Op<'a>>
    ensures { result ≡ words.candidate (meant request.now) }
{
    match request {
        UndoRequest::Ipmi {
            net_fn,
            lun,
            command,
            body,
        } => ipmi_op(*net_fn, *lun, *command, body.as_slice()),
        UndoRequest::Pldm(request) => {
            pldm_op(request.kind, request.command, request.body.as_slice())
        }
    }
}

/// The operation that the request carries out, where it is one's.
pub fn undone_op<'a>(request: &'a UndoRequest<'a>) -> Option<Op<'a>>
    ensures some { IfSome result (λ op. set_whole op ≡ meant request.now) }
    ensures none { IfNone result ((op : AnyOp) → set_whole op ≢ meant request.now) }
{
    let Some(op) = candidate(request) else {
        return None;
    };
    if !carries(request, &op) {
        return None;
    }
    Some(op)
}

/// A request that undoes, read back: `Display` writes it.
#[derive(Drop)]
pub enum UndoInWords<'a> {
    /// As the operation that it is.
    Op(InWords<'a>),
    /// It sets, or tests, the password of this user, which isn't shown.
    Password(u8),
    /// It carries no operation on a record out: an IPMI request of this network function and command.
    OtherIpmi(u8, u8),
    /// A PLDM request of this type and command.
    OtherPldm(u8, u8),
}

/// A request that is no operation's.
fn other(request: &UndoRequest<'_>) -> UndoInWords<'static>
    ensures { words.undo_words_of result ≡ words.other_words (meant request.now) }
{
    match request {
        UndoRequest::Ipmi {
            net_fn,
            command,
            body,
            ..
        } => {
            if net_fn.number() == APPLICATION && *command == SET_USER_PASSWORD {
                let user = UserNumber::of(byte_at(body.as_slice(), 0));
                return UndoInWords::Password(user.number);
            }
            UndoInWords::OtherIpmi(net_fn.number(), *command)
        }
        UndoRequest::Pldm(request) => {
            UndoInWords::OtherPldm(request.kind.number(), request.command)
        }
    }
}

/// A request that undoes, in words: those of the operation that it is. Where it's none's, its command is named, and none of its data.
pub fn undo_in_words<'a>(request: &'a UndoRequest<'a>) -> UndoInWords<'a>
    ensures { words.IsUndoWords (words.undo_words_of result) (meant request.now) }
{
    match undone_op(request) {
        Some(op) => UndoInWords::Op(op_in_words(Way::Back, &op, None)),
        None => other(request),
    }
}

impl fmt::Display for UndoInWords<'_> {
    ghost output = { λ it. Some (words.undo_words_of it) };

    fn fmt<W: fmt::Write>(&self, f: &mut fmt::Formatter<W>) -> fmt::Result {
        match self {
            UndoInWords::Op(line) => write!(f, "{line}"),
            UndoInWords::Password(user) => write!(f, "user {user} password: (not shown)"),
            UndoInWords::OtherIpmi(function, command) => {
                write!(
                    f,
                    "IPMI network function {function}, command {command}: of no record"
                )
            }
            UndoInWords::OtherPldm(kind, command) => {
                write!(f, "PLDM type {kind}, command {command}: of no record")
            }
        }
    }
}
