//! Requests to a board, and the records and changes that their data name.
use crate::bytes::bytes_of;
use crate::lan::{lan_key, lan_op};
use bios_attr::bios_attribute::{AskedPart, attribute_in, attribute_shown_in};
use bmc_board::{Command, read_request};
use cfg_records::{Asked, CommandReader, Key, Op};
use record_kinds::{PlainKind, of_each_plain_kind};
use std::alloc::{AllocError, Global};
use two_wire::{Below, Bytes, Lun, NetFn};
use user_chan::channel_request::{ChannelRequest, channel_request_in, stored_in};
use watch_boot::boot_request::{BootRequest, BootShown, boot_request_in, boot_shown_in};

/// The request over IPMI, where a frame can carry it. Its first byte has the network function and the logical unit, as in a frame.
fn over_ipmi(from: u8, place: u8, command: u8, body: &[u8]) -> Option<Asked> {
    let (net_fn, lun) = (place / 4, place % 4);
    if lun >= 4 || net_fn >= 64 || net_fn % 2 != 0 || body.len() > 25 {
        return None;
    }
    Some(Asked::Ipmi {
        from,
        net_fn: NetFn::new(net_fn),
        lun: Lun::new(lun),
        command,
        body: Bytes::from_slice(body),
    })
}

/// The request over PLDM, where a message can carry it. Its first byte is its type.
fn over_pldm(from: u8, kind: u8, command: u8, body: &[u8]) -> Option<Asked> {
    if kind >= 64 || body.len() > 252 {
        return None;
    }
    Some(Asked::Pldm {
        from,
        kind: Below::new(kind),
        command,
        body: Bytes::from_slice(body),
    })
}

/// The request of these bytes over IPMI or PLDM.
fn asked_of(from: u8, over: &str, bytes: &[u8]) -> Option<Asked> {
    let (place, rest) = bytes.split_first()?;
    let (command, body) = rest.split_first()?;
    match over {
        "ipmi" => over_ipmi(from, *place, *command, body),
        "pldm" => over_pldm(from, *place, *command, body),
        _ => None,
    }
}

/// The request of this requester that the digits tell.
pub fn asked_over(
    alloc: Global,
    from: u8,
    over: &str,
    digits: &str,
) -> Result<Option<Asked>, AllocError> {
    Ok(match bytes_of(alloc, digits)? {
        Some(bytes) => asked_of(from, over, bytes.as_slice()),
        None => None,
    })
}

/// The request of this requester that the words tell, as `ipmi 10 27 05`.
pub fn asked_in(alloc: Global, from: u8, words: &str) -> Result<Option<Asked>, AllocError> {
    match words.split_once(' ') {
        Some((over, digits)) => asked_over(alloc, from, over, digits),
        None => Ok(None),
    }
}

/// The request, sent by another requester.
pub fn sent_by(requester: u8, asked: Asked) -> Asked {
    match asked {
        Asked::Ipmi {
            net_fn,
            lun,
            command,
            body,
            ..
        } => Asked::Ipmi {
            from: requester,
            net_fn,
            lun,
            command,
            body,
        },
        Asked::Pldm {
            kind,
            command,
            body,
            ..
        } => Asked::Pldm {
            from: requester,
            kind,
            command,
            body,
        },
    }
}

/// The change that the data of the kind's Set say.
macro_rules! changed {
    ([$any:expr, $body:expr] $($kind:ident $limits:ty {$($key:tt)*})*) => {
        match $any {
            $(PlainKind::$kind => <$limits as CommandReader>::op_in($body),)*
        }
    };
}

fn plain_op(kind: PlainKind, body: &[u8]) -> Op<'_> {
    of_each_plain_kind!(changed [kind, body])
}

/// The change of boot options that the data say, if one alone.
fn boot_op(body: &[u8]) -> Option<Op<'_>> {
    match boot_request_in(body) {
        Ok(BootRequest::Param(op)) => Some(Op::BootParam(op)),
        _ => None,
    }
}

/// The change of a channel's access that the data say, if they say one alone.
fn channel_op(body: &[u8]) -> Option<Op<'_>> {
    match channel_request_in(body) {
        ChannelRequest::One(op) => Some(Op::ChannelAccess(op)),
        _ => None,
    }
}

/// The change of an attribute that the data say.
fn attribute_op(body: &[u8]) -> Option<Op<'_>> {
    match attribute_in(body) {
        Ok(op) => Some(Op::BiosAttribute(op)),
        Err(_) => None,
    }
}

/// The change of one record that the request asks for, if it is a Set of one.
pub fn op_of(asked: &Asked) -> Option<Op<'_>> {
    let (command, body) = read_request(asked);
    match command {
        Ok(Command::Set(kind)) => Some(plain_op(kind, body)),
        Ok(Command::SetBootOptions) => boot_op(body),
        Ok(Command::SetChannelAccess) => channel_op(body),
        Ok(Command::SetBiosAttribute) => attribute_op(body),
        Ok(Command::SetLanParam) => lan_op(body),
        _ => None,
    }
}

/// The boot parameter that the data of a Get name.
fn boot_key(body: &[u8]) -> Option<Key> {
    match boot_shown_in(body) {
        Ok(BootShown::Param(parameter)) => Some(Key::BootParam(parameter)),
        _ => None,
    }
}

/// The attribute of whose entry the data of a Get name a part.
fn attribute_key(body: &[u8]) -> Option<Key> {
    match attribute_shown_in(body) {
        Ok(AskedPart::First(attribute) | AskedPart::Later(attribute, _)) => {
            Some(Key::BiosAttribute(attribute))
        }
        Err(_) => None,
    }
}

/// The record that the request asks for, if it is a Get.
pub fn key_of(asked: &Asked) -> Option<Key> {
    let (command, body) = read_request(asked);
    match command {
        Ok(Command::Get(kind)) => Some(kind.key_in(body)),
        Ok(Command::GetBootOptions) => boot_key(body),
        Ok(Command::GetChannelAccess) => Some(Key::ChannelAccess(stored_in(body))),
        Ok(Command::GetBiosAttribute) => attribute_key(body),
        Ok(Command::GetLanParam) => lan_key(body),
        _ => None,
    }
}
