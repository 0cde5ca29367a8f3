//! Frames in words.
use crate::command_name::{control_command, ipmi_command, net_fn_name, pldm_command};
use report_words::NamedCode;
use std::alloc::AllocError;
use std::fmt;
use two_wire::{Bus, check_byte, pec};

/// A byte in two hexadecimal digits, and `h`.
#[derive(Clone, Copy)]
struct Hex(u8);

impl fmt::Display for Hex {
    fn fmt<W: fmt::Write>(&self, f: &mut fmt::Formatter<W>) -> fmt::Result {
        write!(f, "{:X}{:X}h", self.0 / 16, self.0 % 16)
    }
}

/// Adds a line of bytes, where there are some.
fn push_data(text: &mut String, bytes: &[u8]) -> Result<(), AllocError> {
    if bytes.is_empty() {
        return Ok(());
    }
    text.push_str("  data")?;
    for byte in bytes {
        write!(text, " {:X}{:X}", *byte / 16, *byte % 16)?;
    }
    text.push_str("\n")
}

/// Adds a line of a reply's code.
fn push_code(text: &mut String, bus: Bus, code: u8) -> Result<(), AllocError> {
    let code = NamedCode { bus, code };
    writeln!(text, "  code {code}")
}

/// Adds a line of a command, by its name.
fn push_command(text: &mut String, command: u8, name: Option<&str>) -> Result<(), AllocError> {
    let number = Hex(command);
    match name {
        Some(name) => writeln!(text, "  command {number} {name}"),
        None => writeln!(text, "  command {number}, none of the controller's"),
    }
}

/// Adds a line of a check byte, and of what it would be.
fn push_check(text: &mut String, name: &str, is: u8, would_be: u8) -> Result<(), AllocError> {
    let (is, right) = (Hex(is), is == would_be);
    if right {
        return writeln!(text, "  {name} {is}, right");
    }
    let would_be = Hex(would_be);
    writeln!(text, "  {name} {is}, wrong: it would be {would_be}")
}

/// Adds what stands behind the command of a frame of IPMB, and before its last byte.
fn push_ipmb_body(text: &mut String, is_reply: bool, body: &[u8]) -> Result<(), AllocError> {
    match body {
        [code, body @ ..] if is_reply => {
            push_code(text, Bus::Ipmb, *code)?;
            push_data(text, body)
        }
        body => push_data(text, body),
    }
}

/// Adds who speaks to whom in a frame of IPMB, and of which network function.
fn push_ipmb_head(text: &mut String, head: &[u8; 6]) -> Result<(), AllocError> {
    let [to, first, _, from, second, _] = *head;
    let (to, to_lun) = (Hex(to), first % 4);
    let (from, from_lun) = (Hex(from), second % 4);
    let sequence = second / 4;
    writeln!(
        text,
        "  to {to} LUN {to_lun}, from {from} LUN {from_lun}, number {sequence}"
    )?;
    let net_fn = first / 4;
    let name = net_fn_name(net_fn - net_fn % 2);
    let number = Hex(net_fn);
    let what = if net_fn % 2 == 0 { "request" } else { "reply" };
    writeln!(text, "  netFn {number} {name}, {what}")
}

/// Adds what the bytes say as a frame of IPMB.
fn push_ipmb(text: &mut String, bytes: &[u8]) -> Result<(), AllocError> {
    let [to, first, sum, from, second, command, body @ .., last] = bytes else {
        return text.push_str("  too short: a frame of IPMB has at least 7 bytes\n");
    };
    let net_fn = *first / 4;
    push_ipmb_head(text, &[*to, *first, *sum, *from, *second, *command])?;
    push_command(text, *command, ipmi_command(net_fn - net_fn % 2, *command))?;
    push_ipmb_body(text, net_fn % 2 == 1, body)?;
    push_check(text, "third byte", *sum, check_byte(&bytes[..2]))?;
    let end = bytes.len() - 1;
    push_check(text, "last byte", *last, check_byte(&bytes[3..end]))
}

/// Adds what a message of PLDM says behind its type.
fn push_pldm(text: &mut String, message: &[u8]) -> Result<(), AllocError> {
    let [first, second, command, body @ ..] = message else {
        return text.push_str("  too short: a message of PLDM has at least 4 bytes\n");
    };
    let (instance, kind) = (*first % 32, *second % 64);
    let is_reply = *first / 128 == 0;
    let what = if is_reply { "reply" } else { "request" };
    writeln!(text, "  PLDM type {kind}, {what}, instance {instance}")?;
    push_command(text, *command, pldm_command(kind, *command))?;
    match body {
        [code, body @ ..] if is_reply => {
            push_code(text, Bus::Smbus, *code)?;
            push_data(text, body)
        }
        body => push_data(text, body),
    }
}

/// Adds what a control message of MCTP says behind its type.
fn push_control(text: &mut String, message: &[u8]) -> Result<(), AllocError> {
    let [first, command, body @ ..] = message else {
        return text.push_str("  too short: a control message has at least 3 bytes\n");
    };
    let instance = *first % 32;
    let is_reply = *first / 128 == 0;
    let what = if is_reply { "reply" } else { "request" };
    writeln!(text, "  MCTP control, {what}, instance {instance}")?;
    push_command(text, *command, control_command(*command))?;
    match body {
        [code, body @ ..] if is_reply => {
            push_code(text, Bus::Smbus, *code)?;
            push_data(text, body)
        }
        body => push_data(text, body),
    }
}

/// Adds what the payload of a message's first packet says.
fn push_message(text: &mut String, message: &[u8]) -> Result<(), AllocError> {
    match message {
        [0, message @ ..] => push_control(text, message),
        [1, message @ ..] => push_pldm(text, message),
        [kind, message @ ..] => {
            let kind = Hex(*kind);
            writeln!(text, "  message type {kind}, none of the controller's")?;
            push_data(text, message)
        }
        [] => Ok(()),
    }
}

/// Adds who speaks to whom in a packet, and which packet of its message it is.
fn push_packet_head(text: &mut String, head: &[u8; 8]) -> Result<(), AllocError> {
    let [to, kind, count, from, version, to_eid, from_eid, flags] = *head;
    let (to, to_eid) = (Hex(to), Hex(to_eid));
    let (from, from_eid) = (Hex(from - from % 2), Hex(from_eid));
    writeln!(
        text,
        "  to {to} endpoint {to_eid}, from {from} endpoint {from_eid}"
    )?;
    let (kind, version) = (Hex(kind), version % 16);
    writeln!(
        text,
        "  command code {kind}, count {count}, version {version}"
    )?;
    let start = if flags / 128 == 1 { "first" } else { "later" };
    let end = if flags / 64 % 2 == 1 { ", last" } else { "" };
    let (sequence, tag) = (flags / 16 % 4, flags % 8);
    let owner = if flags / 8 % 2 == 1 {
        "its sender's"
    } else {
        "its receiver's"
    };
    writeln!(
        text,
        "  {start}{end} packet of a message, number {sequence}, tag {tag}, {owner}"
    )
}

/// Adds what the bytes say as a packet on SMBus.
fn push_packet(text: &mut String, bytes: &[u8]) -> Result<(), AllocError> {
    let [
        to,
        kind,
        count,
        from,
        version,
        to_eid,
        from_eid,
        flags,
        payload @ ..,
        last,
    ] = bytes
    else {
        return text.push_str("  too short: a packet has at least 10 bytes\n");
    };
    let head = [
        *to, *kind, *count, *from, *version, *to_eid, *from_eid, *flags,
    ];
    push_packet_head(text, &head)?;
    if *flags / 128 == 1 {
        push_message(text, payload)?;
    } else {
        push_data(text, payload)?;
    }
    let end = bytes.len() - 1;
    push_check(text, "last byte", *last, pec(&bytes[..end]))?;
    let right = bytes.len() as u64;
    if u64::from(*count) + 4 != right {
        let would_be = right.saturating_sub(4);
        writeln!(text, "  count {count}, wrong: it would be {would_be}")?;
    }
    Ok(())
}

/// Adds what the bytes say as a frame of the bus, a line for each part: who speaks to whom, the command by its name, the data, and each check byte with
/// what it would be.
pub(crate) fn push_explained(text: &mut String, bus: Bus, bytes: &[u8]) -> Result<(), AllocError> {
    match bus {
        Bus::Ipmb => push_ipmb(text, bytes),
        Bus::Smbus => push_packet(text, bytes),
    }
}
