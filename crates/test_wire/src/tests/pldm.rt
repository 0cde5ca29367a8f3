//! Messages of PLDM byte by byte, and parts of tables.
use super::player::{
    expect_equal, expect_told, parted, push_byte, push_named, push_other, push_word,
};
use pldm_base::{
    GET_FIRST_PART, Header, Instance, Part, PldmBytes, PldmReply, PldmReplyFault, PldmRequest,
    PldmType, TransferFlag, entry_part, part, read_pldm, read_pldm_reply, same_request, write_pldm,
    write_pldm_reply,
};
use std::alloc::AllocError;
use stories::NoOutcome;
use two_wire::{Bytes, Code, Data};

/// The bytes as those of a message, which has 255 at most.
fn message_of(bytes: &[u8]) -> Result<PldmBytes<'_>, NoOutcome> {
    if bytes.len() > 255 {
        return Err(NoOutcome::Unread);
    }
    Ok(PldmBytes::new(bytes))
}

/// Appends the kind of the message, and what it is about.
fn push_header(kind: &str, header: Header, text: &mut String) -> Result<(), AllocError> {
    let (instance, pldm_type) = (header.instance.number(), header.pldm_type.number());
    let command = header.command;
    write!(
        text,
        " {kind} {instance} type {pldm_type} command {command:02X}"
    )
}

fn push_request(request: &PldmRequest, bytes: &[u8], text: &mut String) -> Result<(), NoOutcome> {
    push_header("request", request.header, text)?;
    push_named(text, " data", request.body.as_slice())?;
    let mut written = Bytes::<255>::new();
    write_pldm(request, &mut written);
    push_other(written, bytes, text)
}

/// What the bytes are read as, as a request.
pub fn read_request(bytes: &[u8], text: &mut String) -> Result<(), NoOutcome> {
    match read_pldm(&message_of(bytes)?) {
        Ok(request) => push_request(&request, bytes, text),
        Err(fault) => push_word(text, &fault),
    }
}

fn push_reply(reply: &PldmReply, bytes: &[u8], text: &mut String) -> Result<(), NoOutcome> {
    push_header("reply", reply.header, text)?;
    push_named(text, " code", &[reply.code])?;
    push_named(text, " data", reply.body.as_slice())?;
    let mut written = Bytes::<255>::new();
    write_pldm_reply(reply, &mut written);
    push_other(written, bytes, text)
}

fn push_reply_fault(fault: PldmReplyFault, text: &mut String) -> Result<(), NoOutcome> {
    write!(text, " {fault:?}")?;
    Ok(())
}

/// What the bytes are read as, as a reply.
pub fn read_reply(bytes: &[u8], text: &mut String) -> Result<(), NoOutcome> {
    match read_pldm_reply(&message_of(bytes)?) {
        Ok(reply) => push_reply(&reply, bytes, text),
        Err(fault) => push_reply_fault(fault, text),
    }
}

/// The request of these bytes, if they are one.
fn request_of(bytes: &[u8]) -> Option<PldmRequest<'_>> {
    read_pldm(&message_of(bytes).ok()?).ok()
}

/// Whether both are the same request.
pub fn are_same_messages(one: &[u8], other: &[u8]) -> Option<bool> {
    Some(same_request(&request_of(one)?, &request_of(other)?))
}

/// What the bytes are whose parts are asked for.
#[derive(Clone, Copy)]
pub enum Parts {
    OfTable,
    OfEntry,
}

/// The part of the bytes.
fn asked_part(parts: Parts, bytes: &[u8], operation: u8, handle: u32) -> Result<Part<'_>, Code> {
    match parts {
        Parts::OfTable => part(bytes, operation, handle),
        Parts::OfEntry => entry_part(bytes, operation, handle),
    }
}

fn push_part(part: &Part, text: &mut String) -> Result<(), NoOutcome> {
    let (flag, next) = (part.flag.byte(), part.next);
    write!(text, " flag {flag:02X} next {next}")?;
    push_named(text, " bytes", part.bytes)
}

/// The part of the bytes that the operation and the handle ask for.
pub fn part_of(
    parts: Parts,
    bytes: &[u8],
    words: &str,
    text: &mut String,
) -> Result<(), NoOutcome> {
    let (operation, handle) = parted(words);
    let operation = u8::from_str_radix(operation, 16)?;
    match asked_part(parts, bytes, operation, handle.parse::<u32>()?) {
        Ok(part) => push_part(&part, text),
        Err(code) => push_byte(text, code.value()),
    }
}

const PLDM: &str = "
story a request is written and read
# GetTID, a command of messaging control, as request 0; and its reply: code 00h, terminus 5.
pldm 80 00 02 -> request 0 type 0 command 02 data
reply 00 00 02 00 05 -> reply 0 type 0 command 02 code 00 data 05

story the fields stand in their bits
# GetBIOSTable, as request 19, with the ignored bit set, which is written as 0.
pldm B3 03 01 00 00 00 00 01 02 -> request 19 type 3 command 01 data 00 00 00 00 01 02 written 93 03 01 00 00 00 00 01 02

story a request with the ignored bit is the same
same pldm 83 00 02 / 83 00 02 -> yes
same pldm 83 00 02 / A3 00 02 -> yes
same pldm 83 00 02 / 84 00 02 -> no
same pldm 83 00 02 / 83 02 02 -> no
same pldm 83 00 02 / 83 00 04 -> no
same pldm 83 00 02 / 83 00 02 00 -> no

story the first fault is told
pldm 80 C0 -> Short
pldm 80 40 02 00 -> Version
pldm 00 80 02 00 -> Version
pldm 00 00 02 00 -> NotRequest
pldm C0 00 02 00 -> NotRequest
pldm A0 00 02 00 -> request 0 type 0 command 02 data 00 written 80 00 02 00
reply 00 C0 02 -> Short
reply 00 40 02 00 01 -> Version
reply 80 00 02 00 01 -> NotReply
reply 40 00 02 00 01 -> NotReply
reply 20 00 02 00 01 -> reply 0 type 0 command 02 code 00 data 01 written 00 00 02 00 01

story the CRC-32 of the nine digits
crc32 31 32 33 34 35 36 37 38 39 -> CBF43926

story a table is given in parts
table 00*191 01 02 00*190 03 04 00*15
# The handle of a request for the first part isn't looked at.
part 01 777 -> flag 01 next 192 bytes 00*191 01
part 00 192 -> flag 02 next 384 bytes 02 00*190 03
part 00 384 -> flag 04 next 0 bytes 04 00*15

story a short table is one part
table 07*192
part 01 0 -> flag 05 next 0 bytes 07*192
table
part 01 0 -> flag 05 next 0 bytes

story no part begins elsewhere
table 00*384
part 00 0 -> 02
part 00 100 -> 02
part 00 384 -> 02
part 00 576 -> 02
part 02 0 -> 02
part FF 192 -> 02

story a short entry is whole
table 61*205
entry 01 0 -> flag 05 next 0 bytes 61*205
entry 01 192 -> flag 05 next 0 bytes 61*205
entry 00 0 -> 02
entry 00 192 -> 02
entry 02 0 -> 02
table 61
entry 01 0 -> flag 05 next 0 bytes 61
entry 00 0 -> 02

story a long entry is given in parts
table 61*192 62*14
entry 01 0 -> flag 01 next 192 bytes 61*192
entry 01 192 -> flag 01 next 192 bytes 61*192
entry 00 192 -> flag 04 next 0 bytes 62*14
entry 00 0 -> 02
entry 00 193 -> 02
entry 00 384 -> 02
entry 02 192 -> 02
table 61*192 62*192 63*21
entry 01 0 -> flag 01 next 192 bytes 61*192
entry 00 192 -> flag 02 next 384 bytes 62*192
entry 00 384 -> flag 04 next 0 bytes 63*21
# The 205 bytes behind the first part go in two.
table 61*192 62*192 63*13
entry 01 0 -> flag 01 next 192 bytes 61*192
entry 00 192 -> flag 02 next 384 bytes 62*192
entry 00 384 -> flag 04 next 0 bytes 63*13
";

#[test]
fn messages_are_as_the_standard_has_them(rt: HostRuntime) {
    expect_told(&rt, rt.alloc(), PLDM);
}

/// GetTID as request 0.
fn get_tid() -> Header {
    Header {
        instance: Instance::new(0),
        pldm_type: PldmType::new(0),
        command: 0x02,
    }
}

#[test]
fn a_request_is_written_and_read(rt: HostRuntime) {
    let request = PldmRequest {
        header: get_tid(),
        body: Data::new(&[]),
    };
    let mut written = Bytes::<255>::new();
    write_pldm(&request, &mut written);
    let bytes: &[u8] = &[0x80, 0x00, 0x02];
    expect_equal(&rt, written.as_slice(), bytes);
    let read = read_pldm(&PldmBytes::new(bytes)).expect(&rt, "a request");
    assert!(rt; same_request(&read, &request));
}

#[test]
fn a_reply_is_written_and_read(rt: HostRuntime) {
    // Code 00h, terminus 5.
    let reply = PldmReply {
        header: get_tid(),
        code: 0x00,
        body: Data::new(&[0x05]),
    };
    let mut written = Bytes::<255>::new();
    write_pldm_reply(&reply, &mut written);
    let bytes: &[u8] = &[0x00, 0x00, 0x02, 0x00, 0x05];
    expect_equal(&rt, written.as_slice(), bytes);
    let read = read_pldm_reply(&PldmBytes::new(bytes)).expect(&rt, "a reply");
    expect_equal(&rt, read.code, 0x00);
    expect_equal(&rt, read.body.as_slice(), [0x05].as_slice());
}

#[test]
fn a_table_has_a_part(rt: HostRuntime) {
    let part = asked_part(Parts::OfTable, &[7, 8, 9], GET_FIRST_PART, 0).expect(&rt, "a part");
    assert!(rt; part.bytes == [7, 8, 9].as_slice() && part.next == 0);
    expect_equal(&rt, part.flag, TransferFlag::StartAndEnd);
}
