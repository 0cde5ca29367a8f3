//! Frames byte by byte, and what is wrong with those that differ.
use super::player::{expect_equal, expect_told, push_named, push_other, push_word};
use ipmb_frame::{
    Header, Msg, Party, Request, Response, Sequence, begin_response, end_response, read_frame,
    same_request, write_request, write_response, write_response_into,
};
use std::alloc::AllocError;
use std::process::Abort;
use stories::NoOutcome;
use two_wire::{Address, Data, Frame, Lun, NetFn};

/// Appends the kind of the message, and who asks whom for what.
fn push_header(kind: &str, header: Header, text: &mut String) -> Result<(), AllocError> {
    let Header {
        responder: to,
        requester: from,
        net_fn,
        sequence,
        command,
    } = header;
    let (net_fn, sequence) = (net_fn.number(), sequence.number());
    let (to, to_unit) = (to.address.byte(), to.lun.number());
    let (from, from_unit) = (from.address.byte(), from.lun.number());
    write!(
        text,
        " {kind} {net_fn:02X} {command:02X} to {to:02X}.{to_unit} \
         from {from:02X}.{from_unit} sequence {sequence}"
    )
}

fn push_request(request: &Request, bytes: &[u8], text: &mut String) -> Result<(), NoOutcome> {
    push_header("request", request.header, text)?;
    push_named(text, " data", request.body.as_slice())?;
    push_other(write_request(request), bytes, text)
}

/// The frame of the response, written in two steps into one that was used for a longer one.
fn begun(response: &Response) -> Frame {
    let mut frame = Frame::from_slice(&[0xFF; 40]);
    begin_response(&mut frame, &response.header, response.code);
    frame.extend_from_slice(response.body.as_slice());
    end_response(&mut frame);
    frame
}

fn push_response(response: &Response, bytes: &[u8], text: &mut String) -> Result<(), NoOutcome> {
    push_header("response", response.header, text)?;
    push_named(text, " code", &[response.code])?;
    push_named(text, " data", response.body.as_slice())?;
    push_other(write_response(response), bytes, text)?;
    push_other(begun(response), bytes, text)
}

/// What the bytes are read as.
pub fn read_ipmb(bytes: &[u8], text: &mut String) -> Result<(), NoOutcome> {
    match read_frame(bytes) {
        Ok(Msg::Request(request)) => push_request(&request, bytes, text),
        Ok(Msg::Response(response)) => push_response(&response, bytes, text),
        Err(fault) => push_word(text, &fault),
    }
}

/// Whether both are the same request.
pub fn are_same_frames(one: &[u8], other: &[u8]) -> Option<bool> {
    match (read_frame(one), read_frame(other)) {
        (Ok(Msg::Request(a)), Ok(Msg::Request(b))) => Some(same_request(&a, &b)),
        _ => None,
    }
}

const FRAMES: &str = "
story requests are read and written
# Get Device ID; the same with 25 bytes of data, as many as there can be; Set Sensor Thresholds.
ipmb 20 18 C8 2C 00 01 D3 -> request 06 01 to 20.0 from 2C.0 sequence 0 data
ipmb 20 18 C8 2C 04 01 00*25 CF -> request 06 01 to 20.0 from 2C.0 sequence 1 data 00*25
ipmb 20 10 D0 2C 08 26 05 10 00 00 00 00 5A 00 37 -> request 04 26 to 20.0 from 2C.0 sequence 2 data 05 10 00 00 00 00 5A 00

story responses are read and written
ipmb 2C 1C B8 20 00 01 00 20 01 01 05 02 07 CD AB 00 34 12 F1 -> response 06 01 to 20.0 from 2C.0 sequence 0 code 00 data 20 01 01 05 02 07 CD AB 00 34 12
ipmb 2C 14 C0 20 08 26 00 B2 -> response 04 26 to 20.0 from 2C.0 sequence 2 code 00 data

story what is written is read back at the greatest fields
ipmb FE FB 07 FE FF FF FF*25 1D -> request 3E FF to FE.3 from FE.3 sequence 63 data FF*25
ipmb FE FF 03 FE FF FF FF FF*24 1D -> response 3E FF to FE.3 from FE.3 sequence 63 code FF data FF*24

story the first fault is told
ipmb 20 18 C8 2C 00 01 -> Short
ipmb 2C 1C B8 20 00 01 DF -> Short
ipmb 20 18 C8 2C 04 01 00*26 CF -> Long
ipmb 20 18 C9 2C 00 01 D3 -> HeadSum
# Both checksums are wrong.
ipmb 20 18 C9 2C 00 01 D4 -> HeadSum
ipmb 20 10 D0 2C 08 26 05 10 00 00 00 00 5A 00 38 -> BodySum
ipmb 21 18 C7 2C 00 01 D3 -> OddAddress
ipmb 20 18 C8 2D 00 01 D2 -> OddAddress

story a cut frame is short or has a wrong body sum
cuts ipmb 20 18 C8 2C 00 01 D3 -> Short*7
cuts ipmb 20 10 D0 2C 08 26 05 10 00 00 00 00 5A 00 37 -> Short*7 BodySum*8

story a frame with one other byte is no frame
changed ipmb 20 18 C8 2C 00 01 D3 -> 0 read
changed ipmb 2C 1C B8 20 00 01 00 20 01 01 05 02 07 CD AB 00 34 12 F1 -> 0 read
changed ipmb 20 10 D0 2C 08 26 05 10 00 00 00 00 5A 00 37 -> 0 read
changed ipmb 2C 14 C0 20 08 26 00 B2 -> 0 read

story a request is the same whoever sends it
# Get Device ID from 2Ch, and from 2Eh.
same ipmb 20 18 C8 2C 00 01 D3 / 20 18 C8 2E 00 01 D1 -> yes
# With sequence number 1, from logical unit 1, to logical unit 1, another command, with a byte of data.
same ipmb 20 18 C8 2C 00 01 D3 / 20 18 C8 2C 04 01 CF -> no
same ipmb 20 18 C8 2C 00 01 D3 / 20 18 C8 2C 01 01 D2 -> no
same ipmb 20 18 C8 2C 00 01 D3 / 20 19 C7 2C 00 01 D3 -> no
same ipmb 20 18 C8 2C 00 01 D3 / 20 18 C8 2C 00 02 D2 -> no
same ipmb 20 18 C8 2C 00 01 D3 / 20 18 C8 2C 00 01 00 D3 -> no
";

#[test]
fn frames_are_as_the_standard_has_them(rt: HostRuntime) {
    expect_told(&rt, rt.alloc(), FRAMES);
}

/// What the manager at 2Ch says to the controller at 20h about Get Device ID, as number 0.
fn device_id() -> Header {
    let lun = Lun::new(0);
    Header {
        responder: Party {
            address: Address::new(0x20).unwrap(),
            lun,
        },
        requester: Party {
            address: Address::new(0x2C).unwrap(),
            lun,
        },
        net_fn: NetFn::new(0x06),
        sequence: Sequence::new(0),
        command: 0x01,
    }
}

/// The bytes are read as the request, whose command is 01h.
fn expect_request(rt: &impl Abort, bytes: &[u8], request: &Request) {
    let Ok(Msg::Request(read)) = read_frame(bytes) else {
        panic!(rt; "no request");
    };
    assert!(rt; same_request(&read, request));
    expect_equal(rt, read.header.command, 0x01);
}

#[test]
fn a_request_is_written_and_read(rt: HostRuntime) {
    let bytes: &[u8] = &[0x20, 0x18, 0xC8, 0x2C, 0x00, 0x01, 0xD3];
    let request = Request {
        header: device_id(),
        body: Data::new(&[]),
    };
    expect_equal(&rt, write_request(&request).as_slice(), bytes);
    expect_request(&rt, bytes, &request);
}

/// The bytes are read as a response with the code.
fn expect_response(rt: &impl Abort, bytes: &[u8], code: u8) {
    let Ok(Msg::Response(read)) = read_frame(bytes) else {
        panic!(rt; "no response");
    };
    expect_equal(rt, read.code, code);
}

#[test]
fn a_response_is_written_and_read(rt: HostRuntime) {
    // The controller is busy.
    let bytes: &[u8] = &[0x2C, 0x1C, 0xB8, 0x20, 0x00, 0x01, 0xC0, 0x1F];
    let header = device_id();
    let response = Response {
        header,
        code: 0xC0,
        body: Data::new(&[]),
    };
    expect_equal(&rt, write_response(&response).as_slice(), bytes);
    let mut frame = Frame::from_slice(&[0xFF; 40]);
    write_response_into(&mut frame, &header, 0xC0, &[]);
    expect_equal(&rt, frame.as_slice(), bytes);
    expect_response(&rt, bytes, 0xC0);
}
