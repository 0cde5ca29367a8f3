//! Messages through packets and back, and packets that are dropped.
use super::player::{expect_equal, expect_told, push_bytes, push_named, push_word};
use arrayvec::ArrayVec;
use mctp_net::{
    Assembler, DropCause, Envelope, Message, Packet, SomeData, Tag, Taken, read_packet, split,
};
use std::process::Abort;
use stories::NoOutcome;
use two_wire::{Address, Frame, pec};

/// From endpoint 08h at 30h to endpoint 0Ah at 20h, under tag 3 of the source's own.
fn envelope() -> Envelope {
    Envelope {
        destination: Address::new(0x20).unwrap(),
        source: Address::new(0x30).unwrap(),
        destination_eid: 0x0A,
        source_eid: 8,
        tag_owner: true,
        tag: Tag::new(3),
    }
}

/// Bytes that tell their places apart.
fn content() -> [u8; 256] {
    let mut bytes = [0u8; 256];
    for (place, byte) in bytes.iter_mut().enumerate() {
        *byte = (place % 251) as u8;
    }
    bytes
}

/// The first bytes of the content, as many as the word says.
fn body_of<'a>(content: &'a [u8], count: &str) -> Result<&'a [u8], NoOutcome> {
    content
        .get(..count.parse::<usize>()?)
        .ok_or(NoOutcome::Unread)
}

/// The frames of the message of these bytes.
fn frames_of(body: &[u8]) -> Result<ArrayVec<Frame, 4>, NoOutcome> {
    if body.is_empty() || body.len() > 256 {
        return Err(NoOutcome::Unread);
    }
    Ok(split(&Message {
        envelope: envelope(),
        body: SomeData::new(body),
    }))
}

/// Appends the bytes of each frame.
fn push_frames(frames: &[Frame], text: &mut String) -> Result<(), NoOutcome> {
    for (place, frame) in frames.iter().enumerate() {
        if place > 0 {
            text.push_str(" /")?;
        }
        push_bytes(text, frame.as_slice())?;
    }
    Ok(())
}

/// The frames of a message of so many bytes.
pub fn split_into_frames(count: &str, text: &mut String) -> Result<(), NoOutcome> {
    let content = content();
    let frames = frames_of(body_of(&content, count)?)?;
    push_frames(frames.as_slice(), text)
}

/// What the assembler of endpoint 0Ah does with the packet, and whether it shows the message of these bytes, once there is one.
fn push_back(
    assembler: &mut Assembler,
    packet: &Packet,
    body: &[u8],
    text: &mut String,
) -> Result<(), NoOutcome> {
    match assembler.take(0x0A, packet) {
        Taken::Waiting => push_word(text, &"Waiting"),
        Taken::Dropped(cause) => push_word(text, &cause),
        Taken::Whole => {
            let message = assembler.message(packet);
            let is_same = message.envelope == envelope() && message.body.as_slice() == body;
            push_word(text, &if is_same { "same" } else { "other" })
        }
    }
}

/// What the assembler does with each frame of the message of these bytes.
fn push_all_back(
    assembler: &mut Assembler,
    frames: &[Frame],
    body: &[u8],
    text: &mut String,
) -> Result<(), NoOutcome> {
    for frame in frames {
        match read_packet(frame.as_slice()) {
            Ok(packet) => push_back(assembler, &packet, body, text)?,
            Err(fault) => push_word(text, &fault)?,
        }
    }
    Ok(())
}

/// What the assembler does with each frame of a message of so many bytes.
pub fn come_back(
    assembler: &mut Assembler,
    count: &str,
    text: &mut String,
) -> Result<(), NoOutcome> {
    let content = content();
    let body = body_of(&content, count)?;
    let frames = frames_of(body)?;
    push_all_back(assembler, frames.as_slice(), body, text)
}

/// The frame from 30h to 20h of a packet with these endpoints and flags and this payload.
fn frame_of(bytes: &[u8]) -> Result<Frame, NoOutcome> {
    let [destination, source, flags, payload @ ..] = bytes else {
        return Err(NoOutcome::Unread);
    };
    if payload.len() > 64 {
        return Err(NoOutcome::Unread);
    }
    let count = 5 + payload.len() as u8;
    let mut frame = Frame::from_slice(&[0x20, 0x0F, count, 0x31, 0x01]);
    frame.extend_from_slice(&[*destination, *source, *flags]);
    frame.extend_from_slice(payload);
    frame.push(pec(frame.as_slice()));
    Ok(frame)
}

/// What the assembler of this endpoint does with the packet.
fn push_taken(
    assembler: &mut Assembler,
    own: u8,
    packet: &Packet,
    text: &mut String,
) -> Result<(), NoOutcome> {
    match assembler.take(own, packet) {
        Taken::Waiting => push_word(text, &"Waiting"),
        Taken::Dropped(cause) => push_word(text, &cause),
        Taken::Whole => { push_named(text, " Whole", assembler.message(packet).body.as_slice()) }
    }
}

/// What the assembler of this endpoint does with the packet of these endpoints and flags and this payload.
pub fn take(
    assembler: &mut Assembler,
    own: u8,
    bytes: &[u8],
    text: &mut String,
) -> Result<(), NoOutcome> {
    let frame = frame_of(bytes)?;
    match read_packet(frame.as_slice()) {
        Ok(packet) => push_taken(assembler, own, &packet, text),
        Err(fault) => push_word(text, &fault),
    }
}

/// Nothing is open any more.
pub fn clear(assembler: &mut Assembler) {
    assembler.clear();
}

const MESSAGES: &str = "
story messages come back
back 1 -> same
back 64 -> same
back 65 -> Waiting same
back 255 -> Waiting*3 same
back 256 -> Waiting*3 same

story a message of 65 bytes is two frames
split 65 -> 20 0F 45 31 01 0A 08 8B 00 01 02 03 04 05 06 07 08 09 0A 0B 0C 0D 0E 0F 10 11 12 13 14 15 16 17 18 19 1A 1B 1C 1D 1E 1F 20 21 22 23 24 25 26 27 28 29 2A 2B 2C 2D 2E 2F 30 31 32 33 34 35 36 37 38 39 3A 3B 3C 3D 3E 3F 3D / 20 0F 06 31 01 0A 08 5B 40 5F

story a ninth assembly has no slot
take 0A 08 8B 0B*64 -> Waiting
take 0A 09 8B 0B*64 -> Waiting
take 0A 0A 8B 0B*64 -> Waiting
take 0A 0B 8B 0B*64 -> Waiting
take 0A 0C 8B 0B*64 -> Waiting
take 0A 0D 8B 0B*64 -> Waiting
take 0A 0E 8B 0B*64 -> Waiting
take 0A 0F 8B 0B*64 -> Waiting
take 0A 10 8B 0B*64 -> NoSlot
# A message of one packet takes none.
take 0A 10 CB 0B*64 -> Whole 0B*64
take 0A 08 5B 0B -> Whole 0B*65
take 0A 09 5B 0B -> Whole 0B*65
take 0A 0A 5B 0B -> Whole 0B*65
take 0A 0B 5B 0B -> Whole 0B*65
take 0A 0C 5B 0B -> Whole 0B*65
take 0A 0D 5B 0B -> Whole 0B*65
take 0A 0E 5B 0B -> Whole 0B*65
take 0A 0F 5B 0B -> Whole 0B*65

story each drop cause once
# To another endpoint, and to all of them.
take 0B 08 8B 0B*64 -> NotOurs
take FF 08 8B 0B*64 -> NotOurs
take 0A 08 1B 0B*64 -> NoStart
take 0A 08 8B 0B*64 -> Waiting
take 0A 08 1B 0B*64 -> Waiting
take 0A 08 2B 0B*64 -> Waiting
take 0A 08 3B 0B*64 -> Waiting
take 0A 08 1B 0B*64 -> TooLong
take 0A 08 1B 0B*64 -> NoStart
take 0A 08 8B 0B*64 -> Waiting
take 0A 08 2B 0B*64 -> OutOfSequence
take 0A 08 1B 0B*64 -> NoStart
take 0A 08 8B 0B*63 -> UnitSize
# A short packet in the middle closes the assembly.
take 0A 08 8B 0B*64 -> Waiting
take 0A 08 1B 0B*63 -> UnitSize
take 0A 08 1B 0B*64 -> NoStart

story a start closes the assembly of its name
take 0A 08 8B 0B*64 -> Waiting
take 0A 08 1B 0B*64 -> Waiting
take 0A 08 8B 0B*64 -> Waiting
take 0A 08 2B 0B*64 -> OutOfSequence
take 0A 08 8B 0B*64 -> Waiting
# A start whose sequence number isn't 0.
take 0A 08 9B 0B*64 -> OutOfSequence
take 0A 08 1B 0B*64 -> NoStart

story the messages of one source are told apart by tag and owner
# Tags 3 and 4 of the source's own, and tag 3 of the endpoint's.
take 0A 08 8B 0B*64 -> Waiting
take 0A 08 8C 0C*64 -> Waiting
take 0A 08 83 03*64 -> Waiting
take 0A 08 1C 0C*64 -> Waiting
take 0A 08 53 03*3 -> Whole 03*67
take 0A 08 5B 0B -> Whole 0B*65
take 0A 08 6C 0C*2 -> Whole 0C*130

story nothing is open after clear
# An endpoint without an identifier, and one with another.
own 00
take 0A 08 8B 0B*64 -> NotOurs
own 0B
take 0A 08 8B 0B*64 -> NotOurs
own 0A
take 0A 08 8B 0B*64 -> Waiting
clear
take 0A 08 1B 0B*64 -> NoStart
";

#[test]
fn messages_go_through_packets_and_back(rt: HostRuntime) {
    expect_told(&rt, rt.alloc(), MESSAGES);
}

/// The assembler of endpoint 0Ah does this with a packet from endpoint 08h of 64 bytes with these flags.
fn expect_taken(rt: &impl Abort, assembler: &mut Assembler, flags: u8, wanted: Taken) {
    let mut bytes = [0; 67];
    bytes[0] = 0x0A;
    bytes[1] = 0x08;
    bytes[2] = flags;
    let frame = frame_of(&bytes).expect(rt, "a frame");
    let packet = read_packet(frame.as_slice()).expect(rt, "a packet");
    expect_equal(rt, assembler.take(0x0A, &packet), wanted);
}

#[test]
fn nothing_is_open_after_clear(rt: HostRuntime) {
    let mut assembler = Assembler::new(rt.alloc()).expect(&rt, "memory");
    // Under tag 3 of the source's own: a start, and then the packet behind it.
    expect_taken(&rt, &mut assembler, 0x8B, Taken::Waiting);
    assembler.clear();
    let no_start = Taken::Dropped(DropCause::NoStart);
    expect_taken(&rt, &mut assembler, 0x1B, no_start);
}
