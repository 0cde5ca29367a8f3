//! Control requests and their replies.
use super::player::{expect_equal, expect_told, push_bytes, push_named, push_word};
use mctp_net::{
    Assembler, ControlReply, Endpoint, EndpointId, Envelope, Message, SomeData, Taken, read_packet,
    split,
};
use std::process::Abort;
use stories::NoOutcome;

/// What the endpoint replies.
fn reply_to(endpoint: &mut Endpoint, bytes: &[u8]) -> Option<ControlReply> {
    endpoint.control(bytes)
}

/// What the endpoint replies, and its identifier then.
pub fn control(endpoint: &mut Endpoint, bytes: &[u8], text: &mut String) -> Result<(), NoOutcome> {
    match reply_to(endpoint, bytes) {
        Some(reply) => push_bytes(text, reply.as_slice())?,
        None => push_word(text, &"nothing")?,
    }
    push_named(text, " at", &[endpoint.eid().byte()])
}

const CONTROL: &str = "
story control requests have their replies
control 00 80 02 -> 00 00 02 00 0A 00 00 at 0A
control 00 BF 05 -> 00 1F 05 00 01 01 at 0A
# Another identifier: one that no endpoint may have, by another operation, and of a wrong length.
control 00 80 01 00 00 -> 00 00 01 02 at 0A
control 00 80 01 00 01 -> 00 00 01 02 at 0A
control 00 80 01 00 07 -> 00 00 01 02 at 0A
control 00 80 01 00 FF -> 00 00 01 02 at 0A
control 00 80 01 02 0C -> 00 00 01 02 at 0A
control 00 80 01 00 -> 00 00 01 03 at 0A
control 00 80 02 00 -> 00 00 02 03 at 0A
control 00 80 04 -> 00 00 04 05 at 0A
# No control request has no reply.
control 00 80 -> nothing at 0A
control 01 80 02 -> nothing at 0A
control 00 00 02 -> nothing at 0A
control 00 C0 02 -> nothing at 0A
# Identifiers that are taken.
control 00 81 01 00 0C -> 00 01 01 00 00 0C 00 at 0C
control 00 81 01 05 08 -> 00 01 01 00 00 08 00 at 08
";

#[test]
fn control_requests_have_their_replies(rt: HostRuntime) {
    expect_told(&rt, rt.alloc(), CONTROL);
}

/// The envelope of the reply, which goes back from this endpoint.
fn envelope_back(asked: Envelope, own: u8) -> Envelope {
    Envelope {
        destination: asked.source,
        source: asked.destination,
        destination_eid: asked.source_eid,
        source_eid: own,
        tag_owner: false,
        tag: asked.tag,
    }
}

/// The message is one frame of these bytes.
fn expect_frame(rt: &impl Abort, message: &Message, bytes: &[u8]) {
    let frames = split(message);
    let [frame] = frames.as_slice() else {
        panic!(rt; "other than one frame");
    };
    expect_equal(rt, frame.as_slice(), bytes);
}

/// The endpoint's reply to the request is one frame of these bytes.
fn expect_reply(rt: &impl Abort, endpoint: &mut Endpoint, request: &Message, bytes: &[u8]) {
    let own = endpoint.eid().byte();
    let reply = reply_to(endpoint, request.body.as_slice()).expect(rt, "a reply");
    assert!(rt; !reply.is_empty());
    let message = Message {
        envelope: envelope_back(request.envelope, own),
        body: SomeData::new(reply.as_slice()),
    };
    expect_frame(rt, &message, bytes);
}

#[test]
fn get_endpoint_id_is_answered_over_the_bus(rt: HostRuntime) {
    let mut endpoint = Endpoint::new(EndpointId::new(0x0A).unwrap());
    let mut assembler = Assembler::new(rt.alloc()).expect(&rt, "memory");
    let request = &[
        0x20, 0x0F, 0x08, 0x31, 0x01, 0x00, 0x08, 0xC8, 0x00, 0x80, 0x02, 0x50,
    ];
    let packet = read_packet(request).expect(&rt, "a packet");
    if assembler.take(endpoint.eid().byte(), &packet) != Taken::Whole {
        panic!(rt; "no message");
    }
    let reply = &[
        0x30, 0x0F, 0x0C, 0x21, 0x01, 0x08, 0x0A, 0xC0, 0x00, 0x00, 0x02, 0x00, 0x0A, 0x00, 0x00,
        0x40,
    ];
    expect_reply(&rt, &mut endpoint, &assembler.message(&packet), reply);
}
