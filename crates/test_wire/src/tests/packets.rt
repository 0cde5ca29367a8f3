//! Packets byte by byte, and what is wrong with those that differ.
use super::player::{expect_told, push_named, push_other, push_word};
use mctp_net::{Envelope, Packet, read_packet, write_packet};
use std::alloc::AllocError;
use stories::NoOutcome;

/// Appends between whom the message goes.
fn push_envelope(envelope: Envelope, text: &mut String) -> Result<(), AllocError> {
    let Envelope {
        destination,
        source,
        destination_eid,
        source_eid,
        tag_owner,
        tag,
    } = envelope;
    let (destination, source, tag) = (destination.byte(), source.byte(), tag.number());
    let owner = if tag_owner { "source's" } else { "other's" };
    write!(
        text,
        " to {destination:02X}.{destination_eid:02X} from {source:02X}.{source_eid:02X} \
         tag {tag} the {owner}"
    )
}

/// Where in its message the packet stands.
fn place_of(packet: &Packet) -> &'static str {
    match (packet.start, packet.end) {
        (true, true) => "only",
        (true, false) => "first",
        (false, true) => "last",
        (false, false) => "middle",
    }
}

fn push_packet(packet: &Packet, bytes: &[u8], text: &mut String) -> Result<(), NoOutcome> {
    push_envelope(packet.envelope, text)?;
    let (place, sequence) = (place_of(packet), packet.sequence.number());
    write!(text, " {place} sequence {sequence}")?;
    push_named(text, " payload", packet.payload.as_slice())?;
    push_other(write_packet(packet), bytes, text)
}

/// What the bytes are read as.
pub fn read_mctp(bytes: &[u8], text: &mut String) -> Result<(), NoOutcome> {
    match read_packet(bytes) {
        Ok(packet) => push_packet(&packet, bytes, text),
        Err(fault) => push_word(text, &fault),
    }
}

const PACKETS: &str = "
story a request is read and written
# Get Endpoint ID to endpoint 00h, from endpoint 08h at 30h; GetTID to endpoint 0Ah.
packet 20 0F 08 31 01 00 08 C8 00 80 02 50 -> to 20.00 from 30.08 tag 0 the source's only sequence 0 payload 00 80 02
packet 20 0F 09 31 01 0A 08 C8 01 80 00 02 BE -> to 20.0A from 30.08 tag 0 the source's only sequence 0 payload 01 80 00 02
# The upper bits of the version are ignored, and written as 0.
packet 20 0F 08 31 F1 00 08 C8 00 80 02 ED -> to 20.00 from 30.08 tag 0 the source's only sequence 0 payload 00 80 02 written 20 0F 08 31 01 00 08 C8 00 80 02 50

story the first fault is told
packet 20 0F 08 31 01 00 08 C8 00 -> Short
packet 21 0F 08 31 01 00 08 C8 00 80 02 50 -> NotMctp
packet 20 0F 08 30 01 00 08 C8 00 80 02 50 -> NotMctp
packet 20 0F 09 31 01 00 08 C8 00 80 02 50 -> Count
packet 20 0F 08 31 01 00 08 C8 00 80 02 51 -> Pec
# The packet error code and the version are wrong.
packet 20 0F 08 31 F2 00 08 C8 00 80 02 8A -> Pec
packet 20 0F 08 31 F2 00 08 C8 00 80 02 8B -> Version

story a cut packet is too short or miscounted
cuts packet 20 0F 08 31 01 00 08 C8 00 80 02 50 -> Short*10 Count*2
cuts packet 20 0F 09 31 01 0A 08 C8 01 80 00 02 BE -> Short*10 Count*3

story another byte at any place is a fault
changed packet 20 0F 08 31 01 00 08 C8 00 80 02 50 -> 0 read
changed packet 20 0F 09 31 01 0A 08 C8 01 80 00 02 BE -> 0 read
";

#[test]
fn packets_are_as_the_standard_has_them(rt: HostRuntime) {
    expect_told(&rt, rt.alloc(), PACKETS);
}
