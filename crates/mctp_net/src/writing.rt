//! Packets to frames.
ghost use Rattle.std.specs.Prelude.{◌≡◌, ◌<◌};
ghost use Rattle.two_wire.specs.Circles.{tags};
ghost use Rattle.mctp_net.specs.Grammar.{IsSpelled, flags_of};

use crate::{Envelope, Packet};
use two_wire::{Frame, pec};

/// The frame of a packet.
pub fn write_packet(packet: &Packet<'_>) -> Frame
    // The bits that a reader ignores are 0.
    ensures { IsSpelled packet.now 0 result }
{
    let mut frame = Frame::new();
    write_packet_into(packet, &mut frame);
    frame
}

/// Makes the frame that of a packet, whatever it was.
pub fn write_packet_into(packet: &Packet<'_>, frame: &mut Frame)
    ensures { IsSpelled packet.now 0 frame.new }
{
    let Envelope {
        destination,
        source,
        destination_eid,
        source_eid,
        ..
    } = packet.envelope;
    let payload = packet.payload.as_slice();
    *frame = Frame::new();
    frame.push(destination.byte());
    frame.push(0x0F);
    frame.push(5 + payload.len() as u8);
    frame.push(source.byte() + 1);
    frame.push(1);
    frame.push(destination_eid);
    frame.push(source_eid);
    frame.push(flags(packet));
    frame.extend_from_slice(payload);
    frame.push(pec(frame.as_slice()));
}

// The byte of flags.
fn flags(packet: &Packet<'_>) -> u8
    ensures value { result ≡ flags_of packet.now }
    ensures sequence { packet.now.sequence < 4 }
    ensures tag { packet.now.envelope.tag < tags }
{
    let Envelope { tag_owner, tag, .. } = packet.envelope;
    let mut flags = 8 * u8::from(tag_owner) + tag.number();
    flags += 16 * packet.sequence.number();
    flags += 64 * u8::from(packet.end);
    flags + 128 * u8::from(packet.start)
}
