//! Messages to frames.
ghost use Rattle.std.specs.Prelude.{◌≡◌, ◌+◌, ◌*◌, ◌<◌, ◌≤◌, List, length, take, drop};
ghost use Rattle.two_wire.specs.Sizes.{most_message_bytes};
ghost use Rattle.mctp_net.specs.declared.packet.Packet.{Packet as AnyPacket};
ghost use Rattle.mctp_net.specs.Cut.{IsCutOf, AreWritten};
ghost use Rattle.mctp_net.specs.Pieces.{piece_of, pieces_of, count_of};

use crate::packet::UNIT_SIZE;
use crate::{Message, Packet, Payload, Sequence, write_packet_into};
use arrayvec::ArrayVec;
use two_wire::Frame;

/// The frames of a message, one for each of its packets.
pub fn split(message: &Message<'_>) -> ArrayVec<Frame, 4>
    ensures { (ps : List AnyPacket) × IsCutOf message.now ps × AreWritten ps result.items }
{
    let mut frames = ArrayVec::new();
    split_into(message, &mut frames);
    frames
}

/// Makes the frames those of a message, one for each of its packets, whatever they were. Each is written where it stays.
pub fn split_into(message: &Message<'_>, frames: &mut ArrayVec<Frame, 4>)
    ensures { (ps : List AnyPacket) × IsCutOf message.now ps × AreWritten ps frames.new.items }
{
    let count = message.body.as_slice().len().div_ceil(UNIT_SIZE);
    keep(frames, count);
    write_each(message, frames.as_mut_slice());
}

// Leaves so many frames, of unspecified bytes.
fn keep(frames: &mut ArrayVec<Frame, 4>, count: usize)
    requires { count ≤ 4 }
    ensures { length frames.new.items ≡ count }
{
    frames.truncate(count);
    for _have in frames.len()..count {
        frames.push(Frame::new());
    }
}

// Writes into each frame the packet of the frame's place.
fn write_each(message: &Message<'_>, frames: &mut [Frame])
    requires { length frames.old ≡ count_of message.now }
    ensures { AreWritten (pieces_of message.now (count_of message.now)) frames.new }
{
    for (number, frame) in frames.iter_mut().enumerate() {
        write_packet_into(&piece(message, number), frame);
    }
}

// The packet of this number.
fn piece<'a>(message: &Message<'a>, number: usize) -> Packet<'a>
    requires { UNIT_SIZE * number < length message.now.body }
    ensures value { result ≡ piece_of message.now number }
    ensures fits { length message.now.body ≤ most_message_bytes }
{
    let body = message.body.as_slice();
    Packet {
        envelope: message.envelope,
        start: number == 0,
        end: body.len() <= UNIT_SIZE * number + UNIT_SIZE,
        sequence: Sequence::new(number as u8),
        payload: Payload::new(run(body, number)),
    }
}

// The bytes that the packet of this number carries.
fn run(body: &[u8], number: usize) -> &[u8]
    requires some { UNIT_SIZE * number < length body.now }
    requires few { length body.now ≤ most_message_bytes }
    ensures value { result.now ≡ take UNIT_SIZE (drop (UNIT_SIZE * number) body.now) }
    ensures some { 0 < length result.now }
    ensures fits { length result.now ≤ UNIT_SIZE }
{
    &body[UNIT_SIZE * number..body.len().min(UNIT_SIZE * number + UNIT_SIZE)]
}
