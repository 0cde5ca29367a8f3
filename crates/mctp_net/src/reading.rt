//! Frames to packets.
ghost use Rattle.std.specs.Prelude.{◌≡◌, ◌%◌, IfOk, find, None};
ghost use Rattle.std.specs.Result.{result_err};
ghost use Rattle.mctp_net.specs.declared.packet.Packet.{Packet as AnyPacket};
ghost use Rattle.mctp_net.specs.Grammar.{IsPacket, has_fault, faults};

use crate::{Envelope, Packet, PacketFault, Payload, Sequence, Tag};
use two_wire::circles::TAGS;
use two_wire::{Address, pec};

/// The packet that a frame is, with its payload where it lies.
pub fn read_packet(bytes: &[u8]) -> Result<Packet<'_>, PacketFault>
    // An error is the first fault that the bytes have, in the order of the faults.
    ensures fault { result_err result ≡ find (has_fault bytes.now) faults }
    // The bytes are the packet that is read.
    ensures read { IfOk result (λ p. IsPacket p bytes.now) }
    // A packet's bytes are read as that packet.
    ensures whole { (p : AnyPacket) → IsPacket p bytes.now → result ≡ Ok p }
{
    match first_fault(bytes) {
        Some(fault) => Err(fault),
        None => Ok(packet_of(bytes)),
    }
}

// The first fault of the bytes.
fn first_fault(bytes: &[u8]) -> Option<PacketFault>
    ensures { result ≡ find (has_fault bytes.now) faults }
{
    let length = bytes.len();
    if length < 10 {
        return Some(PacketFault::Short);
    }
    if bytes[1] != 0x0F || bytes[0] % 2 == 1 || bytes[3] % 2 == 0 {
        return Some(PacketFault::NotMctp);
    }
    if usize::from(bytes[2]) + 4 != length || length > 73 {
        return Some(PacketFault::Count);
    }
    if pec(&bytes[..length - 1]) != bytes[length - 1] {
        return Some(PacketFault::Pec);
    }
    if bytes[4] % 16 != 1 {
        return Some(PacketFault::Version);
    }
    None
}

// The packet of bytes that have no fault.
fn packet_of(bytes: &[u8]) -> Packet<'_>
    requires { find (has_fault bytes.now) faults ≡ None }
    ensures { IsPacket result bytes.now }
{
    let flags = bytes[7];
    let envelope = Envelope {
        destination: address(bytes[0]),
        source: address(bytes[3] - 1),
        destination_eid: bytes[5],
        source_eid: bytes[6],
        tag_owner: flags & 0x08 != 0,
        tag: Tag::new(flags % TAGS),
    };
    Packet {
        envelope,
        start: flags & 0x80 != 0,
        end: flags & 0x40 != 0,
        sequence: Sequence::new(flags >> 4 & 3),
        payload: Payload::new(&bytes[8..bytes.len() - 1]),
    }
}

// The address that the byte is.
fn address(byte: u8) -> Address
    requires { byte % 2 ≡ 0 }
    ensures { result ≡ byte }
{
    Address::new(byte).unwrap()
}
