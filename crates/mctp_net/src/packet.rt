//! Packets.
ghost use Rattle.std.specs.Prelude.{◌≡◌};

use crate::SomeData;
use two_wire::circles::TAGS;
use two_wire::{Address, Below};

/// The number that tells the messages of one source apart.
pub type Tag = Below<{ TAGS }>;

/// A packet's number in its message, modulo 4.
pub type Sequence = Below<4>;

/// How many bytes of a message each packet carries but the last, which may carry fewer.
pub const UNIT_SIZE: usize = 64;

/// The bytes of a message that one packet carries, where they lie.
pub type Payload<'a> = SomeData<'a, { UNIT_SIZE }>;

/// What tells the messages that are put together at one time apart.
#[derive(Clone, Copy, PartialEq, Eq)]
pub struct Name {
    /// The endpoint from which the message comes.
    pub source_eid: u8,
    /// Whether the source chose the tag.
    pub tag_owner: bool,
    pub tag: Tag,
}

/// The sender, the receiver and the tag of a message.
#[derive(Clone, Copy, PartialEq, Eq)]
pub struct Envelope {
    /// The two-wire address to which it is sent.
    pub destination: Address,
    /// The two-wire address from which it is sent.
    pub source: Address,
    /// The endpoint to which it goes: 00h is whichever has the address.
    pub destination_eid: u8,
    /// The endpoint from which it comes.
    pub source_eid: u8,
    /// Whether the source chose the tag, as it does for a request.
    pub tag_owner: bool,
    /// The tag.
    pub tag: Tag,
}

impl Envelope {
    ghost use Rattle.mctp_net.specs.Assembly.{name_of};

    /// The name of the message.
    pub fn name(&self) -> Name
        ensures { result ≡ name_of self.now }
    {
        Name {
            source_eid: self.source_eid,
            tag_owner: self.tag_owner,
            tag: self.tag,
        }
    }
}

/// A packet of a message on the System Management Bus (DSP0237, "MCTP packet encapsulation"):
///
/// ```text
///   byte     0         1    2       3            4       5             6            7       8 ..            last
///          +---------+----+-------+------------+-------+-------------+------------+-------+---------------+-----+
///          | address | 0F | count | source + 1 | i | 1 | destination | source EID | flags | 1 to 64 bytes | PEC |
///          |         |    |       |            |   |   | EID         |            |       |               |     |
///          +---------+----+-------+------------+-------+-------------+------------+-------+---------------+-----+
///   flags: start 7, end 6, sequence 5:4, tag owner 3, tag 2:0
/// ```
///
/// The count is that of the bytes from the source on, without the packet error code (PEC). Bits 7:4 of the version byte,
/// `i`, are ignored where a packet is read, and 0 where one is written.
#[derive(Drop)]
pub struct Packet<'a> {
    pub envelope: Envelope,
    /// Whether it is the first of its message.
    pub start: bool,
    /// Whether it is the last of its message.
    pub end: bool,
    pub sequence: Sequence,
    pub payload: Payload<'a>,
}
