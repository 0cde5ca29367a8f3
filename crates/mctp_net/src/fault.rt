//! What is wrong with a packet.
use std::error::Error;
use std::fmt;

/// The first fault of a packet, in this order.
#[derive(Clone, Copy, Debug, PartialEq, Eq)]
pub enum PacketFault {
    /// Under 10 bytes.
    Short,
    /// The second byte isn't 0Fh, bit 0 of the destination is set, or bit 0 of the source is clear.
    NotMctp,
    /// The count with 4 isn't the length, or there are over 73 bytes.
    Count,
    /// The last byte isn't the packet error code of those before it.
    Pec,
    /// Bits 3:0 of the version aren't 1.
    Version,
}

/// Writes the name of the variant.
impl fmt::Display for PacketFault {
    ghost use Rattle.std.specs.Prelude.{Some};
    ghost use Rattle.mctp_net.specs.Grammar.{fault_name};

    ghost output = { λ fault. Some (fault_name fault) };

    fn fmt<W: fmt::Write>(&self, f: &mut fmt::Formatter<W>) -> fmt::Result {
        f.write_str(match self {
            PacketFault::Short => "Short",
            PacketFault::NotMctp => "NotMctp",
            PacketFault::Count => "Count",
            PacketFault::Pec => "Pec",
            PacketFault::Version => "Version",
        })
    }
}

impl Error for PacketFault {}
