//! What becomes of a packet.
use std::error::Error;
use std::fmt;

/// Why a packet is dropped: the first cause that holds, in this order.
#[derive(Clone, Copy, Debug, PartialEq, Eq)]
pub enum DropCause {
    /// The packet goes to another endpoint.
    NotOurs,
    /// The packet isn't a start, and no assembly of its name is open.
    NoStart,
    /// Four packets were taken already.
    TooLong,
    /// The packet's sequence number isn't its place's.
    OutOfSequence,
    /// The packet isn't an end, and has other than 64 bytes.
    UnitSize,
    /// The packet would open a ninth assembly.
    NoSlot,
}

/// Writes the name of the variant.
impl fmt::Display for DropCause {
    ghost use Rattle.std.specs.Prelude.{Some};
    ghost use Rattle.mctp_net.specs.Assembly.{cause_name};

    ghost output = { λ cause. Some (cause_name cause) };

    fn fmt<W: fmt::Write>(&self, f: &mut fmt::Formatter<W>) -> fmt::Result {
        f.write_str(match self {
            DropCause::NotOurs => "NotOurs",
            DropCause::NoStart => "NoStart",
            DropCause::TooLong => "TooLong",
            DropCause::OutOfSequence => "OutOfSequence",
            DropCause::UnitSize => "UnitSize",
            DropCause::NoSlot => "NoSlot",
        })
    }
}

impl Error for DropCause {}

/// What becomes of a packet.
#[derive(Clone, Copy, Debug, PartialEq, Eq)]
pub enum Taken {
    /// The packet is taken, and others are to come.
    Waiting,
    /// The packet ends a message, which `Assembler::message` shows.
    Whole,
    /// The packet is dropped.
    Dropped(DropCause),
}
