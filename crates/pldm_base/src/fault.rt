//! What is wrong with the bytes of a message.
use std::error::Error;
use std::fmt;

/// Why bytes aren't a request: the first fault that they have, in this order.
#[derive(Clone, Copy, Debug, PartialEq, Eq)]
pub enum PldmFault {
    /// Under 3 bytes.
    Short,
    /// The version of the header isn't 00b.
    Version,
    /// The request bit is clear, or the datagram bit is set.
    NotRequest,
}

/// The fault's name, as it stands here.
impl fmt::Display for PldmFault {
    ghost use Rattle.std.specs.Prelude.{Some};
    ghost use Rattle.pldm_base.specs.Message.{fault_name};

    ghost output = { λ fault. Some (fault_name fault) };

    fn fmt<W: fmt::Write>(&self, f: &mut fmt::Formatter<W>) -> fmt::Result {
        f.write_str(match self {
            PldmFault::Short => "Short",
            PldmFault::Version => "Version",
            PldmFault::NotRequest => "NotRequest",
        })
    }
}

impl Error for PldmFault {}

/// Why bytes aren't a reply: the first fault that they have, in this order.
#[derive(Clone, Copy, Debug, PartialEq, Eq)]
pub enum PldmReplyFault {
    /// Under 4 bytes.
    Short,
    /// The version of the header isn't 00b.
    Version,
    /// The request bit or the datagram bit is set.
    NotReply,
}
