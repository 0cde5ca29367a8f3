//! Requests and replies.
use two_wire::circles::INSTANCES;
use two_wire::size::{MOST_PLDM_REPLY_DATA, MOST_PLDM_REQUEST_DATA};
use two_wire::{Below, Data};

/// The number that a requester gives to a request, and that its reply has.
pub type Instance = Below<{ INSTANCES }>;

/// The type that a command belongs to, as 0 for messaging control or 3 for BIOS control.
pub type PldmType = Below<64>;

/// The bytes of a message behind the type byte of MCTP, where they lie. With that byte a message has at most 256.
pub type PldmBytes<'a> = Data<'a, 255>;

/// What a request and its reply have in common, the header of DSP0240:
///
/// ```text
/// bit      7       6        5       4   3   2   1   0
/// byte 0   request datagram ignored instance
/// byte 1   version (00b)    type
/// byte 2   command
/// ```
#[derive(Clone, Copy, PartialEq, Eq)]
pub struct Header {
    pub instance: Instance,
    pub pldm_type: PldmType,
    /// The command among those of its type.
    pub command: u8,
}

/// A request: bit 7 is set, bit 6 is clear, and the command's data follows the header.
#[derive(Drop)]
pub struct PldmRequest<'a> {
    pub header: Header,
    /// The command's data, where they lie.
    pub body: Data<'a, { MOST_PLDM_REQUEST_DATA }>,
}

/// A reply: bits 7 and 6 are clear, and the completion code, which is 00h for success, and the data follow the header.
/// It has the header of its request.
#[derive(Drop)]
pub struct PldmReply<'a> {
    pub header: Header,
    pub code: u8,
    /// The data behind the completion code, where they lie.
    pub body: Data<'a, { MOST_PLDM_REPLY_DATA }>,
}
