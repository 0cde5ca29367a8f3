//! Requests and responses.
use two_wire::circles::SEQUENCE_NUMBERS;
use two_wire::size::{MOST_IPMI_REPLY_DATA, MOST_IPMI_REQUEST_DATA};
use two_wire::{Address, Below, Data, Lun, NetFn};

/// The number that a requester gives to a request, and that the response has too.
pub type Sequence = Below<{ SEQUENCE_NUMBERS }>;

/// A device on the bus, and the logical unit behind its address that is meant.
#[derive(Clone, Copy, Debug, PartialEq, Eq)]
pub struct Party {
    pub address: Address,
    pub lun: Lun,
}

/// What a request and its responses have in common.
#[derive(Clone, Copy, PartialEq, Eq)]
pub struct Header {
    /// Who carries the request out, and answers it.
    pub responder: Party,
    /// Who sent the request.
    pub requester: Party,
    pub net_fn: NetFn,
    pub sequence: Sequence,
    pub command: u8,
}

/// A request to carry a command out.
#[derive(Drop)]
pub struct Request<'a> {
    pub header: Header,
    /// The command's data.
    pub body: Data<'a, { MOST_IPMI_REQUEST_DATA }>,
}

/// The response to a request, whose header it has.
#[derive(Drop)]
pub struct Response<'a> {
    pub header: Header,
    /// The completion code. 00h stands for success.
    pub code: u8,
    /// The data behind the completion code.
    pub body: Data<'a, { MOST_IPMI_REPLY_DATA }>,
}

/// A message of the bus. A frame starts with the address that it goes to (Intelligent Platform Management Bus
/// Communications Protocol 1.0, message formats):
///
/// ```text
///   byte      0       1             2         3       4             5     6 ..                        last
///          +------+-------------+----------+------+-------------+-----+---------------------------+----------+
/// request  | rsSA | netFn | LUN | checksum | rqSA | rqSeq | LUN | cmd | data, 0 to 25 bytes       | checksum |
///          +------+-------------+----------+------+-------------+-----+---------------------------+----------+
/// response | rqSA | netFn | LUN | checksum | rsSA | rqSeq | LUN | cmd | code, data, 0 to 24 bytes | checksum |
///          +------+-------------+----------+------+-------------+-----+---------------------------+----------+
///   bits     7:0     7:2    1:0     7:0      7:0     7:2    1:0   7:0
/// ```
///
/// Each logical unit (LUN) belongs to the address before it. A response's netFn is the request's, which is even, plus 1.
/// Bytes 0 to 2 add up to 0 modulo 256, and so do those from byte 3 to the last. Bit 0 of an address is clear. A frame has
/// at most 32 bytes.
#[derive(Drop)]
pub enum Msg<'a> {
    Request(Request<'a>),
    Response(Response<'a>),
}
