//! What is wrong with bytes that are no frame.
ghost use Rattle.std.specs.Prelude.{◌≡◌, ◌/◌, ◌%◌, ◌↔◌, find, IsTrue};
ghost use Rattle.ipmb_frame.specs.Fault.{has_fault, faults};
ghost use Rattle.ipmb_frame.specs.declared.fault.FrameFault.TheVariants.{Short};

use std::error::Error;
use std::fmt;
use two_wire::check_byte;
use two_wire::size::MOST_IPMB_BYTES;

/// A frame has at least so many bytes: no data, and no completion code.
const SHORTEST: usize = 7;

/// A frame's first checksum is the last of so many bytes.
const HEAD: usize = 3;

/// What is wrong with bytes, of several faults the first in this order.
#[derive(Clone, Copy, Debug, PartialEq, Eq)]
pub enum FrameFault {
    /// Under 7 bytes, or 7 where the netFn is a response's.
    Short,
    /// Over 32 bytes.
    Long,
    /// The first three bytes don't add up to 0.
    HeadSum,
    /// The bytes from the fourth on don't add up to 0.
    BodySum,
    /// Bit 0 of an address is set.
    OddAddress,
}

/// The fault's name, as it stands here.
impl fmt::Display for FrameFault {
    ghost use Rattle.std.specs.Prelude.{Some};
    ghost use Rattle.ipmb_frame.specs.Fault.{fault_name};

    ghost output = { λ fault. Some (fault_name fault) };

    fn fmt<W: fmt::Write>(&self, f: &mut fmt::Formatter<W>) -> fmt::Result {
        f.write_str(match self {
            FrameFault::Short => "Short",
            FrameFault::Long => "Long",
            FrameFault::HeadSum => "HeadSum",
            FrameFault::BodySum => "BodySum",
            FrameFault::OddAddress => "OddAddress",
        })
    }
}

impl Error for FrameFault {}

/// The first fault of the bytes.
pub(crate) fn fault_of(bytes: &[u8]) -> Option<FrameFault>
    ensures { result ≡ find (has_fault bytes.now) faults }
{
    if is_short(bytes) {
        return Some(FrameFault::Short);
    }
    if bytes.len() > MOST_IPMB_BYTES {
        return Some(FrameFault::Long);
    }
    if check_byte(&bytes[..HEAD]) != 0 {
        return Some(FrameFault::HeadSum);
    }
    if check_byte(&bytes[HEAD..]) != 0 {
        return Some(FrameFault::BodySum);
    }
    if bytes[0] % 2 != 0 || bytes[3] % 2 != 0 {
        return Some(FrameFault::OddAddress);
    }
    None
}

fn is_short(bytes: &[u8]) -> bool
    ensures { result ≡ has_fault bytes.now Short }
{
    bytes.len() < SHORTEST || bytes.len() == SHORTEST && is_of_response(bytes[1])
}

/// Whether a frame with this second byte is a response: its netFn is odd.
pub(crate) fn is_of_response(function: u8) -> bool
    ensures { IsTrue result ↔ (function / 4 % 2 ≡ 1) }
{
    (function >> 2) % 2 == 1
}
