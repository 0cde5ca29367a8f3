//! The sizes of a numeric effecter's numbers.
ghost use Rattle.std.specs.Prelude.{◌≡◌};
ghost use Rattle.record_base.specs.NumericSize.{number_in};

use crate::message::byte_at;
use two_wire::Bytes;

/// The size of a numeric effecter's numbers (DSP0248). Signed numbers are in two's complement.
#[derive(Clone, Copy, Debug)]
pub enum NumericSize {
    U8,
    S8,
    U16,
    S16,
    U32,
    S32,
}

impl NumericSize {
    ghost use Rattle.std.specs.Prelude.{◌≡◌, ◌<◌, ◌≤◌};
    ghost use Rattle.record_base.specs.NumericSize.{code_of, width_of, numbers_of, negatives_of, rank, bytes_of};

    /// The number that stands for the size in requests and replies.
    pub fn code(self) -> u8
        ensures { result ≡ code_of self }
    {
        match self {
            NumericSize::U8 => 0,
            NumericSize::S8 => 1,
            NumericSize::U16 => 2,
            NumericSize::S16 => 3,
            NumericSize::U32 => 4,
            NumericSize::S32 => 5,
        }
    }

    /// How many bytes a number of the size has.
    pub fn width(self) -> usize
        ensures value { result ≡ width_of self }
        ensures few { result ≤ 4 }
    {
        match self {
            NumericSize::U8 | NumericSize::S8 => 1,
            NumericSize::U16 | NumericSize::S16 => 2,
            NumericSize::U32 | NumericSize::S32 => 4,
        }
    }

    /// How many numbers the size has.
    pub fn numbers(self) -> u64
        ensures value { result ≡ numbers_of self }
        ensures some { 0 < result }
    {
        match self {
            NumericSize::U8 | NumericSize::S8 => 0x100,
            NumericSize::U16 | NumericSize::S16 => 0x1_0000,
            NumericSize::U32 | NumericSize::S32 => 0x1_0000_0000,
        }
    }

    /// How many numbers of the size are negative.
    fn negatives(self) -> u64
        ensures value { result ≡ negatives_of self }
        ensures few { result ≤ 0x80000000 }
    {
        match self {
            NumericSize::S8 => 0x80,
            NumericSize::S16 => 0x8000,
            NumericSize::S32 => 0x8000_0000,
            NumericSize::U8 | NumericSize::U16 | NumericSize::U32 => 0,
        }
    }

    /// How many numbers of the size are less than this one.
    pub fn rank(self, number: u32) -> u64
        ensures { result ≡ rank self number }
    {
        (number as u64 + self.negatives()) % self.numbers()
    }

    /// The bytes of a number of the size, the low one first.
    pub fn bytes_of(self, number: u32) -> Bytes<4>
        ensures { result ≡ bytes_of self number }
    {
        let bytes = number.to_le_bytes();
        Bytes::from_slice(&bytes[..self.width()])
    }
}

/// The number of at most four bytes, the low one first.
pub fn number_in(value: &[u8]) -> u32
    ensures { result ≡ number_in value.now }
{
    let bytes = [
        byte_at(value, 0),
        byte_at(value, 1),
        byte_at(value, 2),
        byte_at(value, 3),
    ];
    u32::from_le_bytes(bytes)
}
