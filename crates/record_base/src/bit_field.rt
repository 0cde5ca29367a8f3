//! Numbers in some bits of a byte.
ghost use Rattle.std.specs.Prelude.{◌<◌, ◌^◌};

use crate::distinct::Numbered;

/// A number of so many bits. Definitions see the number beside its bound, where those of a `two_wire::Below` see the bare number.
#[derive(Clone, Copy, Debug, PartialEq, Eq, PartialOrd, Ord)]
pub struct BitField<const BITS: u32> {
    pub number: u8,
    pub ghost below: { number < 2 ^ BITS },
}

impl<const BITS: u32> BitField<BITS> {
    ghost use Rattle.std.specs.Prelude.{◌≡◌, ◌<◌};
    ghost use Rattle.record_base.specs.Numbers.{low_bits};

    /// The number in the low bits of a byte.
    pub fn of(byte: u8) -> Self
        requires { BITS < 8 }
        ensures { result ≡ low_bits BITS byte }
    {
        BitField {
            number: byte % (1 << BITS),
        }
    }
}

impl<const BITS: u32> Numbered for BitField<BITS> {
    ghost number_of = { λ field. field.number };

    fn number(&self) -> u16 {
        u16::from(self.number)
    }
}
