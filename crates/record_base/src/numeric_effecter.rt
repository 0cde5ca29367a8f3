//! A numeric effecter: in a board file, and as it is set.
ghost use Rattle.std.specs.Prelude.{◌<◌};
ghost use Rattle.record_base.specs.NumericSize.{numbers_of, bytes_of};
ghost use Rattle.record_base.specs.NumericEffecter.{IsNumeric};
ghost use Rattle.record_base.specs.PartLaws.{IsNumeric-prop};

use crate::board_sizes::MOST_EFFECTERS;
use crate::distinct::{Distinct, Numbered};
use crate::key::Key;
use crate::numeric_range::NumericRange;
use crate::start_value::StartValue;

/// A numeric effecter: its id, whether it is enabled, the numbers that a request can set it to, and the bits of the present
/// number.
#[derive(Clone, Copy, Debug)]
pub struct NumericEffecter {
    pub id: u16,
    pub enabled: bool,
    pub range: NumericRange,
    pub current: u32,
    ghost current_fits: { current < numbers_of range.size },
    ghost valid: { IsNumeric range (bytes_of range.size current) } by { IsNumeric-prop range (bytes_of range.size current) },
}

/// The numeric effecters of a board.
pub type NumericEffecters = Distinct<NumericEffecter, { MOST_EFFECTERS }>;

/// The bytes of a value in a request, the low byte first: as many as a size has, or another number of bytes.
#[derive(Clone, Copy)]
pub enum NumericBytes {
    One(u8),
    Two(u8, u8),
    Four(u8, u8, u8, u8),
    /// No size has so many bytes, so every effecter refuses them.
    Other,
}

/// Sets a numeric effecter. The request's bytes are the number that stands for the value's size, and the value.
#[derive(Clone, Copy)]
pub struct SetNumericEffecter {
    pub effecter: u16,
    pub size: u8,
    pub value: NumericBytes,
}

impl Numbered for NumericEffecter {
    ghost number_of = { λ effecter. effecter.id };

    fn number(&self) -> u16 {
        self.id
    }
}

impl NumericEffecter {
    ghost use Rattle.std.specs.Prelude.{◌≡◌, ◌<◌, ◌↔◌, IsSome, IfSome};
    ghost use Rattle.record_base.specs.NumericSize.{numbers_of, bytes_of};
    ghost use Rattle.record_base.specs.NumericEffecter.{IsNumeric};

    /// An effecter, or nothing where it can't have the number.
    pub fn new(id: u16, enabled: bool, range: NumericRange, current: u32) -> Option<NumericEffecter>
        ensures made { IsSome result
            ↔ ((current < numbers_of range.size) × IsNumeric range (bytes_of range.size current)) }
        ensures names { IfSome result (λ made. (made.id ≡ id) × (made.enabled ≡ enabled)) }
        ensures numbers { IfSome result (λ made. (made.range ≡ range) × (made.current ≡ current)) }
    {
        let bytes = range.size.bytes_of(current);
        if current as u64 >= range.size.numbers() || !range.is_numeric(bytes.as_slice()) {
            return None;
        }
        Some(NumericEffecter {
            id,
            enabled,
            range,
            current,
        })
    }

    /// The record of the effecter.
    pub fn pair(&self) -> (Key, StartValue)
        ensures { result ≡ (
          Key.NumericEffecter self.now.id,
          bytes_of self.now.range.size self.now.current,
        ) }
    {
        (
            Key::NumericEffecter(self.id),
            StartValue::few(self.range.size.bytes_of(self.current).as_slice()),
        )
    }
}
