//! Which numbers a numeric effecter can have.
ghost use Rattle.std.specs.Prelude.{◌<◌};
ghost use Rattle.record_base.specs.NumericSize.{numbers_of};

use crate::numeric_size::{NumericSize, number_in};

/// The numbers that a request can set a numeric effecter to: the numbers of its size from the lower to the upper bound. The
/// fields have the bits of the bounds.
#[derive(Clone, Copy, Debug)]
pub struct NumericRange {
    pub size: NumericSize,
    pub lower: u32,
    pub upper: u32,
    ghost lower_fits: { lower < numbers_of size },
    ghost upper_fits: { upper < numbers_of size },
}

impl NumericRange {
    ghost use Rattle.std.specs.Prelude.{◌≡◌, ◌↔◌, IsTrue, IsSome, IfSome};
    ghost use Rattle.record_base.specs.NumericSize.{numbers_of};
    ghost use Rattle.record_base.specs.NumericEffecter.{IsNumeric, is_between, is_numeric};

    /// The numbers of the size within these bounds, or nothing where a bound is none of the size.
    pub fn new(size: NumericSize, lower: u32, upper: u32) -> Option<NumericRange>
        ensures made { IsSome result ↔ ((lower < numbers_of size) × (upper < numbers_of size)) }
        ensures parts { IfSome result (λ made.
            (made.size ≡ size) × (made.lower ≡ lower) × (made.upper ≡ upper)) }
    {
        if lower as u64 >= size.numbers() || upper as u64 >= size.numbers() {
            return None;
        }
        Some(NumericRange { size, lower, upper })
    }

    /// Whether the number is within the bounds.
    fn is_between(&self, number: u32) -> bool
        ensures { result ≡ is_between self.now number }
    {
        let rank = self.size.rank(number);
        self.size.rank(self.lower) <= rank && rank <= self.size.rank(self.upper)
    }

    /// Whether an effecter with these bounds can have the value.
    pub fn is_numeric(&self, value: &[u8]) -> bool
        ensures test { result ≡ is_numeric self.now value.now }
        ensures means { IsTrue result ↔ IsNumeric self.now value.now }
    {
        value.len() == self.size.width() && self.is_between(number_in(value))
    }
}
