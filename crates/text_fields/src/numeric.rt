//! Numbers of numeric effecters: integers of the size that an item names.
ghost use Rattle.std.specs.Prelude.{◌≡◌, ◌<◌, ◌≤◌, ◌-◌, Some, pos, negsuc};
ghost use Rattle.record_base.specs.NumericSize.{bytes_of, negatives_of, numbers_of};
ghost use Rattle.toml.specs.View.{view, table_view};
ghost use Rattle.text_fields.specs.Numeric.{size_at, size_in, bits_of, sized, sized_in, in_order, AreValueBytes};

use crate::field::Field;
use crate::tree::{in_field, number};
use record_base::{NumericBytes, NumericSize};
use toml::{Table, Value};

/// All sizes of numbers.
pub const SIZES: [NumericSize; 6] = [
    NumericSize::U8,
    NumericSize::S8,
    NumericSize::U16,
    NumericSize::S16,
    NumericSize::U32,
    NumericSize::S32,
];

/// The size for which this number stands.
#[tactic(auto, unfolding(crate::specs::Numeric::size_at))]
fn size_at(code: u64) -> Option<NumericSize>
    ensures { result ≡ size_at code }
{
    SIZES
        .iter()
        .copied()
        .find(|size| u64::from(size.code()) == code)
}

/// The size that the item names.
pub fn size_in(item: &Table) -> Option<NumericSize>
    ensures { result ≡ size_in (table_view item.now) }
{
    match number(item, Field::Size) {
        Some(code) => size_at(code),
        None => None,
    }
}

/// How many numbers of the size are below 0.
#[tactic(auto, using(crate::proofs::Sizes::rank_of_zero, crate::proofs::Sizes::negatives_fit))]
fn negatives(size: NumericSize) -> u64
    ensures value { result ≡ negatives_of size }
    ensures few { result ≤ numbers_of size }
{
    size.rank(0)
}

/// The number of the size that is not negative and has this value.
#[tactic(auto, using(crate::proofs::Sizes::numbers_fit))]
fn positive(size: NumericSize, number: u64) -> Option<u32>
    ensures { result ≡ bits_of size (pos number) }
{
    if number >= size.numbers() - negatives(size) {
        return None;
    }
    Some(number as u32)
}

/// The number of the size that is so much below 0, at least by 1, in two's complement.
#[tactic(auto, using(crate::proofs::Sizes::numbers_fit))]
fn negative(size: NumericSize, below: u64) -> Option<u32>
    requires { 0 < below }
    ensures { result ≡ bits_of size (negsuc (below - 1)) }
{
    if below > negatives(size) {
        return None;
    }
    Some((size.numbers() - below) as u32)
}

/// The number of the size that has the integer's value.
#[tactic(auto, using(crate::proofs::Sizes::bits_of_positive, crate::proofs::Sizes::bits_of_negative))]
fn bits_of(size: NumericSize, number: i64) -> Option<u32>
    ensures { result ≡ bits_of size number }
{
    let distance = number.unsigned_abs();
    if number < 0 {
        return negative(size, distance);
    }
    positive(size, distance)
}

/// The number of the size that the value is.
pub fn sized(size: NumericSize, value: &Value) -> Option<u32>
    ensures { result ≡ sized size (view value.now) }
{
    match value.as_integer() {
        Some(number) => bits_of(size, number),
        None => None,
    }
}

/// The number of the size that the table has in the field.
pub fn sized_in(table: &Table, size: NumericSize, field: Field) -> Option<u32>
    ensures { result ≡ sized_in size field (table_view table.now) }
{
    match in_field(table, field) {
        Some(value) => sized(size, value),
        None => None,
    }
}

/// Whether there are two numbers of the size, of which the first isn't above the second.
pub fn in_order(size: NumericSize, low: Option<u32>, high: Option<u32>) -> bool
    ensures { result ≡ in_order size low high }
{
    match (low, high) {
        (Some(low), Some(high)) => size.rank(low) <= size.rank(high),
        _ => false,
    }
}

/// The bytes of a number of the size, as a request has them.
pub fn numeric_bytes(size: NumericSize, number: u32) -> NumericBytes
    ensures { AreValueBytes result (Some (bytes_of size number)) }
{
    let [a, b, c, d] = number.to_le_bytes();
    match size {
        NumericSize::U8 | NumericSize::S8 => NumericBytes::One(a),
        NumericSize::U16 | NumericSize::S16 => NumericBytes::Two(a, b),
        NumericSize::U32 | NumericSize::S32 => NumericBytes::Four(a, b, c, d),
    }
}
