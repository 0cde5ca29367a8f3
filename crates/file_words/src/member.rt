//! The member of a list that doesn't fit.
ghost use Rattle.std.specs.Prelude.{◌≡◌, IfSome, map};
ghost use Rattle.std.specs.List.{list_all};
ghost use Rattle.toml.specs.View.{view, table_view};
ghost use Rattle.text_fields.specs.Ranges.{may_do};
ghost use Rattle.file_words.specs.Members.{are_bytes, fits, is_below, is_byte, IsUnfitAt};

use record_base::user::is_limit;
use record_base::user_sizes::{LEAST_PRIVILEGE, MOST_PRIVILEGE};
use text_fields::attributes::text;
use text_fields::range::{is_between, record};
use text_fields::states::change_of;
use text_fields::tree::{members_in, members_of, natural};
use text_fields::users::name;
use text_fields::{Field, Shape};
use toml::{Table, Value};

/// The last event of a threshold, by its offset.
const LAST_OFFSET: u32 = 11;

/// Whether the value is a byte.
fn is_byte(value: &Value) -> bool
    ensures { result ≡ is_byte (view value.now) }
{
    is_between(value, 0, 255)
}

/// Whether each of the values is a byte.
fn all_bytes(values: &[Value]) -> bool
    ensures { result ≡ list_all (λ value. is_byte (view value)) values.now }
{
    values.iter().all(|value| is_byte(value))
}

/// Whether the value is a list of bytes.
fn are_bytes(value: &Value) -> bool
    ensures { result ≡ are_bytes (view value.now) }
{
    all_bytes(members_of(value))
}

/// Whether the value is a number below this one.
fn is_below(value: &Value, count: usize) -> bool
    ensures { result ≡ is_below count (view value.now) }
{
    match natural(value) {
        Some(number) => number < count as u64,
        None => false,
    }
}

/// Whether the value says what a user may do.
fn may_do(value: &Value) -> bool
    ensures { result ≡ may_do (view value.now) }
{
    match natural(value) {
        Some(number) => match u8::try_from(number) {
            Ok(byte) => byte < 128 && is_limit(byte % 16),
            Err(_) => false,
        },
        None => false,
    }
}

/// Whether the value can be a member of a list of this shape, whatever the other members are.
fn fits(item: &Table, shape: &Shape, value: &Value) -> bool
    ensures { result ≡ fits (table_view item.now) shape.now (view value.now) }
{
    match shape {
        Shape::Records(_) => record(value).is_some(),
        Shape::Names => name(value).is_some(),
        Shape::Values => text(value).is_some(),
        Shape::Offsets => is_between(value, 0, LAST_OFFSET),
        Shape::Limits => is_between(value, u32::from(LEAST_PRIVILEGE), u32::from(MOST_PRIVILEGE)),
        Shape::UserBytes(_) => may_do(value),
        Shape::StateLists => are_bytes(value),
        Shape::StateChanges => change_of(value).is_some(),
        Shape::Indexes => is_below(value, members_in(item, Field::Values).len()),
        Shape::Watchdog | Shape::Tables(_) => true,
        _ => is_byte(value),
    }
}

/// The place of the first of these values, from 0, that can't be a member of the item's list of this shape, whatever the others are.
pub fn first_unfit(item: &Table, shape: &Shape, values: &[Value]) -> Option<usize>
    ensures { IfSome result (IsUnfitAt (table_view item.now) shape.now (map view values.now)) }
{
    for (place, value) in values.iter().enumerate() {
        if !fits(item, shape, value) {
            return Some(place);
        }
    }
    None
}
