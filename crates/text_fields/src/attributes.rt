//! BIOS attributes in files: their texts, lists and numbers.
ghost use Rattle.std.specs.Prelude.{◌≡◌, ◌≤◌, true, map, is_some, Some, IsSome, length};
ghost use Rattle.std.specs.List.{list_all, AllZip};
ghost use Rattle.std.specs.Option.{option_copied};
ghost use Rattle.record_base.specs.AttributeSizes.{most_indexes};
ghost use Rattle.toml.specs.Data.{as_str};
ghost use Rattle.toml.specs.View.{view, table_view};
ghost use Rattle.text_fields.specs.Trees.{natural, IsNaturalIn, members, or_none, members_in};
ghost use Rattle.text_fields.specs.Attributes.{short_text, text_of, text_in, string_of, string_in, is_kind, are_values, is_below, are_indexes, is_as_long, is_stepped};
ghost use Rattle.text_fields.specs.Ranges.{passes, is_most, is_sized_text, is_upper_natural, is_step, is_in_range};

use crate::field::Field;
use crate::row::Shape;
use crate::tree::{in_field, lacks, members_in, members_of, natural, number};
use record_base::attribute_sizes::{MOST_INDEXES, MOST_NAME, MOST_TEXT};
use record_base::{Indexes, Text};
use toml::{Table, Value};

/// The text, where it has at most 200 bytes: a name, or a possible value.
fn short_text(text: &str) -> Option<Text>
    ensures { result ≡ short_text text.now }
{
    if text.len() > MOST_NAME {
        return None;
    }
    Some(Text::from_slice(text.as_bytes()))
}

/// The short text that the value is.
pub fn text(value: &Value) -> Option<Text>
    ensures { result ≡ text_of (view value.now) }
{
    match value.as_str() {
        Some(text) => short_text(text),
        None => None,
    }
}

/// The short text that the table has in the field.
pub fn text_in(table: &Table, field: Field) -> Text
    requires { IsSome (text_in field (table_view table.now)) }
    ensures { text_in field (table_view table.now) ≡ Some result }
{
    match in_field(table, field) {
        Some(value) => text(value).unwrap(),
        None => unreachable!(),
    }
}

/// The bytes of the text of at most `MOST_TEXT` bytes that the value is: what a string can be. They lie where the file has them.
fn string(value: &Value) -> Option<&[u8]>
    ensures { option_copied result ≡ string_of (view value.now) }
{
    match value.as_str() {
        Some(text) if text.len() <= MOST_TEXT => Some(text.as_bytes()),
        _ => None,
    }
}

/// The bytes of such a text that the table has in the field.
pub fn string_in(table: &Table, field: Field) -> &[u8]
    requires { IsSome (string_in field (table_view table.now)) }
    ensures { string_in field (table_view table.now) ≡ Some result.now }
{
    match in_field(table, field) {
        Some(value) => string(value).unwrap(),
        None => unreachable!(),
    }
}

/// Whether the value says what an attribute is.
pub fn is_kind(value: &Value) -> bool
    ensures { result ≡ passes is_kind (as_str (view value.now)) }
{
    match value.as_str() {
        Some(word) => word == "enumeration" || word == "string" || word == "integer",
        None => false,
    }
}

/// Whether each of the values is a short text.
fn all_texts(values: &[Value]) -> bool
    ensures { result ≡ list_all (λ value. is_some (text_of (view value))) values.now }
{
    values.iter().all(|value| text(value).is_some())
}

/// Whether the value has at least one and at most 16 possible values.
pub fn are_values(value: &Value) -> bool
    ensures { result ≡ are_values (or_none (members (view value.now))) }
{
    let values = members_of(value);
    if values.is_empty() {
        return false;
    }
    values.len() <= MOST_INDEXES && all_texts(values)
}

/// Whether the value is a number below this one.
fn is_below(value: &Value, count: usize) -> bool
    ensures { result ≡ is_below count (natural (view value.now)) }
{
    match natural(value) {
        Some(number) => number < count as u64,
        None => false,
    }
}

/// Whether each of the values is a number below this one.
fn all_below(values: &[Value], count: usize) -> bool
    ensures { result ≡ list_all (λ value. is_below count (natural (view value))) values.now }
{
    values.iter().all(|value| is_below(value, count))
}

/// Whether the value is a list of at least one and at most so many indexes, each of so many possible values.
pub fn are_indexes(value: &Value, most: usize, count: usize) -> bool
    ensures { result ≡ are_indexes most count (or_none (members (view value.now))) }
{
    let indexes = members_of(value);
    if indexes.is_empty() {
        return false;
    }
    indexes.len() <= most && all_below(indexes, count)
}

/// Whether the value has indexes of the item's values, at most one for each.
pub fn are_own_indexes(item: &Table, value: &Value) -> bool
    ensures { result ≡ are_indexes
        (length (members_in Field.Values (table_view item.now)))
        (length (members_in Field.Values (table_view item.now)))
        (or_none (members (view value.now))) }
{
    let count = members_in(item, Field::Values).len();
    are_indexes(value, count, count)
}

/// The index that the value is.
fn index(value: &Value) -> u8
    requires { is_below 256 (natural (view value.now)) ≡ true }
    ensures { IsNaturalIn (view value.now) result }
{
    natural(value).unwrap() as u8
}

/// The indexes that these values are.
pub fn indexes_of(values: &[Value]) -> Indexes
    requires few { length values.now ≤ most_indexes }
    requires indexes { list_all (λ value. is_below 256 (natural (view value))) values.now ≡ true }
    ensures held { AllZip IsNaturalIn (map view values.now) result }
    ensures few { length result ≤ most_indexes }
{
    let mut indexes = Indexes::new();
    for value in values {
        indexes.push(index(value));
    }
    indexes
}

/// Whether the value is a length that can be the item's most.
pub fn is_most(item: &Table, value: &Value) -> bool
    ensures { result ≡ passes (is_most (table_view item.now)) (natural (view value.now)) }
{
    match (number(item, Field::Least), natural(value)) {
        (Some(least), Some(most)) => least <= most && most <= MOST_TEXT as u64,
        _ => false,
    }
}

/// Whether the text has a length from the least to the most.
fn is_as_long(text: &str, least: u64, most: u64) -> bool
    ensures { result ≡ is_as_long least most text.now }
{
    let length = text.len() as u64;
    least <= length && length <= most
}

/// Whether the value is a text of a length from the item's least to its most.
pub fn is_sized_text(item: &Table, value: &Value) -> bool
    ensures { result ≡ passes (is_sized_text (table_view item.now)) (as_str (view value.now)) }
{
    let Some(text) = value.as_str() else {
        return false;
    };
    match (number(item, Field::Least), number(item, Field::Most)) {
        (Some(least), Some(most)) => is_as_long(text, least, most),
        _ => false,
    }
}

/// Whether the value is a number that is not below the item's lower bound.
pub fn is_upper_natural(item: &Table, value: &Value) -> bool
    ensures { result ≡ passes (is_upper_natural (table_view item.now)) (natural (view value.now)) }
{
    match (number(item, Field::Lower), natural(value)) {
        (Some(lower), Some(upper)) => lower <= upper,
        _ => false,
    }
}

/// Whether the number is one from the lower to the upper, by steps of the increment where that isn't 0.
fn is_stepped(lower: u64, upper: u64, increment: u64, number: u64) -> bool
    ensures { result ≡ is_stepped lower upper increment number }
{
    if number < lower || number > upper {
        return false;
    }
    increment == 0 || (number - lower) % increment == 0
}

/// Whether the value is a number within the item's bounds, by steps of its increment.
pub fn is_step(item: &Table, value: &Value) -> bool
    ensures { result ≡ passes (is_step (table_view item.now)) (natural (view value.now)) }
{
    let Some(found) = natural(value) else {
        return false;
    };
    let (Some(lower), Some(upper)) = (number(item, Field::Lower), number(item, Field::Upper)) else {
        return false;
    };
    match number(item, Field::Increment) {
        Some(increment) => is_stepped(lower, upper, increment, found),
        None => false,
    }
}

/// Whether the value is a list of 1 to 16 indexes, and the item gives neither a text nor a number besides.
pub fn are_only_indexes(item: &Table, value: &Value) -> bool
    ensures { result ≡ is_in_range (table_view item.now) Shape.FewIndexes (view value.now) }
{
    lacks(item, Field::Text) && lacks(item, Field::Number) && are_indexes(value, MOST_INDEXES, 256)
}

/// Whether the value is a text that a string can be, and the item gives no number besides.
pub fn is_only_text(item: &Table, value: &Value) -> bool
    ensures { result ≡ is_in_range (table_view item.now) Shape.AttributeText (view value.now) }
{
    lacks(item, Field::Number) && string(value).is_some()
}
