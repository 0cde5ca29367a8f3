//! What the tables of a file have.
ghost use Rattle.std.specs.Prelude.{◌≡◌, ◌<◌, ◌^◌, Some, IsSome, length, map, option_map, option_and_then};
ghost use Rattle.toml.specs.View.{view, table_view};
ghost use Rattle.text_fields.specs.Trees.{in_field, lacks, members, or_none, natural, naturals, naturals_in, all_bytes, bytes_in, flag_in, number_in, numbers_in, pair_in, members_in, table_in, HasNumber, HasBelow};
ghost use Rattle.text_fields.specs.Ranges.{has_text};
ghost use Rattle.toml.specs.Data.{as_table};

use crate::field::Field;
use toml::{Table, Value};

/// What the table has in the field.
pub fn in_field<'a>(table: &'a Table, field: Field) -> Option<&'a Value>
    ensures { option_map (λ v. view v.now) result ≡ in_field field (table_view table.now) }
{
    table.get(field.word())
}

/// Whether the table lacks the field.
pub fn lacks(table: &Table, field: Field) -> bool
    ensures { result ≡ lacks field (table_view table.now) }
{
    in_field(table, field).is_none()
}

/// The members of the array that the value is.
pub fn members(value: &Value) -> Option<&[Value]>
    ensures { option_map (λ values. map view values.now) result ≡ members (view value.now) }
{
    match value.as_array() {
        Some(array) => Some(array.as_slice()),
        None => None,
    }
}

/// The members of the array that the value is, none where it is no array.
pub fn members_of(value: &Value) -> &[Value]
    ensures { map view result.now ≡ or_none (members (view value.now)) }
{
    match members(value) {
        Some(values) => values,
        None => &[],
    }
}

/// The natural number that the value is.
pub fn natural(value: &Value) -> Option<u64>
    ensures { result ≡ natural (view value.now) }
{
    match value.as_integer() {
        Some(number) => u64::try_from(number).ok(),
        None => None,
    }
}

/// The natural numbers that these values are.
fn naturals_of<const N: usize>(values: &[Value]) -> Option<[u64; N]>
    requires { length values.now ≡ N }
    ensures { result ≡ naturals (map view values.now) }
{
    let mut numbers = [0; N];
    for (place, value) in values.iter().enumerate() {
        let Some(number) = natural(value) else {
            return None;
        };
        numbers[place] = number;
    }
    Some(numbers)
}

/// The natural numbers in the array that the value is, where there are `N`.
pub fn naturals<const N: usize>(value: &Value) -> Option<[u64; N]>
    ensures { result ≡ naturals_in N (view value.now) }
{
    let Some(values) = members(value) else {
        return None;
    };
    if values.len() != N {
        return None;
    }
    naturals_of(values)
}

/// The numbers as bytes, where each is one.
fn all_bytes<const N: usize>(numbers: [u64; N]) -> Option<[u8; N]>
    ensures { result ≡ all_bytes numbers.entry }
{
    let mut bytes = [0; N];
    for place in 0..N {
        let Ok(byte) = u8::try_from(numbers[place]) else {
            return None;
        };
        bytes[place] = byte;
    }
    Some(bytes)
}

/// The bytes in the array that the value is, where there are `N`.
pub fn bytes<const N: usize>(value: &Value) -> Option<[u8; N]>
    requires { N < 2 ^ 32 }
    ensures { result ≡ bytes_in N (view value.now) }
{
    match naturals(value) {
        Some(numbers) => all_bytes(numbers),
        None => None,
    }
}

/// The boolean that the table has in the field.
pub fn flag(table: &Table, field: Field) -> bool
    requires { IsSome (flag_in field (table_view table.now)) }
    ensures { flag_in field (table_view table.now) ≡ Some result }
{
    match in_field(table, field) {
        Some(value) => value.as_bool().unwrap(),
        None => unreachable!(),
    }
}

/// The number that the table has in the field.
pub fn number(table: &Table, field: Field) -> Option<u64>
    ensures { result ≡ number_in field (table_view table.now) }
{
    match in_field(table, field) {
        Some(value) => natural(value),
        None => None,
    }
}

/// The members of the array that the table has in the field.
pub fn members_in(table: &Table, field: Field) -> &[Value]
    ensures { map view result.now ≡ members_in field (table_view table.now) }
{
    let Some(value) = in_field(table, field) else {
        return &[];
    };
    match members(value) {
        Some(values) => values,
        None => &[],
    }
}

/// Whether the table has this text in the field.
pub fn has_text(table: &Table, field: Field, text: &str) -> bool
    ensures { result ≡ has_text field text.now (table_view table.now) }
{
    match in_field(table, field) {
        Some(value) => match value.as_str() {
            Some(found) => found == text,
            None => false,
        },
        None => false,
    }
}

/// The value that the table has in the field.
pub fn value_in<'a>(table: &'a Table, field: Field) -> &'a Value
    requires { IsSome (in_field field (table_view table.now)) }
    ensures { in_field field (table_view table.now) ≡ Some (view result.now) }
{
    in_field(table, field).unwrap()
}

/// The number that the table has in the field.
pub fn number_in(table: &Table, field: Field) -> u32
    requires { HasBelow (2 ^ 32) field (table_view table.now) }
    ensures { HasNumber field (table_view table.now) result }
{
    number(table, field).unwrap() as u32
}

/// The byte that the table has in the field.
pub fn byte_in(table: &Table, field: Field) -> u8
    requires { HasBelow 256 field (table_view table.now) }
    ensures { HasNumber field (table_view table.now) result }
{
    number(table, field).unwrap() as u8
}

/// The two bytes that the table has in the field.
pub fn word_in(table: &Table, field: Field) -> u16
    requires { HasBelow (2 ^ 16) field (table_view table.now) }
    ensures { HasNumber field (table_view table.now) result }
{
    number(table, field).unwrap() as u16
}

/// The bytes in the array of two that the table has in the field.
pub fn pair_in(table: &Table, field: Field) -> [u8; 2]
    requires { IsSome (pair_in field (table_view table.now)) }
    ensures { numbers_in 2 field (table_view table.now) ≡ Some result }
{
    match in_field(table, field) {
        Some(value) => bytes::<2>(value).unwrap(),
        None => unreachable!(),
    }
}

/// The table that the table has in the field.
pub fn table_in<'a>(table: &'a Table, field: Field) -> &'a Table
    requires { IsSome (option_and_then as_table (in_field field (table_view table.now))) }
    ensures { table_view result.now ≡ table_in field (table_view table.now) }
{
    match in_field(table, field) {
        Some(value) => value.as_table().unwrap(),
        None => unreachable!(),
    }
}
