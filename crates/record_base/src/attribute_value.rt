//! The values of BIOS attributes, and their bytes.
ghost use Rattle.std.specs.Prelude.{◌≡◌, ◌+◌, ◌≤◌, ◌++◌, length};
ghost use Rattle.record_base.specs.AttributeValue.{type_of_value, value_bytes, indexes_in, text_in, number_in, value_in};

use crate::attribute_sizes::{LONGEST_TEXT, MOST_COUNTED};
use two_wire::{Buffer, Data};

/// The type of an enumeration.
pub const ENUMERATION_TYPE: u8 = 0x00;

/// The type of a string.
pub const STRING_TYPE: u8 = 0x01;

/// The type of an integer.
pub const INTEGER_TYPE: u8 = 0x03;

/// The value of an attribute. Its bytes may be borrowed.
#[derive(Drop)]
pub enum AttributeValue<'a> {
    /// The indexes of the possible values that an enumeration has.
    Indexes(Data<'a, { MOST_COUNTED }>),
    /// The text of a string.
    Text(Data<'a, { LONGEST_TEXT }>),
    /// The number of an integer.
    Number(u64),
}

impl AttributeValue<'_> {
    /// The type of the value.
    pub fn type_code(&self) -> u8
        ensures value { result ≡ type_of_value self.now }
        ensures small { result ≤ 127 }
    {
        match self {
            AttributeValue::Indexes(_) => ENUMERATION_TYPE,
            AttributeValue::Text(_) => STRING_TYPE,
            AttributeValue::Number(_) => INTEGER_TYPE,
        }
    }

    /// Appends the value's bytes.
    pub fn write<B: Buffer>(&self, out: &mut B)
        requires { length (B.bytes out.old) + length (value_bytes self.now) ≤ B.capacity }
        ensures { B.bytes out.new ≡ B.bytes out.old ++ value_bytes self.now }
    {
        match self {
            AttributeValue::Indexes(indexes) => {
                out.push(indexes.as_slice().len() as u8);
                out.extend_from_slice(indexes.as_slice());
            }
            AttributeValue::Text(text) => {
                out.extend_from_slice(&(text.as_slice().len() as u16).to_le_bytes());
                out.extend_from_slice(text.as_slice());
            }
            AttributeValue::Number(number) => out.extend_from_slice(&number.to_le_bytes()),
        }
    }
}

/// The indexes behind a byte that counts them.
fn read_indexes(bytes: &[u8]) -> Option<AttributeValue<'_>>
    ensures { result ≡ indexes_in bytes.now }
{
    let (count, indexes) = bytes.split_first()?;
    if usize::from(*count) != indexes.len() {
        return None;
    }
    Some(AttributeValue::Indexes(Data::new(indexes)))
}

/// The text behind two bytes with its length.
fn read_text(bytes: &[u8]) -> Option<AttributeValue<'_>>
    ensures { result ≡ text_in bytes.now }
{
    if bytes.len() < 2 {
        return None;
    }
    let text = &bytes[2..];
    if usize::from(u16::from_le_bytes([bytes[0], bytes[1]])) != text.len() {
        return None;
    }
    Some(AttributeValue::Text(Data::new(text)))
}

/// The number of eight bytes.
fn read_number(bytes: &[u8]) -> Option<AttributeValue<'static>>
    ensures { result ≡ number_in bytes.now }
{
    let &[a, b, c, d, e, f, g, h] = bytes else {
        return None;
    };
    Some(AttributeValue::Number(u64::from_le_bytes([a, b, c, d, e, f, g, h])))
}

/// The value of this type with these bytes, or nothing where a value of the type can't have so many.
pub fn value_in(code: u8, bytes: &[u8]) -> Option<AttributeValue<'_>>
    ensures { result ≡ value_in code bytes.now }
{
    match code {
        ENUMERATION_TYPE => read_indexes(bytes),
        STRING_TYPE => read_text(bytes),
        INTEGER_TYPE => read_number(bytes),
        _ => None,
    }
}
