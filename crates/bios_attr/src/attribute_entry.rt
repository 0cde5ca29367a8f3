//! Attribute entries: what a table says of an attribute.
ghost use Rattle.std.specs.Prelude.{◌≡◌, ◌+◌, ◌*◌, ◌≤◌, ◌++◌, length, drop, take};
ghost use Rattle.std.specs.Int.{w32, w64, from_le_bytes};
ghost use Rattle.bios_attr.specs.declared.attribute_entry.KindFields.TheVariants.{Enumeration, Text, Integer};
ghost use Rattle.bios_attr.specs.AttributeEntry.{type_of_fields, fields_bytes, attribute_bytes, default_at, enumeration_at, text_at, numbers_in, integer_at, fields_at, attribute_at};

use crate::rest::Rest;
use crate::value_entry::{READ_ONLY_BIT, shown_type};
use record_base::attribute_sizes::{LONGEST_TEXT, MOST_COUNTED};
use record_base::attribute_value::{ENUMERATION_TYPE, INTEGER_TYPE, STRING_TYPE};
use two_wire::{Buffer, Data};

/// How many bytes the handles have at most that an entry counts by one byte.
const MOST_HANDLES: usize = 510;

/// How many bytes the numbers of an integer's entry have.
const NUMBERS: usize = 28;

/// What an entry says of an enumeration. Both lie where they are read from.
#[derive(Drop)]
pub struct EnumerationFields<'a> {
    /// The handles of the possible values, two bytes each.
    pub values: Data<'a, { MOST_HANDLES }>,
    /// The indexes of those that it is at first.
    pub default: Data<'a, { MOST_COUNTED }>,
}

/// What an entry says of a string.
#[derive(Drop)]
pub struct TextFields<'a> {
    /// How its bytes are characters.
    pub string_type: u8,
    pub least: u16,
    pub most: u16,
    /// What it is at first, where it is read from.
    pub default: Data<'a, { LONGEST_TEXT }>,
}

/// What an entry says of an integer.
#[derive(Clone, Copy)]
pub struct IntegerFields {
    pub lower: u64,
    pub upper: u64,
    pub increment: u32,
    pub default: u64,
}

/// What an entry says of the attribute's kind.
#[derive(Drop)]
pub enum KindFields<'a> {
    Enumeration(EnumerationFields<'a>),
    Text(TextFields<'a>),
    Integer(IntegerFields),
}

/// An attribute's handle, whether it can only be read, the handle of its name, and what is said of its kind.
#[derive(Drop)]
pub struct AttributeEntry<'a> {
    pub attribute: u16,
    pub read_only: bool,
    pub name: u16,
    pub kind: KindFields<'a>,
}

impl KindFields<'_> {
    /// The type of such an attribute.
    pub fn type_code(&self) -> u8
        ensures value { result ≡ type_of_fields self.now }
        ensures small { result ≤ 127 }
    {
        match self {
            KindFields::Enumeration(_) => ENUMERATION_TYPE,
            KindFields::Text(_) => STRING_TYPE,
            KindFields::Integer(_) => INTEGER_TYPE,
        }
    }
}

/// Appends what an entry says of an enumeration.
fn write_enumeration<B: Buffer>(fields: &EnumerationFields<'_>, out: &mut B)
    requires { length (B.bytes out.old) + length (fields_bytes (Enumeration fields.now))
        ≤ B.capacity }
    ensures { B.bytes out.new ≡ B.bytes out.old ++ fields_bytes (Enumeration fields.now) }
{
    let values = fields.values.as_slice();
    let default = fields.default.as_slice();
    out.push((values.len() / 2) as u8);
    out.extend_from_slice(values);
    out.push(default.len() as u8);
    out.extend_from_slice(default);
}

/// Appends what an entry says of a string.
fn write_text<B: Buffer>(fields: &TextFields<'_>, out: &mut B)
    requires { length (B.bytes out.old) + length (fields_bytes (Text fields.now)) ≤ B.capacity }
    ensures { B.bytes out.new ≡ B.bytes out.old ++ fields_bytes (Text fields.now) }
{
    let default = fields.default.as_slice();
    out.push(fields.string_type);
    out.extend_from_slice(&fields.least.to_le_bytes());
    out.extend_from_slice(&fields.most.to_le_bytes());
    out.extend_from_slice(&(default.len() as u16).to_le_bytes());
    out.extend_from_slice(default);
}

/// Appends what an entry says of an integer.
fn write_integer<B: Buffer>(fields: &IntegerFields, out: &mut B)
    requires { length (B.bytes out.old) + length (fields_bytes (Integer fields.now)) ≤ B.capacity }
    ensures { B.bytes out.new ≡ B.bytes out.old ++ fields_bytes (Integer fields.now) }
{
    out.extend_from_slice(&fields.lower.to_le_bytes());
    out.extend_from_slice(&fields.upper.to_le_bytes());
    out.extend_from_slice(&fields.increment.to_le_bytes());
    out.extend_from_slice(&fields.default.to_le_bytes());
}

impl AttributeEntry<'_> {
    /// Appends the entry's bytes.
    pub fn write<B: Buffer>(&self, out: &mut B)
        requires { length (B.bytes out.old) + length (attribute_bytes self.now) ≤ B.capacity }
        ensures { B.bytes out.new ≡ B.bytes out.old ++ attribute_bytes self.now }
    {
        out.extend_from_slice(&self.attribute.to_le_bytes());
        out.push(shown_type(self.read_only, self.kind.type_code()));
        out.extend_from_slice(&self.name.to_le_bytes());
        match &self.kind {
            KindFields::Enumeration(fields) => write_enumeration(fields, out),
            KindFields::Text(fields) => write_text(fields, out),
            KindFields::Integer(fields) => write_integer(fields, out),
        }
    }
}

/// What is left of an enumeration's entry behind the handles of its values.
fn default_at<'a>(values: &'a [u8], bytes: &'a [u8]) -> Option<(KindFields<'a>, Rest<'a>)>
    requires { length values.now ≤ 510 }
    ensures { result ≡ default_at values.now bytes.now }
{
    let (count, behind) = bytes.split_first()?;
    let count = usize::from(*count);
    if behind.len() < count {
        return None;
    }
    let fields = EnumerationFields {
        values: Data::new(values),
        default: Data::new(&behind[..count]),
    };
    Some((KindFields::Enumeration(fields), Rest::new(&behind[count..])))
}

/// What an enumeration's entry says behind its name.
fn enumeration_at(bytes: &[u8]) -> Option<(KindFields<'_>, Rest<'_>)>
    ensures { result ≡ enumeration_at bytes.now }
{
    let (count, behind) = bytes.split_first()?;
    let count = 2 * usize::from(*count);
    if behind.len() < count {
        return None;
    }
    default_at(&behind[..count], &behind[count..])
}

/// What a string's entry says behind its name.
fn text_at(bytes: &[u8]) -> Option<(KindFields<'_>, Rest<'_>)>
    ensures { result ≡ text_at bytes.now }
{
    if bytes.len() < 7 {
        return None;
    }
    let count = usize::from(u16::from_le_bytes([bytes[5], bytes[6]]));
    let behind = &bytes[7..];
    if behind.len() < count {
        return None;
    }
    let fields = TextFields {
        string_type: bytes[0],
        least: u16::from_le_bytes([bytes[1], bytes[2]]),
        most: u16::from_le_bytes([bytes[3], bytes[4]]),
        default: Data::new(&behind[..count]),
    };
    Some((KindFields::Text(fields), Rest::new(&behind[count..])))
}

/// The number of eight bytes.
fn number_at(bytes: &[u8], from: usize) -> u64
    requires { from + 8 ≤ length bytes.now }
    ensures { result ≡ from_le_bytes w64 (take 8 (drop from bytes.now)) }
{
    let mut number = [0; 8];
    number.copy_from_slice(&bytes[from..from + 8]);
    u64::from_le_bytes(number)
}

/// The number of four bytes.
fn small_number_at(bytes: &[u8], from: usize) -> u32
    requires { from + 4 ≤ length bytes.now }
    ensures { result ≡ from_le_bytes w32 (take 4 (drop from bytes.now)) }
{
    let mut number = [0; 4];
    number.copy_from_slice(&bytes[from..from + 4]);
    u32::from_le_bytes(number)
}

/// The four numbers of an integer's entry.
fn numbers_in(bytes: &[u8]) -> IntegerFields
    requires { 28 ≤ length bytes.now }
    ensures { result ≡ numbers_in bytes.now }
{
    IntegerFields {
        lower: number_at(bytes, 0),
        upper: number_at(bytes, 8),
        increment: small_number_at(bytes, 16),
        default: number_at(bytes, 20),
    }
}

/// What an integer's entry says behind its name.
fn integer_at(bytes: &[u8]) -> Option<(KindFields<'_>, Rest<'_>)>
    ensures { result ≡ integer_at bytes.now }
{
    if bytes.len() < NUMBERS {
        return None;
    }
    let fields = numbers_in(bytes);
    Some((KindFields::Integer(fields), Rest::new(&bytes[NUMBERS..])))
}

/// What an entry of this type says behind its name.
fn fields_at(code: u8, bytes: &[u8]) -> Option<(KindFields<'_>, Rest<'_>)>
    ensures { result ≡ fields_at code bytes.now }
{
    match code {
        ENUMERATION_TYPE => enumeration_at(bytes),
        STRING_TYPE => text_at(bytes),
        INTEGER_TYPE => integer_at(bytes),
        _ => None,
    }
}

/// The attribute entry at the front of the bytes, and what is behind it.
pub fn attribute_at(bytes: &[u8]) -> Option<(AttributeEntry<'_>, Rest<'_>)>
    ensures { result ≡ attribute_at bytes.now }
{
    if bytes.len() < 5 {
        return None;
    }
    let (kind, rest) = fields_at(bytes[2] % READ_ONLY_BIT, &bytes[5..])?;
    let entry = AttributeEntry {
        attribute: u16::from_le_bytes([bytes[0], bytes[1]]),
        read_only: bytes[2] >= READ_ONLY_BIT,
        name: u16::from_le_bytes([bytes[3], bytes[4]]),
        kind,
    };
    Some((entry, rest))
}
