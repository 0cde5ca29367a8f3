//! Value entries: an attribute's handle, its type, and its value.
ghost use Rattle.std.specs.Prelude.{◌≡◌, ◌+◌, ◌≤◌, ◌++◌, length};
ghost use Rattle.record_base.specs.AttributeValue.{value_in};
ghost use Rattle.bios_attr.specs.ValueEntry.{shown_type, entry_bytes, entry_in};
ghost use Rattle.bios_attr.specs.TableEntry.{value_size, value_at};

use crate::rest::Rest;
use record_base::attribute_value::{AttributeValue, ENUMERATION_TYPE, STRING_TYPE, value_in};
use record_base::byte_at;
use two_wire::Buffer;

/// What is added to the type of an attribute that can only be read.
pub const READ_ONLY_BIT: u8 = 0x80;

/// An attribute's handle, its type, and its value. The value tells the type, but for whether the attribute can only be read.
#[derive(Drop)]
pub struct ValueEntry<'a> {
    pub attribute: u16,
    pub read_only: bool,
    pub value: AttributeValue<'a>,
}

/// A type as it stands in an entry.
pub fn shown_type(read_only: bool, code: u8) -> u8
    requires { code ≤ 127 }
    ensures { result ≡ shown_type read_only code }
{
    if read_only {
        READ_ONLY_BIT + code
    } else {
        code
    }
}

impl ValueEntry<'_> {
    /// Appends the entry's bytes.
    pub fn write<B: Buffer>(&self, out: &mut B)
        requires { length (B.bytes out.old) + length (entry_bytes self.now) ≤ B.capacity }
        ensures { B.bytes out.new ≡ B.bytes out.old ++ entry_bytes self.now }
    {
        out.extend_from_slice(&self.attribute.to_le_bytes());
        out.push(shown_type(self.read_only, self.value.type_code()));
        self.value.write(out);
    }
}

/// The entry that the bytes are, if they are one.
pub fn entry_in(bytes: &[u8]) -> Option<ValueEntry<'_>>
    ensures { result ≡ entry_in bytes.now }
{
    if bytes.len() < 3 {
        return None;
    }
    let value = value_in(bytes[2] % READ_ONLY_BIT, &bytes[3..])?;
    Some(ValueEntry {
        attribute: u16::from_le_bytes([bytes[0], bytes[1]]),
        read_only: bytes[2] >= READ_ONLY_BIT,
        value,
    })
}

/// How many bytes a value has, by its type and its first bytes.
fn value_size(code: u8, bytes: &[u8]) -> usize
    ensures size { result ≡ value_size code bytes.now }
    ensures small { result ≤ 65537 }
{
    let first = byte_at(bytes, 0);
    match code {
        ENUMERATION_TYPE => 1 + usize::from(first),
        STRING_TYPE => 2 + usize::from(u16::from_le_bytes([first, byte_at(bytes, 1)])),
        _ => 8,
    }
}

/// The value entry at the front of the bytes, and what is behind it.
pub fn value_at(bytes: &[u8]) -> Option<(ValueEntry<'_>, Rest<'_>)>
    ensures { result ≡ value_at bytes.now }
{
    if bytes.len() < 3 {
        return None;
    }
    let code = bytes[2] % READ_ONLY_BIT;
    let behind = &bytes[3..];
    let size = value_size(code, behind);
    if behind.len() < size {
        return None;
    }
    let value = value_in(code, &behind[..size])?;
    let entry = ValueEntry {
        attribute: u16::from_le_bytes([bytes[0], bytes[1]]),
        read_only: bytes[2] >= READ_ONLY_BIT,
        value,
    };
    Some((entry, Rest::new(&behind[size..])))
}
