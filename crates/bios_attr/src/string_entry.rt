//! String entries: a handle, and a text.
ghost use Rattle.std.specs.Prelude.{◌≡◌, ◌+◌, ◌≤◌, ◌++◌, length};
ghost use Rattle.bios_attr.specs.StringEntry.{string_bytes, string_at};

use crate::rest::Rest;
use record_base::attribute_sizes::LONGEST_TEXT;
use two_wire::{Buffer, Data};

/// A string's handle, and its text. The text lies where it is read from.
#[derive(Drop)]
pub struct StringEntry<'a> {
    pub handle: u16,
    pub text: Data<'a, { LONGEST_TEXT }>,
}

impl StringEntry<'_> {
    /// Appends the entry's bytes.
    pub fn write<B: Buffer>(&self, out: &mut B)
        requires { length (B.bytes out.old) + length (string_bytes self.now) ≤ B.capacity }
        ensures { B.bytes out.new ≡ B.bytes out.old ++ string_bytes self.now }
    {
        let text = self.text.as_slice();
        out.extend_from_slice(&self.handle.to_le_bytes());
        out.extend_from_slice(&(text.len() as u16).to_le_bytes());
        out.extend_from_slice(text);
    }
}

/// The string entry at the front of the bytes, and what is behind it.
pub fn string_at(bytes: &[u8]) -> Option<(StringEntry<'_>, Rest<'_>)>
    ensures { result ≡ string_at bytes.now }
{
    if bytes.len() < 4 {
        return None;
    }
    let count = usize::from(u16::from_le_bytes([bytes[2], bytes[3]]));
    let behind = &bytes[4..];
    if behind.len() < count {
        return None;
    }
    let entry = StringEntry {
        handle: u16::from_le_bytes([bytes[0], bytes[1]]),
        text: Data::new(&behind[..count]),
    };
    Some((entry, Rest::new(&behind[count..])))
}
