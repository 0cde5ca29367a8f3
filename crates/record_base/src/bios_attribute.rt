//! The value of a BIOS attribute, as it is set.
ghost use Rattle.std.specs.Prelude.{◌≡◌, ◌≤◌, take, length};
ghost use Rattle.record_base.specs.AttributeSizes.{most_sent};

use crate::attribute_sizes::MOST_SENT;
use two_wire::Data;

/// Sets the value of an attribute, by the bytes of the request's entry: the attribute, its type, and the value. The operation borrows
/// the value's bytes where they lie, in a request or in a reply.
#[derive(Drop)]
pub struct SetBiosAttribute<'a> {
    pub attribute: u16,
    pub attribute_type: u8,
    pub value: Data<'a, { MOST_SENT }>,
    pub ghost fits: { length value ≤ most_sent },
}

/// The first bytes, no more than `most`.
fn first(bytes: &[u8], most: usize) -> &[u8]
    ensures value { result.now ≡ take most bytes.now }
    ensures few { length result.now ≤ most }
{
    if bytes.len() > most {
        return &bytes[..most];
    }
    bytes
}

impl<'a> SetBiosAttribute<'a> {
    ghost use Rattle.std.specs.Prelude.{◌≡◌};
    ghost use Rattle.record_base.specs.BiosAttribute.{setting};

    /// Sets the value of an attribute to the first of these bytes, as many as a Set has at most, in one request or in parts.
    pub fn of(attribute: u16, attribute_type: u8, bytes: &'a [u8]) -> Self
        ensures { result ≡ setting attribute attribute_type bytes.now }
    {
        SetBiosAttribute {
            attribute,
            attribute_type,
            value: Data::new(first(bytes, MOST_SENT)),
        }
    }
}
