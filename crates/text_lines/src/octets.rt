//! Byte lists in memory of their own.
ghost use Rattle.std.specs.Prelude.{◌≡◌, ◌≤◌, ◌<◌, SomeIff, length};

use std::marker::Model;

/// At least one byte, and at most `CAP`, in memory of their own.
#[derive(Debug)]
pub struct Octets<const CAP: usize> {
    items: Vec<u8>,
}

// Written out: the crates above would prove a derived one anew.
impl<const CAP: usize> Drop for Octets<CAP> {
    fn drop(self) {
        let Octets { items } = self;
        drop(items);
    }
}

impl<const CAP: usize> Model for Octets<CAP> {
    ghost use Rattle.std.specs.Prelude.{List, ℕ, length, ◌<◌, ◌≤◌};

    ghost Value = { List ℕ };

    ghost view = { λ o. o.items.items };

    ghost invariant = { λ o. (0 < length o.items.items) × (length o.items.items ≤ CAP) };
}

impl<const CAP: usize> Octets<CAP> {
    /// A list of the bytes, or nothing where there are none or too many.
    pub fn new(items: Vec<u8>) -> Option<Self>
        ensures { SomeIff result
            ((0 < length items.items) × (length items.items ≤ CAP)) items.items }
    {
        if items.is_empty() || items.len() > CAP {
            return None;
        }
        Some(Octets { items })
    }

    /// The bytes.
    pub fn as_slice(&self) -> &[u8]
        ensures value { result.now ≡ self.now }
        ensures some { 0 < length result.now }
        ensures fits { length result.now ≤ CAP }
    {
        self.items.as_slice()
    }
}
