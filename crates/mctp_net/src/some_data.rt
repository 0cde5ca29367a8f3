//! Byte lists that aren't empty.
ghost use Rattle.std.specs.Prelude.{◌≡◌, ◌<◌, ◌≤◌, length};

use std::marker::Model;
use two_wire::Data;

/// One to `CAP` bytes of somebody else's, where they lie.
#[derive(Drop)]
pub struct SomeData<'a, const CAP: usize> {
    bytes: Data<'a, CAP>,
}

impl<'a, const CAP: usize> Model for SomeData<'a, CAP> {
    ghost use Rattle.std.specs.Prelude.{List, ℕ, ◌<◌, length};

    ghost Value = { List ℕ };

    ghost view = { λ s. s.bytes };

    ghost invariant = { λ s. 0 < length s.bytes };
}

impl<'a, const CAP: usize> SomeData<'a, CAP> {
    /// Data of these bytes.
    pub fn new(bytes: &'a [u8]) -> Self
        requires some { 0 < length bytes.now }
        requires fit { length bytes.now ≤ CAP }
        ensures { result ≡ bytes.now }
    {
        SomeData {
            bytes: Data::new(bytes),
        }
    }

    /// The bytes.
    pub fn as_slice(&self) -> &'a [u8]
        ensures value { result.now ≡ self.now }
        ensures some { 0 < length result.now }
        ensures fit { length result.now ≤ CAP }
    {
        self.bytes.as_slice()
    }
}
