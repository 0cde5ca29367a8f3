//! Bytes that lie in a frame.
ghost use Rattle.std.specs.Prelude.{◌≡◌, ◌≤◌, length};

use std::marker::Model;

/// At most `CAP` bytes of somebody else's: the data of a request, where they lie in its frame.
#[derive(Debug, Drop)]
pub struct Data<'a, const CAP: usize> {
    bytes: &'a [u8],
}

impl<'a, const CAP: usize> Model for Data<'a, CAP> {
    ghost use Rattle.std.specs.Prelude.{List, ℕ, length, ◌≤◌};

    ghost Value = { List ℕ };

    ghost view = { λ d. d.bytes.now };

    ghost invariant = { λ d. length d.bytes.now ≤ CAP };
}

impl<'a, const CAP: usize> Data<'a, CAP> {
    /// Data of these bytes.
    pub fn new(bytes: &'a [u8]) -> Self
        requires { length bytes.now ≤ CAP }
        ensures { result ≡ bytes.now }
    {
        Data { bytes }
    }

    /// The bytes.
    pub fn as_slice(&self) -> &'a [u8]
        ensures value { result.now ≡ self.now }
        ensures fits { length result.now ≤ CAP }
    {
        self.bytes
    }
}
