//! The values that records begin with.
ghost use Rattle.std.specs.Prelude.{◌≡◌, ◌≤◌, length};
ghost use Rattle.record_base.specs.AttributeSizes.{most_few};

use crate::attribute_sizes::MOST_FEW;
use std::marker::Model;
use two_wire::Bytes;

/// Where the bytes of such a value lie.
enum StartBytes {
    /// A few, in the value itself.
    Few(Bytes<{ MOST_FEW }>),
    /// Any number, in memory of their own.
    Many(Vec<u8>),
}

// Written out: the crates above would prove a derived one anew.
impl Drop for StartBytes {
    fn drop(self) {
        match self {
            StartBytes::Few(_) => {}
            StartBytes::Many(bytes) => drop(bytes),
        }
    }
}

/// The value that a record begins with. A few bytes lie in it itself, so that a list of such values is short, and a text has memory of
/// its own.
pub struct StartValue {
    bytes: StartBytes,
}

// Written out: the crates above would prove a derived one anew.
impl Drop for StartValue {
    fn drop(self) {
        let StartValue { bytes } = self;
        drop(bytes);
    }
}

impl Model for StartValue {
    ghost use Rattle.std.specs.Prelude.{List, ℕ};
    ghost use Rattle.record_base.specs.StartValue.{bytes_in};

    ghost Value = { List ℕ };

    ghost view = { λ v. bytes_in v.bytes };
}

impl StartValue {
    /// A value of a few bytes, which lie in place.
    pub fn few(bytes: &[u8]) -> Self
        requires { length bytes.now ≤ most_few }
        ensures { result ≡ bytes.now }
    {
        StartValue {
            bytes: StartBytes::Few(Bytes::from_slice(bytes)),
        }
    }

    /// A value whose bytes have memory of their own.
    pub fn many(bytes: Vec<u8>) -> Self
        ensures { result ≡ bytes.items }
    {
        StartValue {
            bytes: StartBytes::Many(bytes),
        }
    }

    /// The bytes.
    pub fn as_slice(&self) -> &[u8]
        ensures { result.now ≡ self.now }
    {
        match &self.bytes {
            StartBytes::Few(bytes) => bytes.as_slice(),
            StartBytes::Many(bytes) => bytes.as_slice(),
        }
    }

    /// How many there are.
    pub fn len(&self) -> usize
        ensures { result ≡ length self.now }
    {
        self.as_slice().len()
    }
}
