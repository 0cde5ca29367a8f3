//! Byte lists of a fixed capacity.
ghost use Rattle.std.specs.Prelude.{◌≡◌, ◌+◌, ◌<◌, ◌≤◌, ◌↔◌, [], ◌∷◌, ◌++◌, length, IsTrue};

use crate::size::MOST_FRAME_BYTES;
use arrayvec::ArrayVec;
use std::marker::Model;

/// At most `CAP` bytes, which lie in the value itself.
#[derive(Clone, Debug, PartialEq, Eq, Drop)]
pub struct Bytes<const CAP: usize> {
    items: ArrayVec<u8, CAP>,
}

impl<const CAP: usize> Model for Bytes<CAP> {
    ghost use Rattle.std.specs.Prelude.{List, ℕ};

    ghost Value = { List ℕ };

    ghost view = { λ b. b.items.items };

    ghost inverse = { λ xs. record { items = record { items = xs } } };
}

impl<const CAP: usize> Bytes<CAP> {
    /// No bytes.
    pub fn new() -> Self
        ensures { result ≡ [] }
    {
        Bytes {
            items: ArrayVec::new(),
        }
    }

    /// A list of these bytes.
    pub fn from_slice(bytes: &[u8]) -> Self
        requires { length bytes.now ≤ CAP }
        ensures { result ≡ bytes.now }
    {
        let mut items = Bytes::new();
        items.extend_from_slice(bytes);
        items
    }

    /// How many there are.
    pub fn len(&self) -> usize
        ensures value { result ≡ length self.now }
        ensures fits { result ≤ CAP }
    {
        self.items.len()
    }

    /// Whether there are none.
    pub fn is_empty(&self) -> bool
        ensures { IsTrue result ↔ (self.now ≡ []) }
    {
        self.items.is_empty()
    }

    /// The bytes.
    pub fn as_slice(&self) -> &[u8]
        ensures value { result.now ≡ self.now }
        ensures fits { length result.now ≤ CAP }
    {
        self.items.as_slice()
    }

    /// Appends a byte.
    pub fn push(&mut self, byte: u8)
        requires { length self.old < CAP }
        ensures { self.new ≡ self.old ++ byte ∷ [] }
    {
        self.items.push(byte);
    }

    /// Appends bytes.
    pub fn extend_from_slice(&mut self, bytes: &[u8])
        requires { length self.old + length bytes.now ≤ CAP }
        ensures { self.new ≡ self.old ++ bytes.now }
    {
        self.items.try_extend_from_slice(bytes).unwrap();
    }

    /// Puts these bytes in place of those that are there.
    pub fn replace(&mut self, bytes: &[u8])
        requires { length bytes.now ≤ CAP }
        ensures { self.new ≡ bytes.now }
    {
        if self.len() == bytes.len() {
            self.items.as_mut_slice().copy_from_slice(bytes);
        } else {
            self.items.clear();
            self.extend_from_slice(bytes);
        }
    }

    /// A copy of the bytes.
    pub fn copy(&self) -> Self
        ensures { result ≡ self.now }
    {
        Bytes::from_slice(self.as_slice())
    }

    /// Whether they are these.
    pub fn is(&self, bytes: &[u8]) -> bool
        ensures { IsTrue result ↔ (self.now ≡ bytes.now) }
    {
        self.as_slice() == bytes
    }
}

impl<const CAP: usize> Default for Bytes<CAP> {
    ghost is_default = { λ b. b ≡ [] };

    fn default() -> Self {
        Bytes::new()
    }
}

/// The bytes of one frame of either bus.
pub type Frame = Bytes<{ MOST_FRAME_BYTES }>;
