//! Where the data of a reply goes.
ghost use Rattle.std.specs.Prelude.{◌≡◌, ◌+◌, ◌<◌, ◌≤◌, ℕ, List, [], ◌∷◌, ◌++◌, length};

use crate::bytes::Bytes;

/// Bytes that grow at their end, up to a capacity. A command writes a reply's data into one of these, so that they
/// lie where they are sent from.
pub trait Buffer {
    /// The bytes that are there.
    ghost bytes: { Self → List ℕ };

    /// How many there can be.
    ghost capacity: { ℕ };

    /// Appends a byte.
    fn push(&mut self, byte: u8)
        requires { length (bytes self.old) < capacity }
        ensures { bytes self.new ≡ bytes self.old ++ byte ∷ [] };

    /// Appends bytes.
    fn extend_from_slice(&mut self, more: &[u8])
        requires { length (bytes self.old) + length more.now ≤ capacity }
        ensures { bytes self.new ≡ bytes self.old ++ more.now };
}

impl<const CAP: usize> Buffer for Bytes<CAP> {
    ghost bytes = { λ b. b };

    ghost capacity = { CAP };

    fn push(&mut self, byte: u8) {
        Bytes::push(self, byte);
    }

    fn extend_from_slice(&mut self, more: &[u8]) {
        Bytes::extend_from_slice(self, more);
    }
}
