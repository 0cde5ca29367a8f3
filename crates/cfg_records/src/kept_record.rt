//! A record of a store that is a list.
ghost use Rattle.std.specs.Prelude.{◌≡◌, IfOk, IsTrue, length};
ghost use Rattle.record_base.specs.Keys.{is_length};

use record_base::Key;
use std::alloc::{AllocError, Global};
use std::marker::Model;

/// A key and its value, seen as this pair. The value's memory is its own, and has room for the longest value of the key's kind.
pub(crate) struct KeptRecord {
    key: Key,
    value: Vec<u8>,
}

// Written out: the crates above would prove a derived one anew.
impl Drop for KeptRecord {
    fn drop(self) {
        let KeptRecord { key: _, value } = self;
        drop(value);
    }
}

impl Model for KeptRecord {
    ghost use Rattle.std.specs.Prelude.{ℕ, ◌≤◌, IsTrue, vec_capacity};
    ghost use Rattle.record_base.specs.Keys.{is_length};
    ghost use Rattle.cfg_records.specs.Records.{Pair};

    ghost Value = { Pair };

    ghost view = { λ kept. (kept.key, kept.value.items) };

    ghost invariant = { λ kept. (n : ℕ) → IsTrue (is_length kept.key n)
        → n ≤ vec_capacity kept.value };
}

impl KeptRecord {
    /// A record of this key with this value, and room for any other value of its kind.
    pub fn new(alloc: Global, key: Key, value: &[u8]) -> Result<Self, AllocError>
        ensures { IfOk result (λ kept. kept ≡ (key, value.now)) }
    {
        let mut bytes = Vec::with_capacity(alloc, key.longest())?;
        bytes.extend_from_slice(value)?;
        Ok(KeptRecord { key, value: bytes })
    }

    /// The value.
    pub fn value(&self) -> &[u8]
        ensures { result.now ≡ self.now.1 }
    {
        self.value.as_slice()
    }

    /// Writes the value. It takes no memory.
    pub fn write(&mut self, value: &[u8])
        requires { IsTrue (is_length self.old.0 (length value.now)) }
        ensures { self.new ≡ (self.old.0, value.now) }
    {
        self.value.clear();
        self.value.extend_from_slice(value).unwrap();
    }
}
