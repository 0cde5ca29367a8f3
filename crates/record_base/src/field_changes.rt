//! The changes that a request makes to the fields of a state effecter.
ghost use Rattle.std.specs.Prelude.{◌≡◌, ◌<◌, ◌≤◌, [], ◌∷◌, ◌++◌, length};

use crate::board_sizes::MOST_STATE_FIELDS;
use arrayvec::ArrayVec;
use std::marker::Model;

/// How many changes a request has at most: one more than an effecter has fields.
const MOST_CHANGES: usize = MOST_STATE_FIELDS + 1;

/// A request's change of a field: a byte, 00h where the field stays and 01h where the request sets it, and the new state.
#[derive(Clone, Copy, Default)]
pub struct FieldChange {
    pub choice: u8,
    pub state: u8,
}

/// At most 9 changes of fields, in the fields' order. They lie in the value itself.
#[derive(Drop)]
pub struct FieldChanges {
    items: ArrayVec<FieldChange, { MOST_CHANGES }>,
}

impl Model for FieldChanges {
    ghost use Rattle.std.specs.Prelude.{List};
    ghost use Rattle.record_base.specs.declared.field_changes.FieldChange.{FieldChange};

    ghost Value = { List FieldChange };

    ghost view = { λ c. c.items.items };

    ghost inverse = { λ xs. record { items = record { items = xs } } };
}

impl FieldChanges {
    /// No changes.
    pub fn new() -> Self
        ensures { result ≡ [] }
    {
        FieldChanges {
            items: ArrayVec::new(),
        }
    }

    /// The changes.
    pub fn as_slice(&self) -> &[FieldChange]
        ensures value { result.now ≡ self.now }
        ensures fits { length result.now ≤ 9 }
    {
        self.items.as_slice()
    }

    /// The same changes once more.
    pub fn copy(&self) -> Self
        ensures { result ≡ self.now }
    {
        let mut copy = FieldChanges::new();
        copy.items.try_extend_from_slice(self.as_slice()).unwrap();
        copy
    }

    /// Appends a change.
    pub fn push(&mut self, change: FieldChange)
        requires { length self.old < 9 }
        ensures { self.new ≡ self.old ++ change ∷ [] }
    {
        self.items.push(change);
    }
}
