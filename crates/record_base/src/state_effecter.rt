//! A state effecter: in a board file, and as it is set.
ghost use Rattle.std.specs.Prelude.{◌≡◌, ◌≤◌, IsTrue, length};
ghost use Rattle.record_base.specs.BoardSizes.{most_state_fields};
ghost use Rattle.record_base.specs.StateField.{allows};

use crate::board_sizes::{MOST_EFFECTERS, MOST_STATE_FIELDS};
use crate::distinct::{Distinct, Numbered};
use crate::field_changes::FieldChanges;
use crate::items::Items;
use crate::key::Key;
use crate::start_value::StartValue;
use two_wire::Bytes;

/// A field of a state effecter: the states that it can be in, and its present state.
#[derive(Debug)]
pub struct StateField {
    pub allowed: Items<u8>,
    pub current: u8,
    ghost valid: { IsTrue (allows allowed current) },
}

// Written out: the crates above would prove a derived one anew.
impl Drop for StateField {
    fn drop(self) {
        let StateField {
            allowed,
            current: _,
        } = self;
        drop(allowed);
    }
}

/// A state effecter: its id, whether it is enabled, and its fields, 1 to `MOST_STATE_FIELDS`.
#[derive(Debug)]
pub struct StateEffecter {
    pub id: u16,
    pub enabled: bool,
    pub fields: Items<StateField>,
    ghost some: { 1 ≤ length fields },
    ghost few: { length fields ≤ most_state_fields },
}

// Written out: the crates above would prove a derived one anew.
impl Drop for StateEffecter {
    fn drop(self) {
        let StateEffecter {
            id: _,
            enabled: _,
            fields,
        } = self;
        drop(fields);
    }
}

/// The state effecters of a board.
pub type StateEffecters = Distinct<StateEffecter, { MOST_EFFECTERS }>;

/// Sets fields of a state effecter, by the bytes of the request. No effecter has more than 8 fields. So 9 changes stand for the
/// changes of any longer request: every effecter refuses them.
#[derive(Drop)]
pub struct SetStateEffecter {
    pub effecter: u16,
    pub changes: FieldChanges,
    pub ghost few: { length changes ≤ 9 },
}

impl Numbered for StateEffecter {
    ghost number_of = { λ effecter. effecter.id };

    fn number(&self) -> u16 {
        self.id
    }
}

impl StateField {
    ghost use Rattle.std.specs.Prelude.{◌≡◌, ◌↔◌, IsTrue, IsSome, IfSome};
    ghost use Rattle.record_base.specs.StateField.{allows};

    /// A field, or nothing where it can't be in the present state.
    pub fn new(allowed: Items<u8>, current: u8) -> Option<StateField>
        ensures made { IsSome result ↔ IsTrue (allows allowed current) }
        ensures parts { IfSome result (λ made.
            (made.allowed ≡ allowed) × (made.current ≡ current)) }
    {
        if !allows(allowed.as_slice(), current) {
            return None;
        }
        Some(StateField { allowed, current })
    }

    /// Whether the field can be in this state.
    pub fn allows(&self, state: u8) -> bool
        ensures { result ≡ allows self.now.allowed state }
    {
        allows(self.allowed.as_slice(), state)
    }
}

/// Whether `state` is one of the states.
fn allows(states: &[u8], state: u8) -> bool
    ensures { result ≡ allows states.now state }
{
    states.iter().any(|s| *s == state)
}

impl StateEffecter {
    ghost use Rattle.std.specs.Prelude.{◌≡◌, ◌≤◌, ◌↔◌, IsTrue, IsSome, IfSome, length};
    ghost use Rattle.record_base.specs.BoardSizes.{most_state_fields};
    ghost use Rattle.record_base.specs.StateEffecter.{are_states, state_value};

    /// An effecter, or nothing where it has no fields or too many.
    pub fn new(id: u16, enabled: bool, fields: Vec<StateField>) -> Option<StateEffecter>
        ensures made { IsSome result
            ↔ ((1 ≤ length fields.items) × (length fields.items ≤ most_state_fields)) }
        ensures names { IfSome result (λ made. (made.id ≡ id) × (made.enabled ≡ enabled)) }
        ensures fields { IfSome result (λ made. made.fields ≡ fields.items) }
    {
        if fields.is_empty() || fields.len() > MOST_STATE_FIELDS {
            return None;
        }
        Some(StateEffecter {
            id,
            enabled,
            fields: Items::new(fields),
        })
    }

    /// The record of the effecter.
    pub fn pair(&self) -> (Key, StartValue)
        ensures { result ≡ (Key.StateEffecter self.now.id, state_value self.now.fields) }
    {
        let _ = &self.fields;
        let mut value = Bytes::<{ MOST_STATE_FIELDS }>::new();
        for field in self.fields.as_slice() {
            value.push(field.current);
        }
        (
            Key::StateEffecter(self.id),
            StartValue::few(value.as_slice()),
        )
    }

    /// Whether the effecter can have the value.
    pub fn are_states(&self, value: &[u8]) -> bool
        ensures { result ≡ are_states self.now.fields value.now }
    {
        let fields = self.fields.as_slice();
        if value.len() != fields.len() {
            return false;
        }
        for (place, field) in fields.iter().enumerate() {
            if !field.allows(value[place]) {
                return false;
            }
        }
        true
    }
}
