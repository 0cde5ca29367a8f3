//! State effecters in files: the states of their fields, and what becomes of them.
ghost use Rattle.std.specs.Prelude.{◌≡◌, map, ◌<◌, ◌-◌, pos, negsuc, is_some};
ghost use Rattle.std.specs.List.{list_all, list_any};
ghost use Rattle.toml.specs.View.{view, table_view};
ghost use Rattle.text_fields.specs.Trees.{members, or_none, members_in};
ghost use Rattle.text_fields.specs.Ranges.{is_number, is_state, is_state_list, are_state_lists, can_be, are_present, are_changes};
ghost use Rattle.text_fields.specs.States.{change_at, change_of};

use crate::field::Field;
use crate::range::is_between;
use crate::tree::{members_in, members_of, natural};
use record_base::FieldChange;
use record_base::board_sizes::MOST_STATE_FIELDS;
use toml::{Table, Value};

/// The first byte of a change that leaves its field, and of one that sets it.
const LEAVE: u8 = 0;

const SET: u8 = 1;

/// Whether each of the values is a state.
fn all_states(values: &[Value]) -> bool
    ensures { result ≡ list_all (λ value. is_state (view value)) values.now }
{
    values.iter().all(|value| is_between(value, 0, 255))
}

/// Whether the value is a list of states.
fn is_state_list(value: &Value) -> bool
    ensures { result ≡ is_state_list (view value.now) }
{
    all_states(members_of(value))
}

/// Whether each of the values is a list of states.
fn all_state_lists(values: &[Value]) -> bool
    ensures { result ≡ list_all (λ value. is_state_list (view value)) values.now }
{
    values.iter().all(|value| is_state_list(value))
}

/// Whether the value has a list of states for each of 1 to 8 fields.
pub fn are_state_lists(value: &Value) -> bool
    ensures { result ≡ are_state_lists (or_none (members (view value.now))) }
{
    let lists = members_of(value);
    if lists.is_empty() {
        return false;
    }
    lists.len() <= MOST_STATE_FIELDS && all_state_lists(lists)
}

/// Whether the value is this number.
fn is_number(value: &Value, number: u64) -> bool
    ensures { result ≡ is_number number (view value.now) }
{
    match natural(value) {
        Some(found) => found == number,
        None => false,
    }
}

/// Whether one of the values is this number.
fn is_listed(values: &[Value], number: u64) -> bool
    ensures { result ≡ list_any (λ value. is_number number (view value)) values.now }
{
    values.iter().any(|value| is_number(value, number))
}

/// Whether a field that can be in the listed states can be in this one.
fn can_be(states: &Value, state: &Value) -> bool
    ensures { result ≡ can_be (view states.now) (view state.now) }
{
    match natural(state) {
        Some(number) => is_listed(members_of(states), number),
        None => false,
    }
}

/// Whether there is a state for each field, of which the lists say what it can be in.
fn can_all_be(lists: &[Value], states: &[Value]) -> bool
    ensures { result ≡ are_present (map view lists.now) (map view states.now) }
{
    if states.len() != lists.len() {
        return false;
    }
    for (place, list) in lists.iter().enumerate() {
        if !can_be(list, &states[place]) {
            return false;
        }
    }
    true
}

/// Whether the value has a state for each of the item's fields, which can be in it.
pub fn are_present(item: &Table, value: &Value) -> bool
    ensures { result ≡ are_present (members_in Field.States (table_view item.now))
        (or_none (members (view value.now))) }
{
    can_all_be(members_in(item, Field::States), members_of(value))
}

/// The change to this state.
fn to_state(state: u64) -> Option<FieldChange>
    ensures { result ≡ change_at (pos state) }
{
    if state >= 256 {
        return None;
    }
    Some(FieldChange {
        choice: SET,
        state: state as u8,
    })
}

/// The change for which the number so much below 0, at least by 1, stands.
fn left(below: u64) -> Option<FieldChange>
    requires { 0 < below }
    ensures { result ≡ change_at (negsuc (below - 1)) }
{
    if below > 1 {
        return None;
    }
    Some(FieldChange {
        choice: LEAVE,
        state: 0,
    })
}

/// What the integer says of a field.
#[tactic(auto, using(crate::proofs::StateChanges::change_positive, crate::proofs::StateChanges::change_negative))]
fn change_at(number: i64) -> Option<FieldChange>
    ensures { result ≡ change_at number }
{
    let distance = number.unsigned_abs();
    if number < 0 {
        return left(distance);
    }
    to_state(distance)
}

/// What the value says of a field.
pub fn change_of(value: &Value) -> Option<FieldChange>
    ensures { result ≡ change_of (view value.now) }
{
    match value.as_integer() {
        Some(number) => change_at(number),
        None => None,
    }
}

/// Whether each of the values says what becomes of a field.
fn all_changes(values: &[Value]) -> bool
    ensures { result ≡ list_all (λ value. is_some (change_of (view value))) values.now }
{
    values.iter().all(|value| change_of(value).is_some())
}

/// Whether the value says what becomes of each of 1 to 8 fields.
pub fn are_changes(value: &Value) -> bool
    ensures { result ≡ are_changes (or_none (members (view value.now))) }
{
    let changes = members_of(value);
    if changes.is_empty() {
        return false;
    }
    changes.len() <= MOST_STATE_FIELDS && all_changes(changes)
}
