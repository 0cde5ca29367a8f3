//! Changes of the fields of a state effecter, and the fields in a Get reply.
ghost use Rattle.std.specs.Prelude.{◌≡◌, ◌+◌, ◌*◌, ◌≤◌, ◌++◌, length, take};
ghost use Rattle.std.specs.List.{list_any, list_all};
ghost use Rattle.effecter_recs.specs.FieldChanges.{is_set, is_choice, changed_states, changes_of, shown_fields, are_enabled, undo_change, undo_changes};

use crate::numeric::behind;
use crate::request::ENABLED;
use record_base::{FieldChange, FieldChanges, byte_at};
use two_wire::{Buffer, Bytes};

/// The first byte of a change that leaves its field, and of a change that sets its field.
const LEAVE: u8 = 0;

const SET: u8 = 1;

/// Whether the change sets its field.
fn is_set(change: &FieldChange) -> bool
    ensures { result ≡ is_set change.now }
{
    change.choice == SET
}

/// Whether any change sets its field.
pub fn any_set(changes: &[FieldChange]) -> bool
    ensures { result ≡ list_any is_set changes.now }
{
    changes.iter().any(|change| is_set(change))
}

/// Whether each change leaves its field or sets it.
pub fn are_choices(changes: &[FieldChange]) -> bool
    ensures { result ≡ list_all is_choice changes.now }
{
    changes.iter().all(|change| change.choice <= SET)
}

/// The states of fields after these changes, from their old states.
pub fn changed_states(changes: &[FieldChange], old: &[u8]) -> Bytes<9>
    requires { length changes.now ≤ 9 }
    ensures { result ≡ changed_states changes.now old.now }
{
    let mut states = Bytes::new();
    let mut rest = old;
    for change in changes {
        states.push(if is_set(change) {
            change.state
        } else {
            byte_at(rest, 0)
        });
        rest = behind(rest, 1);
    }
    states
}

/// The changes with these bytes: the first 9 of them.
pub fn changes_in(bytes: &[u8]) -> FieldChanges
    ensures { result ≡ take 9 (changes_of bytes.now) }
{
    let mut changes = FieldChanges::new();
    let mut rest = bytes;
    for _place in 0..9usize {
        if rest.len() < 2 {
            return changes;
        }
        let choice = byte_at(rest, 0);
        let state = byte_at(rest, 1);
        changes.push(FieldChange { choice, state });
        rest = behind(rest, 2);
    }
    changes
}

/// Appends the bytes of a Get reply for fields in these states.
pub fn show_fields<B: Buffer>(operational: u8, states: &[u8], reply: &mut B)
    requires { length (B.bytes reply.old) + 3 * length states.now ≤ B.capacity }
    ensures { B.bytes reply.new ≡ B.bytes reply.old ++ shown_fields operational states.now }
{
    for state in states {
        reply.extend_from_slice(&[operational, *state, *state]);
    }
}

/// Whether the reply shows each field that the changes set as enabled.
pub fn are_enabled(changes: &[FieldChange], shown: &[u8]) -> bool
    ensures { result ≡ are_enabled changes.now shown.now }
{
    let mut rest = shown;
    for change in changes {
        if is_set(change) && byte_at(rest, 0) != ENABLED {
            return false;
        }
        rest = behind(rest, 3);
    }
    true
}

/// The change of the same field to the present state.
fn undo_change(change: &FieldChange, present: u8) -> FieldChange
    ensures { result ≡ undo_change change.now present }
{
    if is_set(change) {
        FieldChange {
            choice: SET,
            state: present,
        }
    } else {
        FieldChange {
            choice: LEAVE,
            state: 0,
        }
    }
}

/// The changes of the same fields to the present states that the reply shows.
pub fn undo_changes(changes: &[FieldChange], shown: &[u8]) -> FieldChanges
    requires { length changes.now ≤ 9 }
    ensures { result ≡ undo_changes changes.now shown.now }
{
    let mut undone = FieldChanges::new();
    let mut rest = shown;
    for change in changes {
        undone.push(undo_change(change, byte_at(rest, 2)));
        rest = behind(rest, 3);
    }
    undone
}
