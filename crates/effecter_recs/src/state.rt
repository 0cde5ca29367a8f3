//! The present states of a state effecter, as a kind of record.
ghost use Rattle.std.specs.Prelude.{◌≡◌, ◌+◌, ◌≤◌, length};
ghost use Rattle.effecter_recs.specs.State.{state_body, state_effecter_in, is_state_reply, is_undoable, undo_states};

use crate::field_changes::{
    any_set, are_choices, are_enabled, changed_states, changes_in, show_fields, undo_changes,
};
use crate::numeric::behind;
use crate::request::{effecter_request, id_bytes, id_in, operational_state};
use record_base::board_sizes::MOST_STATE_FIELDS;
use record_base::{
    Asked, CommandReader, FieldChange, Key, Live, Op, RecordData, RecordKind, SetStateEffecter,
    StateEffecter, Value, byte_at,
};
use std::marker::Model;
use two_wire::code::{PLDM_INVALID_DATA, PLDM_INVALID_STATE};
use two_wire::{Buffer, Code};

/// The number of the Set command.
const SET_STATE_EFFECTER_STATES: u8 = 0x39;

/// The number of the Get command.
const GET_STATE_EFFECTER_STATES: u8 = 0x3A;

/// The states that the effecter's fields can be in, and whether a Set can set the effecter: the effecter itself, borrowed from the
/// board file.
#[derive(Drop)]
pub struct StateLimits<'f> {
    effecter: &'f StateEffecter,
}

impl<'f> Model for StateLimits<'f> {
    ghost use Rattle.record_base.specs.declared.state_effecter.StateEffecter.{StateEffecter};

    ghost Value = { StateEffecter };

    ghost view = { λ l. l.effecter.now };
}

/// The data of the request that carries out the operation.
fn body(op: &SetStateEffecter) -> RecordData
    ensures value { result ≡ state_body op.now }
    ensures short { length result ≤ 21 }
{
    let _ = &op.changes;
    let mut body = RecordData::from_slice(&id_bytes(op.effecter));
    let changes = op.changes.as_slice();
    body.push(changes.len() as u8);
    for change in changes {
        body.push(change.choice);
        body.push(change.state);
    }
    body
}

/// The operation with these data.
fn state_effecter_in(body: &[u8]) -> SetStateEffecter
    ensures { result ≡ state_effecter_in body.now }
{
    SetStateEffecter {
        effecter: id_in(body),
        changes: changes_in(behind(body, 3)),
    }
}

/// Whether the data are a Get reply.
fn is_state_reply(reply: &[u8]) -> bool
    ensures { result ≡ is_state_reply reply.now }
{
    let count = usize::from(byte_at(reply, 0));
    1 <= count && count <= MOST_STATE_FIELDS && reply.len() == 1 + 3 * count
}

/// Whether the data are a Get reply in which each field that the operation sets is enabled.
fn is_undoable(op: &SetStateEffecter, reply: &[u8]) -> bool
    ensures { result ≡ is_undoable op.now reply.now }
{
    is_state_reply(reply) && are_enabled(op.changes.as_slice(), behind(reply, 1))
}

/// The operation that sets the same fields to the present states of a Get reply.
fn undo_states(op: &SetStateEffecter, reply: &[u8]) -> SetStateEffecter
    ensures { result ≡ undo_states op.now reply.now }
{
    let _ = &op.changes;
    SetStateEffecter {
        effecter: op.effecter,
        changes: undo_changes(op.changes.as_slice(), behind(reply, 1)),
    }
}

impl<'f> StateLimits<'f> {
    ghost use Rattle.effecter_recs.specs.State.{fits_effecter};

    /// The limits that an effecter gives.
    pub fn of(effecter: &'f StateEffecter) -> Self
        ensures { result ≡ effecter.now }
    {
        StateLimits { effecter }
    }

    /// Whether a request of these changes fits the effecter, apart from the states that it names.
    fn fits(&self, changes: &[FieldChange]) -> bool
        ensures { result ≡ fits_effecter self.now changes.now }
    {
        changes.len() == self.effecter.fields.as_slice().len()
            && are_choices(changes)
            && (self.effecter.enabled || !any_set(changes))
    }
}

impl CommandReader for StateLimits<'_> {
    ghost use Rattle.effecter_recs.specs.StateKind as state;

    ghost reader = { state.reader };

    #[inline(always)]
    fn key_in(body: &[u8]) -> Key
        ensures { result ≡ state.reader.key_in body.now }
    {
        Key::StateEffecter(id_in(body))
    }

    #[inline(always)]
    fn op_in(body: &[u8]) -> Op<'_>
        ensures { result ≡ state.reader.op_in body.now }
    {
        Op::StateEffecter(state_effecter_in(body))
    }
}

impl<'a, 'f> RecordKind<'a> for StateLimits<'f> {
    ghost use Rattle.std.specs.Prelude.{◌≡◌, ◌+◌, ◌≤◌, ◌++◌, length};
    ghost use Rattle.effecter_recs.specs.StateKind as state;

    type Key = u16;

    type Op = SetStateEffecter;

    ghost kind = { state.kind };

    fn key(op: &SetStateEffecter) -> Key
        ensures { result ≡ state.kind.words.name (state.kind.words.key_of op.now) }
    {
        Key::StateEffecter(op.effecter)
    }

    fn apply(&self, op: &SetStateEffecter, value: &[u8], new: &mut Value) -> Result<(), Code> {
        let changes = op.changes.as_slice();
        if !self.fits(changes) {
            return Err(PLDM_INVALID_DATA);
        }
        let states = changed_states(changes, value);
        if !self.effecter.are_states(states.as_slice()) {
            return Err(PLDM_INVALID_STATE);
        }
        new.replace(states.as_slice());
        Ok(())
    }

    fn set_reply<B: Buffer>(_op: &SetStateEffecter, _reply: &mut B)
        requires room { length (B.bytes _reply.old)
            + length (state.kind.words.set_reply _op.now) ≤ B.capacity }
        ensures { B.bytes _reply.new ≡ B.bytes _reply.old ++ state.kind.words.set_reply _op.now }
    {}

    fn next_live(_op: &SetStateEffecter, _live: &mut Live)
        ensures { _live.new ≡ state.kind.words.next_live _op.now _live.old }
    {}

    fn get_data<B: Buffer>(&self, value: &[u8], _live: &Live, reply: &mut B) {
        reply.push(value.len() as u8);
        show_fields(operational_state(self.effecter.enabled), value, reply);
    }

    fn get_asked(id: &u16) -> Asked
        ensures { result ≡ state.kind.words.get_asked id.now }
    {
        effecter_request(GET_STATE_EFFECTER_STATES, &id_bytes(*id))
    }

    fn set_data(op: &SetStateEffecter) -> RecordData
        ensures { result ≡ state.kind.words.set_data op.now }
    {
        body(op)
    }

    fn set_asked(op: &SetStateEffecter) -> Asked
        ensures { result ≡ state.kind.words.set_asked op.now }
    {
        effecter_request(SET_STATE_EFFECTER_STATES, body(op).as_slice())
    }

    fn inverse(op: &SetStateEffecter, get_data: &'a [u8]) -> Option<SetStateEffecter>
        ensures { result ≡ state.kind.words.inverse op.now get_data.now }
    {
        if !is_undoable(op, get_data) {
            return None;
        }
        Some(undo_states(op, get_data))
    }
}
