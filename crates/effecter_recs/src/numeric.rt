//! The present value of a numeric effecter, as a kind of record.
ghost use Rattle.std.specs.Prelude.{◌≡◌, ◌+◌, ◌≤◌, drop, length};
ghost use Rattle.effecter_recs.specs.Numeric.{value_bytes, value_of, numeric_body, numeric_effecter_in, said_width, present_in, is_enabled_reply};

use crate::request::{ENABLED, effecter_request, id_bytes, id_in, operational_state};
use record_base::{
    Asked, CommandReader, Key, Live, NumericBytes, NumericEffecter, NumericRange, Op, RecordData,
    RecordKind, SetNumericEffecter, Value, byte_at,
};
use two_wire::code::{PLDM_INVALID_DATA, PLDM_INVALID_LENGTH};
use two_wire::{Buffer, Bytes, Code};

/// The number of the Set command.
const SET_NUMERIC_EFFECTER_VALUE: u8 = 0x31;

/// The number of the Get command.
const GET_NUMERIC_EFFECTER_VALUE: u8 = 0x32;

/// Whether a Set can set the effecter, and the numbers to which a Set can set it.
#[derive(Clone, Copy)]
pub struct NumericLimits {
    pub enabled: bool,
    pub range: NumericRange,
}

/// The bytes of an operation's value.
fn value_bytes(value: &NumericBytes) -> Bytes<4>
    ensures { result ≡ value_bytes value.now }
{
    match value {
        NumericBytes::One(a) => Bytes::from_slice(&[*a]),
        NumericBytes::Two(a, b) => Bytes::from_slice(&[*a, *b]),
        NumericBytes::Four(a, b, c, d) => Bytes::from_slice(&[*a, *b, *c, *d]),
        NumericBytes::Other => Bytes::from_slice(&[0, 0, 0]),
    }
}

/// The value of these bytes.
fn value_of(bytes: &[u8]) -> NumericBytes
    ensures { result ≡ value_of bytes.now }
{
    match bytes {
        [a] => NumericBytes::One(*a),
        [a, b] => NumericBytes::Two(*a, *b),
        [a, b, c, d] => NumericBytes::Four(*a, *b, *c, *d),
        _ => NumericBytes::Other,
    }
}

/// The bytes behind the first `count` bytes.
pub(crate) fn behind(bytes: &[u8], count: usize) -> &[u8]
    ensures { result.now ≡ drop count bytes.now }
{
    if count > bytes.len() {
        return &[];
    }
    &bytes[count..]
}

/// The data of the request that carries out the operation.
fn body(op: &SetNumericEffecter) -> RecordData
    ensures value { result ≡ numeric_body op.now }
    ensures short { length result ≤ 7 }
{
    let mut body = RecordData::from_slice(&id_bytes(op.effecter));
    body.push(op.size);
    body.extend_from_slice(value_bytes(&op.value).as_slice());
    body
}

/// The operation with these data.
fn numeric_effecter_in(body: &[u8]) -> SetNumericEffecter
    ensures { result ≡ numeric_effecter_in body.now }
{
    SetNumericEffecter {
        effecter: id_in(body),
        size: byte_at(body, 2),
        value: value_of(behind(body, 3)),
    }
}

/// How many bytes a number of the size with this code has.
fn said_width(code: u8) -> usize
    ensures value { result ≡ said_width code }
    ensures few { result ≤ 4 }
{
    match code {
        0 | 1 => 1,
        2 | 3 => 2,
        _ => 4,
    }
}

/// The present value in a Get reply, behind the size, the operational state and the pending value.
fn present_in(reply: &[u8]) -> &[u8]
    ensures { result.now ≡ present_in reply.now }
{
    behind(behind(reply, 2), said_width(byte_at(reply, 0)))
}

/// Whether the data are a Get reply of an enabled effecter.
fn is_enabled_reply(reply: &[u8]) -> bool
    ensures { result ≡ is_enabled_reply reply.now }
{
    let size = byte_at(reply, 0);
    size <= 5 && reply.len() == 2 + 2 * said_width(size) && byte_at(reply, 1) == ENABLED
}

impl NumericLimits {
    /// The limits that an effecter gives.
    pub fn of(effecter: &NumericEffecter) -> Self
        ensures { result ≡ record { enabled = effecter.now.enabled; range = effecter.now.range } }
    {
        NumericLimits {
            enabled: effecter.enabled,
            range: effecter.range,
        }
    }
}

impl CommandReader for NumericLimits {
    ghost use Rattle.effecter_recs.specs.NumericKind as numeric;

    ghost reader = { numeric.reader };

    #[inline(always)]
    fn key_in(body: &[u8]) -> Key {
        Key::NumericEffecter(id_in(body))
    }

    #[inline(always)]
    fn op_in(body: &[u8]) -> Op<'_> {
        Op::NumericEffecter(numeric_effecter_in(body))
    }
}

impl<'a> RecordKind<'a> for NumericLimits {
    ghost use Rattle.effecter_recs.specs.NumericKind as numeric;

    type Key = u16;

    type Op = SetNumericEffecter;

    ghost kind = { numeric.kind };

    fn key(op: &SetNumericEffecter) -> Key {
        Key::NumericEffecter(op.effecter)
    }

    #[inline(always)]
    fn apply(&self, op: &SetNumericEffecter, _value: &[u8], new: &mut Value) -> Result<(), Code> {
        let value = value_bytes(&op.value);
        if op.size != self.range.size.code() {
            return Err(PLDM_INVALID_DATA);
        }
        if value.len() != self.range.size.width() {
            return Err(PLDM_INVALID_LENGTH);
        }
        if !self.enabled || !self.range.is_numeric(value.as_slice()) {
            return Err(PLDM_INVALID_DATA);
        }
        new.replace(value.as_slice());
        Ok(())
    }

    fn set_reply<B: Buffer>(_op: &SetNumericEffecter, _reply: &mut B) {}

    fn next_live(_op: &SetNumericEffecter, _live: &mut Live) {}

    fn get_data<B: Buffer>(&self, value: &[u8], _live: &Live, reply: &mut B) {
        reply.push(self.range.size.code());
        reply.push(operational_state(self.enabled));
        reply.extend_from_slice(value);
        reply.extend_from_slice(value);
    }

    fn get_asked(id: &u16) -> Asked {
        effecter_request(GET_NUMERIC_EFFECTER_VALUE, &id_bytes(*id))
    }

    fn set_data(op: &SetNumericEffecter) -> RecordData {
        body(op)
    }

    fn set_asked(op: &SetNumericEffecter) -> Asked {
        effecter_request(SET_NUMERIC_EFFECTER_VALUE, body(op).as_slice())
    }

    fn inverse(op: &SetNumericEffecter, get_data: &'a [u8]) -> Option<SetNumericEffecter> {
        if !is_enabled_reply(get_data) {
            return None;
        }
        Some(SetNumericEffecter {
            effecter: op.effecter,
            size: byte_at(get_data, 0),
            value: value_of(present_in(get_data)),
        })
    }
}
