//! The hysteresis of a sensor, as a kind of record.
ghost use Rattle.std.specs.Prelude.{◌≡◌};
ghost use Rattle.sensor_recs.specs.Hysteresis.{both_bytes, hysteresis_body, hysteresis_in};

use crate::request::sensor_request;
use record_base::{
    Asked, CommandReader, Key, Live, Op, RecordData, RecordKind, Sensor, SetHysteresis, Value,
    byte_at,
};
use two_wire::{Buffer, Code};

/// The number of the Set command.
const SET_SENSOR_HYSTERESIS: u8 = 0x24;

/// The number of the Get command.
const GET_SENSOR_HYSTERESIS: u8 = 0x25;

/// The hysteresis mask, the second byte of both requests: all thresholds have the same hysteresis.
const HYSTERESIS_MASK: u8 = 0xFF;

/// A Set can set any hysteresis.
#[derive(Clone, Copy)]
pub struct HysteresisLimits;

impl HysteresisLimits {
    /// The limits that a sensor gives.
    pub fn of(_sensor: &Sensor) -> Self
        ensures { result ≡ record {} }
    {
        HysteresisLimits
    }
}

/// The value that the operation makes.
fn both_bytes(op: &SetHysteresis) -> [u8; 2]
    ensures { result ≡ both_bytes op.now }
{
    [op.positive, op.negative]
}

/// The data of the request that carries out the operation.
fn body(op: &SetHysteresis) -> RecordData
    ensures { result ≡ hysteresis_body op.now }
{
    RecordData::from_slice(&[op.sensor, HYSTERESIS_MASK, op.positive, op.negative])
}

/// The operation with these data.
fn hysteresis_in(body: &[u8]) -> SetHysteresis
    ensures { result ≡ hysteresis_in body.now }
{
    SetHysteresis {
        sensor: byte_at(body, 0),
        positive: byte_at(body, 2),
        negative: byte_at(body, 3),
    }
}

impl CommandReader for HysteresisLimits {
    ghost use Rattle.sensor_recs.specs.HysteresisKind as hysteresis;

    ghost reader = { hysteresis.reader };

    #[inline(always)]
    fn key_in(body: &[u8]) -> Key {
        Key::Hysteresis(byte_at(body, 0))
    }

    #[inline(always)]
    fn op_in(body: &[u8]) -> Op<'_> {
        Op::Hysteresis(hysteresis_in(body))
    }
}

impl<'a> RecordKind<'a> for HysteresisLimits {
    ghost use Rattle.sensor_recs.specs.HysteresisKind as hysteresis;

    type Key = u8;

    type Op = SetHysteresis;

    ghost kind = { hysteresis.kind };

    fn key(op: &SetHysteresis) -> Key {
        Key::Hysteresis(op.sensor)
    }

    #[inline(always)]
    fn apply(&self, op: &SetHysteresis, _value: &[u8], new: &mut Value) -> Result<(), Code> {
        new.replace(&both_bytes(op));
        Ok(())
    }

    fn set_reply<B: Buffer>(_op: &SetHysteresis, _reply: &mut B) {}

    fn next_live(_op: &SetHysteresis, _live: &mut Live) {}

    fn get_data<B: Buffer>(&self, value: &[u8], _live: &Live, reply: &mut B) {
        reply.extend_from_slice(value);
    }

    fn get_asked(sensor: &u8) -> Asked {
        sensor_request(GET_SENSOR_HYSTERESIS, &[*sensor, HYSTERESIS_MASK])
    }

    fn set_data(op: &SetHysteresis) -> RecordData {
        body(op)
    }

    fn set_asked(op: &SetHysteresis) -> Asked {
        sensor_request(SET_SENSOR_HYSTERESIS, body(op).as_slice())
    }

    fn inverse(op: &SetHysteresis, get_data: &'a [u8]) -> Option<SetHysteresis> {
        let [positive, negative] = get_data else {
            return None;
        };
        Some(SetHysteresis {
            sensor: op.sensor,
            positive: *positive,
            negative: *negative,
        })
    }
}
