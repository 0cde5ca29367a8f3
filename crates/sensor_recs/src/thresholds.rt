//! The thresholds of a sensor, as a kind of record.
ghost use Rattle.std.specs.Prelude.{◌≡◌, length};
ghost use Rattle.sensor_recs.specs.Thresholds.{choose, thresholds_body, thresholds_in, shows_all};

use crate::request::sensor_request;
use record_base::mask::{has, is_within};
use record_base::{
    Asked, CommandReader, Key, Live, Op, RecordData, RecordKind, Sensor, SetThresholds,
    ThresholdMasks, Value, byte_at, bytes_at,
};
use two_wire::code::INVALID_DATA_FIELD;
use two_wire::{Buffer, Code};

/// The number of the Set command.
const SET_SENSOR_THRESHOLDS: u8 = 0x26;

/// The number of the Get command.
const GET_SENSOR_THRESHOLDS: u8 = 0x27;

/// 00h for each threshold.
const ZEROS: [u8; 6] = [0; 6];

/// The thresholds that the sensor has. A Set can give the settable thresholds any values that leave all thresholds in order.
#[derive(Clone, Copy)]
pub struct ThresholdLimits {
    pub masks: ThresholdMasks,
}

/// A byte for each place: from the first list where the mask has the place, else from the second list.
fn choose(mask: u8, first: &[u8], second: &[u8]) -> [u8; 6]
    requires first_six { length first.now ≡ 6 }
    requires second_six { length second.now ≡ 6 }
    ensures { result ≡ choose mask first.now second.now }
{
    let mut bytes = [0; 6];
    for place in 0..6 {
        bytes[place] = if has(mask, place) {
            first[place]
        } else {
            second[place]
        };
    }
    bytes
}

/// The data of the request that carries out the operation.
fn body(op: &SetThresholds) -> RecordData
    ensures value { result ≡ thresholds_body op.now }
    ensures eight { length result ≡ 8 }
{
    let mut body = RecordData::from_slice(&[op.sensor, op.mask]);
    body.extend_from_slice(&op.values);
    body
}

/// The operation with these data.
fn thresholds_in(body: &[u8]) -> SetThresholds
    ensures { result ≡ thresholds_in body.now }
{
    SetThresholds {
        sensor: byte_at(body, 0),
        mask: byte_at(body, 1),
        values: bytes_at(body, 2),
    }
}

/// Whether it is a Get reply that shows each threshold of the mask.
fn shows_all(mask: u8, reply: &[u8]) -> bool
    ensures { result ≡ shows_all mask reply.now }
{
    reply.len() == 7 && is_within(mask, reply[0])
}

impl ThresholdLimits {
    /// The limits that a sensor gives.
    pub fn of(sensor: &Sensor) -> Self
        ensures { result ≡ record { masks = sensor.now.thresholds.masks } }
    {
        ThresholdLimits {
            masks: sensor.thresholds.masks,
        }
    }
}

impl CommandReader for ThresholdLimits {
    ghost use Rattle.sensor_recs.specs.ThresholdsKind as thresholds;

    ghost reader = { thresholds.reader };

    #[inline(always)]
    fn key_in(body: &[u8]) -> Key {
        Key::Thresholds(byte_at(body, 0))
    }

    #[inline(always)]
    fn op_in(body: &[u8]) -> Op<'_> {
        Op::Thresholds(thresholds_in(body))
    }
}

impl<'a> RecordKind<'a> for ThresholdLimits {
    ghost use Rattle.sensor_recs.specs.ThresholdsKind as thresholds;

    type Key = u8;

    type Op = SetThresholds;

    ghost kind = { thresholds.kind };

    fn key(op: &SetThresholds) -> Key {
        Key::Thresholds(op.sensor)
    }

    #[inline(always)]
    fn apply(&self, op: &SetThresholds, value: &[u8], new: &mut Value) -> Result<(), Code> {
        let values = choose(op.mask, &op.values, value);
        if !is_within(op.mask, self.masks.settable) || !self.masks.is_in_order(&values) {
            return Err(INVALID_DATA_FIELD);
        }
        new.replace(&values);
        Ok(())
    }

    fn set_reply<B: Buffer>(_op: &SetThresholds, _reply: &mut B) {}

    fn next_live(_op: &SetThresholds, _live: &mut Live) {}

    fn get_data<B: Buffer>(&self, value: &[u8], _live: &Live, reply: &mut B) {
        let shown = choose(self.masks.readable, value, &ZEROS);
        reply.push(self.masks.readable);
        reply.extend_from_slice(&shown);
    }

    fn get_asked(sensor: &u8) -> Asked {
        sensor_request(GET_SENSOR_THRESHOLDS, &[*sensor])
    }

    fn set_data(op: &SetThresholds) -> RecordData {
        body(op)
    }

    fn set_asked(op: &SetThresholds) -> Asked {
        sensor_request(SET_SENSOR_THRESHOLDS, body(op).as_slice())
    }

    fn inverse(op: &SetThresholds, get_data: &'a [u8]) -> Option<SetThresholds> {
        if !shows_all(op.mask, get_data) {
            return None;
        }
        Some(SetThresholds {
            sensor: op.sensor,
            mask: op.mask,
            values: choose(op.mask, &get_data[1..], &ZEROS),
        })
    }
}
