//! Calls of a sensor's records: thresholds, hysteresis and readings.
ghost use Rattle.std.specs.Prelude.{◌≡◌, ◌<◌};

use super::{expect_bytes, expect_equal};
use cfg_records::{Live, RecordData, RecordKind, Value};
use record_base::{EventMasks, Hysteresis, SetHysteresis, SetThresholds, ThresholdMasks};
use sensor_recs::{Comparator, Event, HysteresisLimits, ThresholdLimits};
use std::process::Abort;
use two_wire::code::{Code, INVALID_DATA_FIELD};

/// The thresholds of a temperature sensor.
const THRESHOLDS: [u8; 6] = [0x14, 0x0A, 0x05, 0x50, 0x5F, 0x6E];

/// The limits of its thresholds, which can all be read and set.
fn limits(rt: &impl Abort) -> ThresholdLimits
    ensures readable { result.masks.readable ≡ 0x3F }
    ensures settable { result.masks.settable ≡ 0x3F }
{
    ThresholdLimits {
        masks: ThresholdMasks::new(0x3F, 0x3F).expect(rt, "masks"),
    }
}

/// A Set of upper critical to this value is carried out or refused so, and leaves these bytes.
fn expect_set(rt: &impl Abort, value: u8, done: Result<(), Code>, kept: &[u8]) {
    let set = SetThresholds {
        sensor: 5,
        mask: 0x10,
        values: [0, 0, 0, 0, value, 0],
    };
    let mut new = Value::from_slice(&[0xEE]);
    expect_equal(rt, limits(rt).apply(&set, &THRESHOLDS, &mut new), done);
    expect_bytes(rt, new.as_slice(), kept);
}

#[test]
fn thresholds_in_order_are_set_and_others_are_refused(rt: HostRuntime) {
    expect_set(&rt, 0x70, Err(INVALID_DATA_FIELD), &[0xEE]);
    expect_set(&rt, 0x60, Ok(()), &[0x14, 0x0A, 0x05, 0x50, 0x60, 0x6E]);
}

#[test]
fn replies_are_appended(rt: HostRuntime) {
    let live = Live::opening();
    let op = SetHysteresis {
        sensor: 5,
        positive: 3,
        negative: 1,
    };
    let mut reply = RecordData::from_slice(&[0xEE]);
    HysteresisLimits::set_reply(&op, &mut reply);
    HysteresisLimits.get_data(&[3, 1], &live, &mut reply);
    limits(&rt).get_data(&THRESHOLDS, &live, &mut reply);
    let shown = [0xEE, 3, 1, 0x3F, 0x14, 0x0A, 0x05, 0x50, 0x5F, 0x6E];
    expect_bytes(&rt, reply.as_slice(), &shown);
}

/// The sensor, of whose events upper critical alone is enabled, in both directions.
fn compared(rt: &impl Abort) -> Comparator {
    Comparator {
        masks: ThresholdMasks::new(0x3F, 0x3F).expect(rt, "masks"),
        thresholds: THRESHOLDS,
        hysteresis: Hysteresis {
            positive: 2,
            negative: 2,
        },
        messages: true,
        enabled: EventMasks {
            assertions: 0x200,
            deassertions: 0x200,
        },
    }
}

/// Upper critical is crossed, or is not any more.
fn crossed(deasserted: bool) -> Event
    ensures { result.place < 6 }
{
    Event {
        place: 4,
        high: true,
        deasserted,
    }
}

/// A reading makes this event alone, and leaves these thresholds crossed.
fn expect_reading(rt: &impl Abort, beyond: &mut [bool; 6], raw: u8, event: Event, then: [bool; 6]) {
    let made = compared(rt).read_taken(beyond, raw);
    assert!(rt; made.as_slice() == [event].as_slice());
    assert!(rt; *beyond == then);
}

#[test]
fn upper_critical_rises_and_falls(rt: HostRuntime) {
    expect_equal(&rt, crossed(false).offset(), 9);
    let mut beyond = [false; 6];
    let both = [false, false, false, true, true, false];
    expect_reading(&rt, &mut beyond, 0x60, crossed(false), both);
    let one = [false, false, false, true, false, false];
    expect_reading(&rt, &mut beyond, 0x5C, crossed(true), one);
}
