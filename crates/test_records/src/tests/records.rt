//! Records, stores and the sample board.
ghost use Rattle.std.specs.Prelude.{◌<◌, IsTrue, length};
ghost use Rattle.record_base.specs.Keys.{is_length};

use super::{expect, expect_bytes, expect_each, expect_equal};
use cfg_records::{
    Answered, Asked, Key, Live, NoKey, PackedStore, PlainStore, Sensor, Sensors, StartValue, Store,
    StoreFault, sample_board,
};
use record_base::{
    BootFlags, BootOptions, BootParameter, EventEnable, EventMasks, Hysteresis, ThresholdMasks,
    Thresholds,
};
use std::alloc::Global;
use std::process::Abort;
use two_wire::{Below, Bytes, Lun, NetFn, code};

/// The records that the sample board begins with, in order.
const RECORDS: &str = "Thresholds(5) 140A05505F6E
Thresholds(7) 00000090A0B0
Hysteresis(5) 0202
Hysteresis(7) 0000
EventEnable(5) C000020000
EventEnable(7) 0000000000
UserName(BitField { number: 1 }) 00000000000000000000000000000000
UserName(BitField { number: 2 }) 61646D696E0000000000000000000000
UserAccess(UserOnChannel { channel: BitField { number: 1 }, user: BitField { number: 1 } }) 14
UserAccess(UserOnChannel { channel: BitField { number: 1 }, user: BitField { number: 2 } }) 14
ChannelAccess(StoredAccess { channel: BitField { number: 1 }, store: NonVolatile }) 0204
ChannelAccess(StoredAccess { channel: BitField { number: 1 }, store: Volatile }) 0204
PowerPolicy 01
Watchdog 0000000000
GlobalEnables 08
BootParam(ValidBitClearing) 0000
BootParam(InfoAcknowledge) 0000
BootParam(Flags) 000000000000
BiosAttribute(0) 0100
BiosAttribute(1) 06007261636B2D31
BiosAttribute(2) 1E00000000000000
";

/// The records, a line for each.
fn spelt(rt: &impl Abort, alloc: Global, pairs: &[(Key, StartValue)]) -> String {
    let mut text = String::new(alloc);
    for (key, value) in pairs {
        let digits = hex::encode_upper(alloc, value.as_slice()).expect(rt, "memory");
        writeln!(text, "{key:?} {}", digits.as_str()).expect(rt, "memory");
        drop(digits);
    }
    text
}

/// The records of the sample board, a line for each. Its terminus is 5.
fn spelt_sample(rt: &impl Abort, alloc: Global) -> String {
    let file = sample_board(alloc).expect(rt, "memory");
    expect_equal(rt, file.tid, 5);
    let pairs = file.records(alloc).expect(rt, "memory");
    drop(file);
    let text = spelt(rt, alloc, pairs.as_slice());
    drop(pairs);
    text
}

#[test]
fn the_sample_board_has_a_terminus_and_begins_with_its_records(rt: HostRuntime) {
    let spelt = spelt_sample(&rt, rt.alloc());
    expect_equal(&rt, spelt.as_str(), RECORDS);
    drop(spelt);
}

/// The store has this record.
fn expect_record<S: Store>(rt: &impl Abort, store: &S, key: &Key, value: &[u8]) {
    let record = store.get(key).expect(rt, "a record");
    expect_bytes(rt, record, value);
}

/// The record has the new value once that was put.
fn expect_put<S: Store>(rt: &impl Abort, store: &mut S, key: &Key, new: &[u8])
    requires { IsTrue (is_length key.now (length new.now)) }
{
    expect_equal(rt, store.put(key, new), Ok(()));
    expect_record(rt, store, key, new);
}

/// The record has the old value where it lies, and the new one once that was written there.
fn expect_written<S: Store>(rt: &impl Abort, store: &mut S, key: &Key, old: &[u8], new: &[u8])
    requires { IsTrue (is_length key.now (length new.now)) }
{
    let place = store.find(key).expect(rt, "a place");
    expect_bytes(rt, store.value(place), old);
    store.write(place, new);
    expect_record(rt, store, key, new);
}

/// A store of the sample board's records.
fn sample_store(rt: &impl Abort, alloc: Global) -> PlainStore {
    let file = sample_board(alloc).expect(rt, "memory");
    let store = PlainStore::of_file(alloc, &file).expect(rt, "memory");
    drop(file);
    store
}

#[test]
fn a_store_has_what_was_put_and_nothing_where_there_is_no_record(rt: HostRuntime) {
    let mut store = sample_store(&rt, rt.alloc());
    let key = Key::Hysteresis(7);
    expect_put(&rt, &mut store, &key, &[3, 1]);
    let place = store.find(&key);
    expect_written(&rt, &mut store, &key, &[3, 1], &[4, 2]);
    let is_same = store.find(&key) == place;
    let missing = Key::Hysteresis(9);
    let put = store.put(&missing, &[3, 1]);
    let is_none = store.get(&missing).is_none();
    drop(store);
    expect_equal(&rt, put, Err(NoKey));
    expect_each(
        &rt,
        &[is_same, is_none],
        "the record stays in its place, none is made",
    );
}

/// A record whose value is too short.
fn short() -> (Key, StartValue) {
    (Key::Hysteresis(5), StartValue::few(&[1]))
}

/// Neither store is made of these pairs, by this fault.
fn expect_fault(rt: &impl Abort, alloc: Global, pairs: Vec<(Key, StartValue)>, fault: StoreFault) {
    let plain = PlainStore::new(alloc, pairs.as_slice()).err();
    let packed = PackedStore::new(alloc, pairs.as_slice()).err();
    drop(pairs);
    expect_equal(rt, (plain, packed), (Some(fault), Some(fault)));
}

#[test]
fn a_store_refuses_a_key_twice_before_a_bad_value(rt: HostRuntime) {
    let alloc = rt.alloc();
    let bad = vec![in alloc; short()].expect(&rt, "memory");
    expect_fault(&rt, alloc, bad, StoreFault::BadValue);
    let twice = vec![in alloc; short(), short()].expect(&rt, "memory");
    expect_fault(&rt, alloc, twice, StoreFault::TwiceTheSameKey);
}

/// A packed store of a delay and a policy.
fn packed(rt: &impl Abort, alloc: Global) -> PackedStore {
    let delay = StartValue::few(&[3, 1, 4, 1, 5, 9, 2, 6]);
    let policy = (Key::PowerPolicy, StartValue::few(&[2]));
    let pairs = vec![in alloc; (Key::BiosAttribute(2), delay), policy].expect(rt, "memory");
    let store = PackedStore::new(alloc, pairs.as_slice());
    drop(pairs);
    store.ok().expect(rt, "two keys, with a value each")
}

#[test]
fn a_packed_store_has_its_pairs(rt: HostRuntime) {
    let mut store = packed(&rt, rt.alloc());
    let delay = Key::BiosAttribute(2);
    expect_record(&rt, &store, &delay, &[3, 1, 4, 1, 5, 9, 2, 6]);
    expect_put(&rt, &mut store, &Key::PowerPolicy, &[1]);
    expect_put(&rt, &mut store, &delay, &[2, 7]);
    let put = store.put(&Key::Watchdog, &[0; 5]);
    drop(store);
    expect_equal(&rt, put, Err(NoKey));
}

/// The values of so many effecters, of two bytes each.
fn effecter_values(rt: &impl Abort, alloc: Global, count: u16) -> Vec<(Key, StartValue)> {
    let mut pairs = Vec::new(alloc);
    for id in 0..count {
        let [low, high] = id.to_le_bytes();
        let pair = (Key::NumericEffecter(id), StartValue::few(&[low, high]));
        let is_kept = pairs.push(pair).is_ok();
        expect(rt, is_kept, "memory");
    }
    pairs
}

/// A packed store of a thousand records, more than any board file has.
fn large(rt: &impl Abort, alloc: Global) -> PackedStore {
    let pairs = effecter_values(rt, alloc, 1000);
    let store = PackedStore::new(alloc, pairs.as_slice());
    drop(pairs);
    store.ok().expect(rt, "keys that differ, with a value each")
}

#[test]
fn a_packed_store_has_a_thousand_pairs(rt: HostRuntime) {
    let store = large(&rt, rt.alloc());
    expect_record(&rt, &store, &Key::NumericEffecter(0), &[0, 0]);
    expect_record(&rt, &store, &Key::NumericEffecter(999), &[0xE7, 0x03]);
    drop(store);
}

/// No event.
const NO_EVENTS: EventMasks = EventMasks {
    assertions: 0,
    deassertions: 0,
};

/// A sensor without thresholds and events.
fn bare(number: u8) -> Option<Sensor>
    requires { number < 255 }
{
    Some(Sensor {
        number,
        sensor_type: 0x01,
        thresholds: Thresholds::new(ThresholdMasks::new(0, 0)?, [0; 6])?,
        hysteresis: Hysteresis {
            positive: 0,
            negative: 0,
        },
        events: EventEnable::new(0, false, false, NO_EVENTS)?,
    })
}

/// Whether a board has so many sensors, and the first of them once more in the place of the last where it is asked for.
fn are_sensors(rt: &impl Abort, alloc: Global, count: u8, again: bool) -> bool {
    let mut sensors = Vec::new(alloc);
    for number in 0..count {
        let is_again = again && number + 1 == count;
        let sensor = bare(if is_again { 0 } else { number }).expect(rt, "a sensor");
        sensors.push(sensor).expect(rt, "memory");
    }
    Sensors::new(sensors).is_some()
}

#[test]
fn a_board_has_at_most_32_sensors_with_numbers_of_their_own(rt: HostRuntime) {
    let alloc = rt.alloc();
    let hold = [
        are_sensors(&rt, alloc, 2, false),
        !are_sensors(&rt, alloc, 2, true),
        are_sensors(&rt, alloc, 32, false),
        !are_sensors(&rt, alloc, 33, false),
    ];
    expect_each(&rt, &hold, "2, one number twice, 32, 33");
}

#[test]
fn boot_parameter_3_has_five_bits(rt: HostRuntime) {
    let flags = BootFlags {
        validity: 1,
        device: 2,
        console: 3,
        overrides: 4,
        instance: 5,
    };
    let boot = BootOptions::new(0x1F, 0xFF, flags).expect(&rt, "boot options");
    let (key, value) = boot.pair(BootParameter::Flags);
    expect_equal(&rt, key, Key::BootParam(BootParameter::Flags));
    expect_bytes(&rt, value.as_slice(), &[0, 1, 2, 3, 4, 5]);
    drop(value);
    expect(&rt, BootOptions::new(0x20, 0, flags).is_none(), "six bits");
}

#[test]
fn requests_and_replies_are_compared_whole(rt: HostRuntime) {
    let asked = Asked::Ipmi {
        from: 0x2C,
        net_fn: NetFn::new(4),
        lun: Lun::new(0),
        command: 0x27,
        body: Bytes::from_slice(&[5]),
    };
    let other = Asked::Pldm {
        from: 0x08,
        kind: Below::new(3),
        command: 0x27,
        body: Bytes::from_slice(&[5]),
    };
    let done = Answered::done(&[1]);
    let refused = Answered::refused(code::NOT_PRESENT);
    let hold = [
        asked.copy().is(&asked),
        !asked.is(&other),
        done.copy().is(&done),
        !done.is(&refused),
    ];
    expect_each(
        &rt,
        &hold,
        "a copy of a request, another bus, a copy of a reply, another code",
    );
}

#[test]
fn a_board_begins_with_its_watchdog_stopped(rt: HostRuntime) {
    let live = Live::opening();
    let hold = [
        live.chassis.number() == 0,
        !live.running && live.countdown == 0,
        live.expired == 0,
    ];
    expect_each(&rt, &hold, "no chassis bits, stopped, no flag");
}
