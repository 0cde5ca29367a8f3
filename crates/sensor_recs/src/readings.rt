//! The last readings of sensors.
ghost use Rattle.std.specs.Prelude.{◌≡◌, ◌<◌, IfOk, All};
ghost use Rattle.sensor_recs.specs.Taken.{none_taken, last_of, with_reading, last_beyond, taken_after, compared_of, mask_of, reading_data, log_record};
ghost use Rattle.sensor_recs.specs.Readings.{events_of};

use crate::comparator::{Comparator, Event, LastReading};
use crate::reading_events::Events;
use record_base::event_enable::{MESSAGES_PLACE, SCANNING_PLACE, flags_byte};
use record_base::mask::has;
use record_base::{EventMasks, Hysteresis, ThresholdMasks, byte_at, bytes_at};
use sel_log::LogRecord;
use std::alloc::{AllocError, Global};
use std::marker::Model;
use two_wire::places::CONTROLLER_WIRE;

/// The bit of a Get Sensor Reading reply that says that there is no reading yet.
const UNAVAILABLE: u8 = 0x20;

/// The type of the log's records of events.
const SYSTEM_EVENT: u8 = 0x02;

/// The format of events of IPMI 2.0.
const EVENT_FORMAT: u8 = 0x04;

/// The last reading of each sensor, if the sensor has one. Contracts see a list with a place for each number of a sensor. It takes
/// all its memory when it is made.
pub struct Readings {
    items: Vec<Option<LastReading>>,
}

// Written out: the crates above would prove a derived one anew.
impl Drop for Readings {
    fn drop(self) {
        let Readings { items } = self;
        drop(items);
    }
}

impl Model for Readings {
    ghost use Rattle.std.specs.Prelude.{◌≡◌, length};
    ghost use Rattle.sensor_recs.specs.Taken.{LastReadings};

    ghost Value = { LastReadings };

    ghost view = { λ s. s.items.items };

    ghost invariant = { λ s. length s.items.items ≡ 256 };
}

impl Readings {
    /// No sensor has a reading.
    pub fn new(alloc: Global) -> Result<Self, AllocError>
        ensures { IfOk result (λ s. s ≡ none_taken) }
    {
        Ok(Readings {
            items: vec![in alloc; None; 256]?,
        })
    }

    /// The last reading of the sensor of this number.
    pub fn last(&self, sensor: u8) -> Option<LastReading>
        ensures { result ≡ last_of self.now sensor }
    {
        self.items[sensor as usize]
    }

    /// Makes this reading the last one of the sensor of this number.
    pub fn put(&mut self, sensor: u8, taken: LastReading)
        ensures { self.new ≡ with_reading self.old sensor taken }
    {
        self.items[sensor as usize] = Some(taken);
    }
}

/// For each threshold, whether the last reading was beyond the threshold.
fn last_beyond(last: &Option<LastReading>) -> [bool; 6]
    ensures { result ≡ last_beyond last.now }
{
    match last {
        Some(taken) => taken.beyond,
        None => [false; 6],
    }
}

/// The mask of the places that have `true`.
fn mask_of(beyond: &[bool; 6]) -> u8
    ensures value { result ≡ mask_of beyond.now }
    ensures small { result < 64 }
{
    let [a, b, c, d, e, f] = *beyond;
    let upper = u8::from(d) + 2 * (u8::from(e) + 2 * u8::from(f));
    u8::from(a) + 2 * (u8::from(b) + 2 * (u8::from(c) + 2 * upper))
}

/// The data of the Get Sensor Reading reply, from the sensor's enabled events and its last reading.
pub fn reading_data(events: &[u8], last: &Option<LastReading>) -> [u8; 3]
    ensures { result ≡ reading_data events.now last.now }
{
    let flags = byte_at(events, 0);
    let flags = flags_byte(has(flags, MESSAGES_PLACE), has(flags, SCANNING_PLACE));
    match last {
        Some(taken) => [taken.raw, flags, 0xC0 + mask_of(&taken.beyond)],
        None => [0, flags + UNAVAILABLE, 0xC0],
    }
}

impl Comparator {
    /// The comparison for the readings of a sensor, from its masks and from the values of its records.
    pub fn of(
        masks: ThresholdMasks,
        thresholds: &[u8],
        hysteresis: &[u8],
        events: &[u8],
    ) -> Comparator
        ensures { result ≡ compared_of masks thresholds.now hysteresis.now events.now }
    {
        Comparator {
            masks,
            thresholds: bytes_at(thresholds, 0),
            hysteresis: Hysteresis {
                positive: byte_at(hysteresis, 0),
                negative: byte_at(hysteresis, 1),
            },
            messages: has(byte_at(events, 0), MESSAGES_PLACE),
            enabled: EventMasks {
                assertions: u16::from_le_bytes(bytes_at(events, 1)),
                deassertions: u16::from_le_bytes(bytes_at(events, 3)),
            },
        }
    }

    /// Takes a reading after the last reading: gives the new last reading, and the events that the reading makes.
    pub fn take(&self, last: &Option<LastReading>, reading: u8) -> (LastReading, Events)
        ensures taken { result.0 ≡ taken_after self.now last.now reading }
        ensures events { result.1.items ≡ events_of self.now (last_beyond last.now) reading }
        ensures places { All (λ event. event.place < 6) result.1.items }
    {
        let mut beyond = last_beyond(last);
        let events = self.read_taken(&mut beyond, reading);
        let taken = LastReading {
            raw: reading,
            beyond,
        };
        (taken, events)
    }

    /// The log's record of an event that a reading of the sensor makes.
    pub fn log_record(&self, sensor_type: u8, sensor: u8, reading: u8, event: &Event) -> LogRecord
        requires { event.now.place < 6 }
        ensures { result ≡ log_record sensor_type sensor self.now reading event.now }
    {
        LogRecord::from_slice(&[
            0,
            0,
            SYSTEM_EVENT,
            0,
            0,
            0,
            0,
            CONTROLLER_WIRE,
            0x00,
            EVENT_FORMAT,
            sensor_type,
            sensor,
            if event.deasserted { 0x81 } else { 0x01 },
            0x50 + event.offset(),
            reading,
            self.thresholds[event.place as usize],
        ])
    }
}
