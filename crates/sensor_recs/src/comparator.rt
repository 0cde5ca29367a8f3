//! The thresholds to which a sensor compares its readings, and events.
ghost use Rattle.std.specs.Prelude.{◌≡◌, length};

use record_base::{EventMasks, Hysteresis, ThresholdMasks};

/// The thresholds and the hysteresis to which a sensor compares its readings, and the events that count.
#[derive(Clone, Copy)]
pub struct Comparator {
    pub masks: ThresholdMasks,
    /// One at each place: lower non-critical, lower critical, lower non-recoverable, upper non-critical, upper critical, upper
    /// non-recoverable.
    pub thresholds: [u8; 6],
    pub hysteresis: Hysteresis,
    /// Whether the sensor makes event messages.
    pub messages: bool,
    pub enabled: EventMasks,
    pub ghost six: { length thresholds ≡ 6 },
}

/// An event: a reading has crossed the threshold at the place upwards ("going high") or downwards ("going low"). Where the
/// event is deasserted, the reading has crossed the threshold the other way.
#[derive(Clone, Copy, Debug, Default, PartialEq, Eq)]
pub struct Event {
    pub place: u8,
    pub high: bool,
    pub deasserted: bool,
}

/// The last reading of a sensor, as a raw byte, and for each threshold whether the reading was beyond the threshold.
#[derive(Clone, Copy, Debug, PartialEq, Eq)]
pub struct LastReading {
    pub raw: u8,
    pub beyond: [bool; 6],
    pub ghost six: { length beyond ≡ 6 },
}
