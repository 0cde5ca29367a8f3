//! Which thresholds a sensor has.
ghost use Rattle.std.specs.Prelude.{◌<◌};

use crate::mask::has;

/// The thresholds of a sensor that requests can read, and those that they can set: bit i for the threshold at place i, no other
/// bits. The sensor has the thresholds of either mask.
#[derive(Clone, Copy, Debug)]
pub struct ThresholdMasks {
    pub readable: u8,
    pub settable: u8,
    ghost readable_six: { readable < 64 },
    ghost settable_six: { settable < 64 },
}

/// The places of the thresholds, from the lowest to the highest.
const PLACES: [usize; 6] = [2, 1, 0, 3, 4, 5];

impl ThresholdMasks {
    ghost use Rattle.std.specs.Prelude.{◌≡◌, ◌<◌, ◌↔◌, IsTrue, IsSome, IfSome, length};
    ghost use Rattle.record_base.specs.Sensor.Thresholds.{IsThresholds, is_there, is_in_order, is_clear};

    /// Whether the sensor has the threshold at the place.
    pub fn is_there(&self, place: usize) -> bool
        requires { place < 6 }
        ensures { result ≡ is_there self.now place }
    {
        has(self.readable, place) || has(self.settable, place)
    }

    /// Whether the sensor's thresholds don't decrease from the lowest to the highest, where the six bytes have a threshold at each
    /// place.
    pub fn is_in_order(&self, value: &[u8]) -> bool
        requires { length value.now ≡ 6 }
        ensures { result ≡ is_in_order self.now value.now }
    {
        let mut highest = 0;
        for place in PLACES {
            if self.is_there(place) {
                if value[place] < highest {
                    return false;
                }
                highest = value[place];
            }
        }
        true
    }

    /// The masks of these places, or nothing where a mask has a place above 5.
    pub fn new(readable: u8, settable: u8) -> Option<ThresholdMasks>
        ensures made { IsSome result ↔ ((readable < 64) × (settable < 64)) }
        ensures masks { IfSome result (λ made.
            (made.readable ≡ readable) × (made.settable ≡ settable)) }
    {
        if readable >= 64 || settable >= 64 {
            return None;
        }
        Some(ThresholdMasks { readable, settable })
    }

    /// Whether the bytes are 0 at each place without a threshold.
    fn is_clear(&self, value: &[u8]) -> bool
        requires { length value.now ≡ 6 }
        ensures { result ≡ is_clear self.now value.now }
    {
        for place in 0..6 {
            if !self.is_there(place) && value[place] != 0 {
                return false;
            }
        }
        true
    }

    /// Whether the sensor can have these thresholds.
    pub fn is_value(&self, value: &[u8]) -> bool
        requires { length value.now ≡ 6 }
        ensures { IsTrue result ↔ IsThresholds self.now value.now }
    {
        self.is_clear(value) && self.is_in_order(value)
    }
}
