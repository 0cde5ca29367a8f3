//! The thresholds of a sensor: in a board file, and as they are set.
ghost use Rattle.std.specs.Prelude.{◌≡◌, length};
ghost use Rattle.record_base.specs.Sensor.Thresholds.{IsThresholds};
ghost use Rattle.record_base.specs.PartLaws.{IsThresholds-prop};

use crate::key::Key;
use crate::start_value::StartValue;
use crate::threshold_masks::ThresholdMasks;

/// The thresholds of a sensor, and their values, one at each place. A place without a threshold has 0. The thresholds that the
/// sensor has are in order.
#[derive(Clone, Copy, Debug)]
pub struct Thresholds {
    pub masks: ThresholdMasks,
    pub values: [u8; 6],
    ghost valid: { IsThresholds masks values } by { IsThresholds-prop masks values },
}

/// Sets each threshold of the mask (bit i for the byte at place i) to the byte at its place.
#[derive(Clone, Copy)]
pub struct SetThresholds {
    pub sensor: u8,
    pub mask: u8,
    pub values: [u8; 6],
    pub ghost six: { length values ≡ 6 },
}

impl Thresholds {
    ghost use Rattle.std.specs.Prelude.{◌≡◌, ◌↔◌, IsSome, IfSome};
    ghost use Rattle.record_base.specs.Sensor.Thresholds.{IsThresholds};

    /// A sensor's thresholds, or nothing where a sensor with these masks can't have them.
    pub fn new(masks: ThresholdMasks, values: [u8; 6]) -> Option<Thresholds>
        ensures made { IsSome result ↔ IsThresholds masks values }
        ensures parts { IfSome result (λ made. (made.masks ≡ masks) × (made.values ≡ values)) }
    {
        if !masks.is_value(&values) {
            return None;
        }
        Some(Thresholds { masks, values })
    }

    /// The record of the sensor of this number.
    pub fn pair(&self, sensor: u8) -> (Key, StartValue)
        ensures { result ≡ (Key.Thresholds sensor, self.now.values) }
    {
        (Key::Thresholds(sensor), StartValue::few(&self.values))
    }
}
