//! The hysteresis of a sensor: in a board file, and as it is set.
ghost use Rattle.std.specs.Prelude.{◌≡◌};
ghost use Rattle.record_base.specs.Sensor.Hysteresis.{hysteresis_value};

use crate::key::Key;
use crate::start_value::StartValue;

/// How far a reading goes back before an event is taken back: for rising and for falling thresholds, in raw units.
#[derive(Clone, Copy, Debug)]
pub struct Hysteresis {
    pub positive: u8,
    pub negative: u8,
}

impl From<[u8; 2]> for Hysteresis {
    ghost from_gives = { λ bytes made. hysteresis_value made ≡ bytes };

    fn from([positive, negative]: [u8; 2]) -> Hysteresis {
        Hysteresis { positive, negative }
    }
}

/// Sets both hysteresis values.
#[derive(Clone, Copy)]
pub struct SetHysteresis {
    pub sensor: u8,
    pub positive: u8,
    pub negative: u8,
}

impl Hysteresis {
    /// The record of the sensor of this number.
    pub fn pair(&self, sensor: u8) -> (Key, StartValue)
        ensures { result ≡ (Key.Hysteresis sensor, hysteresis_value self.now) }
    {
        (
            Key::Hysteresis(sensor),
            StartValue::few(&[self.positive, self.negative]),
        )
    }
}
