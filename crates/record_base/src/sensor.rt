//! The sensors of a board file.
ghost use Rattle.std.specs.Prelude.{◌<◌};

use crate::board_sizes::MOST_SENSORS;
use crate::*;

/// A sensor: its number (0 to 254), its type by IPMI's number, and the values of its records.
#[derive(Clone, Copy, Debug)]
pub struct Sensor {
    pub number: u8,
    pub sensor_type: u8,
    pub thresholds: Thresholds,
    pub hysteresis: Hysteresis,
    pub events: EventEnable,
    ghost numbered: { number < 255 },
}

/// The sensors of a board.
pub type Sensors = Distinct<Sensor, { MOST_SENSORS }>;

impl Numbered for Sensor {
    ghost number_of = { λ sensor. sensor.number };

    fn number(&self) -> u16 {
        u16::from(self.number)
    }
}
