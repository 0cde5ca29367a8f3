//! The step that sets hysteresis.
ghost use Rattle.std.specs.Prelude.{◌≡◌};
ghost use Rattle.toml.specs.View.{table_view};
ghost use Rattle.plan_file.specs.Kinds.Hysteresis.{HoldsHysteresis};

use record_base::SetHysteresis;
use text_fields::{BYTE, Checked, Field, Need, Row};

/// The fields of a step that sets hysteresis.
pub const FIELDS: [Row; 3] = [
    Row(Field::Sensor, BYTE, Need::Always),
    Row(Field::Positive, BYTE, Need::Always),
    Row(Field::Negative, BYTE, Need::Always),
];

/// What the step makes of hysteresis.
pub fn read(step: &Checked<'_>) -> SetHysteresis
    requires { step.now.rows.now ≡ FIELDS }
    ensures { HoldsHysteresis (table_view step.now.table.now) result }
{
    SetHysteresis {
        sensor: step.byte(Field::Sensor),
        positive: step.byte(Field::Positive),
        negative: step.byte(Field::Negative),
    }
}
