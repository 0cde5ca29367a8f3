//! The step that sets the value of a numeric effecter.
ghost use Rattle.std.specs.Prelude.{◌≡◌};
ghost use Rattle.toml.specs.View.{table_view};
ghost use Rattle.text_fields.specs.Numeric.{sized_bytes, AreValueBytes};
ghost use Rattle.plan_file.specs.Kinds.NumericEffecter.{HoldsNumericEffecter};

use record_base::{NumericBytes, SetNumericEffecter};
use text_fields::numeric::{numeric_bytes, size_in, sized_in};
use text_fields::{Checked, Field, Need, Row, Shape};

/// The fields of a step that sets the value of a numeric effecter.
pub const FIELDS: [Row; 3] = [
    Row(Field::Effecter, Shape::Number(0, 0xFFFF), Need::Always),
    Row(Field::Size, Shape::Number(0, 5), Need::Always),
    Row(Field::Value, Shape::Sized, Need::Always),
];

/// The bytes of the number that the step gives, of the size that it gives.
fn numeric_value(step: &Checked<'_>) -> NumericBytes
    requires { step.now.rows.now ≡ FIELDS }
    ensures { AreValueBytes result (sized_bytes Field.Value (table_view step.now.table.now)) }
{
    let size = size_in(step.table).unwrap();
    let number = sized_in(step.table, size, Field::Value).unwrap();
    numeric_bytes(size, number)
}

/// What the step makes of the value of a numeric effecter.
pub fn read(step: &Checked<'_>) -> SetNumericEffecter
    requires { step.now.rows.now ≡ FIELDS }
    ensures { HoldsNumericEffecter (table_view step.now.table.now) result }
{
    SetNumericEffecter {
        effecter: step.word(Field::Effecter),
        size: step.byte(Field::Size),
        value: numeric_value(step),
    }
}
