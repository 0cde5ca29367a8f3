//! The step that sets the global enables.
ghost use Rattle.std.specs.Prelude.{◌≡◌};
ghost use Rattle.toml.specs.View.{table_view};
ghost use Rattle.plan_file.specs.Kinds.GlobalEnables.{HoldsGlobalEnables};

use record_base::SetGlobalEnables;
use text_fields::range::enables;
use text_fields::{Checked, Field, Need, Row, Shape};

/// The fields of a step that sets the global enables.
pub const FIELDS: [Row; 1] = [Row(Field::Value, Shape::Enables, Need::Always)];

/// What the step makes of the global enables.
pub fn read(step: &Checked<'_>) -> SetGlobalEnables
    requires { step.now.rows.now ≡ FIELDS }
    ensures { HoldsGlobalEnables (table_view step.now.table.now) result }
{
    SetGlobalEnables {
        byte: enables(step.value(Field::Value)).unwrap().byte,
    }
}
