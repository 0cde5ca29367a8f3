//! The step that sets a boot parameter.
ghost use Rattle.std.specs.Prelude.{◌≡◌};
ghost use Rattle.toml.specs.View.{table_view};
ghost use Rattle.plan_file.specs.Kinds.BootParam.{HoldsBootChange, HoldsBootParam};

use record_base::{BootChange, SetBootParam};
use text_fields::range::{boot_change, parameter_in};
use text_fields::tree::in_field;
use text_fields::{Checked, Field, Need, Row, Shape};

/// The fields of a step that sets a boot parameter.
pub const FIELDS: [Row; 3] = [
    Row(Field::Param, Shape::Number(3, 5), Need::Always),
    Row(Field::Invalid, Shape::Flag, Need::Always),
    Row(Field::BootData, Shape::BootData, Need::Never),
];

/// What the step makes of a boot parameter's data. Without data they stay.
fn boot_data(step: &Checked<'_>) -> BootChange
    requires { step.now.rows.now ≡ FIELDS }
    ensures { HoldsBootChange (table_view step.now.table.now) result }
{
    let parameter = parameter_in(step.table).unwrap();
    match in_field(step.table, Field::BootData) {
        Some(value) => boot_change(parameter, value).unwrap(),
        None => BootChange::MarkAlone(parameter),
    }
}

/// What the step makes of a boot parameter.
pub fn read(step: &Checked<'_>) -> SetBootParam
    requires { step.now.rows.now ≡ FIELDS }
    ensures { HoldsBootParam (table_view step.now.table.now) result }
{
    SetBootParam {
        invalid: step.flag(Field::Invalid),
        change: boot_data(step),
    }
}
