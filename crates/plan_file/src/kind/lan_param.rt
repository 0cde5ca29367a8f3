//! The step that sets a LAN parameter.
ghost use Rattle.std.specs.Prelude.{◌≡◌};
ghost use Rattle.toml.specs.View.{table_view};
ghost use Rattle.plan_file.specs.Kinds.LanParam.{HoldsLanChange, HoldsLanParam};

use record_base::ChannelNumber;
use record_base::lan_parameter::{LanChange, SetLanParam};
use text_fields::lan::{lan_change, lan_parameter_in};
use text_fields::{Checked, Field, LanShape, Need, Row, Shape};

/// The fields of a step that sets a LAN parameter.
pub const FIELDS: [Row; 3] = [
    Row(Field::Channel, Shape::Number(0, 15), Need::Always),
    Row(Field::Param, Shape::Lan(LanShape::Parameter), Need::Always),
    Row(Field::BootData, Shape::Lan(LanShape::Named), Need::Always),
];

/// What becomes of a LAN parameter by the step's data.
fn change(step: &Checked<'_>) -> LanChange
    requires { step.now.rows.now ≡ FIELDS }
    ensures { HoldsLanChange (table_view step.now.table.now) result }
{
    let parameter = lan_parameter_in(step.table).unwrap();
    lan_change(parameter, step.value(Field::BootData)).unwrap()
}

/// What the step makes of a LAN parameter.
pub fn read(step: &Checked<'_>) -> SetLanParam
    requires { step.now.rows.now ≡ FIELDS }
    ensures { HoldsLanParam (table_view step.now.table.now) result }
{
    SetLanParam {
        channel: ChannelNumber::of(step.byte(Field::Channel)),
        change: change(step),
    }
}
