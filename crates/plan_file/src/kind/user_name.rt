//! The step that sets the name of a user.
ghost use Rattle.std.specs.Prelude.{◌≡◌};
ghost use Rattle.toml.specs.View.{table_view};
ghost use Rattle.plan_file.specs.Kinds.UserName.{HoldsUserName};

use record_base::SetUserName;
use text_fields::users::name;
use text_fields::{Checked, Field, Need, Row, Shape};

/// The fields of a step that sets the name of a user.
pub const FIELDS: [Row; 2] = [
    Row(Field::User, Shape::Number(1, 63), Need::Always),
    Row(Field::NameText, Shape::Name, Need::Always),
];

/// What the step makes of the name of a user.
pub fn read(step: &Checked<'_>) -> SetUserName
    requires { step.now.rows.now ≡ FIELDS }
    ensures { HoldsUserName (table_view step.now.table.now) result }
{
    SetUserName {
        user: step.byte(Field::User),
        name: name(step.value(Field::NameText)).unwrap(),
    }
}
