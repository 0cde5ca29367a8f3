//! The step that sets the power restore policy.
ghost use Rattle.std.specs.Prelude.{◌≡◌};
ghost use Rattle.toml.specs.View.{table_view};
ghost use Rattle.plan_file.specs.Kinds.PowerPolicy.{HoldsPowerPolicy};

use record_base::SetPowerPolicy;
use text_fields::{Checked, Field, Need, Row, Shape};

/// The fields of a step that sets the power restore policy.
pub const FIELDS: [Row; 1] = [Row(Field::Policy, Shape::Number(0, 2), Need::Always)];

/// What the step makes of the power restore policy.
pub fn read(step: &Checked<'_>) -> SetPowerPolicy
    requires { step.now.rows.now ≡ FIELDS }
    ensures { HoldsPowerPolicy (table_view step.now.table.now) result }
{
    SetPowerPolicy {
        policy: step.byte(Field::Policy),
    }
}
