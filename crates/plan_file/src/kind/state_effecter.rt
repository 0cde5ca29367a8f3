//! The step that sets states of a state effecter.
ghost use Rattle.std.specs.Prelude.{◌≡◌, ◌≤◌, true, is_some, map, length};
ghost use Rattle.toml.specs.View.{table_view, view};
ghost use Rattle.std.specs.List.{list_all, AllZip};
ghost use Rattle.record_base.specs.BoardSizes.{most_state_fields};
ghost use Rattle.text_fields.specs.States.{change_of};
ghost use Rattle.plan_file.specs.Kinds.StateEffecter.{IsChangeIn, HoldsStateEffecter};

use record_base::{FieldChanges, SetStateEffecter};
use text_fields::states::change_of;
use text_fields::tree::members_of;
use text_fields::{Checked, Field, Need, Row, Shape};
use toml::Value;

/// The fields of a step that sets states of a state effecter.
pub const FIELDS: [Row; 2] = [
    Row(Field::Effecter, Shape::Number(0, 0xFFFF), Need::Always),
    Row(Field::States, Shape::StateChanges, Need::Always),
];

/// What becomes of each field, as these values say.
fn changes_of(values: &[Value]) -> FieldChanges
    requires few { length values.now ≤ most_state_fields }
    requires changes { list_all (λ d. is_some (change_of d)) (map view values.now) ≡ true }
    ensures held { AllZip IsChangeIn (map view values.now) result }
    ensures few { length result ≤ most_state_fields }
{
    let mut changes = FieldChanges::new();
    for value in values {
        changes.push(change_of(value).unwrap());
    }
    changes
}

/// What the step makes of the states of a state effecter.
pub fn read(step: &Checked<'_>) -> SetStateEffecter
    requires { step.now.rows.now ≡ FIELDS }
    ensures { HoldsStateEffecter (table_view step.now.table.now) result }
{
    SetStateEffecter {
        effecter: step.word(Field::Effecter),
        changes: changes_of(members_of(step.value(Field::States))),
    }
}
