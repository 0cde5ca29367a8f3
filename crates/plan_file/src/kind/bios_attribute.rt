//! The step that sets the value of a BIOS attribute.
ghost use Rattle.std.specs.Prelude.{◌≡◌, ◌≤◌, true, length, None, is_some};
ghost use Rattle.toml.specs.View.{table_view};
ghost use Rattle.record_base.specs.AttributeSizes.{most_sent};
ghost use Rattle.record_base.specs.AttributeValue.{value_bytes};
ghost use Rattle.text_fields.specs.Trees.{in_field};
ghost use Rattle.plan_file.specs.Kinds.BiosAttribute.{GivesValue, HoldsBiosAttribute};

use record_base::attribute_sizes::MOST_SENT;
use record_base::{AttributeValue, SetBiosAttribute};
use text_fields::attributes::{indexes_of, string_in};
use text_fields::tree::{in_field, members_in, number};
use text_fields::{Checked, Field, Need, Row, Shape};
use two_wire::{Bytes, Data};

/// The fields of a step that sets the value of a BIOS attribute: one of the last three.
pub const FIELDS: [Row; 4] = [
    Row(Field::Handle, Shape::Number(0, 0xFFFF), Need::Always),
    Row(Field::Indexes, Shape::FewIndexes, Need::WithoutValue),
    Row(Field::Text, Shape::AttributeText, Need::Never),
    Row(Field::Number, Shape::Natural, Need::Never),
];

/// The change of the step's attribute to this value, which is written to `room`.
fn set_to<'v>(
    step: &Checked<'_>,
    value: &AttributeValue<'_>,
    room: &'v mut Bytes<{ MOST_SENT }>,
) -> SetBiosAttribute<'v>
    requires rows { step.now.rows.now ≡ FIELDS }
    requires given { GivesValue (table_view step.now.table.now) value.now }
    requires few { length (value_bytes value.now) ≤ most_sent }
    ensures { HoldsBiosAttribute (table_view step.now.table.now) result }
{
    room.replace(&[]);
    value.write(room);
    SetBiosAttribute {
        attribute: step.word(Field::Handle),
        attribute_type: value.type_code(),
        value: Data::new(room.as_slice()),
    }
}

/// The change of the step's attribute to the indexes that the step lists.
fn set_indexes<'v>(step: &Checked<'_>, room: &'v mut Bytes<{ MOST_SENT }>) -> SetBiosAttribute<'v>
    requires rows { step.now.rows.now ≡ FIELDS }
    requires given { is_some (in_field Field.Indexes (table_view step.now.table.now)) ≡ true }
    ensures { HoldsBiosAttribute (table_view step.now.table.now) result }
{
    let indexes = indexes_of(members_in(step.table, Field::Indexes));
    let value = AttributeValue::Indexes(Data::new(indexes.as_slice()));
    set_to(step, &value, room)
}

/// The change of the step's attribute to the text that the step gives.
fn set_text<'v>(step: &Checked<'_>, room: &'v mut Bytes<{ MOST_SENT }>) -> SetBiosAttribute<'v>
    requires rows { step.now.rows.now ≡ FIELDS }
    requires first { in_field Field.Indexes (table_view step.now.table.now) ≡ None }
    requires given { is_some (in_field Field.Text (table_view step.now.table.now)) ≡ true }
    ensures { HoldsBiosAttribute (table_view step.now.table.now) result }
{
    let text = string_in(step.table, Field::Text);
    let value = AttributeValue::Text(Data::new(text));
    set_to(step, &value, room)
}

/// The change of the step's attribute to the number that the step gives.
fn set_number<'v>(step: &Checked<'_>, room: &'v mut Bytes<{ MOST_SENT }>) -> SetBiosAttribute<'v>
    requires rows { step.now.rows.now ≡ FIELDS }
    requires first { in_field Field.Indexes (table_view step.now.table.now) ≡ None }
    requires second { in_field Field.Text (table_view step.now.table.now) ≡ None }
    ensures { HoldsBiosAttribute (table_view step.now.table.now) result }
{
    let number = number(step.table, Field::Number).unwrap();
    set_to(step, &AttributeValue::Number(number), room)
}

/// What the step makes of the value of an attribute. The value is written to `room`.
pub fn read<'v>(step: &Checked<'_>, room: &'v mut Bytes<{ MOST_SENT }>) -> SetBiosAttribute<'v>
    requires { step.now.rows.now ≡ FIELDS }
    ensures { HoldsBiosAttribute (table_view step.now.table.now) result }
{
    if in_field(step.table, Field::Indexes).is_some() {
        return set_indexes(step, room);
    }
    if in_field(step.table, Field::Text).is_some() {
        return set_text(step, room);
    }
    set_number(step, room)
}
