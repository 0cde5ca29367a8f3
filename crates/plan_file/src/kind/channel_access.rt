//! The step that sets the access of a channel in one of its stores.
ghost use Rattle.std.specs.Prelude.{◌≡◌};
ghost use Rattle.toml.specs.View.{table_view};
ghost use Rattle.text_fields.specs.Trees.{HasNumber, HasBelow};
ghost use Rattle.plan_file.specs.Kinds.ChannelAccess.{HoldsChannelChange, HoldsChannelAccess};

use record_base::user_sizes::{LEAST_PRIVILEGE, MOST_PRIVILEGE};
use record_base::{ChannelChange, ChannelNumber, SetChannelAccess, SixBits};
use text_fields::channels::store;
use text_fields::tree::{byte_in, in_field};
use text_fields::{Checked, Field, Need, Row, Shape};
use toml::Table;

/// The fields of a step that sets the access of a channel in one of its stores.
pub const FIELDS: [Row; 4] = [
    Row(Field::Channel, Shape::Number(0, 15), Need::Always),
    Row(Field::Store, Shape::Store, Need::Always),
    Row(Field::Access, Shape::Access, Need::WithoutLimit),
    Row(
        Field::Limit,
        Shape::Number(LEAST_PRIVILEGE as u32, MOST_PRIVILEGE as u32),
        Need::Never,
    ),
];

/// The bits that the step has in the field.
fn six_bits(step: &Table, field: Field) -> SixBits
    requires { HasBelow 64 field (table_view step.now) }
    ensures { HasNumber field (table_view step.now) result.number }
{
    SixBits::of(byte_in(step, field))
}

/// Which of a channel's access and limit the step changes: those that it gives.
fn channel_change(step: &Checked<'_>) -> ChannelChange
    requires { step.now.rows.now ≡ FIELDS }
    ensures { HoldsChannelChange (table_view step.now.table.now) result }
{
    if in_field(step.table, Field::Limit).is_none() {
        return ChannelChange::Access(six_bits(step.table, Field::Access));
    }
    let limit = six_bits(step.table, Field::Limit);
    if in_field(step.table, Field::Access).is_none() {
        return ChannelChange::Limit(limit);
    }
    ChannelChange::Both(six_bits(step.table, Field::Access), limit)
}

/// What the step makes of the access of a channel in one of its stores.
pub fn read(step: &Checked<'_>) -> SetChannelAccess
    requires { step.now.rows.now ≡ FIELDS }
    ensures { HoldsChannelAccess (table_view step.now.table.now) result }
{
    SetChannelAccess {
        channel: ChannelNumber::of(step.byte(Field::Channel)),
        store: store(step.value(Field::Store)).unwrap(),
        change: channel_change(step),
    }
}
