//! The step that sets what a user may do on a channel.
ghost use Rattle.std.specs.Prelude.{◌≡◌, ◌<◌, ◌≤◌, ◌/◌, ◌%◌};
ghost use Rattle.toml.specs.View.{table_view};
ghost use Rattle.text_fields.specs.Trees.{flag_in, HasNumber};
ghost use Rattle.plan_file.specs.Kinds.UserAccess.{bit_of, access_bits, HoldsUserAccess};

use record_base::SetUserAccess;
use text_fields::tree::{byte_in, in_field};
use text_fields::{Checked, Field, Need, Row, Shape};
use toml::Table;

/// The fields of a step that sets what a user may do on a channel.
pub const FIELDS: [Row; 6] = [
    Row(Field::Channel, Shape::Number(0, 15), Need::Always),
    Row(Field::User, Shape::Number(1, 63), Need::Always),
    Row(Field::Limit, Shape::UserLimit, Need::Always),
    Row(Field::Callback, Shape::Flag, Need::WithBits),
    Row(Field::Link, Shape::Flag, Need::WithBits),
    Row(Field::Messaging, Shape::Flag, Need::WithBits),
];

/// 1 where the step has `true` in the field.
fn bit(step: &Table, field: Field) -> u8
    ensures few { result ≤ 1 }
    ensures value { result ≡ bit_of (flag_in field (table_view step.now)) }
{
    match in_field(step, field) {
        Some(value) => match value.as_bool() {
            Some(flag) => u8::from(flag),
            None => 0,
        },
        None => 0,
    }
}

/// What the step says of callback, link and messages: that they change, where it has them, and each.
fn bits(step: &Table) -> u8
    ensures few { result < 16 }
    ensures value { result ≡ access_bits (table_view step.now) }
{
    let change = if in_field(step, Field::Callback).is_some() {
        8
    } else {
        0
    };
    let callback = bit(step, Field::Callback);
    let link = bit(step, Field::Link);
    change + (4 * callback + (2 * link + bit(step, Field::Messaging)))
}

/// The first byte of the request that the step asks for.
fn first(step: &Checked<'_>) -> u8
    requires { step.now.rows.now ≡ FIELDS }
    ensures channel { HasNumber Field.Channel (table_view step.now.table.now) (result % 16) }
    ensures bits { result / 16 ≡ access_bits (table_view step.now.table.now) }
{
    bits(step.table) * 16 + step.byte(Field::Channel)
}

/// What the step makes of what a user may do on a channel.
pub fn read(step: &Checked<'_>) -> SetUserAccess
    requires { step.now.rows.now ≡ FIELDS }
    ensures { HoldsUserAccess (table_view step.now.table.now) result }
{
    SetUserAccess {
        first: first(step),
        user: step.byte(Field::User),
        limit: byte_in(step.table, Field::Limit),
        session_limit: None,
    }
}
