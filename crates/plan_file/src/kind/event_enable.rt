//! The step that sets which events are enabled.
ghost use Rattle.std.specs.Prelude.{◌≡◌, ◌||◌, ℕ, true};
ghost use Rattle.toml.specs.View.{table_view, view};
ghost use Rattle.std.specs.List.{list_all, list_any};
ghost use Rattle.record_base.specs.Masks.{has};
ghost use Rattle.text_fields.specs.Ranges.{is_offset, is_number};
ghost use Rattle.plan_file.specs.Kinds.EventEnable.{HoldsEvents, HoldsChange, HoldsEventEnable};

use record_base::{EventChange, EventMasks, SetEventEnable};
use text_fields::tree::{has_text, members_in, natural};
use text_fields::{BYTE, Checked, Field, Need, Row, Shape};
use toml::Value;

/// The fields of a step that sets which events are enabled.
pub const FIELDS: [Row; 6] = [
    Row(Field::Sensor, BYTE, Need::Always),
    Row(Field::Messages, Shape::Flag, Need::Always),
    Row(Field::Scanning, Shape::Flag, Need::Always),
    Row(Field::Select, Shape::Select, Need::Always),
    Row(Field::Assert, Shape::Offsets, Need::UnlessLeave),
    Row(Field::Deassert, Shape::Offsets, Need::UnlessLeave),
];

/// The mask, with the event besides whose offset the value is.
fn with_event(mask: u16, offset: &Value) -> u16
    requires { is_offset (view offset.now) ≡ true }
    ensures { (other : ℕ)
        → has result other ≡ (has mask other || is_number other (view offset.now)) }
{
    mask | 1 << natural(offset).unwrap()
}

/// The mask of these events.
fn mask_of(offsets: &[Value]) -> u16
    requires { list_all (λ value. is_offset (view value)) offsets.now ≡ true }
    ensures { (offset : ℕ)
        → has result offset ≡ list_any (λ value. is_number offset (view value)) offsets.now }
{
    let mut mask = 0;
    for offset in offsets {
        mask = with_event(mask, offset);
    }
    mask
}

/// The events that the step lists.
fn events(step: &Checked<'_>) -> EventMasks
    requires { step.now.rows.now ≡ FIELDS }
    ensures { HoldsEvents (table_view step.now.table.now) result }
{
    EventMasks {
        assertions: mask_of(members_in(step.table, Field::Assert)),
        deassertions: mask_of(members_in(step.table, Field::Deassert)),
    }
}

/// What the step makes of the events that are enabled.
fn event_change(step: &Checked<'_>) -> EventChange
    requires { step.now.rows.now ≡ FIELDS }
    ensures { HoldsChange (table_view step.now.table.now) result }
{
    if has_text(step.table, Field::Select, "leave") {
        return EventChange::Leave;
    }
    if has_text(step.table, Field::Select, "enable") {
        return EventChange::Enable(events(step));
    }
    EventChange::Disable(events(step))
}

/// What the step makes of a sensor's events.
pub fn read(step: &Checked<'_>) -> SetEventEnable
    requires { step.now.rows.now ≡ FIELDS }
    ensures { HoldsEventEnable (table_view step.now.table.now) result }
{
    SetEventEnable {
        sensor: step.byte(Field::Sensor),
        messages: step.flag(Field::Messages),
        scanning: step.flag(Field::Scanning),
        change: event_change(step),
    }
}
