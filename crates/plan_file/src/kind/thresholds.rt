//! The step that sets thresholds.
ghost use Rattle.std.specs.Prelude.{◌≡◌, ◌≤◌, ◌<◌, ◌==◌, ◌&&◌, ◌||◌, ℕ, map, Some};
ghost use Rattle.toml.specs.View.{table_view};
ghost use Rattle.record_base.specs.Masks.{has};
ghost use Rattle.text_fields.specs.Trees.{number_in};
ghost use Rattle.text_fields.specs.Ranges.{or_zero};
ghost use Rattle.plan_file.specs.Kinds.Thresholds.{is_given, HoldsThresholds};

use record_base::SetThresholds;
use text_fields::tree::{in_field, number};
use text_fields::{BYTE, Checked, Field, Need, Row};
use toml::Table;

/// The fields of a step that sets thresholds.
pub const FIELDS: [Row; 7] = [
    Row(Field::Sensor, BYTE, Need::Always),
    Row(Field::LowerNonCritical, BYTE, Need::Never),
    Row(Field::LowerCritical, BYTE, Need::Never),
    Row(Field::LowerNonRecoverable, BYTE, Need::Never),
    Row(Field::UpperNonCritical, BYTE, Need::Never),
    Row(Field::UpperCritical, BYTE, Need::Never),
    Row(Field::UpperNonRecoverable, BYTE, Need::Never),
];

/// The fields of the thresholds, each at its place in a mask.
pub const LIMITS: [Field; 6] = [
    Field::LowerNonCritical,
    Field::LowerCritical,
    Field::LowerNonRecoverable,
    Field::UpperNonCritical,
    Field::UpperCritical,
    Field::UpperNonRecoverable,
];

/// The mask, with the place besides where the step gives the threshold there.
fn with_given(mask: u8, step: &Table, place: usize) -> u8
    requires { place < 6 }
    ensures { (other : ℕ) → has result other
        ≡ (has mask other || ((place == other) && is_given (table_view step.now) place)) }
{
    if in_field(step, LIMITS[place]).is_some() {
        return mask | 1 << place;
    }
    mask
}

/// The mask of the thresholds that the step gives.
fn given(step: &Table) -> u8
    ensures { (place : ℕ) → has result place ≡ is_given (table_view step.now) place }
{
    let mut mask = 0;
    for place in 0..6 {
        mask = with_given(mask, step, place);
    }
    mask
}

/// The threshold that the step gives, 0 where it gives none.
fn limit(step: &Table, field: Field) -> u8
    requires { (n : ℕ) → number_in field (table_view step.now) ≡ Some n → n ≤ 255 }
    ensures { result ≡ or_zero (number_in field (table_view step.now)) }
{
    match number(step, field) {
        Some(number) => number as u8,
        None => 0,
    }
}

/// The thresholds that the step gives, each at its place.
fn limits(step: &Checked<'_>) -> [u8; 6]
    requires { step.now.rows.now ≡ FIELDS }
    ensures { result
        ≡ map (λ field. or_zero (number_in field (table_view step.now.table.now))) LIMITS }
{
    [
        limit(step.table, Field::LowerNonCritical),
        limit(step.table, Field::LowerCritical),
        limit(step.table, Field::LowerNonRecoverable),
        limit(step.table, Field::UpperNonCritical),
        limit(step.table, Field::UpperCritical),
        limit(step.table, Field::UpperNonRecoverable),
    ]
}

/// What the step makes of thresholds.
pub fn read(step: &Checked<'_>) -> SetThresholds
    requires { step.now.rows.now ≡ FIELDS }
    ensures { HoldsThresholds (table_view step.now.table.now) result }
{
    SetThresholds {
        sensor: step.byte(Field::Sensor),
        mask: given(step.table),
        values: limits(step),
    }
}
