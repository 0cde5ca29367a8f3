//! The first fault of the fields of a table.
ghost use Rattle.std.specs.Prelude.{◌≡◌, find};
ghost use Rattle.toml.specs.View.{table_view};
ghost use Rattle.text_fields.specs.Faults.{is_missing, is_mistyped, is_beyond, field_faults, first};

use crate::fault::FieldFault;
use crate::row::Row;
use crate::tree::in_field;
use toml::Table;

impl Row {
    /// Whether the item lacks the field and needs it.
    fn is_missing(&self, item: &Table) -> bool
        ensures { result ≡ is_missing (table_view item.now) self.now }
    {
        self.2.is_needed(item) && in_field(item, self.0).is_none()
    }

    /// Whether the item has a value of another type in the field.
    fn is_mistyped(&self, item: &Table) -> bool
        ensures { result ≡ is_mistyped (table_view item.now) self.now }
    {
        match in_field(item, self.0) {
            Some(value) => !self.1.has_type(value),
            None => false,
        }
    }

    /// Whether the item has a value in the field that it can't have.
    fn is_beyond(&self, item: &Table) -> bool
        ensures { result ≡ is_beyond (table_view item.now) self.now }
    {
        match in_field(item, self.0) {
            Some(value) => !self.1.is_in_range(item, value),
            None => false,
        }
    }
}

/// The first field that the item lacks.
fn missing(rows: &[Row], item: &Table) -> Option<Row>
    ensures { result ≡ find (is_missing (table_view item.now)) rows.now }
{
    rows.iter().copied().find(|row| row.is_missing(item))
}

/// The first field in which the item has a value of another type.
fn mistyped(rows: &[Row], item: &Table) -> Option<Row>
    ensures { result ≡ find (is_mistyped (table_view item.now)) rows.now }
{
    rows.iter().copied().find(|row| row.is_mistyped(item))
}

/// The first field in which the item has a value that it can't have.
fn beyond(rows: &[Row], item: &Table) -> Option<Row>
    ensures { result ≡ find (is_beyond (table_view item.now)) rows.now }
{
    rows.iter().copied().find(|row| row.is_beyond(item))
}

/// The first fault of an item's fields.
pub fn first_fault(rows: &[Row], item: &Table) -> Option<FieldFault>
    ensures { result ≡ first (field_faults rows.now (table_view item.now)) }
{
    if let Some(row) = missing(rows, item) {
        return Some(FieldFault::Missing(row.0));
    }
    if let Some(row) = mistyped(rows, item) {
        return Some(FieldFault::WrongType(row.0));
    }
    if let Some(row) = beyond(rows, item) {
        return Some(FieldFault::Range(row.0));
    }
    None
}
