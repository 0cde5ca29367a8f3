//! A table of a file that has no fault in its fields.
ghost use Rattle.std.specs.Prelude.{◌≡◌, ◌≤◌, [], true, Some, IfOk, IfErr, length, map};
ghost use Rattle.std.specs.List.{list_all};
ghost use Rattle.toml.specs.View.{view, table_view};
ghost use Rattle.text_fields.specs.declared.row.Shape.TheVariants as shape;
ghost use Rattle.text_fields.specs.Trees.{in_field, members, or_none, members_in, numbers_in, table_in, HasNumber, HasFlag};
ghost use Rattle.text_fields.specs.Ranges.{is_in_range, has_type, is_table};
ghost use Rattle.text_fields.specs.Faults.{field_faults, first};
ghost use Rattle.text_fields.specs.CheckedRows.{row_of, is_always_there, shape_of, is_number, is_natural, least_of, most_of, is_array, most_tables};
ghost use Rattle.text_fields.specs.Attributes.{text_in};

use crate::attributes::text_in;
use crate::check::first_fault;
use crate::fault::FieldFault;
use crate::field::Field;
use crate::row::Row;
use crate::tree::{
    byte_in, flag, members_in, number, number_in, pair_in, table_in, value_in, word_in,
};
use record_base::Text;
use toml::{Table, Value};

/// A table that has no fault in the fields of these rows.
#[derive(Drop)]
pub struct Checked<'a> {
    pub rows: &'a [Row],
    pub table: &'a Table,
    pub ghost sound: { field_faults rows.now (table_view table.now) ≡ [] },
}

impl<'a> Checked<'a> {
    /// The table where its fields have no fault, or else the first.
    pub fn new(rows: &'a [Row], table: &'a Table) -> Result<Checked<'a>, FieldFault>
        ensures rows { IfOk result (λ item. item.rows.now ≡ rows.now) }
        ensures ok { IfOk result (λ item. table_view item.table.now ≡ table_view table.now) }
        ensures sound { IfOk result (λ _. field_faults rows.now (table_view table.now) ≡ []) }
        ensures err { IfErr result
            (λ why. first (field_faults rows.now (table_view table.now)) ≡ Some why) }
    {
        match first_fault(rows, table) {
            Some(fault) => Err(fault),
            None => Ok(Checked { rows, table }),
        }
    }

    /// The table, which is known to have no fault in its fields.
    pub fn known(rows: &'a [Row], table: &'a Table) -> Checked<'a>
        requires { field_faults rows.now (table_view table.now) ≡ [] }
        ensures rows { result.rows.now ≡ rows.now }
        ensures table { table_view result.table.now ≡ table_view table.now }
    {
        Checked { rows, table }
    }

    /// The value in the field, which each item has.
    pub fn value(&self, field: Field) -> &'a Value
        requires { is_always_there (row_of field self.now.rows.now) ≡ true }
        ensures found { in_field field (table_view self.now.table.now) ≡ Some (view result.now) }
        ensures listed { members_in field (table_view self.now.table.now)
            ≡ or_none (members (view result.now)) }
        ensures typed { has_type (shape_of (row_of field self.now.rows.now)) (view result.now)
            ≡ true }
        ensures within { is_in_range (table_view self.now.table.now)
            (shape_of (row_of field self.now.rows.now)) (view result.now) ≡ true }
    {
        value_in(self.table, field)
    }

    /// The number in the field, which each item has.
    pub fn number(&self, field: Field) -> u32
        requires { is_number 0xFFFFFFFF (row_of field self.now.rows.now) ≡ true }
        ensures held { HasNumber field (table_view self.now.table.now) result }
        ensures least { least_of (row_of field self.now.rows.now) ≤ result }
        ensures most { result ≤ most_of (row_of field self.now.rows.now) }
    {
        number_in(self.table, field)
    }

    /// The byte in the field, which each item has.
    pub fn byte(&self, field: Field) -> u8
        requires { is_number 255 (row_of field self.now.rows.now) ≡ true }
        ensures held { HasNumber field (table_view self.now.table.now) result }
        ensures least { least_of (row_of field self.now.rows.now) ≤ result }
        ensures most { result ≤ most_of (row_of field self.now.rows.now) }
    {
        byte_in(self.table, field)
    }

    /// The number of two bytes in the field, which each item has.
    pub fn word(&self, field: Field) -> u16
        requires { is_number 65535 (row_of field self.now.rows.now) ≡ true }
        ensures held { HasNumber field (table_view self.now.table.now) result }
        ensures least { least_of (row_of field self.now.rows.now) ≤ result }
        ensures most { result ≤ most_of (row_of field self.now.rows.now) }
    {
        word_in(self.table, field)
    }

    /// The natural number in the field, which each item has.
    pub fn natural(&self, field: Field) -> u64
        requires { is_natural (row_of field self.now.rows.now) ≡ true }
        ensures { HasNumber field (table_view self.now.table.now) result }
    {
        number(self.table, field).unwrap()
    }

    /// The text in the field, which each item has.
    pub fn text(&self, field: Field) -> Text
        requires always { is_always_there (row_of field self.now.rows.now) ≡ true }
        requires text { shape_of (row_of field self.now.rows.now) ≡ shape.ShortText }
        ensures { text_in field (table_view self.now.table.now) ≡ Some result }
    {
        text_in(self.table, field)
    }

    /// The flag in the field, which each item has.
    pub fn flag(&self, field: Field) -> bool
        requires always { is_always_there (row_of field self.now.rows.now) ≡ true }
        requires flag { shape_of (row_of field self.now.rows.now) ≡ shape.Flag }
        ensures { HasFlag field (table_view self.now.table.now) result }
    {
        flag(self.table, field)
    }

    /// The two bytes in the field's list, which each item has.
    pub fn pair(&self, field: Field) -> [u8; 2]
        requires always { is_always_there (row_of field self.now.rows.now) ≡ true }
        requires pair { shape_of (row_of field self.now.rows.now) ≡ shape.Pair }
        ensures { numbers_in 2 field (table_view self.now.table.now) ≡ Some result }
    {
        pair_in(self.table, field)
    }

    /// The table in the field, which each item has.
    pub fn table(&self, field: Field) -> &'a Table
        requires always { is_always_there (row_of field self.now.rows.now) ≡ true }
        requires table { shape_of (row_of field self.now.rows.now) ≡ shape.Table }
        ensures { table_view result.now ≡ table_in field (table_view self.now.table.now) }
    {
        table_in(self.table, field)
    }

    /// The tables of the array in the field, none where an item lacks it.
    pub fn tables(&self, field: Field) -> &'a [Value]
        requires { is_array (row_of field self.now.rows.now) ≡ true }
        ensures held { map view result.now ≡ members_in field (table_view self.now.table.now) }
        ensures tables { list_all (λ value. is_table (view value)) result.now ≡ true }
        ensures few { length result.now ≤ most_tables (row_of field self.now.rows.now) }
    {
        members_in(self.table, field)
    }
}
