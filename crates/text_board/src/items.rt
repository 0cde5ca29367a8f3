//! The items of an array of a file, of which no two have one number.
ghost use Rattle.std.specs.Prelude.{◌≡◌, ◌≤◌, ◌==◌, ℕ, List, [], true, false, Some, IfOk, IfErr, length, map};
ghost use Rattle.std.specs.List.{list_all, list_any, AllZip};
ghost use Rattle.record_base.specs.Distinct.{NamesDiffer};
ghost use Rattle.toml.specs.Data.{Members};
ghost use Rattle.toml.specs.View.{view, table_view};
ghost use Rattle.text_fields.specs.declared.field.Field.{Field};
ghost use Rattle.text_fields.specs.declared.row.Row.{Row};
ghost use Rattle.text_fields.specs.Trees.{number_in, table_of};
ghost use Rattle.text_fields.specs.Ranges.{is_table};
ghost use Rattle.text_fields.specs.Faults.{field_faults};
ghost use Rattle.text_board.specs.declared.fault.Item.{Item};
ghost use Rattle.text_board.specs.Faults.{item_faults, own_faults, IsFirstFault};
ghost use Rattle.text_board.specs.Items.{InTable, IsNextFault};

use crate::fault::{FileFault, Item, Place};
use cfg_records::{Distinct, Numbered};
use record_base::distinct::is_taken;
use std::alloc::Global;
use text_fields::{Field, Row};
use toml::{Table, Value};

/// How the items of one array of a file are read.
pub trait ArrayReader {
    /// What a table of the array is.
    type Entry: Numbered + Drop;

    /// The item of the file that the table at a place is.
    ghost item_at: { ℕ → Item };

    /// The fields of an item that is this table.
    ghost rows: { Self → Members → List Row };

    /// The field that has the item's number.
    ghost named: { Field };

    /// The table holds the item.
    ghost holds: { Members → Self.Entry → Type 0 };

    /// Where a number stands that an item before has too.
    fn number_place(place: usize) -> Place
        ensures { result ≡ record { item = item_at place; field = named } };

    /// The item that the table at this place is.
    fn read(&self, alloc: Global, place: usize, table: &Table) -> Result<Self::Entry, FileFault>
        ensures sound { IfOk result (λ _.
            field_faults (rows self.now (table_view table.now)) (table_view table.now) ≡ []) }
        ensures held { IfOk result (holds (table_view table.now)) }
        ensures err { IfErr result (IsFirstFault
            (own_faults (item_at place) (rows self.now) (table_view table.now))) };

    /// An item has its number from the field.
    ghost numbered: { (tree : Members) (entry : Self.Entry) → holds tree entry
        → number_in named tree ≡ Some (Self.Entry.number_of entry) };
}

/// The item that the value is, behind those before it.
fn next_item<R: ArrayReader>(
    reader: &R,
    alloc: Global,
    before: &[R::Entry],
    value: &Value,
) -> Result<R::Entry, FileFault>
    requires { is_table (view value.now) ≡ true }
    ensures sound { IfOk result (λ _. field_faults
        (R.rows reader.now (table_of (view value.now))) (table_of (view value.now)) ≡ []) }
    ensures held { IfOk result (InTable R.holds (view value.now)) }
    ensures fresh { IfOk result (λ item. list_any
        (λ other. R.Entry.number_of other == R.Entry.number_of item) before.now ≡ false) }
    ensures err { IfErr result (IsNextFault (InTable R.holds)
        R.item_at (R.rows reader.now) R.named before.now (view value.now)) }
{
    let table = value.as_table().unwrap();
    let item = reader.read(alloc, before.len(), table)?;
    if is_taken(before, item.number()) {
        return Err(FileFault::Twice(R::number_place(before.len())));
    }
    Ok(item)
}

/// The items that these tables are, up to the first fault.
pub fn items_of<R: ArrayReader>(
    reader: &R,
    alloc: Global,
    values: &[Value],
) -> Result<Vec<R::Entry>, FileFault>
    requires { list_all (λ value. is_table (view value)) values.now ≡ true }
    ensures sound { IfOk result (λ _.
        item_faults R.item_at (R.rows reader.now) R.named [] (map view values.now) ≡ []) }
    ensures held { IfOk result (λ items.
        AllZip (InTable R.holds) (map view values.now) items.items) }
    ensures differ { IfOk result (λ items. NamesDiffer R.Entry.number_of items.items) }
    ensures err { IfErr result (IsFirstFault
        (item_faults R.item_at (R.rows reader.now) R.named [] (map view values.now))) }
{
    let mut items = Vec::new(alloc);
    for value in values {
        let item = next_item(reader, alloc, items.as_slice(), value)?;
        match items.push(item) {
            Ok(()) => {}
            Err(_) => return Err(FileFault::Memory),
        }
    }
    Ok(items)
}

/// The items that these tables are, in a list that says what they are, or their first fault.
pub fn distinct_items<R: ArrayReader, const MOST: usize>(
    reader: &R,
    alloc: Global,
    values: &[Value],
) -> Result<Distinct<R::Entry, MOST>, FileFault>
    requires tables { list_all (λ value. is_table (view value)) values.now ≡ true }
    requires few { length values.now ≤ MOST }
    ensures sound { IfOk result (λ _.
        item_faults R.item_at (R.rows reader.now) R.named [] (map view values.now) ≡ []) }
    ensures held { IfOk result (λ items.
        AllZip (InTable R.holds) (map view values.now) items.items) }
    ensures err { IfErr result (IsFirstFault
        (item_faults R.item_at (R.rows reader.now) R.named [] (map view values.now))) }
{
    let items = items_of(reader, alloc, values)?;
    Ok(Distinct::new(items).unwrap())
}
