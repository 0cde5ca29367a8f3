//! The numeric effecters of a board file.
ghost use Rattle.std.specs.Prelude.{◌≡◌, [], IfOk, IfErr};
ghost use Rattle.std.specs.List.{AllZip};
ghost use Rattle.toml.specs.View.{table_view};
ghost use Rattle.text_fields.specs.Trees.{members_in};
ghost use Rattle.text_board.specs.Faults.{numeric_faults, IsFirstFault};
ghost use Rattle.text_board.specs.Holds.{HoldsRange, HoldsNumeric, IsNumericIn};

use crate::check::checked;
use crate::fault::{FileFault, Item, Place};
use crate::items::{ArrayReader, distinct_items};
use crate::tables::{NUMERIC, TOP};
use record_base::{NumericEffecter, NumericEffecters, NumericRange};
use std::alloc::Global;
use text_fields::numeric::{size_in, sized_in};
use text_fields::{Checked, Field};
use toml::Table;

/// The operational state of an effecter that is enabled.
pub const ENABLED: u8 = 1;

/// The numbers that the effecter, which the table is, can be set to.
fn range(item: &Checked<'_>) -> NumericRange
    requires { item.now.rows.now ≡ NUMERIC }
    ensures { HoldsRange (table_view item.now.table.now) result }
{
    let size = size_in(item.table).unwrap();
    let lower = sized_in(item.table, size, Field::Lower).unwrap();
    let upper = sized_in(item.table, size, Field::Upper).unwrap();
    NumericRange::new(size, lower, upper).unwrap()
}

/// The numeric effecter that the table is.
fn numeric_effecter(item: &Checked<'_>) -> NumericEffecter
    requires { item.now.rows.now ≡ NUMERIC }
    ensures { HoldsNumeric (table_view item.now.table.now) result }
{
    let id = item.word(Field::Id);
    let enabled = item.byte(Field::Operational) == ENABLED;
    let range = range(item);
    let current = sized_in(item.table, range.size, Field::Current).unwrap();
    NumericEffecter::new(id, enabled, range, current).unwrap()
}

/// How numeric effecters are read.
#[derive(Drop)]
struct NumericReader;

impl ArrayReader for NumericReader {
    type Entry = NumericEffecter;

    ghost use Rattle.text_fields.specs.declared.field.Field.TheVariants as field;
    ghost use Rattle.text_board.specs.declared.fault.Item.TheVariants as item;
    ghost use Rattle.text_board.specs.declared.tables.TheConstants.{NUMERIC};

    ghost item_at = { item.Numeric };

    ghost rows = { λ _ _. NUMERIC };

    ghost named = { field.Id };

    ghost holds = { HoldsNumeric };

    ghost numbered = { λ tree effecter held. held.numbered };

    fn number_place(place: usize) -> Place {
        Place {
            item: Item::Numeric(place),
            field: Field::Id,
        }
    }

    fn read(
        &self,
        _alloc: Global,
        place: usize,
        table: &Table,
    ) -> Result<NumericEffecter, FileFault> {
        let item = checked(Item::Numeric(place), &NUMERIC, table)?;
        Ok(numeric_effecter(&item))
    }
}

/// The numeric effecters of the file.
pub fn numeric_effecters(alloc: Global, top: &Checked<'_>) -> Result<NumericEffecters, FileFault>
    requires { top.now.rows.now ≡ TOP }
    ensures sound { IfOk result (λ _.
        numeric_faults (members_in Field.Numeric (table_view top.now.table.now)) ≡ []) }
    ensures held { IfOk result (λ effecters. AllZip IsNumericIn
        (members_in Field.Numeric (table_view top.now.table.now)) effecters.items) }
    ensures err { IfErr result (IsFirstFault
        (numeric_faults (members_in Field.Numeric (table_view top.now.table.now)))) }
{
    distinct_items(&NumericReader, alloc, top.tables(Field::Numeric))
}
