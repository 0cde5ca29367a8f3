//! The first fault of the fields of an item of a board file.
ghost use Rattle.std.specs.Prelude.{◌≡◌, [], Some, IfOk, IfErr, OnOk};
ghost use Rattle.toml.specs.View.{table_view};
ghost use Rattle.text_fields.specs.Faults.{field_faults, first};
ghost use Rattle.text_board.specs.Faults.{fault_at, own_faults};

use crate::fault::{FileFault, Item, Place};
use text_fields::{Checked, FieldFault, Row, first_fault};
use toml::Table;

/// The fault, in an item of a board file.
fn of_item(fault: FieldFault, item: Item) -> FileFault
    ensures { result ≡ fault_at item fault }
{
    match fault {
        FieldFault::Missing(field) => FileFault::Missing(Place { item, field }),
        FieldFault::WrongType(field) => FileFault::WrongType(Place { item, field }),
        FieldFault::Range(field) => FileFault::Range(Place { item, field }),
    }
}

/// The table of an item of a board file where the fields of these rows have no fault, or else the first.
pub fn checked<'a>(item: Item, rows: &'a [Row], table: &'a Table) -> Result<Checked<'a>, FileFault>
    ensures rows { IfOk result (λ known. known.rows.now ≡ rows.now) }
    ensures ok { IfOk result (λ known. table_view known.table.now ≡ table_view table.now) }
    ensures sound { IfOk result (λ _. field_faults rows.now (table_view table.now) ≡ []) }
    ensures err { IfErr result (λ why.
        first (own_faults item (λ _. rows.now) (table_view table.now)) ≡ Some why) }
{
    match Checked::new(rows, table) {
        Ok(known) => Ok(known),
        Err(fault) => Err(of_item(fault, item)),
    }
}

/// The first fault of the fields of an item of a board file, if there is one.
pub fn check(item: Item, rows: &[Row], table: &Table) -> Result<(), FileFault>
    ensures ok { OnOk result (field_faults rows.now (table_view table.now) ≡ []) }
    ensures err { IfErr result (λ why.
        first (own_faults item (λ _. rows.now) (table_view table.now)) ≡ Some why) }
{
    match first_fault(rows, table) {
        Some(fault) => Err(of_item(fault, item)),
        None => Ok(()),
    }
}
