//! What is told of a file of TOML that is refused: its first fault, the faults of its tables, and its keys.
use crate::faults::{push_board_fault, push_plan_fault};
use crate::notes::{ARRAYS, tell_board, tell_plan};
use file_faults::{
    Group, Placed, Sheet, Source, board_faults, plan_faults, tell_faults, tell_twice,
};
use plan_file::PlanFault;
use std::alloc::{AllocError, Global};
use text_board::FileFault;
use text_fields::tree::members_in;
use toml::Table;

/// Adds where a text is no TOML, and why not.
fn push_toml_fault(alloc: Global, text: &mut String, file: &str) -> Result<(), AllocError> {
    match toml::table_from_str(alloc, file) {
        Ok(_) => text.push_str("Text\n"),
        Err(error) if error.is_memory() => Err(AllocError),
        Err(error) => {
            let whole = format!(in alloc; "{error}")?;
            let place = whole.as_str().lines().next().unwrap_or("");
            writeln!(text, "{place}: {}", error.message())
        }
    }
}

/// Whether none of the faults is of the file's own table.
fn is_own_sound(faults: &[Placed]) -> bool {
    !faults
        .iter()
        .any(|placed| matches!(placed.group, Group::Top))
}

/// How many tables of a sort are looked at in a board file that is refused.
const MOST_TABLES: usize = 1024;

/// Whether the board file has more tables of a sort.
fn is_large(tree: &Table) -> bool {
    ARRAYS.iter().any(|(_group, array)| members_in(tree, *array).len() > MOST_TABLES)
}

/// Tells of the first fault of each table of a board file.
fn tell_board_faults(
    alloc: Global,
    sheet: &mut Sheet,
    source: Source<'_>,
    tree: &Table,
) -> Result<(), AllocError> {
    if is_large(tree) {
        let name = source.name;
        return writeln!(
            sheet.text,
            "{name}: more than {MOST_TABLES} tables of a sort, so none is looked at"
        );
    }
    let faults = board_faults(alloc, tree)?;
    if is_own_sound(faults.as_slice()) {
        tell_twice(alloc, sheet, source, tree)?;
    }
    tell_faults(alloc, sheet, source, tree, faults.as_slice())
}

/// Tells of the faults of a board file that is TOML, and of its keys.
fn tell_of_board(alloc: Global, sheet: &mut Sheet, source: Source<'_>) -> Result<(), AllocError> {
    match toml::table_from_str(alloc, source.file) {
        Ok(tree) => {
            tell_board_faults(alloc, sheet, source, &tree)?;
            tell_board(alloc, sheet, source, &tree)?;
            Ok(())
        }
        Err(error) if error.is_memory() => Err(AllocError),
        Err(_) => Ok(()),
    }
}

/// Tells of the faults of a plan that is TOML, and of its keys.
fn tell_of_plan(alloc: Global, sheet: &mut Sheet, source: Source<'_>) -> Result<(), AllocError> {
    match toml::table_from_str(alloc, source.file) {
        Ok(tree) => {
            let faults = plan_faults(alloc, &tree)?;
            tell_faults(alloc, sheet, source, &tree, faults.as_slice())?;
            tell_plan(alloc, sheet, source, &tree)?;
            Ok(())
        }
        Err(error) if error.is_memory() => Err(AllocError),
        Err(_) => Ok(()),
    }
}

/// Tells that a board file is refused, of each of its tables the first fault, and its keys.
pub(crate) fn refuse_board(
    alloc: Global,
    sheet: &mut Sheet,
    source: Source<'_>,
    why: FileFault,
) -> Result<(), AllocError> {
    write!(sheet.text, "{}: board refused, ", source.name)?;
    match why {
        FileFault::Text => push_toml_fault(alloc, &mut sheet.text, source.file),
        _ => {
            push_board_fault(&mut sheet.text, why)?;
            tell_of_board(alloc, sheet, source)
        }
    }
}

/// Tells that a plan is refused, of each of its tables the first fault, and its keys.
pub(crate) fn refuse_plan(
    alloc: Global,
    sheet: &mut Sheet,
    source: Source<'_>,
    why: PlanFault,
) -> Result<(), AllocError> {
    write!(sheet.text, "{}: plan refused, ", source.name)?;
    match why {
        PlanFault::Text => push_toml_fault(alloc, &mut sheet.text, source.file),
        _ => {
            push_plan_fault(&mut sheet.text, why)?;
            tell_of_plan(alloc, sheet, source)
        }
    }
}
