//! What is told of the keys of a file that is TOML: those that are unknown, and those that aren't used.
ghost use Rattle.std.specs.Prelude.{◌≡◌, IfOk, map};
ghost use Rattle.std.specs.List.{list_any};
ghost use Rattle.toml.specs.View.{view, table_view};
ghost use Rattle.text_check.specs.Known.{has_one, has_unknown, is_told, is_told_at, is_told_in, is_told_arrays, is_told_device, is_told_board, is_told_plan};

use crate::faults::field_of;
use crate::keys::{is_known, push_key, unused};
use file_faults::{Group, Sheet, Source, Spot, known_rows, step_fault};
use file_words::nearest;
use plan_file::StepFault;
use std::alloc::{AllocError, Global};
use text_fields::tree::{in_field, members_in};
use text_fields::{Field, LanField, Row};
use toml::{Table, Value};

/// Whether the key is the one for which the step that the table is asks what no Get shows.
fn is_refused(spot: Spot<'_>, key: &str) -> bool {
    if !matches!(spot.group, Group::Step) {
        return false;
    }
    match step_fault(spot.table) {
        Some(StepFault::NoGet(no_get)) => field_of(no_get).word() == key,
        _ => false,
    }
}

/// Adds the line of a key that is unknown, with the field that is nearest to it.
fn push_unknown(
    alloc: Global,
    sheet: &mut Sheet,
    spot: Spot<'_>,
    rows: &[Row],
    key: &str,
) -> Result<(), AllocError> {
    if is_refused(spot, key) || !sheet.takes() {
        return Ok(());
    }
    spot.push_at(alloc, &mut sheet.text, key)?;
    sheet.text.push_str("unknown key ")?;
    push_key(&mut sheet.text, key)?;
    match nearest(rows, key) {
        Some(row) => writeln!(sheet.text, ", nearest is {}", row.0),
        None => sheet.text.push_str("\n"),
    }
}

/// Tells of the keys of the table that are unknown, and whether there is one.
fn tell_unknown(
    alloc: Global,
    sheet: &mut Sheet,
    spot: Spot<'_>,
    rows: &[Row],
) -> Result<bool, AllocError>
    ensures { IfOk result
        (λ told. told ≡ has_unknown rows.now (table_view spot.entry.table.now)) }
{
    let table = spot.table;
    let mut told = false;
    'members: for (key, _value) in table.iter() {
        let key = key.as_str();
        if !is_known(rows, key) {
            push_unknown(alloc, sheet, spot, rows, key)?;
            told = true;
        }
    }
    Ok(told)
}

/// Adds the line of a field that isn't used.
fn push_unused(
    alloc: Global,
    sheet: &mut Sheet,
    spot: Spot<'_>,
    field: Field,
) -> Result<(), AllocError> {
    if !sheet.takes() {
        return Ok(());
    }
    spot.push_at(alloc, &mut sheet.text, field.word())?;
    writeln!(sheet.text, "key {field} not used")
}

/// Tells of those of the fields that the table has, and whether there is one.
fn tell_unused(
    alloc: Global,
    sheet: &mut Sheet,
    spot: Spot<'_>,
    fields: &[Field],
) -> Result<bool, AllocError>
    ensures { IfOk result (λ told. told ≡ has_one fields.now (table_view spot.entry.table.now)) }
{
    let table = spot.table;
    let mut told = false;
    for field in fields {
        if in_field(table, *field).is_some() {
            push_unused(alloc, sheet, spot, *field)?;
            told = true;
        }
    }
    Ok(told)
}

/// Tells of the keys of a table, and whether there is something to tell.
fn tell_table(alloc: Global, sheet: &mut Sheet, spot: Spot<'_>) -> Result<bool, AllocError>
    ensures { IfOk result
        (λ told. told ≡ is_told spot.entry.group (table_view spot.entry.table.now)) }
{
    let rows = known_rows(alloc, spot.group, spot.table)?;
    let unknown = tell_unknown(alloc, sheet, spot, rows.as_slice())?;
    let unused = tell_unused(alloc, sheet, spot, unused(spot.group, spot.table))?;
    Ok(unknown || unused)
}

/// Tells of the table that the value is, at this place of those of the group.
fn tell_value(
    alloc: Global,
    sheet: &mut Sheet,
    source: Source<'_>,
    group: Group,
    place: usize,
    value: &Value,
) -> Result<bool, AllocError>
    ensures { IfOk result (λ told. told ≡ is_told_at group (view value.now)) }
{
    match value.as_table() {
        Some(table) => {
            let spot = Spot {
                source,
                group,
                place,
                table,
            };
            tell_table(alloc, sheet, spot)
        }
        None => Ok(false),
    }
}

/// Tells of the tables that are these values.
fn tell_values(
    alloc: Global,
    sheet: &mut Sheet,
    source: Source<'_>,
    group: Group,
    values: &[Value],
) -> Result<bool, AllocError>
    ensures { IfOk result (λ told. told ≡ list_any (is_told_at group) (map view values.now)) }
{
    let mut told = false;
    for (place, value) in values.iter().enumerate() {
        if tell_value(alloc, sheet, source, group, place, value)? {
            told = true;
        }
    }
    Ok(told)
}

/// Tells of the tables that a file has in an array.
fn tell_array(
    alloc: Global,
    sheet: &mut Sheet,
    source: Source<'_>,
    group: Group,
    array: Field,
    tree: &Table,
) -> Result<bool, AllocError>
    ensures { IfOk result (λ told. told ≡ is_told_in group array (table_view tree.now)) }
{
    tell_values(alloc, sheet, source, group, members_in(tree, array))
}

/// The arrays of tables of a board file.
pub(crate) const ARRAYS: [(Group, Field); 6] = [
    (Group::Sensor, Field::Sensor),
    (Group::Channel, Field::Channel),
    (Group::Lan, Field::Lan(LanField::Lan)),
    (Group::Attribute, Field::Attribute),
    (Group::State, Field::State),
    (Group::Numeric, Field::Numeric),
];

/// Tells of the tables that a file has in these arrays.
fn tell_arrays(
    alloc: Global,
    sheet: &mut Sheet,
    source: Source<'_>,
    arrays: &[(Group, Field)],
    tree: &Table,
) -> Result<bool, AllocError>
    ensures { IfOk result (λ told. told ≡ is_told_arrays arrays.now (table_view tree.now)) }
{
    let mut told = false;
    for (group, array) in arrays {
        if tell_array(alloc, sheet, source, *group, *array, tree)? {
            told = true;
        }
    }
    Ok(told)
}

/// Tells of the file's own table.
fn tell_own(
    alloc: Global,
    sheet: &mut Sheet,
    source: Source<'_>,
    group: Group,
    tree: &Table,
) -> Result<bool, AllocError>
    ensures { IfOk result (λ told. told ≡ is_told group (table_view tree.now)) }
{
    let spot = Spot {
        source,
        group,
        place: 0,
        table: tree,
    };
    tell_table(alloc, sheet, spot)
}

/// Tells of `[device]`.
fn tell_device(
    alloc: Global,
    sheet: &mut Sheet,
    source: Source<'_>,
    tree: &Table,
) -> Result<bool, AllocError>
    ensures { IfOk result (λ told. told ≡ is_told_device (table_view tree.now)) }
{
    match in_field(tree, Field::Device) {
        Some(value) => tell_value(alloc, sheet, source, Group::Device, 0, value),
        None => Ok(false),
    }
}

/// Tells of the keys of a board file that are unknown or not used, a line each for the first ten, and whether there is one.
pub(crate) fn tell_board(
    alloc: Global,
    sheet: &mut Sheet,
    source: Source<'_>,
    tree: &Table,
) -> Result<bool, AllocError>
    ensures { IfOk result (λ told. told ≡ is_told_board (table_view tree.now)) }
{
    let own = tell_own(alloc, sheet, source, Group::Top, tree)?;
    let device = tell_device(alloc, sheet, source, tree)?;
    let arrays = tell_arrays(alloc, sheet, source, &ARRAYS, tree)?;
    sheet.end(source.name, "key")?;
    Ok(own || device || arrays)
}

/// Tells of the keys of a plan that are unknown or not used, a line each for the first ten, and whether there is one.
pub(crate) fn tell_plan(
    alloc: Global,
    sheet: &mut Sheet,
    source: Source<'_>,
    tree: &Table,
) -> Result<bool, AllocError>
    ensures { IfOk result (λ told. told ≡ is_told_plan (table_view tree.now)) }
{
    let own = tell_own(alloc, sheet, source, Group::Plan, tree)?;
    let steps = tell_array(alloc, sheet, source, Group::Step, Field::Step, tree)?;
    sheet.end(source.name, "key")?;
    Ok(own || steps)
}
