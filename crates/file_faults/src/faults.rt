//! The faults of a file that is TOML: of each of its tables the first.
ghost use Rattle.std.specs.Prelude.{◌≡◌, ◌∷◌, [], IfOk, OnOk, map};
ghost use Rattle.std.specs.List.{All, list_any};
ghost use Rattle.toml.specs.View.{table_view, view};
ghost use Rattle.text_fields.specs.Trees.{number_in, table_of};
ghost use Rattle.text_board.specs.Faults.{same_number};
ghost use Rattle.file_faults.specs.Firsts.{fault_of, number_of, table_fault, tables_of, twice, IsFirstIn};

use crate::group::Group;
use crate::rows::rows_in;
use crate::steps::step_fault;
use plan_file::StepFault;
use std::alloc::{AllocError, Global};
use text_fields::tree::{in_field, members_in, number};
use text_fields::{Field, FieldFault, LanField, first_fault};
use toml::{Table, Value};

/// What is wrong with a table.
#[derive(Clone, Copy)]
pub enum TableFault {
    /// A field has this fault.
    Field(FieldFault),
    /// The step has this fault.
    Step(StepFault),
    /// A table before it has its number, in this field.
    Twice(Field),
}

/// The first fault of a table of a file.
#[derive(Clone, Copy)]
pub struct Placed {
    pub group: Group,
    /// The table's place among those of the group, from 0.
    pub place: usize,
    pub fault: TableFault,
}

/// The field that has the number of an item of the group, which no two have.
fn number_of(group: Group) -> Option<Field>
    ensures { result ≡ number_of group }
{
    match group {
        Group::Sensor | Group::Channel => Some(Field::Number),
        Group::Lan => Some(Field::Channel),
        Group::State | Group::Numeric => Some(Field::Id),
        _ => None,
    }
}

/// Whether there are two numbers, and they are one.
fn same_number(one: Option<u64>, other: Option<u64>) -> bool
    ensures { result ≡ same_number one other }
{
    match (one, other) {
        (Some(one), Some(other)) => one == other,
        _ => false,
    }
}

/// Whether the value is a table that has this number in the field.
fn has_number(field: Field, value: &Value, wanted: Option<u64>) -> bool
    ensures { result ≡ same_number (number_in field (table_of (view value.now))) wanted }
{
    match value.as_table() {
        Some(table) => same_number(number(table, field), wanted),
        None => false,
    }
}

/// Whether one of the values is a table that has this number in the field.
fn is_taken(field: Field, before: &[Value], wanted: Option<u64>) -> bool
    ensures { result ≡ list_any
        (λ value. same_number (number_in field (table_of (view value))) wanted) before.now }
{
    before.iter().any(|value| has_number(field, value, wanted))
}

/// That a table of the group before has the number of this one, where one has.
fn twice(group: Group, before: &[Value], table: &Table) -> Option<TableFault>
    ensures { result ≡ twice group (map table_of (map view before.now)) (table_view table.now) }
{
    let Some(field) = number_of(group) else {
        return None;
    };
    if is_taken(field, before, number(table, field)) {
        Some(TableFault::Twice(field))
    } else {
        None
    }
}

/// The first fault of a table's fields, or else that one before has its number.
fn table_fault(
    alloc: Global,
    group: Group,
    tree: &Table,
    before: &[Value],
    table: &Table,
) -> Result<Option<TableFault>, AllocError>
    ensures { IfOk result (λ fault. fault ≡ table_fault group (table_view tree.now)
        (map table_of (map view before.now)) (table_view table.now)) }
{
    let rows = rows_in(alloc, group, tree, table)?;
    match first_fault(rows.as_slice(), table) {
        Some(fault) => Ok(Some(TableFault::Field(fault))),
        None => Ok(twice(group, before, table)),
    }
}

/// The first fault of a table of the group, behind those of its array.
fn fault_of(
    alloc: Global,
    group: Group,
    tree: &Table,
    before: &[Value],
    table: &Table,
) -> Result<Option<TableFault>, AllocError>
    ensures { IfOk result (λ fault. fault ≡ fault_of group (table_view tree.now)
        (map table_of (map view before.now)) (table_view table.now)) }
{
    match group {
        Group::Step => match step_fault(table) {
            Some(fault) => Ok(Some(TableFault::Step(fault))),
            None => Ok(None),
        },
        group => table_fault(alloc, group, tree, before, table),
    }
}

/// Adds the first fault of the only table of the group.
fn add_table(
    alloc: Global,
    faults: &mut Vec<Placed>,
    group: Group,
    tree: &Table,
    table: &Table,
) -> Result<(), AllocError>
    requires only { tables_of group (table_view tree.now) ≡ table_view table.now ∷ [] }
    requires firsts { All (IsFirstIn (table_view tree.now)) faults.old.items }
    ensures { OnOk result (All (IsFirstIn (table_view tree.now)) faults.new.items) }
{
    if let Some(fault) = fault_of(alloc, group, tree, &[], table)? {
        let place = 0;
        faults.push(Placed {
            group,
            place,
            fault,
        })?;
    }
    Ok(())
}

/// Adds the first fault of each of the tables of the group, which are these values.
fn add_each(
    alloc: Global,
    faults: &mut Vec<Placed>,
    group: Group,
    tree: &Table,
    values: &[Value],
) -> Result<(), AllocError>
    requires tables { map table_of (map view values.now) ≡ tables_of group (table_view tree.now) }
    requires firsts { All (IsFirstIn (table_view tree.now)) faults.old.items }
    ensures { OnOk result (All (IsFirstIn (table_view tree.now)) faults.new.items) }
{
    for (place, value) in values.iter().enumerate() {
        let Some(table) = value.as_table() else {
            continue;
        };
        if let Some(fault) = fault_of(alloc, group, tree, &values[..place], table)? {
            faults.push(Placed {
                group,
                place,
                fault,
            })?;
        }
    }
    Ok(())
}

/// Adds the first fault of `[device]`.
fn add_device(alloc: Global, faults: &mut Vec<Placed>, tree: &Table) -> Result<(), AllocError>
    requires firsts { All (IsFirstIn (table_view tree.now)) faults.old.items }
    ensures { OnOk result (All (IsFirstIn (table_view tree.now)) faults.new.items) }
{
    let Some(value) = in_field(tree, Field::Device) else {
        return Ok(());
    };
    match value.as_table() {
        Some(table) => add_table(alloc, faults, Group::Device, tree, table),
        None => Ok(()),
    }
}

/// Of a board file that is this tree the first fault of each of its tables: of the file's own, of `[device]`, and of each item.
pub fn board_faults(alloc: Global, tree: &Table) -> Result<Vec<Placed>, AllocError>
    ensures { IfOk result (λ faults. All (IsFirstIn (table_view tree.now)) faults.items) }
{
    let mut faults = Vec::new(alloc);
    add_table(alloc, &mut faults, Group::Top, tree, tree)?;
    add_device(alloc, &mut faults, tree)?;
    add_each(
        alloc,
        &mut faults,
        Group::Sensor,
        tree,
        members_in(tree, Field::Sensor),
    )?;
    add_each(
        alloc,
        &mut faults,
        Group::Channel,
        tree,
        members_in(tree, Field::Channel),
    )?;
    add_each(
        alloc,
        &mut faults,
        Group::Lan,
        tree,
        members_in(tree, Field::Lan(LanField::Lan)),
    )?;
    add_each(
        alloc,
        &mut faults,
        Group::Attribute,
        tree,
        members_in(tree, Field::Attribute),
    )?;
    add_each(
        alloc,
        &mut faults,
        Group::State,
        tree,
        members_in(tree, Field::State),
    )?;
    add_each(
        alloc,
        &mut faults,
        Group::Numeric,
        tree,
        members_in(tree, Field::Numeric),
    )?;
    Ok(faults)
}

/// Of a plan that is this tree the first fault of its own table and of each of its steps.
pub fn plan_faults(alloc: Global, tree: &Table) -> Result<Vec<Placed>, AllocError>
    ensures { IfOk result (λ faults. All (IsFirstIn (table_view tree.now)) faults.items) }
{
    let mut faults = Vec::new(alloc);
    add_table(alloc, &mut faults, Group::Plan, tree, tree)?;
    add_each(
        alloc,
        &mut faults,
        Group::Step,
        tree,
        members_in(tree, Field::Step),
    )?;
    Ok(faults)
}
