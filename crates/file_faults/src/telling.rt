//! What is told of a table's fault: where it is, what stands there, and what would be right.
use crate::faults::{Placed, TableFault};
use crate::group::Group;
use crate::place::{Found, Wanted};
use crate::rows::rows_in;
use crate::search::place_of;
use crate::sheet::Sheet;
use crate::source::{Source, Spot};
use crate::step_telling::push_step;
use cfg_records::Numbered;
use file_words::{first_unfit, push_range, push_value};
use plan_file::StepFault;
use std::alloc::{AllocError, Global};
use text_fields::range::record;
use text_fields::tree::{in_field, members_in, members_of};
use text_fields::{Field, FieldFault, Row, Shape};
use toml::{Table, Value};

/// The row of the field, if there is one.
fn row_of(rows: &[Row], field: Field) -> Option<Row> {
    rows.iter()
        .copied()
        .find(|row| row.0.word() == field.word())
}

/// Adds the fault of a field that the table lacks.
fn push_missing(
    alloc: Global,
    text: &mut String,
    spot: Spot<'_>,
    row: Row,
) -> Result<(), AllocError> {
    spot.push_at(alloc, text, row.0.word())?;
    write!(text, "lacks {}: ", row.0)?;
    push_range(text, &row.1, spot.table)
}

/// Adds that an array has too many tables, with the line of the first that is too much.
fn push_too_many(
    alloc: Global,
    text: &mut String,
    source: Source<'_>,
    field: Field,
    count: usize,
    most: usize,
) -> Result<(), AllocError> {
    let wanted = Wanted {
        table: Some(field.word()),
        place: most,
        key: "",
    };
    text.push_str(source.name)?;
    if let Some(Found::Key(line) | Found::Head(line)) = place_of(alloc, source.file, wanted)? {
        write!(text, ":{line}")?;
    }
    write!(text, ": top: {count} {field}s; at most {most}")
}

/// Adds what stands in the field: the member that doesn't fit, where the field has a list and one doesn't, or else the whole value.
fn push_found(
    text: &mut String,
    spot: Spot<'_>,
    row: Row,
    value: &Value,
) -> Result<(), AllocError> {
    let members = members_of(value);
    write!(text, "{}", row.0)?;
    let Some(place) = first_unfit(spot.table, &row.1, members) else {
        text.push_str(" = ")?;
        return push_value(text, value);
    };
    write!(text, "[{place}] = ")?;
    match members.get(place) {
        Some(member) => push_value(text, member),
        None => Ok(()),
    }
}

/// Adds the fault of a value that the field can't have.
fn push_unfit_value(
    alloc: Global,
    text: &mut String,
    spot: Spot<'_>,
    row: Row,
    value: &Value,
) -> Result<(), AllocError> {
    if let Shape::Tables(most) = row.1 {
        let count = members_of(value).len();
        if count > most {
            return push_too_many(alloc, text, spot.source, row.0, count, most);
        }
    }
    spot.push_at(alloc, text, row.0.word())?;
    push_found(text, spot, row, value)?;
    text.push_str(": ")?;
    push_range(text, &row.1, spot.table)
}

/// Adds the fault of a field.
fn push_field(
    alloc: Global,
    text: &mut String,
    spot: Spot<'_>,
    rows: &[Row],
    fault: FieldFault,
) -> Result<(), AllocError> {
    let (FieldFault::Missing(field) | FieldFault::WrongType(field) | FieldFault::Range(field)) =
        fault;
    let Some(row) = row_of(rows, field) else {
        return write!(text, "{}: {fault}", spot.source.name);
    };
    match in_field(spot.table, field) {
        Some(value) => push_unfit_value(alloc, text, spot, row, value),
        None => push_missing(alloc, text, spot, row),
    }
}

/// Adds that a table before has the number of this one.
fn push_twice(
    alloc: Global,
    text: &mut String,
    spot: Spot<'_>,
    field: Field,
) -> Result<(), AllocError> {
    spot.push_at(alloc, text, field.word())?;
    if let Some(value) = in_field(spot.table, field) {
        write!(text, "{field} = ")?;
        push_value(text, value)?;
    }
    match spot.group.array() {
        Some(array) => write!(text, ": a {array} before has it, too"),
        None => text.push_str(": two have it"),
    }
}

/// Adds the fault of a table.
fn push_fault(
    alloc: Global,
    text: &mut String,
    spot: Spot<'_>,
    rows: &[Row],
    fault: TableFault,
) -> Result<(), AllocError> {
    match fault {
        TableFault::Field(fault) => push_field(alloc, text, spot, rows, fault),
        TableFault::Step(StepFault::Field(fault)) => push_field(alloc, text, spot, rows, fault),
        TableFault::Step(fault) => push_step(alloc, text, spot, fault),
        TableFault::Twice(field) => push_twice(alloc, text, spot, field),
    }
}

/// The table of the group at this place.
fn table_at<'a>(tree: &'a Table, group: Group, place: usize) -> Option<&'a Table> {
    match (group.array(), group) {
        (None, _) => Some(tree),
        (Some(field), Group::Device) => in_field(tree, field)?.as_table(),
        (Some(field), _) => members_in(tree, field).get(place)?.as_table(),
    }
}

/// Adds the line of a fault.
fn push_placed(
    alloc: Global,
    sheet: &mut Sheet,
    source: Source<'_>,
    tree: &Table,
    placed: Placed,
) -> Result<(), AllocError> {
    let Placed {
        group,
        place,
        fault,
    } = placed;
    let Some(table) = table_at(tree, group, place) else {
        return Ok(());
    };
    let spot = Spot {
        source,
        group,
        place,
        table,
    };
    let rows = rows_in(alloc, group, tree, table)?;
    push_fault(alloc, &mut sheet.text, spot, rows.as_slice(), fault)?;
    sheet.text.push_str("\n")
}

/// The place of the first of these sensor data records whose id one before it has.
fn taken_id(values: &[Value]) -> Option<usize> {
    for (place, value) in values.iter().enumerate() {
        let Some(kept) = record(value) else {
            continue;
        };
        let id = kept.number();
        let before = &values[..place];
        if before.iter().any(|other| has_id(other, id)) {
            return Some(place);
        }
    }
    None
}

/// Whether the value is a sensor data record of this id.
fn has_id(value: &Value, id: u16) -> bool {
    match record(value) {
        Some(kept) => kept.number() == id,
        None => false,
    }
}

/// Tells which sensor data record of a board file has the id of one before it.
pub fn tell_twice(
    alloc: Global,
    sheet: &mut Sheet,
    source: Source<'_>,
    tree: &Table,
) -> Result<(), AllocError> {
    let values = members_in(tree, Field::Sdr);
    let Some(place) = taken_id(values) else {
        return Ok(());
    };
    let spot = Spot {
        source,
        group: Group::Top,
        place: 0,
        table: tree,
    };
    spot.push_at(alloc, &mut sheet.text, Field::Sdr.word())?;
    write!(sheet.text, "sdr[{place}] = ")?;
    if let Some(value) = values.get(place) {
        push_value(&mut sheet.text, value)?;
    }
    sheet.text.push_str(": a record before has its id, too\n")
}

/// Tells of these faults of a file, a line each.
pub fn tell_faults(
    alloc: Global,
    sheet: &mut Sheet,
    source: Source<'_>,
    tree: &Table,
    faults: &[Placed],
) -> Result<(), AllocError> {
    for placed in faults {
        if sheet.takes() {
            push_placed(alloc, sheet, source, tree, *placed)?;
        }
    }
    sheet.end(source.name, "fault")
}
