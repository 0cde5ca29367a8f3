//! What is told of a fault: what it is called, and the table, the item and the field that have it.
use plan_file::{NoGet, PlanFault, StepFault};
use std::alloc::AllocError;
use text_board::{FileFault, Item, Place};
use text_fields::{Field, FieldFault};

/// What is wrong with a field, and which it is.
fn parts_of(fault: FieldFault) -> (&'static str, Field) {
    match fault {
        FieldFault::Missing(field) => ("Missing", field),
        FieldFault::WrongType(field) => ("WrongType", field),
        FieldFault::Range(field) => ("Range", field),
    }
}

/// Adds the table that an item is: its name and, of an array, its place from 0.
fn push_item(text: &mut String, item: Item) -> Result<(), AllocError> {
    match item {
        Item::Top => text.push_str("table top"),
        Item::Device => text.push_str("table device"),
        Item::Sensor(place) => write!(text, "table sensor, item {place}"),
        Item::Channel(place) => write!(text, "table channel, item {place}"),
        Item::Lan(place) => write!(text, "table lan, item {place}"),
        Item::Attribute(place) => write!(text, "table attribute, item {place}"),
        Item::State(place) => write!(text, "table state, item {place}"),
        Item::Numeric(place) => write!(text, "table numeric, item {place}"),
    }
}

/// Adds a fault of a board file that is called so.
fn push_placed(text: &mut String, called: &str, place: Place) -> Result<(), AllocError> {
    write!(text, "{called}: ")?;
    push_item(text, place.item)?;
    writeln!(text, ", field {}", place.field)
}

/// Adds a fault of a board file.
pub(crate) fn push_board_fault(text: &mut String, fault: FileFault) -> Result<(), AllocError> {
    match fault {
        FileFault::Memory | FileFault::Text => writeln!(text, "{fault}"),
        FileFault::Missing(place) => push_placed(text, "Missing", place),
        FileFault::WrongType(place) => push_placed(text, "WrongType", place),
        FileFault::Range(place) => push_placed(text, "Range", place),
        FileFault::Twice(place) => push_placed(text, "Twice", place),
    }
}

/// The field in which a step asks for what no Get shows.
pub(crate) fn field_of(no_get: NoGet) -> Field {
    match no_get {
        NoGet::SessionLimit => Field::SessionLimit,
        NoGet::FlagsClear => Field::FlagsClear,
        NoGet::BothStores => Field::Store,
        NoGet::SetInProgress => Field::Param,
    }
}

/// Adds a fault of the step of this place.
fn push_step_fault(text: &mut String, place: usize, fault: StepFault) -> Result<(), AllocError> {
    let field = match fault {
        StepFault::OutsidePlan(_) | StepFault::UnknownKind => {
            write!(text, "{fault}")?;
            Field::Kind
        }
        StepFault::NoGet(no_get) => {
            write!(text, "{fault}")?;
            field_of(no_get)
        }
        StepFault::Field(fault) => {
            let (called, field) = parts_of(fault);
            text.push_str(called)?;
            field
        }
    };
    writeln!(text, ": table step, item {place}, field {field}")
}

/// Adds a fault of a plan.
pub(crate) fn push_plan_fault(text: &mut String, fault: PlanFault) -> Result<(), AllocError> {
    match fault {
        PlanFault::Memory | PlanFault::Text => writeln!(text, "{fault}"),
        PlanFault::Field(fault) => {
            let (called, field) = parts_of(fault);
            writeln!(text, "{called}: table top, field {field}")
        }
        PlanFault::TooMany => writeln!(text, "TooMany: table top, field step"),
        PlanFault::Step(place, fault) => push_step_fault(text, place, fault),
    }
}
