//! The tables of files, and the fields that each can have.
ghost use Rattle.std.specs.Prelude.{◌≡◌, IfOk};
ghost use Rattle.toml.specs.View.{table_view};
ghost use Rattle.text_board.specs.Faults.{session_rows};
ghost use Rattle.plan_file.specs.Kinds.{kind_in};
ghost use Rattle.file_faults.specs.Known.{step_rows, known};

use plan_file::{KIND, PLAN, kind_in};
use std::alloc::{AllocError, Global};
use text_board::{DEVICE, LAN, NUMERIC, SENSOR, SESSIONS, STATE, TOP, attribute_rows};
use text_fields::{Field, Need, Row, Shape};
use toml::Table;

/// Tables of a file that are of one sort.
#[derive(Clone, Copy)]
pub enum Group {
    /// A board file's own table.
    Top,
    /// `[device]`.
    Device,
    /// The `[[sensor]]`s.
    Sensor,
    /// The `[[channel]]`s.
    Channel,
    /// The `[[lan]]`s.
    Lan,
    /// The `[[attribute]]`s.
    Attribute,
    /// The `[[state]]`s.
    State,
    /// The `[[numeric]]`s.
    Numeric,
    /// A plan's own table.
    Plan,
    /// The `[[step]]`s.
    Step,
}

/// The last field of a channel with sessions, whatever the number of users.
const USERS: [Row; 1] = [Row(Field::Users, Shape::UserBytes(0), Need::Always)];

/// The fields of a channel with sessions.
fn session_rows(alloc: Global) -> Result<Vec<Row>, AllocError>
    ensures { IfOk result (λ rows. rows.items ≡ session_rows 0) }
{
    let mut rows = Vec::from_slice(alloc, &SESSIONS)?;
    rows.extend_from_slice(&USERS)?;
    Ok(rows)
}

/// The fields of a step: `kind`, and those of the kind that it names.
fn step_rows(alloc: Global, table: &Table) -> Result<Vec<Row>, AllocError>
    ensures { IfOk result (λ rows. rows.items ≡ step_rows (kind_in (table_view table.now))) }
{
    let mut rows = Vec::from_slice(alloc, &KIND)?;
    if let Some(kind) = kind_in(table) {
        rows.extend_from_slice(kind.rows())?;
    }
    Ok(rows)
}

/// The fields that a table of the group can have, as the reader of its file has them, in its order. Of a channel they are those of one with
/// sessions, and of an attribute those of its kind.
pub fn known_rows(alloc: Global, group: Group, table: &Table) -> Result<Vec<Row>, AllocError>
    ensures { IfOk result (λ rows. rows.items ≡ known group (table_view table.now)) }
{
    match group {
        Group::Top => Vec::from_slice(alloc, &TOP),
        Group::Device => Vec::from_slice(alloc, &DEVICE),
        Group::Sensor => Vec::from_slice(alloc, &SENSOR),
        Group::Channel => session_rows(alloc),
        Group::Lan => Vec::from_slice(alloc, &LAN),
        Group::Attribute => Vec::from_slice(alloc, attribute_rows(table)),
        Group::State => Vec::from_slice(alloc, &STATE),
        Group::Numeric => Vec::from_slice(alloc, &NUMERIC),
        Group::Plan => Vec::from_slice(alloc, &PLAN),
        Group::Step => step_rows(alloc, table),
    }
}
