//! The names of attributes, by the tables of attributes and of strings.
ghost use Rattle.std.specs.Prelude.{◌≡◌, IfOk};
ghost use Rattle.std.specs.Option.{option_map};
ghost use Rattle.app_look.specs.Asking.{AsksTables, behind_part};
ghost use Rattle.app_look.specs.AttributeTables.{AddsPart, ReadsAttributes, ReadsTable};

use crate::session::Session;
use bios_attr::BiosTable;
use bios_attr::bios_attribute::transfer_handle;
use bios_attr::entry_parts::entry_in;
use pldm_base::TransferFlag;
use record_base::byte_at;
use report_words::Names;
use std::alloc::{AllocError, Global};
use undo_look::{Seen, TablePart};

/// How many parts of a table are read at most.
const MOST_PARTS: u16 = 1024;

/// What comes behind a part of a table.
#[derive(Clone, Copy, Debug, PartialEq, Eq)]
pub(crate) enum Behind {
    /// The part of this handle.
    Part(u32),
    /// Nothing: the table is whole.
    Whole,
    /// It isn't known, since the reply shows no part of a table.
    Unknown,
}

/// What comes behind the part that a reply shows, by its flag and the handle of the next (DSP0247).
fn behind_part(shown: &[u8]) -> Behind
    ensures { result ≡ behind_part shown.now }
{
    let flag = byte_at(shown, 4);
    let next = transfer_handle(shown);
    if flag == TransferFlag::End.byte() || flag == TransferFlag::StartAndEnd.byte() {
        Behind::Whole
    } else if (flag == TransferFlag::Start.byte() || flag == TransferFlag::Middle.byte())
        && next != 0
    {
        Behind::Part(next)
    } else {
        Behind::Unknown
    }
}

/// Asks for a part of a table, and puts it behind those before.
fn add_part(
    session: &mut Session,
    part: &TablePart,
    bytes: &mut Vec<u8>,
) -> Result<Behind, AllocError>
    ensures tables { AsksTables session.old session.new }
    ensures added { IfOk result (λ behind.
        AddsPart part.now session.old bytes.old.items behind session.new bytes.new.items) }
{
    session.ask(part);
    match session.seen() {
        Some(Seen::Shown(data)) => {
            bytes.extend_from_slice(entry_in(data))?;
            Ok(behind_part(data))
        }
        Some(Seen::Refused(_)) | None => Ok(Behind::Unknown),
    }
}

/// Reads a table. There is none where a request was refused or wasn't answered.
fn read_table(
    alloc: Global,
    session: &mut Session,
    table: BiosTable,
) -> Result<Option<Vec<u8>>, AllocError>
    ensures tables { AsksTables session.old session.new }
    ensures read { IfOk result (λ read. ReadsTable table session.old
        (option_map (λ bytes. bytes.items) read) session.new) }
{
    let mut bytes = Vec::new(alloc);
    let mut transfer = 0;
    for _ in 0..MOST_PARTS {
        match add_part(session, &TablePart::Bios { table, transfer }, &mut bytes)? {
            Behind::Part(next) => transfer = next,
            Behind::Whole => return Ok(Some(bytes)),
            Behind::Unknown => return Ok(None),
        }
    }
    Ok(None)
}

/// Reads the names of the attributes that are wanted.
pub(crate) fn read_attributes(
    alloc: Global,
    session: &mut Session,
    names: &mut Names,
) -> Result<(), AllocError>
    ensures tables { AsksTables session.old session.new }
    ensures names { IfOk result (λ _.
        ReadsAttributes session.old names.old session.new names.new) }
{
    if !names.wants_attributes() {
        return Ok(());
    }
    let Some(attributes) = read_table(alloc, session, BiosTable::Attributes)? else {
        return Ok(());
    };
    let Some(strings) = read_table(alloc, session, BiosTable::Strings)? else {
        return Ok(());
    };
    names.name_attributes(alloc, attributes.as_slice(), strings.as_slice())
}
