//! The entries of the three tables.
ghost use Rattle.std.specs.Prelude.{◌≡◌};
ghost use Rattle.bios_attr.specs.TableEntry.{entry_at};

use crate::attribute_entry::{AttributeEntry, attribute_at};
use crate::bios_table::BiosTable;
use crate::rest::Rest;
use crate::string_entry::{StringEntry, string_at};
use crate::value_entry::{ValueEntry, value_at};

/// An entry of a table.
#[derive(Drop)]
pub enum TableEntry<'a> {
    /// Of the string table.
    String(StringEntry<'a>),
    /// Of the attribute table.
    Attribute(AttributeEntry<'a>),
    /// Of the value table.
    Value(ValueEntry<'a>),
}

/// The entry of a table at the front of the bytes, and what is behind it.
pub fn entry_at(table: BiosTable, bytes: &[u8]) -> Option<(TableEntry<'_>, Rest<'_>)>
    ensures { result ≡ entry_at table bytes.now }
{
    match table {
        BiosTable::Strings => {
            let (entry, rest) = string_at(bytes)?;
            Some((TableEntry::String(entry), rest))
        }
        BiosTable::Attributes => {
            let (entry, rest) = attribute_at(bytes)?;
            Some((TableEntry::Attribute(entry), rest))
        }
        BiosTable::Values => {
            let (entry, rest) = value_at(bytes)?;
            Some((TableEntry::Value(entry), rest))
        }
    }
}
