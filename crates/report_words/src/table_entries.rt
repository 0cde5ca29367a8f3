//! Entries of a table by their numbers.
ghost use Rattle.std.specs.Prelude.{◌≡◌};
ghost use Rattle.report_words.specs.TableEntries.{FindsIn, FindsInBody, number_of};

use bios_attr::table_entry::entry_at;
use bios_attr::{BiosTable, TableEntry, count_table};

/// How many bytes an entry has at least.
const LEAST_ENTRY: usize = 4;

/// How many bytes the CRC-32 behind the entries has.
const CHECK_LENGTH: usize = 4;

/// The number by which an entry is known: the handle of its string or of its attribute.
fn number_of(entry: &TableEntry<'_>) -> u16
    ensures { result ≡ number_of entry.now }
{
    match entry {
        TableEntry::String(string) => string.handle,
        TableEntry::Attribute(attribute) => attribute.attribute,
        TableEntry::Value(value) => value.attribute,
    }
}

/// The first entry of this number, where the bytes are the entries of a table and their padding.
fn find_in_body<'a>(table: BiosTable, bytes: &'a [u8], number: u16) -> Option<TableEntry<'a>>
    ensures { FindsInBody table bytes.now number result }
{
    let mut rest = bytes;
    while rest.len() >= LEAST_ENTRY {
        let Some((entry, behind)) = entry_at(table, rest) else {
            return None;
        };
        if number_of(&entry) == number {
            return Some(entry);
        }
        rest = behind.as_slice();
    }
    None
}

/// The first entry of this number in a table, where the bytes are one.
pub(crate) fn find_entry<'a>(
    table: BiosTable,
    bytes: &'a [u8],
    number: u16,
) -> Option<TableEntry<'a>>
    ensures { FindsIn table bytes.now number result }
{
    match count_table(table, bytes) {
        Ok(_) => find_in_body(table, &bytes[..bytes.len() - CHECK_LENGTH], number),
        Err(_) => None,
    }
}
