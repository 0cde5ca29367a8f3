//! Whole tables, as they are read.
ghost use Rattle.std.specs.Prelude.{◌≡◌, ◌%◌, ◌==◌, length, MatchResult};
ghost use Rattle.std.specs.List.{list_all};
ghost use Rattle.bios_attr.specs.TableEntry.{HasEntries, IsNoTable, HasBody, IsNoBody, IsBodyFault, IsFault};

use crate::bios_table::BiosTable;
use crate::table_entry::entry_at;
use pldm_base::crc32;

/// How many bytes an entry has at least.
const LEAST_ENTRY: usize = 4;

/// How many bytes the CRC-32 has.
const CHECK_LENGTH: usize = 4;

/// Why bytes are no table.
#[derive(Clone, Copy, Debug, PartialEq, Eq)]
pub enum TableError {
    /// The bytes are too few, or their number is no multiple of four.
    WrongLength,
    /// The last four aren't the CRC-32 of the others.
    WrongCheck,
    /// Four bytes or more are no entry.
    NotAnEntry,
    /// A byte of the padding isn't 00h.
    WrongPadding,
}

/// Whether each byte is 00h.
fn is_padding(bytes: &[u8]) -> bool
    ensures { result ≡ list_all (λ byte. byte == 0) bytes.now }
{
    bytes.iter().all(|byte| *byte == 0)
}

/// How many entries stand before the padding, or why that isn't so.
fn count_entries(table: BiosTable, bytes: &[u8]) -> Result<usize, TableError>
    requires { length bytes.now % 4 ≡ 0 }
    ensures { MatchResult result (HasBody table bytes.now)
        (λ error. IsNoBody table bytes.now × IsBodyFault table bytes.now error) }
{
    let mut rest = bytes;
    let mut count = 0;
    while rest.len() >= LEAST_ENTRY {
        let Some((_, behind)) = entry_at(table, rest) else {
            return Err(TableError::NotAnEntry);
        };
        rest = behind.as_slice();
        count += 1;
    }
    if is_padding(rest) {
        Ok(count)
    } else {
        Err(TableError::WrongPadding)
    }
}

/// How many entries the bytes are the table of, or why they are none. It takes no memory: the entries lie where they are, and
/// `entry_at` shows them one by one.
pub fn count_table(table: BiosTable, bytes: &[u8]) -> Result<usize, TableError>
    ensures { MatchResult result (HasEntries table bytes.now)
        (λ error. IsNoTable table bytes.now × IsFault table bytes.now error) }
{
    if bytes.len() < CHECK_LENGTH || bytes.len() % 4 != 0 {
        return Err(TableError::WrongLength);
    }
    let (body, check) = bytes.split_at(bytes.len() - CHECK_LENGTH);
    if crc32(body).to_le_bytes().as_slice() != check {
        return Err(TableError::WrongCheck);
    }
    count_entries(table, body)
}
