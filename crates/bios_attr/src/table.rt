//! What stands behind the entries of a table.
ghost use Rattle.std.specs.Prelude.{◌≡◌, ◌+◌, ◌≤◌, OnOk, IsOk, vec_len, vec_capacity};
ghost use Rattle.bios_attr.specs.Tables.{padded, IsTable};

use pldm_base::crc32;
use std::alloc::AllocError;

/// How many bytes stand behind the entries at most.
pub(crate) const MOST_BEHIND: usize = 7;

/// Appends bytes 00h, so that the number of bytes is a multiple of four.
fn pad(table: &mut Vec<u8>) -> Result<(), AllocError>
    ensures bytes { OnOk result (table.new.items ≡ padded table.old.items) }
    ensures room { vec_len table.old + 3 ≤ vec_capacity table.old → IsOk result }
    ensures capacity { vec_capacity table.old ≤ vec_capacity table.new }
{
    let missing = (4 - table.len() % 4) % 4;
    table.extend_from_slice(&[0, 0, 0][..missing])
}

/// Makes entries a table: appends the padding, and the CRC-32 of all.
pub(crate) fn finish(table: &mut Vec<u8>) -> Result<(), AllocError>
    ensures table { OnOk result (IsTable table.old.items table.new.items) }
    ensures room { vec_len table.old + 7 ≤ vec_capacity table.old → IsOk result }
    ensures capacity { vec_capacity table.old ≤ vec_capacity table.new }
{
    pad(table)?;
    let crc = crc32(table.as_slice());
    table.extend_from_slice(&crc.to_le_bytes())
}
