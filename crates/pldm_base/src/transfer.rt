//! The part of a table that a request asks for.
ghost use Rattle.std.specs.Prelude.{◌≡◌, ◌^◌, ◌≤◌, ◌&&◌, length, nat_lt, MatchOption, IsOkAnd};
ghost use Rattle.two_wire.specs.Codes.{pldm_invalid_data};
ghost use Rattle.pldm_base.specs.Parts.{part_length, asked_of_entry, asked_offset, begins_part, flag_of, IsEntryPart, IsPart};

use crate::{GET_FIRST_PART, GET_NEXT_PART, MOST_WHOLE, PART_LENGTH, Part, TransferFlag};
use two_wire::Code;
use two_wire::code::PLDM_INVALID_DATA;

// A table may not be longer, since handles have 32 bits.
const LONGEST_TABLE: usize = 1 << 32;

/// The part of the table that a request asks for by its transfer operation and its transfer handle, as in GetBIOSTable
/// of DSP0247. The handle of a part is its offset. An empty table has one part, which is empty. Of a table that is
/// longer than handles reach, 4,294,967,296 bytes, no part is given.
pub fn part(table: &[u8], operation: u8, handle: u32) -> Result<Part<'_>, Code>
    ensures { MatchOption (asked_offset table.now operation handle)
        (result ≡ Err pldm_invalid_data)
        (λ offset. IsOkAnd result (IsPart table.now offset)) }
{
    if table.len() > LONGEST_TABLE {
        return Err(PLDM_INVALID_DATA);
    }
    match operation {
        GET_FIRST_PART => Ok(part_at(table, 0)),
        GET_NEXT_PART if is_later_part(table, handle) => Ok(part_at(table, handle)),
        _ => Err(PLDM_INVALID_DATA),
    }
}

/// The part of the entry that a request asks for, as in GetBIOSAttributeCurrentValueByHandle of DSP0247. An entry of at most
/// `MOST_WHOLE` bytes is its own first part, and has no other; a longer one has the parts of a table.
pub fn entry_part(entry: &[u8], operation: u8, handle: u32) -> Result<Part<'_>, Code>
    ensures { MatchOption (asked_of_entry entry.now operation handle)
        (result ≡ Err pldm_invalid_data)
        (λ offset. IsOkAnd result (IsEntryPart entry.now offset)) }
{
    if entry.len() > MOST_WHOLE {
        return part(entry, operation, handle);
    }
    if operation != GET_FIRST_PART {
        return Err(PLDM_INVALID_DATA);
    }
    Ok(Part {
        next: 0,
        flag: TransferFlag::StartAndEnd,
        bytes: entry,
    })
}

// Whether a part other than the first begins at the handle.
fn is_later_part(table: &[u8], handle: u32) -> bool
    ensures { result ≡ (nat_lt 0 handle && begins_part table.now handle) }
{
    let offset = handle as usize;
    offset > 0 && offset % PART_LENGTH == 0 && offset < table.len()
}

/// The part at an offset.
pub fn part_at(table: &[u8], offset: u32) -> Part<'_>
    requires within { offset ≤ length table.now }
    requires named { length table.now ≤ 2 ^ 32 }
    ensures part { IsPart table.now offset result }
    ensures short { length result.bytes.now ≤ part_length }
{
    let start = offset as usize;
    let is_last = table.len() - start <= PART_LENGTH;
    let flag = flag_of_part(offset == 0, is_last);
    if is_last {
        Part {
            next: 0,
            flag,
            bytes: &table[start..],
        }
    } else {
        Part {
            next: offset + PART_LENGTH as u32,
            flag,
            bytes: &table[start..start + PART_LENGTH],
        }
    }
}

// The flag of a part.
fn flag_of_part(is_first: bool, is_last: bool) -> TransferFlag
    ensures { result ≡ flag_of is_first is_last }
{
    match (is_first, is_last) {
        (true, false) => TransferFlag::Start,
        (false, false) => TransferFlag::Middle,
        (false, true) => TransferFlag::End,
        (true, true) => TransferFlag::StartAndEnd,
    }
}
