//! Entries of strings, as they come in parts: an attribute, its type, the text's length, and the text.
ghost use Rattle.std.specs.Prelude.{◌≡◌, ◌==◌, drop};
ghost use Rattle.bios_attr.specs.EntryParts.{before_entry_value};
ghost use Rattle.record_kinds.specs.Entries.{text_length, whole_length, op_of, begins_string, allows_length, first_fault, middle_fault, last_fault};
ghost use Rattle.record_kinds.specs.Stagings.{unless};

use bios_attr::AttributeLimits;
use bios_attr::entry_parts::MOST_ENTRY;
use pldm_base::PART_LENGTH;
use record_base::attribute_value::STRING_TYPE;
use record_base::{AttributeRange, SetBiosAttribute, byte_at};
use two_wire::code::{PLDM_INVALID_DATA, PLDM_INVALID_LENGTH};
use two_wire::{Bytes, Code};

/// How many bytes a string's entry has before its text.
const BEFORE_TEXT: usize = 5;

/// The bytes of an entry, or of what came of it so far.
pub type Entry = Bytes<{ MOST_ENTRY }>;

/// How long the text of a string's entry is, by its length field.
fn text_length(entry: &[u8]) -> u16
    ensures { result ≡ text_length entry.now }
{
    u16::from_le_bytes([byte_at(entry, 3), byte_at(entry, 4)])
}

/// How many bytes a string's entry has once it is whole.
fn whole_length(entry: &[u8]) -> usize
    ensures { result ≡ whole_length entry.now }
{
    BEFORE_TEXT + usize::from(text_length(entry))
}

/// What stands behind an entry's attribute and type.
fn value_in(entry: &[u8]) -> &[u8]
    ensures { result.now ≡ drop before_entry_value entry.now }
{
    match entry {
        [_, _, _, value @ ..] => value,
        _ => &[],
    }
}

/// The operation of a whole entry.
pub(crate) fn op_in(entry: &[u8]) -> SetBiosAttribute<'_>
    ensures { result ≡ op_of entry.now }
{
    let attribute = u16::from_le_bytes([byte_at(entry, 0), byte_at(entry, 1)]);
    SetBiosAttribute::of(attribute, byte_at(entry, 2), value_in(entry))
}

/// Whether the bytes are the first part of a string's entry that goes on.
fn begins_string(entry: &[u8]) -> bool
    ensures { result ≡ begins_string entry.now }
{
    byte_at(entry, 2) == STRING_TYPE
        && entry.len() == PART_LENGTH
        && whole_length(entry) > PART_LENGTH
}

/// Whether an attribute can be a text of this length.
fn allows_length(range: &AttributeRange, length: u16) -> bool
    ensures { result ≡ allows_length range.now length }
{
    match range {
        AttributeRange::Text(lengths) => lengths.least <= length && length <= lengths.most,
        _ => false,
    }
}

/// Refuses what no entry of the attribute begins with.
pub(crate) fn check_first(limits: &AttributeLimits, entry: &[u8]) -> Result<(), Code>
    ensures { result ≡ unless (first_fault limits.now entry.now) tt }
{
    if byte_at(entry, 2) != limits.range.type_code() || limits.read_only {
        return Err(PLDM_INVALID_DATA);
    }
    if !begins_string(entry) {
        return Err(PLDM_INVALID_LENGTH);
    }
    if !allows_length(&limits.range, text_length(entry)) {
        return Err(PLDM_INVALID_DATA);
    }
    Ok(())
}

/// Refuses what isn't the part behind these bytes, with more behind it.
pub(crate) fn check_middle(staged: &[u8], handle: u32, bytes: &[u8]) -> Result<(), Code>
    ensures { result ≡ unless (middle_fault staged.now handle bytes.now) tt }
{
    if handle as usize != staged.len() {
        return Err(PLDM_INVALID_DATA);
    }
    if bytes.len() != PART_LENGTH || staged.len() + bytes.len() >= whole_length(staged) {
        return Err(PLDM_INVALID_LENGTH);
    }
    Ok(())
}

/// Refuses what isn't the last part behind these bytes.
pub(crate) fn check_last(staged: &[u8], handle: u32, bytes: &[u8]) -> Result<(), Code>
    ensures { result ≡ unless (last_fault staged.now handle bytes.now) tt }
{
    if handle as usize != staged.len() {
        return Err(PLDM_INVALID_DATA);
    }
    if staged.len() + bytes.len() != whole_length(staged) || bytes.len() > PART_LENGTH {
        return Err(PLDM_INVALID_LENGTH);
    }
    Ok(())
}
