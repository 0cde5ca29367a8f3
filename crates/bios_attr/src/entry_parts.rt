//! The entry of an attribute in parts, as the requests of a Set carry it and the replies to a Get show it.
ghost use Rattle.std.specs.Prelude.{◌≡◌, ◌≤◌, ◌^◌, length};
ghost use Rattle.bios_attr.specs.EntryParts.{entry_in, set_part, goes_in_parts, part_at, get_part, goes_on, ends};

use crate::bios_attribute::{BIOS, GET_CURRENT_VALUE, START_AND_END, transfer_handle};
use pldm_base::{GET_NEXT_PART, MOST_WHOLE, PART_LENGTH, TransferFlag, part_at as part_at_offset};
use record_base::attribute_sizes::MOST_VALUE;
use record_base::{Asked, byte_at};
use two_wire::{Below, Bytes};

/// How many bytes an attribute's entry has before its value: the attribute, and its type.
pub const BEFORE_ENTRY_VALUE: usize = 3;

/// How many bytes an attribute's entry has at most.
pub const MOST_ENTRY: usize = BEFORE_ENTRY_VALUE + MOST_VALUE;

/// How many bytes stand before an entry or its part in data: the transfer handle and the flag.
pub const BEFORE_PART: usize = 5;

/// How many bytes the data of a part have at most.
pub const MOST_PART_DATA: usize = BEFORE_PART + PART_LENGTH;

/// The data of a part of a Set.
pub type PartData = Bytes<{ MOST_PART_DATA }>;

/// The entry, or its part, in the data of a request or of a reply.
pub fn entry_in(body: &[u8]) -> &[u8]
    ensures { result.now ≡ entry_in body.now }
{
    match body {
        [_, _, _, _, _, entry @ ..] => entry,
        _ => &[],
    }
}

/// Whether the data of a Set are whole, with an entry that goes in parts.
pub fn goes_in_parts(body: &[u8]) -> bool
    ensures { result ≡ goes_in_parts body.now }
{
    byte_at(body, 4) == START_AND_END && entry_in(body).len() > MOST_WHOLE
}

/// The data of the part of an entry at an offset.
fn part_data(entry: &[u8], offset: u32) -> PartData
    requires within { offset ≤ length entry.now }
    requires named { length entry.now ≤ 2 ^ 32 }
    ensures { result ≡ set_part entry.now offset }
{
    let part = part_at_offset(entry, offset);
    let mut data = PartData::from_slice(&offset.to_le_bytes());
    data.push(part.flag.byte());
    data.extend_from_slice(part.bytes);
    data
}

/// The data of the request of this place, counted from 0, among those that carry the data of a Set in parts. There is none past the last.
pub fn part_at(body: &[u8], place: u8) -> Option<PartData>
    requires { length body.now ≤ 2 ^ 32 }
    ensures { result ≡ part_at body.now place }
{
    let entry = entry_in(body);
    let offset = PART_LENGTH * usize::from(place);
    if offset >= entry.len() {
        return None;
    }
    Some(part_data(entry, offset as u32))
}

/// The request for the part of an attribute's entry behind so many bytes.
pub fn get_part(handle: u16, transfer: u32) -> Asked
    ensures { result ≡ get_part handle transfer }
{
    let [a, b, c, d] = transfer.to_le_bytes();
    let [low, high] = handle.to_le_bytes();
    let body = [a, b, c, d, GET_NEXT_PART, low, high];
    Asked::pldm(Below::new(BIOS), GET_CURRENT_VALUE, &body)
}

/// Whether a reply, as so many with those before it, shows a part of an entry with others behind it.
pub fn goes_on(count: u8, body: &[u8]) -> bool
    ensures { result ≡ goes_on count body.now }
{
    let flag = if count == 1 {
        TransferFlag::Start
    } else {
        TransferFlag::Middle
    };
    let shown = PART_LENGTH * usize::from(count);
    byte_at(body, 4) == flag.byte()
        && body.len() == BEFORE_PART + PART_LENGTH
        && transfer_handle(body) as usize == shown
        && shown < MOST_ENTRY
}

/// Whether it shows the last part of an entry that goes in parts.
pub fn ends(count: u8, body: &[u8]) -> bool
    ensures { result ≡ ends count body.now }
{
    if byte_at(body, 4) != TransferFlag::End.byte() || transfer_handle(body) != 0 {
        return false;
    }
    if body.len() <= BEFORE_PART || body.len() > BEFORE_PART + PART_LENGTH {
        return false;
    }
    let before = PART_LENGTH * usize::from(count.saturating_sub(1));
    let whole = before + (body.len() - BEFORE_PART);
    MOST_WHOLE < whole && whole <= MOST_ENTRY
}
