//! Parts of a Set, by the data of their requests.
ghost use Rattle.std.specs.Prelude.{◌≡◌};
ghost use Rattle.record_kinds.specs.PartData.{part_in};

use bios_attr::Rest;
use bios_attr::bios_attribute::transfer_handle;
use bios_attr::entry_parts::BEFORE_PART;
use pldm_base::TransferFlag;
use two_wire::Code;
use two_wire::code::{PLDM_INVALID_DATA, PLDM_INVALID_LENGTH};

/// How many bytes the data of a part have at least.
const LEAST_PART: usize = 6;

/// How many bytes the data of a first part have at least: its entry has an attribute and a type.
const LEAST_START: usize = 8;

const START: u8 = TransferFlag::Start as u8;

const MIDDLE: u8 = TransferFlag::Middle as u8;

const END: u8 = TransferFlag::End as u8;

/// A part of a Set. Its bytes lie where they came. A later part has a transfer handle, which counts the bytes before it.
#[derive(Drop)]
pub enum SetPart<'a> {
    Start(Rest<'a>),
    Middle(u32, Rest<'a>),
    End(u32, Rest<'a>),
}

/// The part that the data of a request are, by their flag. Data that are whole are none.
pub fn part_in(body: &[u8]) -> Result<SetPart<'_>, Code>
    ensures { result ≡ part_in body.now }
{
    if body.len() < LEAST_PART {
        return Err(PLDM_INVALID_LENGTH);
    }
    let handle = transfer_handle(body);
    let bytes = Rest::new(&body[BEFORE_PART..]);
    match body[4] {
        START if body.len() < LEAST_START => Err(PLDM_INVALID_LENGTH),
        START => Ok(SetPart::Start(bytes)),
        MIDDLE => Ok(SetPart::Middle(handle, bytes)),
        END => Ok(SetPart::End(handle, bytes)),
        _ => Err(PLDM_INVALID_DATA),
    }
}
