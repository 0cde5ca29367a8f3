//! The tables of a board's attributes.
ghost use Rattle.std.specs.Prelude.{◌≡◌, ◌+◌, ◌≤◌, ◌++◌, ℕ, length};
ghost use Rattle.pldm_base.specs.Parts.{part_length};
ghost use Rattle.record_base.specs.AttributeSizes.{most_value};
ghost use Rattle.bmc_board.specs.Gives.{AppendsReply};
ghost use Rattle.bmc_board.specs.BiosTables.{values_in, table_asked, asked_part, longest_part, shown_part};

use crate::board::serve::value_at;
use bios_attr::bios_attribute::transfer_handle;
use bios_attr::{BiosTable, CurrentValues};
use cfg_records::{Key, Store, byte_at};
use pldm_base::{Part, part};
use record_base::Attributes;
use two_wire::{Buffer, Code, code};

/// The number of the pending table, which is no table of this controller.
const PENDING_TABLE: u8 = 3;

/// The values of attributes, as their records stand.
#[derive(Drop)]
pub(super) struct RecordValues<'a, S: Store> {
    pub store: &'a S,
    ghost short: { (handle : ℕ) → length (values_in (S.records store.now) handle) ≤ most_value },
}

impl<S: Store> CurrentValues for RecordValues<'_, S> {
    ghost use Rattle.bmc_board.specs.BiosTables.{values_in};

    ghost value_of = { λ s. values_in (S.records s.store.now) };

    fn value(&self, attribute: u16) -> &[u8] {
        value_at(self.store, &Key::BiosAttribute(attribute))
    }
}

/// The table of this number, or the code that refuses it.
pub(super) fn table_asked(attributes: &Attributes, number: u8) -> Result<BiosTable, Code>
    ensures { result ≡ table_asked attributes.now.items number }
{
    if number > PENDING_TABLE {
        return Err(code::PLDM_INVALID_TABLE);
    }
    if number == PENDING_TABLE || attributes.items.as_slice().len() == 0 {
        return Err(code::PLDM_NO_TABLE);
    }
    Ok(match number {
        0 => BiosTable::Strings,
        1 => BiosTable::Attributes,
        _ => BiosTable::Values,
    })
}

/// Appends a part, with what a requester needs to ask for the next.
pub(super) fn push_part<B: Buffer>(part: &Part<'_>, to: &mut B)
    requires room { length (B.bytes to.old) + longest_part ≤ B.capacity }
    requires short { length part.now.bytes.now ≤ part_length }
    ensures { B.bytes to.new ≡ B.bytes to.old ++ shown_part part.now }
{
    to.extend_from_slice(&part.next.to_le_bytes());
    to.push(part.flag.byte());
    to.extend_from_slice(part.bytes);
}

/// Appends the part of a table that the request asks for.
pub(super) fn show_part<B: Buffer>(body: &[u8], table: &[u8], to: &mut B) -> Result<(), Code>
    requires room { length (B.bytes to.old) + longest_part ≤ B.capacity }
    ensures { AppendsReply B.bytes result to.old to.new (asked_part body.now table.now) }
{
    let part = part(table, byte_at(body, 4), transfer_handle(body))?;
    push_part(&part, to);
    Ok(())
}
