//! The commands of attributes, with values that are whole or come in parts.
ghost use Rattle.std.specs.Prelude.{◌+◌, ◌≤◌, length, Ok};
ghost use Rattle.bmc_board.specs.Gives.{AppendsReply};
ghost use Rattle.bmc_board.specs.BiosTables.{longest_part};
ghost use Rattle.bmc_board.specs.AttributeParts.{later_part};

use crate::board::Board;
use crate::board::bios::push_part;
use crate::board::serve::outdate;
use bios_attr::AskedPart;
use bios_attr::bios_attribute::{START_AND_END, attribute_in, attribute_shown_in};
use bios_attr::entry_parts::entry_in;
use cfg_records::{Key, Op, RecordData, RecordKind, Store, byte_at};
use pldm_base::{GET_NEXT_PART, entry_part};
use record_kinds::{is_last, part_in, unknown_code};
use two_wire::{Buffer, Code};

/// Appends a later part of an entry.
fn show_later_part<B: Buffer>(entry: &[u8], transfer: u32, to: &mut B) -> Result<(), Code>
    requires room { length (B.bytes to.old) + longest_part ≤ B.capacity }
    ensures { AppendsReply B.bytes result to.old to.new (later_part entry.now transfer) }
{
    let part = entry_part(entry, GET_NEXT_PART, transfer)?;
    push_part(&part, to);
    Ok(())
}

impl<S: Store> Board<S> {
    ghost use Rattle.bmc_board.specs.Request as request;
    ghost use Rattle.bios_attr.specs.BiosAttribute.{attribute_in};
    ghost use Rattle.record_kinds.specs.PartData.{part_in};
    ghost use Rattle.bmc_board.specs.AttributeCommands.{whole_asked, part_asked, attribute_set, attribute_get};
    ghost use Rattle.bmc_board.specs.Serves.{ReplyFits, ServesRequest, serve_by};

    /// Carries out the part of a Set that the data are.
    #[inline(never)]
    fn set_part<B: Buffer>(&mut self, from: u8, body: &[u8], to: &mut B) -> Result<(), Code>
        requires { ReplyFits (part_asked from body.now) (B.bytes to.old) B.capacity }
        ensures { ServesRequest B.bytes self.old self.new (part_asked from body.now)
            result to.old to.new }
    {
        let part = part_in(body)?;
        let ends = is_last(&part);
        let live = &mut self.activity.live;
        let stagings = &mut self.activity.stagings;
        self.records
            .set_part(&self.setup, part, live, stagings, from, to)?;
        if ends {
            outdate(&mut self.kept);
        }
        Ok(())
    }

    /// Carries out the Set that the data are, whole.
    #[inline(never)]
    fn set_whole<B: Buffer>(&mut self, body: &[u8], to: &mut B) -> Result<(), Code>
        requires { ReplyFits (whole_asked body.now) (B.bytes to.old) B.capacity }
        ensures { ServesRequest B.bytes self.old self.new (whole_asked body.now)
            result to.old to.new }
    {
        let op = attribute_in(body)?;
        self.set(&Op::BiosAttribute(op), to)
    }

    /// Carries out SetBIOSAttributeCurrentValue.
    pub(super) fn set_attribute<B: Buffer>(
        &mut self,
        from: u8,
        body: &[u8],
        to: &mut B,
    ) -> Result<(), Code>
        requires { ReplyFits (attribute_set from body.now) (B.bytes to.old) B.capacity }
        ensures { ServesRequest B.bytes self.old self.new (attribute_set from body.now)
            result to.old to.new }
    {
        if byte_at(body, 4) == START_AND_END {
            self.set_whole(body, to)
        } else {
            self.set_part(from, body, to)
        }
    }

    /// Appends a later part of the entry that a Get of the attribute shows.
    #[inline(never)]
    fn show_later<B: Buffer>(&self, handle: u16, transfer: u32, to: &mut B) -> Result<(), Code>
        requires room { length (B.bytes to.old) + longest_part ≤ B.capacity }
        ensures { AppendsReply B.bytes result to.old to.new
            (serve_by self.now (request.LaterPart handle transfer)).0 }
    {
        let key = Key::BiosAttribute(handle);
        match (self.setup.limits(&key), self.records.store.get(&key)) {
            (Some(limits), Some(value)) => {
                let mut shown = RecordData::new();
                limits.get_data(value, &self.activity.live, &mut shown);
                show_later_part(entry_in(shown.as_slice()), transfer, to)
            }
            _ => Err(unknown_code(&self.setup, &key)),
        }
    }

    /// Carries out GetBIOSAttributeCurrentValueByHandle.
    pub(super) fn get_attribute<B: Buffer>(&mut self, body: &[u8], to: &mut B) -> Result<(), Code>
        requires { ReplyFits (attribute_get body.now) (B.bytes to.old) B.capacity }
        ensures { ServesRequest B.bytes self.old self.new (attribute_get body.now)
            result to.old to.new }
    {
        match attribute_shown_in(body)? {
            AskedPart::First(handle) => self.get(&Key::BiosAttribute(handle), to),
            AskedPart::Later(handle, transfer) => self.show_later(handle, transfer, to),
        }
    }
}
