//! The requests of a series behind the first.
ghost use Rattle.std.specs.Prelude.{◌≡◌, true, nat_lt, length};
ghost use Rattle.pldm_base.specs.Parts.{most_whole};
ghost use Rattle.record_base.specs.declared.op.Op.TheVariants as op_as;
ghost use Rattle.record_base.specs.declared.bios_attribute.SetBiosAttribute.{SetBiosAttribute as AnySet};
ghost use Rattle.bios_attr.specs.EntryParts.{request_at};
ghost use Rattle.bios_attr.specs.BiosAttribute.{op_entry};
ghost use Rattle.record_kinds.specs.Series.{set_whole, get_next};

use crate::limits::Limits;
use bios_attr::bios_attribute::{BIOS, SET_CURRENT_VALUE};
use bios_attr::entry_parts::{BEFORE_ENTRY_VALUE, get_part, part_at};
use cfg_records::{Asked, Key, Op, RecordKind};
use pldm_base::MOST_WHOLE;
use record_base::SetBiosAttribute;
use two_wire::Below;

/// Whether the entry that sets an attribute goes in parts.
fn is_long(set: &SetBiosAttribute<'_>) -> bool
    ensures { result ≡ nat_lt most_whole (length (op_entry set.now)) }
{
    BEFORE_ENTRY_VALUE + set.value.as_slice().len() > MOST_WHOLE
}

/// The request of this place among those that set an attribute in parts.
fn part_of(op: &Op<'_>, place: u8) -> Option<Asked>
    ensures { (set : AnySet) → op.now ≡ op_as.BiosAttribute set
        → nat_lt most_whole (length (op_entry set)) ≡ true
        → result ≡ request_at (set_whole op.now) place }
{
    let whole = Limits::set_data(op);
    let part = part_at(whole.as_slice(), place)?;
    Some(Asked::pldm(Below::new(BIOS), SET_CURRENT_VALUE, part.as_slice()))
}

impl Limits<'_> {
    /// The request of this place, counted from 0, among those that carry the operation out. There is none past the last.
    pub fn set_next(op: &Op<'_>, place: u8) -> Option<Asked>
        ensures { result ≡ request_at (set_whole op.now) place }
    {
        if let Op::BiosAttribute(set) = op {
            if is_long(set) {
                return part_of(op, place);
            }
        }
        if place == 0 {
            return Some(Limits::set_asked(op));
        }
        None
    }

    /// The request for the part of a record behind so many bytes, where its Get goes in parts.
    pub fn get_next(key: &Key, transfer: u32) -> Option<Asked>
        ensures { result ≡ get_next key.now transfer }
    {
        match key {
            Key::BiosAttribute(handle) => Some(get_part(*handle, transfer)),
            _ => None,
        }
    }
}
