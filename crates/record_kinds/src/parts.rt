//! The Sets of attributes whose values come in parts.
ghost use Rattle.std.specs.Prelude.{◌≡◌, ◌+◌, ◌≤◌, ◌++◌, length};
ghost use Rattle.std.specs.Int.{w32, to_le_bytes};
ghost use Rattle.two_wire.specs.Sizes.{most_pldm_reply_data};
ghost use Rattle.record_kinds.specs.Stagings.{after_part, add_outcome};
ghost use Rattle.record_kinds.specs.Sound.{AreSoundRecords};
ghost use Rattle.record_kinds.specs.Gives.{AppendsReply};
ghost use Rattle.record_kinds.specs.SetParts.{named_in, limits_named, started, staged_answer, is_last};

use crate::entry::Entry;
use crate::kept::KeptRecords;
use crate::set_part::SetPart;
use crate::setup::Setup;
use crate::stagings::Stagings;
use bios_attr::AttributeLimits;
use cfg_records::{Live, Op, Store, byte_at};
use record_base::SetBiosAttribute;
use two_wire::{Buffer, Code};

/// The attribute that an entry names.
fn named_in(entry: &[u8]) -> u16
    ensures { result ≡ named_in entry.now }
{
    u16::from_le_bytes([byte_at(entry, 0), byte_at(entry, 1)])
}

/// What can be done with the attribute of this handle.
fn limits_named(setup: &Setup, handle: u16) -> Option<AttributeLimits>
    ensures { result ≡ limits_named setup.now handle }
{
    let attribute = setup.attribute(handle)?;
    Some(AttributeLimits::of(handle, attribute))
}

/// Whether the part is the last of its Set, which alone changes a record.
pub fn is_last(part: &SetPart<'_>) -> bool
    ensures { result ≡ is_last part.now }
{
    matches!(part, SetPart::End(..))
}

/// Appends the handle of the part behind one that was staged.
fn show_next<B: Buffer>(next: u32, to: &mut B)
    requires { length (B.bytes to.old) + most_pldm_reply_data ≤ B.capacity }
    ensures { B.bytes to.new ≡ B.bytes to.old ++ to_le_bytes w32 next }
{
    to.extend_from_slice(&next.to_le_bytes());
}

/// Stages the first part of an entry.
fn start_set<B: Buffer>(
    setup: &Setup,
    stagings: &mut Stagings,
    from: u8,
    entry: &[u8],
    to: &mut B,
) -> Result<(), Code>
    requires room { length (B.bytes to.old) + most_pldm_reply_data ≤ B.capacity }
    ensures answer { AppendsReply B.bytes result to.old to.new
        (staged_answer (started setup.now stagings.old from entry.now)) }
    ensures staged { stagings.new
        ≡ after_part from (started setup.now stagings.old from entry.now) stagings.old }
{
    let limits = limits_named(setup, named_in(entry));
    let next = stagings.start(limits.as_ref(), from, entry)?;
    show_next(next, to);
    Ok(())
}

/// Stages a part that has others before it and behind it.
fn add_to_set<B: Buffer>(
    stagings: &mut Stagings,
    from: u8,
    handle: u32,
    bytes: &[u8],
    to: &mut B,
) -> Result<(), Code>
    requires room { length (B.bytes to.old) + most_pldm_reply_data ≤ B.capacity }
    ensures answer { AppendsReply B.bytes result to.old to.new
        (staged_answer (add_outcome stagings.old from handle bytes.now)) }
    ensures staged { stagings.new
        ≡ after_part from (add_outcome stagings.old from handle bytes.now) stagings.old }
{
    let next = stagings.add(from, handle, bytes)?;
    show_next(next, to);
    Ok(())
}

impl<S: Store> KeptRecords<S> {
    ghost use Rattle.std.specs.Prelude.{OnErr, false};
    ghost use Rattle.record_kinds.specs.Keeps.{settable, whole_set_given};
    ghost use Rattle.record_kinds.specs.SetParts.{part_given_at};

    /// Carries out the Set of a whole entry, which came in parts: then nothing of its requester is staged any more.
    fn end_set<B: Buffer>(
        &mut self,
        setup: &Setup,
        change: SetBiosAttribute<'_>,
        live: &mut Live,
        stagings: &mut Stagings,
        from: u8,
        to: &mut B,
    ) -> Result<(), Code>
        requires sound { AreSoundRecords setup.now (S.records self.old.store) }
        requires room { length (B.bytes to.old) + most_pldm_reply_data ≤ B.capacity }
        ensures answer { AppendsReply B.bytes result to.old to.new
            (whole_set_given setup.now from
            (settable (S.records self.old.store) live.old stagings.old) change.entry).0 }
        ensures left { settable (S.records self.new.store) live.new stagings.new
            ≡ (whole_set_given setup.now from
            (settable (S.records self.old.store) live.old stagings.old) change.entry).1 }
        ensures still { AreSoundRecords setup.now (S.records self.new.store) }
        ensures refused { OnErr result (S.records self.new.store ≡ S.records self.old.store) }
    {
        self.set(setup, &Op::BiosAttribute(change), live, to)?;
        stagings.end(from);
        Ok(())
    }

    /// Carries out the requester's part of a Set, and appends what it replies. The parts are joined here, and stay here.
    #[inline(never)]
    pub fn set_part<B: Buffer>(
        &mut self,
        setup: &Setup,
        part: SetPart<'_>,
        live: &mut Live,
        stagings: &mut Stagings,
        from: u8,
        to: &mut B,
    ) -> Result<(), Code>
        requires sound { AreSoundRecords setup.now (S.records self.old.store) }
        requires room { length (B.bytes to.old) + most_pldm_reply_data ≤ B.capacity }
        ensures answer { AppendsReply B.bytes result to.old to.new
            (part_given_at setup.now from
            (settable (S.records self.old.store) live.old stagings.old) part.entry).0 }
        ensures left { settable (S.records self.new.store) live.new stagings.new
            ≡ (part_given_at setup.now from
            (settable (S.records self.old.store) live.old stagings.old) part.entry).1 }
        ensures still { AreSoundRecords setup.now (S.records self.new.store) }
        // A refusal changes no record, and neither does a part with others behind it.
        ensures refused { OnErr result (S.records self.new.store ≡ S.records self.old.store) }
        ensures earlier { is_last part.entry ≡ false
            → S.records self.new.store ≡ S.records self.old.store }
    {
        match part {
            SetPart::Start(entry) => start_set(setup, stagings, from, entry.as_slice(), to),
            SetPart::Middle(handle, bytes) => {
                add_to_set(stagings, from, handle, bytes.as_slice(), to)
            }
            SetPart::End(handle, bytes) => {
                let mut place = Entry::new();
                let change = stagings.ended(from, handle, bytes.as_slice(), &mut place)?;
                self.end_set(setup, change, live, stagings, from, to)
            }
        }
    }
}
