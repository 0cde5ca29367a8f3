//! What requesters have staged of entries that come in parts.
ghost use Rattle.std.specs.Prelude.{◌≡◌, ◌<◌, ◌≤◌, ◌+◌, ◌++◌, Err, MatchOption, IfOk, IfSome, IsOkAnd, [], length, find};
ghost use Rattle.std.specs.Option.{option_copied};
ghost use Rattle.two_wire.specs.Codes.{pldm_invalid_data};
ghost use Rattle.bios_attr.specs.EntryParts.{most_entry};
ghost use Rattle.record_kinds.specs.Stagings.{most_stagings, is_by, staged_by, without, with_staged};
ghost use Rattle.record_kinds.specs.StagingsLaws.{BeginsEntry};

use crate::entry::{Entry, check_first, check_last, check_middle, op_in};
use bios_attr::AttributeLimits;
use record_base::SetBiosAttribute;
use std::alloc::{AllocError, Global};
use std::marker::Model;
use two_wire::Code;
use two_wire::code::{PLDM_ERROR, PLDM_INVALID_ATTRIBUTE, PLDM_INVALID_DATA};

/// How many requesters can have a staging at once.
pub const MOST_STAGINGS: usize = 8;

/// What a requester has staged of an entry.
#[derive(Drop)]
pub struct Staging {
    /// The requester, by its byte.
    pub from: u8,
    /// The bytes so far.
    pub entry: Entry,
}

/// What requesters have staged, at most `MOST_STAGINGS` of them. It is seen as the list of this, in the order in which each was last added
/// to. All its memory is taken when it is made.
#[derive(Drop)]
pub struct Stagings {
    kept: Vec<Staging>,
}

/// What is staged, and these bytes behind it.
fn joined(staged: &Entry, bytes: &[u8]) -> Entry
    requires { length staged.now + length bytes.now ≤ most_entry }
    ensures { result ≡ staged.now ++ bytes.now }
{
    let mut entry = staged.copy();
    entry.extend_from_slice(bytes);
    entry
}

impl Model for Stagings {
    ghost use Rattle.std.specs.Vec.{vec_capacity};
    ghost use Rattle.record_kinds.specs.Stagings.{StagedParts};
    ghost use Rattle.record_kinds.specs.StagingsLaws.{AreSoundStagings};

    ghost Value = { StagedParts };

    ghost view = { λ s. s.kept.items };

    ghost invariant = { λ s. AreSoundStagings (vec_capacity s.kept) s.kept.items };
}

impl Stagings {
    ghost use Rattle.record_kinds.specs.Stagings.{start_outcome, add_outcome, end_outcome, PartLeaves};

    /// Nothing is staged.
    pub fn opening(alloc: Global) -> Result<Self, AllocError>
        ensures { IfOk result (λ s. s ≡ []) }
    {
        Ok(Stagings {
            kept: Vec::with_capacity(alloc, MOST_STAGINGS)?,
        })
    }

    /// The requester's staging.
    fn staging(&self, from: u8) -> Option<&Staging>
        ensures kept { option_copied result ≡ find (is_by from) self.now }
        ensures begun { IfSome result (λ staging. BeginsEntry staging.now.entry) }
    {
        self.kept.iter().find(|staging| staging.from == from)
    }

    /// What the requester has staged, or the code that refuses a later part without it.
    fn staged(&self, from: u8) -> Result<&Entry, Code>
        ensures value { MatchOption (staged_by from self.now) (result ≡ Err pldm_invalid_data)
            (λ entry. IsOkAnd result (λ staged. staged.now ≡ entry)) }
        ensures begun { IfOk result (λ staged. BeginsEntry staged.now) }
        ensures room { IfOk result (λ _. length (without from self.now) < most_stagings) }
    {
        let _ = &self.kept;
        match self.staging(from) {
            Some(staging) => Ok(&staging.entry),
            None => Err(PLDM_INVALID_DATA),
        }
    }

    /// How many other requesters have a staging.
    fn others(&self, from: u8) -> usize
        ensures { result ≡ length (without from self.now) }
    {
        self.kept
            .iter()
            .filter(|staging| staging.from != from)
            .count()
    }

    /// Keeps these bytes as what the requester has staged, in place of others.
    fn keep(&mut self, from: u8, entry: Entry)
        requires room { length (without from self.old) < most_stagings }
        requires begun { BeginsEntry entry }
        ensures { self.new ≡ with_staged from entry self.old }
    {
        self.end(from);
        self.kept.push_reserved(Staging { from, entry });
    }

    /// Carries out a first part, where an attribute with these limits takes it: the handle of the part behind it.
    pub fn start(
        &mut self,
        limits: Option<&AttributeLimits>,
        from: u8,
        entry: &[u8],
    ) -> Result<u32, Code>
        ensures { PartLeaves from
            (start_outcome (option_copied limits.entry) self.old from entry.now)
            result self.old self.new }
    {
        let Some(limits) = limits else {
            return Err(PLDM_INVALID_ATTRIBUTE);
        };
        check_first(limits, entry)?;
        if self.others(from) >= MOST_STAGINGS {
            return Err(PLDM_ERROR);
        }
        self.keep(from, Entry::from_slice(entry));
        Ok(entry.len() as u32)
    }

    /// Carries out a part between the first and the last: the handle of the part behind it.
    pub fn add(&mut self, from: u8, handle: u32, bytes: &[u8]) -> Result<u32, Code>
        ensures { PartLeaves from (add_outcome self.old from handle bytes.now)
            result self.old self.new }
    {
        let staged = self.staged(from)?;
        check_middle(staged.as_slice(), handle, bytes)?;
        let entry = joined(staged, bytes);
        let count = entry.len() as u32;
        self.keep(from, entry);
        Ok(count)
    }

    /// The operation of the whole entry, which the last part ends. Its bytes are joined in the caller's place, whatever that had. The
    /// staging stays until `end`.
    pub fn ended<'e>(
        &self,
        from: u8,
        handle: u32,
        bytes: &[u8],
        place: &'e mut Entry,
    ) -> Result<SetBiosAttribute<'e>, Code>
        ensures { result ≡ end_outcome self.now from handle bytes.now }
    {
        let staged = self.staged(from)?;
        check_last(staged.as_slice(), handle, bytes)?;
        place.replace(staged.as_slice());
        place.extend_from_slice(bytes);
        Ok(op_in(place.as_slice()))
    }

    /// The requester has nothing staged any more.
    pub fn end(&mut self, from: u8)
        ensures { self.new ≡ without from self.old }
    {
        self.kept.retain(|staging| staging.from != from);
    }
}
