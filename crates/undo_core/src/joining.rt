//! The replies to a Get that goes in parts.
ghost use Rattle.std.specs.Prelude.{◌≡◌, ◌+◌, ◌*◌, ◌≤◌, ◌<◌, ◌++◌, ◌∷◌, [], length, IfOk};
ghost use Rattle.pldm_base.specs.Parts.{part_length};
ghost use Rattle.bios_attr.specs.EntryParts.{before_part, most_entry, entry_in, no_handle, start_and_end};
ghost use Rattle.undo_plans.specs.Fitting.{most_requests};
ghost use Rattle.undo_core.specs.Joining.{JoinsNext, JoinsLast, most_joined};

use bios_attr::bios_attribute::START_AND_END;
use bios_attr::entry_parts::{BEFORE_PART, MOST_ENTRY, ends, entry_in};
use std::alloc::{AllocError, Global};
use std::marker::Model;

/// How many bytes the data have that show the longest entry.
const MOST_SHOWN: usize = BEFORE_PART + MOST_ENTRY;

/// The data that replies to a Get show together: those of a whole entry, as far as its parts came. Their memory is taken once.
pub struct JoinedReplies {
    bytes: Vec<u8>,
}

// Written out: the crates above would prove a derived one anew.
impl Drop for JoinedReplies {
    fn drop(self) {
        let JoinedReplies { bytes } = self;
        drop(bytes);
    }
}

impl Model for JoinedReplies {
    ghost use Rattle.std.specs.Prelude.{List, ℕ, ◌+◌, ◌≤◌, length, vec_capacity};
    ghost use Rattle.bios_attr.specs.EntryParts.{before_part, most_entry};

    ghost Value = { List ℕ };

    ghost view = { λ r. r.bytes.items };

    ghost invariant = { λ r. (length r.bytes.items ≤ before_part + most_entry)
        × (before_part + most_entry ≤ vec_capacity r.bytes) };
}

impl JoinedReplies {
    /// No data, and the memory for all.
    pub(crate) fn open(alloc: Global) -> Result<Self, AllocError>
        ensures { IfOk result (λ replies. replies ≡ []) }
    {
        Ok(JoinedReplies {
            bytes: Vec::with_capacity(alloc, MOST_SHOWN)?,
        })
    }

    /// These data, and the memory for all.
    pub(crate) fn of(alloc: Global, bytes: &[u8]) -> Result<Self, AllocError>
        requires { length bytes.now ≤ before_part + most_entry }
        ensures { IfOk result (λ replies. replies ≡ bytes.now) }
    {
        let mut replies = JoinedReplies::open(alloc)?;
        replies.bytes.extend_from_slice(bytes).unwrap();
        Ok(replies)
    }

    /// The data.
    pub(crate) fn as_slice(&self) -> &[u8]
        ensures value { result.now ≡ self.now }
        ensures few { length result.now ≤ before_part + most_entry }
    {
        self.bytes.as_slice()
    }

    /// Begins the data anew.
    fn begin(&mut self)
        ensures { self.new ≡ no_handle ++ start_and_end ∷ [] }
    {
        self.bytes.clear();
        self.bytes
            .extend_from_slice(&[0, 0, 0, 0, START_AND_END])
            .unwrap();
    }

    /// Adds the part of the entry that a reply shows.
    fn add(&mut self, body: &[u8])
        requires { length self.old + length (entry_in body.now) ≤ before_part + most_entry }
        ensures { self.new ≡ self.old ++ entry_in body.now }
    {
        self.bytes.extend_from_slice(entry_in(body)).unwrap();
    }

    /// Takes the part that a reply shows, which came after so many others, and behind which there are others.
    pub(crate) fn take(&mut self, parts: u8, body: &[u8])
        requires few { length self.old ≤ most_joined parts }
        requires room { part_length * parts + length (entry_in body.now) ≤ most_entry }
        ensures joined { JoinsNext parts self.old body.now self.new }
        ensures few { length self.new
            ≤ before_part + (part_length * parts + length (entry_in body.now)) }
    {
        if parts == 0 {
            self.begin();
        }
        self.add(body);
    }

    /// Takes the last reply, which came after so many others. Where it doesn't show the last part, there are no data.
    pub(crate) fn end(&mut self, parts: u8, body: &[u8])
        requires some { 0 < parts }
        requires most { parts < most_requests }
        requires few { length self.old ≤ most_joined parts }
        ensures { JoinsLast parts self.old body.now self.new }
    {
        if ends(parts + 1, body) {
            self.add(body);
        } else {
            self.bytes.clear();
        }
    }
}
