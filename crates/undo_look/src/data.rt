//! The data that the replies of a look show so far.
ghost use Rattle.std.specs.Prelude.{◌≡◌, ◌+◌, ◌*◌, ◌≤◌, ◌<◌, ◌++◌, [], length, IfOk};
ghost use Rattle.pldm_base.specs.Parts.{part_length};
ghost use Rattle.bios_attr.specs.EntryParts.{before_part, most_entry, entry_in};
ghost use Rattle.undo_plans.specs.Fitting.{most_requests};
ghost use Rattle.undo_look.specs.Replies.{ended_with, joined_with};
ghost use Rattle.undo_look.specs.OpenGet.{most_joined};

use crate::target::Target;
use bios_attr::bios_attribute::START_AND_END;
use bios_attr::entry_parts::{BEFORE_PART, MOST_ENTRY, ends, entry_in};
use std::alloc::{AllocError, Global};
use std::marker::Model;

/// How many bytes the data have that show the longest entry. Any other look shows fewer.
const MOST_SHOWN: usize = BEFORE_PART + MOST_ENTRY;

/// The data that the replies of a look show so far. Their memory is taken once.
pub struct ShownData {
    bytes: Vec<u8>,
}

// Written out: the crates above would prove a derived one anew.
impl Drop for ShownData {
    fn drop(self) {
        let ShownData { bytes } = self;
        drop(bytes);
    }
}

impl Model for ShownData {
    ghost use Rattle.std.specs.Prelude.{List, ℕ, ◌+◌, ◌≤◌, length, vec_capacity};
    ghost use Rattle.bios_attr.specs.EntryParts.{before_part, most_entry};

    ghost Value = { List ℕ };

    ghost view = { λ d. d.bytes.items };

    ghost invariant = { λ d. (length d.bytes.items ≤ before_part + most_entry)
        × (before_part + most_entry ≤ vec_capacity d.bytes) };
}

impl ShownData {
    /// No data, and the memory for all.
    pub(crate) fn open(alloc: Global) -> Result<Self, AllocError>
        ensures { IfOk result (λ shown. shown ≡ []) }
    {
        Ok(ShownData {
            bytes: Vec::with_capacity(alloc, MOST_SHOWN)?,
        })
    }

    /// The data.
    pub(crate) fn as_slice(&self) -> &[u8]
        ensures { result.now ≡ self.now }
    {
        self.bytes.as_slice()
    }

    /// Drops the data.
    pub(crate) fn clear(&mut self)
        ensures { self.new ≡ [] }
    {
        self.bytes.clear();
    }

    /// Sets the data to these.
    fn set(&mut self, bytes: &[u8])
        requires { length bytes.now ≤ before_part + most_entry }
        ensures { self.new ≡ bytes.now }
    {
        self.bytes.clear();
        self.bytes.extend_from_slice(bytes).unwrap();
    }

    /// Adds the part of an entry that a reply shows.
    fn add(&mut self, body: &[u8])
        requires { length self.old + length (entry_in body.now) ≤ before_part + most_entry }
        ensures { self.new ≡ self.old ++ entry_in body.now }
    {
        self.bytes.extend_from_slice(entry_in(body)).unwrap();
    }

    /// Takes the part that a reply shows, which came after so many others, and behind which there are others.
    pub(crate) fn take(&mut self, parts: u8, body: &[u8])
        requires few { length self.old ≤ most_joined parts }
        requires room { part_length * parts + length (entry_in body.now) ≤ most_entry }
        ensures joined { self.new ≡ joined_with parts self.old body.now }
        ensures few { length self.new
            ≤ before_part + (part_length * parts + length (entry_in body.now)) }
    {
        if parts == 0 {
            self.set(&[0, 0, 0, 0, START_AND_END]);
        }
        self.add(body);
    }

    /// Takes the last reply of the look, which came after so many others. Where it doesn't show the last part, there are no data.
    pub(crate) fn end(&mut self, target: &Target, parts: u8, body: &[u8])
        requires most { parts < most_requests }
        requires few { length self.old ≤ most_joined parts }
        requires short { length body.now ≤ before_part + most_entry }
        ensures { self.new ≡ ended_with target.now parts self.old body.now }
    {
        if parts == 0 {
            self.set(target.shown_alone(body));
        } else if ends(parts + 1, body) {
            self.add(body);
        } else {
            self.bytes.clear();
        }
    }
}
