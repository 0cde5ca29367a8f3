//! The list of a board's changed records, where one is asked for.
ghost use Rattle.std.specs.Prelude.{◌≡◌, ◌++◌, Bool, IfOk, OnOk, string_bytes};
ghost use Rattle.std.specs.List.{flat_map};
ghost use Rattle.text_lines.specs.Cuts.{ended};
ghost use Rattle.cfg_records.specs.declared.board_file.BoardFile.{BoardFile as AnyFile};
ghost use Rattle.report_words.specs.Changes.{IsListOf, listed};

use crate::first_records::FirstRecords;
use cfg_records::{BoardFile, Store};
use std::alloc::{AllocError, Global};

/// A list of a board's changed records, where one is asked for. Without one nothing is kept, and nothing is written.
#[derive(Drop)]
pub struct ChangeList {
    first: Option<FirstRecords>,
}

impl ChangeList {
    /// That of the board of a file, where it is asked for.
    pub fn of(alloc: Global, asked: bool, file: &BoardFile) -> Result<ChangeList, AllocError>
        ensures { IfOk result (IsListOf asked file.now) }
    {
        if !asked {
            return Ok(ChangeList { first: None });
        }
        Ok(ChangeList {
            first: Some(FirstRecords::of(alloc, file)?),
        })
    }

    /// Adds a line for each record that has another value in the store than it began with, in the board's order, where the list is asked for.
    pub fn push<S: Store>(&self, text: &mut String, store: &S) -> Result<(), AllocError>
        ensures { (asked : Bool) (file : AnyFile) → IsListOf asked file self.now
            → OnOk result (string_bytes text.new ≡ string_bytes text.old
            ++ flat_map ended (listed asked file (S.records store.now))) }
    {
        match &self.first {
            Some(first) => first.push_changes(text, store),
            None => Ok(()),
        }
    }
}
