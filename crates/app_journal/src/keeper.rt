//! What keeps the journal of a manager that is driven.
ghost use Rattle.std.specs.Prelude.{◌≡◌, IfOk, string_bytes};
ghost use Rattle.app_journal.specs.Keeping.{IsJournalText, PutsWhereOther, has_open};

use crate::files::{WriteFault, WritesFiles};
use crate::undo_files::UndoFiles;
use bmc_ports::Observer;
use std::alloc::{AllocError, Global};
use std::mem::swap;
use text_journal::{journal_growth, write_journal, write_journal_into};
use undo_core::Manager;
use undo_plans::{JournalView, KeptStage};

/// The text that the file of a manager's journal has, and a string where the next one is written. Both have room for each text that the
/// manager's journal comes to have.
#[derive(Drop)]
pub struct JournalTexts {
    /// The text that the file has: the last one that was put.
    pub last: String,
    /// The text that was written last. Where that was put, it is the one before.
    pub written: String,
}

impl JournalTexts {
    /// Takes the room for the texts behind this one, of this journal.
    fn with_room(
        alloc: Global,
        text: String,
        journal: &JournalView<'_>,
    ) -> Result<JournalTexts, AllocError>
        ensures { IfOk result (λ texts. string_bytes texts.last ≡ string_bytes text) }
    {
        let mut last = text;
        last.reserve_exact(journal_growth(journal.steps))?;
        let written = String::with_capacity(alloc, last.capacity())?;
        Ok(JournalTexts { last, written })
    }

    /// Those of a manager's journal, of which the file gets the text next.
    pub fn of(alloc: Global, manager: &Manager) -> Result<JournalTexts, AllocError>
        ensures { IfOk result (λ texts. IsJournalText (string_bytes texts.last) manager.now) }
    {
        let journal = manager.journal();
        let text = write_journal(alloc, &journal)?;
        JournalTexts::with_room(alloc, text, &journal)
    }

    /// Those of a file that has this text, of this manager's journal.
    pub fn of_file(alloc: Global, text: &str, manager: &Manager) -> Result<JournalTexts, AllocError>
        ensures { IfOk result (λ texts. string_bytes texts.last ≡ text.now) }
    {
        let text = String::from_str(alloc, text)?;
        JournalTexts::with_room(alloc, text, &manager.journal())
    }

    /// Has the journal's file get the text that was written, unless it has it.
    fn put<F: WritesFiles>(&mut self, beside: &UndoFiles, files: &mut F) -> Result<(), WriteFault>
        ensures { PutsWhereOther F.takes F.renames beside.now (string_bytes self.old.written)
            result (string_bytes self.old.last) (string_bytes self.new.last) files.old files.new }
    {
        if self.last.as_str() == self.written.as_str() {
            return Ok(());
        }
        match beside.put(files, self.written.as_str()) {
            Ok(()) => {
                swap(&mut self.last, &mut self.written);
                Ok(())
            }
            Err(why) => Err(why),
        }
    }
}

/// Keeps the journal of a manager: before the manager's frames go out the journal's file gets it.
#[derive(Drop)]
pub struct JournalKeeper<'a, F: WritesFiles> {
    pub files: &'a mut F,
    pub beside: &'a UndoFiles,
    pub texts: &'a mut JournalTexts,
}

/// Whether a request is open at this stage.
fn has_open(stage: &KeptStage) -> bool
    ensures { result ≡ has_open stage.now }
{
    matches!(stage, KeptStage::Open { .. })
}

impl<F: WritesFiles> Observer for JournalKeeper<'_, F> {
    ghost use Rattle.std.specs.Prelude.{◌≡◌, string_bytes};
    ghost use Rattle.app_journal.specs.Keeping.{KeepsJournal};

    ghost sees = { λ old manager allowed new. KeepsJournal F.takes F.renames old.beside.now
        manager allowed (string_bytes old.texts.now.last) (string_bytes new.texts.now.last)
        old.files.now new.files.now
        × (new.beside ≡ old.beside) × (new.files.ghost_name ≡ old.files.ghost_name) };

    fn look(&mut self, manager: &Manager) -> bool {
        let journal = manager.journal();
        let open = has_open(&journal.stage);
        match write_journal_into(&mut self.texts.written, &journal) {
            Ok(()) => match self.texts.put(self.beside, self.files) {
                Ok(()) => true,
                Err(_) => !open,
            },
            Err(AllocError) => !open,
        }
    }
}
