//! The file that gets an undo text, and the files beside it.
ghost use Rattle.std.specs.Prelude.{◌≡◌, IfOk, OnErr, string_bytes};
ghost use Rattle.text_lines.specs.UndoText.{text_of};
ghost use Rattle.app_journal.specs.Beside.{GivesUndo, IsBeside, IsLock, IsOwn, IsStem, IsStream, PutsPart, RemovesPart};

use crate::files::{HoldFault, WriteFault, WritesFiles};
use std::alloc::{AllocError, Global};
use text_lines::write_undo;
use undo_plans::UndoList;

/// The words that name the file of an undo text and those beside it.
#[derive(Drop)]
pub struct UndoFiles {
    /// The word of the file that gets the undo text, once the plan is over.
    pub undo: String,
    /// The file that has the journal.
    pub part: String,
    /// The file that is written first.
    pub next: String,
    /// The file that a process holds. It is never renamed, and never removed.
    pub lock: String,
    /// The undo text goes to a FIFO or a device. Then there are no files beside it.
    pub is_stream: bool,
}

/// The word without `.part` at its end.
fn stem_of(word: &str) -> &str
    ensures { IsStem word.now result.now }
{
    match word.strip_suffix(".part") {
        Some(stem) => stem,
        None => word,
    }
}

/// The word of the file that a process holds for this one. A journal has that of the undo text which it lies beside.
fn lock_of(alloc: Global, word: &str) -> Result<String, AllocError>
    ensures { IfOk result (IsLock word.now) }
{
    let stem = stem_of(word);
    format!(in alloc; "{stem}.lock")
}

impl UndoFiles {
    /// The words beside this one.
    pub fn of(alloc: Global, word: &str) -> Result<UndoFiles, AllocError>
        ensures { IfOk result (IsBeside word.now) }
    {
        let undo = String::from_str(alloc, word)?;
        let part = format!(in alloc; "{word}.part")?;
        let next = format!(in alloc; "{word}.next")?;
        let lock = lock_of(alloc, word)?;
        Ok(UndoFiles {
            undo,
            part,
            next,
            lock,
            is_stream: false,
        })
    }

    /// The words beside that of a file which has a journal itself.
    pub fn of_journal(alloc: Global, word: &str) -> Result<UndoFiles, AllocError>
        ensures { IfOk result (IsOwn word.now) }
    {
        let undo = String::from_str(alloc, word)?;
        let part = String::from_str(alloc, word)?;
        let next = format!(in alloc; "{word}.next")?;
        let lock = lock_of(alloc, word)?;
        Ok(UndoFiles {
            undo,
            part,
            next,
            lock,
            is_stream: false,
        })
    }

    /// The word of a FIFO or a device alone.
    pub fn of_stream(alloc: Global, word: &str) -> Result<UndoFiles, AllocError>
        ensures { IfOk result (IsStream word.now) }
    {
        let undo = String::from_str(alloc, word)?;
        Ok(UndoFiles {
            undo,
            part: String::new(alloc),
            next: String::new(alloc),
            lock: String::new(alloc),
            is_stream: true,
        })
    }

    /// Has the file of the journal get this text, by its name alone, where there is one.
    pub fn put<F: WritesFiles>(&self, files: &mut F, text: &str) -> Result<(), WriteFault>
        ensures { PutsPart F.takes F.renames self.now text.now files.old result files.new }
    {
        if self.is_stream {
            return Ok(());
        }
        let next = self.next.as_str();
        match files.write(next, text) {
            Ok(()) => files.rename(next, self.part.as_str()),
            Err(why) => Err(why),
        }
    }

    /// Has the file of the undo text get this text, by its name alone, or the FIFO or the device. The journal stays.
    fn give_undo<F: WritesFiles>(&self, files: &mut F, text: &str) -> Result<(), WriteFault>
        ensures { GivesUndo F.WritesFiles self.now text.now files.old result files.new }
    {
        let undo = self.undo.as_str();
        if self.is_stream {
            return files.pour(undo, text);
        }
        let next = self.next.as_str();
        match files.write(next, text) {
            Ok(()) => files.rename(next, undo),
            Err(why) => Err(why),
        }
    }

    /// Has it get the text of this list.
    pub fn put_undo<F: WritesFiles>(
        &self,
        alloc: Global,
        files: &mut F,
        list: &UndoList,
    ) -> Result<Result<(), WriteFault>, AllocError>
        ensures put { IfOk result (λ answer. GivesUndo F.WritesFiles self.now (text_of list.now)
            files.old answer files.new) }
        ensures memory { OnErr result (files.new ≡ files.old) }
    {
        let text = write_undo(alloc, list)?;
        Ok(self.give_undo(files, text.as_str()))
    }

    /// Has the journal's file removed, where there is one.
    pub fn remove_part<F: WritesFiles>(&self, files: &mut F) -> Result<(), WriteFault>
        ensures { RemovesPart F.removes self.now files.old result files.new }
    {
        if self.is_stream {
            return Ok(());
        }
        files.remove(self.part.as_str())
    }

    /// Holds the file that one process at a time holds.
    pub fn hold<F: WritesFiles>(&self, files: &mut F) -> Result<(), HoldFault>
        ensures { F.holds files.old (string_bytes self.now.lock) result files.new }
    {
        files.hold(self.lock.as_str())
    }
}
