//! The manager's restart.
ghost use Rattle.std.specs.Prelude.{◌≡◌, ◌≢◌, ◌<◌, IfOk, IfErr, Err};
ghost use Rattle.two_wire.specs.Retries.{most_retries};
ghost use Rattle.undo_plans.specs.Journals.{kept_in};
ghost use Rattle.undo_core.specs.Shown.{IsRemade};
ghost use Rattle.undo_core.specs.Journals.{kept_by};
ghost use Rattle.lab_run.specs.Makes.{restarts};
ghost use Rattle.lab_run.specs.Shown.{StepUnlessMemory};

use crate::lab_state::Lab;
use std::alloc::{AllocError, Global};
use std::mem::replace;
use text_journal::{JournalTextFault, read_journal, write_journal};
use undo_core::{Manager, ResumeFault};
use undo_plans::Journal;

/// The journal of a manager, written as its text and read again.
fn kept_journal(alloc: Global, manager: &Manager) -> Result<Journal, AllocError>
    ensures { IfOk result (λ journal. kept_in journal.contents ≡ kept_by manager.now) }
{
    let text = write_journal(alloc, &manager.journal())?;
    match read_journal(alloc, text.as_str()) {
        Ok(journal) => Ok(journal),
        Err(JournalTextFault::Memory) => Err(AllocError),
        Err(JournalTextFault::Line(_)) => unreachable!(),
    }
}

/// The manager that is made anew of the text of this one's journal.
fn revived(alloc: Global, manager: &Manager) -> Result<Manager, ResumeFault>
    ensures remade { IfOk result (λ new. IsRemade manager.now new) }
    ensures retries { result ≡ Err ResumeFault.Retries → most_retries < manager.now.retries }
    ensures names { result ≢ Err ResumeFault.OtherNames }
{
    let Ok(journal) = kept_journal(alloc, manager) else {
        return Err(ResumeFault::Memory);
    };
    let names = journal.contents.names.copy();
    Manager::revive(alloc, journal, names)
}

impl Lab {
    /// The manager's process ends: the manager is written as the text of its journal, and another is made of that text in its place. Where
    /// memory is refused nothing changes, since the first is dropped once there is another. It fails in no other way, since the retries of a
    /// manager are none above `MOST_RETRIES`.
    pub fn restart(&mut self, alloc: Global) -> Result<(), ResumeFault>
        ensures becomes { StepUnlessMemory result self.old self.new restarts }
        ensures beside { self.new ≡ record self.old { manager = self.new.manager } }
        ensures refused { IfErr result (λ _. self.new ≡ self.old) }
        ensures retries { result ≡ Err ResumeFault.Retries
            → most_retries < self.old.manager.retries }
        ensures names { result ≢ Err ResumeFault.OtherNames }
    {
        let manager = revived(alloc, &self.manager)?;
        drop(replace(&mut self.manager, manager));
        Ok(())
    }
}
