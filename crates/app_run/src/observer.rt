//! What looks at a manager while it is driven.
ghost use Rattle.std.specs.Prelude.{◌≡◌};
ghost use Rattle.app_run.specs.Progress.{EndsLine};

use crate::progress::{PlanOutline, Progress, Snapshot};
use app_journal::{JournalKeeper, WritesFiles};
use bmc_ports::Observer;
use std::alloc::Global;
use std::io;
use undo_core::Manager;

/// Tells where a manager is, on a line of its own.
#[derive(Drop)]
pub struct ProgressWriter<'a, P: io::Write> {
    pub alloc: Global,
    pub progress: &'a mut Progress<P>,
    pub course: PlanOutline<'a>,
}

impl<P: io::Write> ProgressWriter<'_, P> {
    /// Ends the line, where one was written.
    pub fn end(&mut self)
        ensures ends { EndsLine P.contents self.old.progress.now self.new.progress.now }
        ensures same_line { self.new.progress.ghost_name ≡ self.old.progress.ghost_name }
    {
        self.progress.end_line();
    }
}

impl<P: io::Write> Observer for ProgressWriter<'_, P> {
    ghost use Rattle.std.specs.Prelude.{◌≡◌, true};
    ghost use Rattle.app_run.specs.Told.{LooksOn};

    ghost sees = { λ old manager allowed new. (allowed ≡ true)
        × LooksOn P.contents old.course.kinds.now old.course.steps
        old.progress.now manager new.progress.now
        × (new.course ≡ old.course) × (new.progress.ghost_name ≡ old.progress.ghost_name) };

    fn look(&mut self, manager: &Manager) -> bool {
        let now = Snapshot {
            phase: manager.phase(),
            resent: manager.resent(),
        };
        self.progress.show(self.alloc, self.course, now);
        true
    }
}

/// Looks at a manager that runs its plan: its journal is kept, and then the line of its progress is written, whether frames go out or not.
#[derive(Drop)]
pub struct RunWatch<'a, 'b, F: WritesFiles, P: io::Write> {
    pub keeper: JournalKeeper<'a, F>,
    pub teller: ProgressWriter<'b, P>,
}

impl<F: WritesFiles, P: io::Write> RunWatch<'_, '_, F, P> {
    /// Ends the line of the progress, where one was written.
    pub fn end(&mut self)
        ensures kept { self.new.keeper ≡ self.old.keeper }
        ensures ends { EndsLine P.contents self.old.teller.progress.now
            self.new.teller.progress.now }
        ensures same_line { self.new.teller.progress.ghost_name
            ≡ self.old.teller.progress.ghost_name }
    {
        self.teller.end();
    }
}

impl<F: WritesFiles, P: io::Write> Observer for RunWatch<'_, '_, F, P> {
    ghost use Rattle.std.specs.Prelude.{◌≡◌, string_bytes};
    ghost use Rattle.app_journal.specs.Keeping.{KeepsJournal};
    ghost use Rattle.app_run.specs.Told.{LooksOn};

    ghost sees = { λ old manager allowed new. KeepsJournal F.takes F.renames
        old.keeper.beside.now manager allowed
        (string_bytes old.keeper.texts.now.last) (string_bytes new.keeper.texts.now.last)
        old.keeper.files.now new.keeper.files.now
        × (new.keeper.beside ≡ old.keeper.beside)
        × LooksOn P.contents old.teller.course.kinds.now old.teller.course.steps
        old.teller.progress.now manager new.teller.progress.now
        × (new.teller.course ≡ old.teller.course)
        × (new.keeper.files.ghost_name ≡ old.keeper.files.ghost_name)
        × (new.teller.progress.ghost_name ≡ old.teller.progress.ghost_name) };

    fn look(&mut self, manager: &Manager) -> bool {
        let allowed = self.keeper.look(manager);
        self.teller.look(manager);
        allowed
    }
}
