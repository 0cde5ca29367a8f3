//! What is kept of a manager.
ghost use Rattle.std.specs.Prelude.{◌≡◌, ◌≤◌};
ghost use Rattle.two_wire.specs.Retries.{most_retries};
ghost use Rattle.undo_plans.specs.Journals.{kept_of};
ghost use Rattle.undo_core.specs.Shown.{ForRepresented};
ghost use Rattle.undo_core.specs.Journals.{kept_by, IsJournalOf};

use crate::manager::Manager;
use undo_plans::{Counts, JournalView};

impl Manager {
    /// The manager's journal, where it lies: what is to be kept of it, so that it can be made again once its process ended. It stays the same at
    /// `quiet`, `again` and `stop`, and takes no memory.
    pub fn journal(&self) -> JournalView<'_>
        ensures kept { kept_of result ≡ kept_by self.now }
        ensures shown { ForRepresented self.now (λ names s.
            IsJournalOf names (kept_of result) s) }
        ensures few { result.retries ≤ most_retries }
    {
        let stage = self.stage.kept();
        JournalView {
            steps: &self.steps,
            retries: self.retries.number(),
            names: &self.names,
            listed: &self.undo.names,
            stage,
            stopped: stage.stopped(self.stopped),
            requests: &self.undo.requests,
            counts: Counts {
                ipmb: self.counts.ipmb,
                smbus: self.counts.smbus,
            },
            replies: stage.replies(self.replies.as_slice()),
        }
    }
}
