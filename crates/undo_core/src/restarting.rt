//! A manager that is made again.
ghost use Rattle.undo_core.specs.Shown.{IsRemade};

use crate::manager::Manager;
use crate::stage::{Stage, Task};

impl Manager {
    /// Makes of it the manager that is made again once its process ended: nothing waits at it, an open request is unsettled, and a plan is to
    /// stop.
    pub fn restart(&mut self)
        ensures { IsRemade self.old self.new }
    {
        self.joined.clear();
        let Stage::Opened { heeded, task, .. } = &mut self.stage else {
            return;
        };
        *heeded = false;
        self.resent = self.retries.number();
        match task {
            Task::Gets(_) | Task::Sets(_) => self.stopped = true,
            Task::Undoes(_) => {}
        }
    }
}
