//! The calls of a manager.
ghost use Rattle.model_undo.specs.declared.call.Call.TheVariants.{Start, Quiet, Stop, Again, Undo};
ghost use Rattle.undo_core.specs.Shown.{CallStep};

use crate::entering::{step_stage, undo_stage};
use crate::manager::Manager;
use crate::sending::Sent;
use crate::stage::Stage;
use crate::{Phase, WrongPhase};

impl Manager {
    /// Begins the plan.
    pub fn start(&mut self) -> Result<Option<Sent>, WrongPhase>
        ensures { CallStep Start self.old self.new result }
    {
        let Stage::AtStart = self.stage else {
            return Err(WrongPhase);
        };
        self.stage = step_stage(&self.steps, false, 0);
        self.resent = 0;
        Ok(self.open_frames())
    }

    /// No reply came: sends the open request's frames again, or leaves it unsettled where that was done as often as it may be.
    pub fn quiet(&mut self) -> Result<Option<Sent>, WrongPhase>
        ensures { CallStep Quiet self.old self.new result }
    {
        let Stage::Opened { heeded, .. } = &mut self.stage else {
            return Err(WrongPhase);
        };
        if !*heeded {
            return Err(WrongPhase);
        }
        if self.resent >= self.retries.number() {
            *heeded = false;
            return Ok(None);
        }
        self.resent += 1;
        Ok(self.open_frames())
    }

    /// Halts the plan before the next Set.
    pub fn stop(&mut self) -> Result<Option<Sent>, WrongPhase>
        ensures { CallStep Stop self.old self.new result }
    {
        match self.stage.phase() {
            Phase::Getting(_) | Phase::Setting(_) => {
                self.stopped = true;
                Ok(None)
            }
            _ => Err(WrongPhase),
        }
    }

    /// Sends the unsettled request again, and heeds it again.
    pub fn again(&mut self) -> Result<Option<Sent>, WrongPhase>
        ensures { CallStep Again self.old self.new result }
    {
        let Stage::Opened { heeded, .. } = &mut self.stage else {
            return Err(WrongPhase);
        };
        if *heeded {
            return Err(WrongPhase);
        }
        *heeded = true;
        self.resent = 0;
        Ok(self.open_frames())
    }

    /// Begins the undo, once the plan ended or halted.
    pub fn undo(&mut self) -> Result<Option<Sent>, WrongPhase>
        ensures { CallStep Undo self.old self.new result }
    {
        if !self.stage.is_over() {
            return Err(WrongPhase);
        }
        self.joined.clear();
        self.stage = undo_stage(&self.undo.requests, self.undo.requests.len());
        self.resent = 0;
        Ok(self.open_frames())
    }
}
