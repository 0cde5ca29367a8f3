//! The calls of a looker.
ghost use Rattle.undo_look.specs.Looks.{IsCalled, again_at, begin_at, quiet_at, state_of};

use crate::looker::{Looker, WrongPhase};
use crate::requests::numbers_after;
use crate::stage::Stage;
use crate::target::Target;
use two_wire::Frame;

impl Looker {
    /// Begins a look at this, behind a look that came to its end, or whose open request isn't heeded: that is given up, and its number
    /// isn't used again.
    pub fn begin(&mut self, target: &Target) -> Result<Option<Frame>, WrongPhase>
        ensures { IsCalled self.old self.new result
            (begin_at (state_of self.old) target.now self.old.stage) }
    {
        if self.awaits().is_some() {
            return Err(WrongPhase);
        }
        if let Some(bus) = self.open_bus() {
            self.next = numbers_after(self.next, bus);
        }
        self.joined.clear();
        self.shown.clear();
        self.stage = Stage::Opened {
            heeded: true,
            target: *target,
            parts: 0,
            asked: target.first_asked(),
        };
        self.resent = 0;
        Ok(self.open_frame())
    }

    /// No answer came: sends the open request again, or heeds it no more where that was done as often as it may be.
    pub fn quiet(&mut self) -> Result<Option<Frame>, WrongPhase>
        ensures { IsCalled self.old self.new result
            (quiet_at (state_of self.old) self.old.stage) }
    {
        let Stage::Opened { heeded, .. } = &mut self.stage else {
            return Err(WrongPhase);
        };
        if !*heeded {
            return Err(WrongPhase);
        }
        if self.resent >= self.retries.number() {
            *heeded = false;
            return Ok(None);
        }
        self.resent += 1;
        Ok(self.open_frame())
    }

    /// Sends the request that isn't heeded again, and heeds it again.
    pub fn again(&mut self) -> Result<Option<Frame>, WrongPhase>
        ensures { IsCalled self.old self.new result
            (again_at (state_of self.old) self.old.stage) }
    {
        let Stage::Opened { heeded, .. } = &mut self.stage else {
            return Err(WrongPhase);
        };
        if *heeded {
            return Err(WrongPhase);
        }
        *heeded = true;
        self.resent = 0;
        Ok(self.open_frame())
    }
}
