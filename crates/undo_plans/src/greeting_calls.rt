//! The calls of a greeting.
ghost use Rattle.std.specs.Prelude.{◌≡◌, ◌+◌};
ghost use Rattle.undo_plans.specs.GreetingRequests.{IsGreetingFrame};
ghost use Rattle.undo_plans.specs.Greeter.{place_after, begins, IsStepResult, IsCalled, start_at, quiet_at, again_at};

use crate::greeting::{Greeting, GreetingStage, WrongStage};
use crate::greeting_places::place_after;
use crate::greeting_requests::frame_at;
use two_wire::Frame;

impl Greeting {
    /// Begins the first request.
    pub fn start(&mut self) -> Result<Option<Frame>, WrongStage>
        ensures { IsCalled self.old self.new result (start_at self.old self.old.stage) }
    {
        let GreetingStage::AtStart = self.stage else {
            return Err(WrongStage);
        };
        Ok(self.begin_after(0))
    }

    /// No answer came: sends the open request again, or heeds it no more where that was done as
    /// often as it may be.
    pub fn quiet(&mut self) -> Result<Option<Frame>, WrongStage>
        ensures { IsCalled self.old self.new result (quiet_at self.old self.old.stage) }
    {
        let GreetingStage::Opened {
            heeded: true,
            place,
        } = self.stage
        else {
            return Err(WrongStage);
        };
        if self.resent >= self.retries.number() {
            self.stage = GreetingStage::Opened {
                heeded: false,
                place,
            };
            return Ok(None);
        }
        self.resent += 1;
        Ok(Some(self.frame(place)))
    }

    /// Sends the request that isn't heeded again, and heeds it again.
    pub fn again(&mut self) -> Result<Option<Frame>, WrongStage>
        ensures { IsCalled self.old self.new result (again_at self.old self.old.stage) }
    {
        let GreetingStage::Opened {
            heeded: false,
            place,
        } = self.stage
        else {
            return Err(WrongStage);
        };
        self.stage = GreetingStage::Opened {
            heeded: true,
            place,
        };
        self.resent = 0;
        Ok(Some(self.frame(place)))
    }

    /// Begins the request of the first place above this one. Where there is none, the greeting was
    /// answered.
    pub(crate) fn begin_after(&mut self, place: u8) -> Option<Frame>
        ensures { IsStepResult self.new result (begins self.old (place_after self.old.bus place)) }
    {
        self.resent = 0;
        let Some(place) = place_after(self.bus, place) else {
            self.stage = GreetingStage::Answered;
            return None;
        };
        self.stage = GreetingStage::Opened {
            heeded: true,
            place,
        };
        Some(self.frame(place))
    }

    /// How many requests of the manager come before the request of this place, by the number with
    /// which they go on.
    pub(crate) fn count(&self, place: u8) -> u16
        ensures { result ≡ self.now.next + place }
    {
        u16::from(self.next) + u16::from(place)
    }

    /// The frame of the request of this place.
    fn frame(&self, place: u8) -> Frame
        ensures { IsGreetingFrame self.now.names self.now.bus (self.now.next + place) result }
    {
        frame_at(&self.names, self.bus, self.count(place))
    }
}
