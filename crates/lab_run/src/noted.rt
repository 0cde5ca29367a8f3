//! What is noted of an event.
ghost use Rattle.std.specs.Prelude.{◌≡◌, Some, None, IfSome, IfNone, slice_get, option_map};
ghost use Rattle.lab_run.specs.Shown.{ForRepresented};
ghost use Rattle.lab_run.specs.Coming.{comes, comes_at, done_in};

use crate::frames::SentFrame;
use crate::lab_state::Lab;
use crate::note::Delivery;
use bmc_core::Disposition;
use text_lines::Event;
use two_wire::Bus;

impl Lab {
    /// The frame of this number, which comes, if there is such a frame.
    fn coming(&self, number: u32) -> Option<Delivery>
        ensures { ForRepresented self.now (λ _ x.
            result ≡ option_map (comes x) (slice_get x.frames number)) }
    {
        let Some(frame) = self.frames.get(number) else {
            return None;
        };
        let mark = frame.mark;
        let begun = self.manager.begun(mark.on);
        Some(Delivery {
            on: mark.on,
            late: begun.saturating_sub(mark.request) > 1,
        })
    }

    /// The frame that the event delivers, if there is such a frame.
    pub fn came(&self, event: &Event) -> Option<Delivery>
        ensures { ForRepresented self.now (λ _ x. result ≡ comes_at x event.now) }
    {
        match event {
            Event::ToBmc(number) | Event::ToMgr(number) => self.coming(*number),
            _ => None,
        }
    }

    /// The frame of this number, if there is such a frame.
    fn frame_at(&self, number: usize) -> Option<&SentFrame>
        ensures some { IfSome result (λ frame.
            slice_get self.now.frames number ≡ Some frame.now) }
        ensures none { IfNone result (slice_get self.now.frames number ≡ None) }
    {
        self.frames.as_slice().get(number)
    }

    /// The bus of the frame of this number, if there is such a frame.
    pub fn bus_of(&self, number: usize) -> Option<Bus>
        ensures { ForRepresented self.now (λ _ x.
            result ≡ option_map (λ f. f.on) (slice_get x.frames number)) }
    {
        let Some(frame) = self.frame_at(number) else {
            return None;
        };
        Some(frame.mark.on)
    }

    /// What the controller did with the frame that the event delivered, after the event.
    pub fn done(&self, event: &Event) -> Option<Disposition>
        ensures { result ≡ done_in event.now self.now }
    {
        match event {
            Event::ToBmc(_) => Some(self.out.done),
            _ => None,
        }
    }
}
