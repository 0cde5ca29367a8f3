//! Clean schedules: each frame is delivered once, as soon as it was sent.
ghost use Rattle.std.specs.Prelude.{◌≡◌, ◌≤◌, ◌<◌, ◌+◌, [], true, length, IfOk, OnOk};
ghost use Rattle.model_lab.specs.Faults.{most_frames};
ghost use Rattle.lab_play.specs.Drawn.{CarriesCall, DeliversAll, HasFew};
ghost use Rattle.lab_play.specs.Made.{IsMade, MakesClean};
ghost use Rattle.lab_play.specs.declared.schedule_making.Links.TheVariants as links;

use crate::schedule_drawing::{Drawing, OfferResult, delivery};
use cfg_records::BoardFile;
use lab_run::MOST_FRAMES;
use model_undo::Call;
use std::alloc::{AllocError, Global};
use text_lines::Event;
use undo_plans::Plan;

/// No lab sends so many frames.
const MOST_NUMBER: u32 = MOST_FRAMES as u32;

impl Drawing {
    /// The frames from this number on are delivered, each once and in their order, until none is left.
    fn deliver_from(&mut self, first: u32) -> Result<(), AllocError>
        requires few { HasFew self.old }
        requires short { length self.old.events.items < 1000000 }
        ensures delivers { OnOk result (DeliversAll first self.old self.new) }
        ensures few { OnOk result (HasFew self.new) }
        ensures short { OnOk result (length self.new.events.items
            ≤ length self.old.events.items + most_frames) }
    {
        for number in first..MOST_NUMBER {
            let Some(event) = delivery(self.lab.frames(), number) else {
                return Ok(());
            };
            match self.offer(event)? {
                OfferResult::Taken => {}
                // No event of a clean schedule has a fault, or no line.
                OfferResult::Faulty(_) => return Ok(()),
                OfferResult::LeftOut => return Ok(()),
            }
        }
        Ok(())
    }

    /// The manager is called, and all frames that are sent from then on are delivered.
    fn carry_out(&mut self, call: Call) -> Result<(), AllocError>
        requires few { HasFew self.old }
        requires short { length self.old.events.items < 100000 }
        ensures carries { OnOk result (CarriesCall call self.old self.new) }
        ensures few { OnOk result (HasFew self.new) }
        ensures short { OnOk result (length self.new.events.items
            ≤ length self.old.events.items + most_frames + 1) }
    {
        // No lab sends so many frames.
        let Ok(first) = u32::try_from(self.lab.frames().len()) else {
            return Ok(());
        };
        match self.offer(Event::Calls(call))? {
            OfferResult::Taken => self.deliver_from(first),
            // A clean schedule's call has no fault, and a line.
            OfferResult::Faulty(_) => Ok(()),
            OfferResult::LeftOut => Ok(()),
        }
    }

    /// The plan is started and, where that is wanted, undone.
    fn run_cleanly(&mut self, undo: bool) -> Result<(), AllocError>
        requires few { HasFew self.old }
        requires empty { self.old.events.items ≡ [] }
        requires late { self.old.late ≡ true }
        ensures { OnOk result (MakesClean undo self.old self.new) }
    {
        self.carry_out(Call::Start)?;
        if undo {
            self.carry_out(Call::Undo)?;
        }
        Ok(())
    }
}

/// The events of a clean schedule.
pub(crate) fn clean_events(
    alloc: Global,
    file: BoardFile,
    plan: Plan,
    undo: bool,
) -> Result<Vec<Event>, AllocError>
    ensures { IfOk result
        (λ events. IsMade file plan.steps plan.retries
        (record { links = links.Clean; undo = undo }) events.items) }
{
    let _steps = plan.steps.len();
    let mut drawing = Drawing::open(alloc, file, plan, true)?;
    let run = drawing.run_cleanly(undo);
    let events = drawing.into_events();
    match run {
        Ok(()) => Ok(events),
        Err(error) => Err(error),
    }
}
