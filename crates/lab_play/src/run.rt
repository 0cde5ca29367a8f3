//! Schedules.
ghost use Rattle.std.specs.Prelude.{◌≡◌, None};
ghost use Rattle.two_wire.specs.declared.Bus.{Bus as AnyBus};
ghost use Rattle.lab_run.specs.Shown.{idles_in};
ghost use Rattle.lab_play.specs.Runs.{IsStop, RunsEvents};
ghost use Rattle.lab_play.specs.Watched.{WatchesRun};

use crate::watch::{Watch, step_watched};
use lab_run::{Fault, Lab, Refused};
use std::alloc::AllocError;
use text_lines::Event;

/// The event that a lab didn't take.
#[derive(Clone, Copy)]
pub struct Stopped {
    /// The event's place among all events, counted from 1.
    pub place: usize,
    pub fault: Fault,
}

/// What is given of a schedule whose event of this place isn't taken.
pub(crate) fn stopped_at(place: usize, why: Refused) -> Result<Option<Stopped>, AllocError>
    ensures { IsStop place why result }
{
    match why {
        Refused::Memory => Err(AllocError),
        Refused::Fault(fault) => Ok(Some(Stopped { place, fault })),
    }
}

/// The events happen in a lab, up to the first that isn't taken, which is given, and the premise on packets is watched.
pub(crate) fn run(
    lab: &mut Lab,
    watch: &mut Watch,
    events: &[Event],
) -> Result<Option<Stopped>, AllocError>
    requires idles { (on : AnyBus) → idles_in on lab.now.idles ≡ 0 }
    requires unbroken { watch.now.broken ≡ None }
    ensures runs { RunsEvents events.now lab.old result lab.new }
    ensures watched { WatchesRun events.now lab.old watch.old result watch.new }
{
    for (place, event) in events.iter().enumerate() {
        let place = place + 1;
        if let Err(why) = step_watched(lab, watch, event, place) {
            return stopped_at(place, why);
        }
    }
    Ok(None)
}
