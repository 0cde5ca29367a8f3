//! Schedules, with a note of each event.
ghost use Rattle.std.specs.Prelude.{◌≡◌, ◌≤◌, suc, [], None};
ghost use Rattle.two_wire.specs.declared.Bus.{Bus as AnyBus};
ghost use Rattle.lab_run.specs.Shown.{EventStep, CanCountOn, idles_in};
ghost use Rattle.lab_play.specs.Runs.{RunsEvents};
ghost use Rattle.lab_play.specs.Noted.{NotesStep, NotesRun};
ghost use Rattle.lab_play.specs.Watched.{WatchesStep, WatchesRun};

use crate::run::{Stopped, stopped_at};
use crate::watch::{Watch, step_watched};
use lab_run::{Lab, Note, Refused};
use std::alloc::AllocError;
use text_lines::Event;

/// One event happens in a lab, the premise on packets is watched, and the event's note is added. On a fault nothing changes.
pub(crate) fn step_noted<'a>(
    lab: &mut Lab,
    watch: &mut Watch,
    event: &'a Event,
    place: usize,
    notes: &mut Vec<Note<'a>>,
) -> Result<(), Refused>
    requires { CanCountOn lab.now.idles }
    ensures steps { EventStep event.now lab.old result lab.new }
    ensures few { (on : AnyBus) → idles_in on lab.new.idles ≤ suc (idles_in on lab.old.idles) }
    ensures noted { NotesStep event.now lab.old result notes.old.items notes.new.items }
    ensures watched { WatchesStep event.now place lab.old watch.old result watch.new }
{
    let came = lab.came(event);
    let before = lab.frames().len();
    step_watched(lab, watch, event, place)?;
    let note = Note {
        event,
        came,
        done: lab.done(event),
        sends: lab.bus_of(before),
        before,
        after: lab.frames().len(),
        phase: lab.phase(),
    };
    match notes.push(note) {
        Ok(()) => Ok(()),
        Err(_) => Err(Refused::Memory),
    }
}

/// The events happen in a lab, up to the first that isn't taken, which is given, the premise on packets is watched, and each event is noted.
pub(crate) fn run_noted<'a>(
    lab: &mut Lab,
    watch: &mut Watch,
    events: &'a [Event],
    notes: &mut Vec<Note<'a>>,
) -> Result<Option<Stopped>, AllocError>
    requires idles { (on : AnyBus) → idles_in on lab.now.idles ≡ 0 }
    requires empty { notes.now.items ≡ [] }
    requires unbroken { watch.now.broken ≡ None }
    ensures runs { RunsEvents events.now lab.old result lab.new }
    ensures watched { WatchesRun events.now lab.old watch.old result watch.new }
    ensures noted { NotesRun events.now lab.old result notes.new.items }
{
    for (place, event) in events.iter().enumerate() {
        let place = place + 1;
        if let Err(why) = step_noted(lab, watch, event, place, notes) {
            return stopped_at(place, why);
        }
    }
    Ok(None)
}
