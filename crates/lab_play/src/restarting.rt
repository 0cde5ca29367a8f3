//! Schedules in which the manager's process ends, and the manager is made again.
ghost use Rattle.std.specs.Prelude.{◌≡◌, ◌≤◌, suc, [], None};
ghost use Rattle.two_wire.specs.declared.Bus.{Bus as AnyBus};
ghost use Rattle.lab_run.specs.Shown.{CanCountOn, idles_in};
ghost use Rattle.lab_play.specs.Restarts.{is_among};
ghost use Rattle.lab_play.specs.Restarting.{TurnStep, RunsTurns, WatchesTurn, WatchesRunTurns, NotesRunTurns};
ghost use Rattle.lab_play.specs.Noted.{NotesStep};

use crate::noted::step_noted;
use crate::run::{Stopped, stopped_at};
use crate::watch::Watch;
use lab_run::{Lab, Note, Refused};
use std::alloc::{AllocError, Global};
use text_lines::Event;

/// Whether the place is one of those.
pub fn has_place(places: &[usize], place: usize) -> bool
    ensures { result ≡ is_among places.now place }
{
    places.iter().any(|other| *other == place)
}

/// One event happens in a lab, the premise on packets is watched, and the event's note is added; behind the event the manager is made again if the
/// event's place is one of those. On a fault nothing changes.
fn step_restarting<'a>(
    alloc: Global,
    lab: &mut Lab,
    watch: &mut Watch,
    event: &'a Event,
    place: usize,
    places: &[usize],
    notes: &mut Vec<Note<'a>>,
) -> Result<(), Refused>
    requires { CanCountOn lab.now.idles }
    ensures steps { TurnStep places.now place event.now lab.old result lab.new }
    ensures few { (on : AnyBus) → idles_in on lab.new.idles ≤ suc (idles_in on lab.old.idles) }
    ensures noted { NotesStep event.now lab.old result notes.old.items notes.new.items }
    ensures watched { WatchesTurn places.now place event.now lab.old watch.old result watch.new }
{
    step_noted(lab, watch, event, place, notes)?;
    if !has_place(places, place) {
        return Ok(());
    }
    match lab.restart(alloc) {
        Ok(()) => Ok(()),
        Err(_) => Err(Refused::Memory),
    }
}

/// The events happen in a lab, up to the first that isn't taken, which is given, the premise on packets is watched, each event is noted, and behind
/// the events of those places the manager is made again.
pub(crate) fn run_restarting<'a>(
    alloc: Global,
    lab: &mut Lab,
    watch: &mut Watch,
    events: &'a [Event],
    places: &[usize],
    notes: &mut Vec<Note<'a>>,
) -> Result<Option<Stopped>, AllocError>
    requires idles { (on : AnyBus) → idles_in on lab.now.idles ≡ 0 }
    requires empty { notes.now.items ≡ [] }
    requires unbroken { watch.now.broken ≡ None }
    ensures runs { RunsTurns places.now events.now lab.old result lab.new }
    ensures watched { WatchesRunTurns places.now events.now lab.old watch.old result watch.new }
    ensures noted { NotesRunTurns places.now events.now lab.old result notes.new.items }
{
    for (place, event) in events.iter().enumerate() {
        let place = place + 1;
        if let Err(why) = step_restarting(alloc, lab, watch, event, place, places, notes) {
            return stopped_at(place, why);
        }
    }
    Ok(None)
}
