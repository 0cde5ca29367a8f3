//! The premise on packets, watched while a schedule is played.
ghost use Rattle.std.specs.Prelude.{◌≡◌, ◌<◌, ◌≤◌, ℕ, suc, slice_get, Some, None, OnOk};
ghost use Rattle.two_wire.specs.Circles.{tags};
ghost use Rattle.two_wire.specs.declared.Bus.{Bus as AnyBus};
ghost use Rattle.lab_run.specs.Shown.{EventStep, CanCountOn, idles_in};
ghost use Rattle.lab_run.specs.Hearing.{EventResult};
ghost use Rattle.lab_play.specs.Watched.{took_by, waits_long, opened_in, broken_at, WatchesStep};

use bmc_core::{Disposition, Reason};
use lab_run::{Lab, ManagerPart, Refused};
use model_bus::span;
use text_lines::Event;
use two_wire::Bus;
use two_wire::circles::TAGS;

/// The number of tags, as a length.
const COUNT: usize = TAGS as usize;

/// What is known of the packets of the manager that wait at the controller's port.
#[derive(Clone, Copy)]
pub struct Watch {
    /// Under each tag, the request whose start came last to the port.
    opened: [usize; COUNT],
    /// The place of the first event at which a packet joined one that had waited too long, counted from 1.
    pub broken: Option<usize>,
}

/// Whether the port took the packet that came to it: it went to the port, and wasn't dropped.
fn took(done: Option<Disposition>) -> bool
    ensures { result ≡ took_by done }
{
    match done {
        None | Some(Disposition::Ignored(Reason::NotOurs | Reason::Dropped(_))) => false,
        Some(_) => true,
    }
}

impl Watch {
    /// Nothing waits.
    pub fn new() -> Watch
        ensures none { result.broken ≡ None }
        ensures opened { (tag : ℕ) → tag < tags → slice_get result.opened tag ≡ Some 0 }
    {
        Watch {
            opened: [0; COUNT],
            broken: None,
        }
    }

    /// Whether what waits under the tag of a packet that comes is of a request than which too many newer ones were begun.
    pub fn waits_long(&self, part: &ManagerPart, begun: usize) -> bool
        ensures { result ≡ waits_long self.now.opened part.now.tag begun }
    {
        let opened = self.opened[usize::from(part.tag.number())];
        begun.saturating_sub(opened) > span(Bus::Smbus)
    }

    /// A packet came to the port.
    fn opens(&mut self, part: &ManagerPart)
        ensures opened { self.new.opened ≡ opened_in part.now self.old.opened }
        ensures broken { self.new.broken ≡ self.old.broken }
        ensures low { part.now.tag < tags }
    {
        let tag = usize::from(part.tag.number());
        if part.start && part.ours {
            self.opened[tag] = part.request;
        }
    }

    /// A packet came to the port at the event of this place, when so many requests had been begun, and the port took it or not.
    fn hears(&mut self, part: ManagerPart, begun: usize, taken: bool, place: usize)
        ensures opened { self.new.opened ≡ opened_in part self.old.opened }
        ensures broken { self.new.broken ≡ broken_at self.old part begun taken place }
        ensures low { part.tag < tags }
    {
        let starts = part.start;
        let is_late = self.waits_long(&part, begun);
        if self.broken.is_none() && !starts && taken && is_late {
            self.broken = Some(place);
        }
        self.opens(&part);
    }
}

/// One event happens in a lab, and the premise is watched. On a fault nothing changes.
pub fn step_watched(
    lab: &mut Lab,
    watch: &mut Watch,
    event: &Event,
    place: usize,
) -> Result<(), Refused>
    requires { CanCountOn lab.now.idles }
    ensures steps { EventStep event.now lab.old result lab.new }
    ensures done { OnOk result (EventResult event.now lab.old lab.new) }
    ensures few { (on : AnyBus) → idles_in on lab.new.idles ≤ suc (idles_in on lab.old.idles) }
    ensures watched { WatchesStep event.now place lab.old watch.old result watch.new }
{
    let part = lab.part(event);
    let begun = lab.begun(Bus::Smbus);
    lab.step(event)?;
    if let Some(part) = part {
        watch.hears(part, begun, took(lab.done(event)), place);
    }
    Ok(())
}
