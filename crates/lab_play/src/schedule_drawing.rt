//! A lab in which a schedule comes about: each event that is offered to it happens at once, or is left out.
ghost use Rattle.std.specs.Prelude.{◌≡◌, ◌≤◌, ◌<◌, suc, [], length, false, slice_get, OnOk, IfOk};
ghost use Rattle.cfg_records.specs.declared.board_file.BoardFile.{BoardFile as AnyFile};
ghost use Rattle.model_lab.specs.Lab.{Lab as LabModel, opening};
ghost use Rattle.model_lab.specs.Meaning.{lab_names as the_names};
ghost use Rattle.model_lab.specs.Played.{plans};
ghost use Rattle.model_headline.specs.Plays.{KeepsPremise};
ghost use Rattle.lab_run.specs.Shown.{Represents};
ghost use Rattle.lab_play.specs.Watched.{WatchRepresents};
ghost use Rattle.lab_play.specs.Drawn.{IsDrawnSchedule, HasFew, NotTaken, OffersEvent, delivery_of};

use crate::watch::{Watch, step_watched};
use cfg_records::BoardFile;
use lab_run::{Fault, Lab, Refused, SentFrame, Way};
use std::alloc::{AllocError, Global};
use text_lines::{Event, has_line};
use two_wire::Bus;
use undo_plans::Plan;

/// The event that delivers the frame of this number, if it goes to the port or to the manager.
pub(crate) fn delivery(frames: &[SentFrame], number: u32) -> Option<Event>
    ensures { result ≡ delivery_of number (slice_get frames.now number) }
{
    let frame = frames.get(number as usize)?;
    match frame.way {
        Way::ToPort => Some(Event::ToBmc(number)),
        Way::ToManager => Some(Event::ToMgr(number)),
        Way::ToOthers => None,
    }
}

/// What came of an event that was offered.
#[derive(Clone, Copy)]
pub(crate) enum OfferResult {
    /// The event happened.
    Taken,
    /// The lab doesn't take it.
    Faulty(Fault),
    /// The event isn't asked of the lab: a packet would join one that waits too long, or no line says it.
    LeftOut,
}

/// A lab, and the events that happened in it.
pub(crate) struct Drawing {
    pub lab: Box<Lab>,
    pub watch: Watch,
    /// Whether a packet may join one that waits too long.
    pub late: bool,
    pub events: Vec<Event>,
}

/// Whether the event may bring a packet that joins one which waits too long.
fn may_join_late(lab: &Lab, watch: &Watch, event: &Event) -> bool
    ensures { result ≡ false → (file : AnyFile) (x : LabModel plans)
        → Represents file lab.now x → WatchRepresents watch.now x → KeepsPremise file x event.now }
{
    let Some(part) = lab.part(event) else {
        return false;
    };
    let _ = part.tag.number();
    let waits = watch.waits_long(&part, lab.begun(Bus::Smbus));
    !part.start && waits
}

/// What comes of an event that the lab didn't take.
fn not_taken(why: Refused) -> Result<OfferResult, AllocError>
    ensures { NotTaken why result }
{
    match why {
        Refused::Fault(fault) => Ok(OfferResult::Faulty(fault)),
        Refused::Memory => Err(AllocError),
    }
}

impl Drawing {
    /// A lab as it begins.
    pub fn open(
        alloc: Global,
        file: BoardFile,
        plan: Plan,
        late: bool,
    ) -> Result<Drawing, AllocError>
        ensures drawn { IfOk result
            (λ drawing. IsDrawnSchedule file (opening plans file the_names plan.steps plan.retries) drawing) }
        ensures late { IfOk result (λ drawing. drawing.late ≡ late) }
        ensures empty { IfOk result (λ drawing. drawing.events.items ≡ []) }
        ensures few { IfOk result HasFew }
    {
        Ok(Drawing {
            lab: Lab::open(alloc, file, plan)?,
            watch: Watch::new(),
            late,
            events: Vec::new(alloc),
        })
    }

    /// The events that happened. The lab's memory is given back.
    pub fn into_events(self) -> Vec<Event>
        ensures { result.items ≡ self.events.items }
    {
        let Drawing {
            lab,
            watch: _,
            late: _,
            events,
        } = self;
        drop(lab);
        events
    }

    /// The event happens, where the lab takes it and the premise on packets stays kept, and else nothing does.
    pub fn offer(&mut self, event: Event) -> Result<OfferResult, AllocError>
        requires few { HasFew self.old }
        requires short { length self.old.events.items < 10000000 }
        ensures offered { IfOk result (λ offer. OffersEvent event self.old offer self.new) }
        ensures few { OnOk result (HasFew self.new) }
        ensures short { OnOk result (length self.new.events.items
            ≤ suc (length self.old.events.items)) }
    {
        if !has_line(&event) {
            drop(event);
            return Ok(OfferResult::LeftOut);
        }
        if !self.late && may_join_late(&self.lab, &self.watch, &event) {
            drop(event);
            return Ok(OfferResult::LeftOut);
        }
        let place = self.events.len() + 1;
        match step_watched(&mut self.lab, &mut self.watch, &event, place) {
            Ok(()) => {
                self.events.push(event)?;
                Ok(OfferResult::Taken)
            }
            Err(why) => {
                drop(event);
                not_taken(why)
            }
        }
    }
}
