//! Schedules that a lab makes of itself.
ghost use Rattle.std.specs.Prelude.{◌≡◌, [], IfOk, OnOk};
ghost use Rattle.lab_play.specs.Drawn.{HasFew, StaysDrawn};
ghost use Rattle.lab_play.specs.Made.{IsMade};

use crate::chance::Chances;
use crate::clean_schedule::clean_events;
use crate::schedule_drawing::{Drawing, OfferResult};
use crate::traffic::Traffic;
use cfg_records::BoardFile;
use lab_run::Fault;
use std::alloc::{AllocError, Global};
use text_lines::Event;
use undo_plans::Plan;

/// How often something is offered to a lab at most.
const MOST_OFFERS: usize = 1_000_000;

/// What the buses of a schedule do.
#[derive(Clone, Copy)]
pub enum Links {
    /// Nothing is lost, repeated or delayed, and nobody else asks.
    Clean,
    /// What is drawn, of these chances.
    Drawn(Chances),
}

/// The schedule that is wanted.
#[derive(Clone, Copy)]
pub struct ScheduleOptions {
    pub links: Links,
    /// Whether the plan is undone once it is done or halted.
    pub undo: bool,
}

/// Whether the lab has no room for what was offered.
fn is_full(offer: OfferResult) -> bool {
    matches!(offer, OfferResult::Faulty(Fault::Room))
}

/// What the traffic draws is offered to the lab, until nothing is open or the lab has no more room.
fn draw(alloc: Global, drawing: &mut Drawing, mut traffic: Traffic) -> Result<(), AllocError>
    requires few { HasFew drawing.old }
    requires empty { drawing.old.events.items ≡ [] }
    ensures stays { OnOk result (StaysDrawn drawing.old drawing.new) }
    ensures late { OnOk result (drawing.new.late ≡ drawing.old.late) }
{
    for _offered in 0..MOST_OFFERS {
        let Some(event) = traffic.next(alloc, &drawing.lab)? else {
            return Ok(());
        };
        if is_full(drawing.offer(event)?) {
            return Ok(());
        }
    }
    Ok(())
}

/// The events that are drawn, until nothing is open or the lab has no more room.
fn drawn_events(
    alloc: Global,
    file: BoardFile,
    plan: Plan,
    undo: bool,
    chances: Chances,
) -> Result<Vec<Event>, AllocError>
    ensures { IfOk result
        (λ events. IsMade file plan.steps plan.retries
        (record { links = Links.Drawn chances; undo = undo }) events.items) }
{
    let mut drawing = Drawing::open(alloc, file, plan, chances.late_joins)?;
    let drawn = draw(alloc, &mut drawing, Traffic::new(alloc, undo, chances));
    let events = drawing.into_events();
    match drawn {
        Ok(()) => Ok(events),
        Err(error) => Err(error),
    }
}

/// The schedule that is wanted of a plan on a board. A play takes each of its events. No packet joins one that waits too long, unless that is
/// allowed. Over clean links each frame is delivered as soon as it was sent, and else it ends once nothing is open.
pub fn make_schedule(
    alloc: Global,
    file: BoardFile,
    plan: Plan,
    wanted: ScheduleOptions,
) -> Result<Vec<Event>, AllocError>
    ensures { IfOk result (λ events. IsMade file plan.steps plan.retries wanted events.items) }
{
    let ScheduleOptions { links, undo } = wanted;
    match links {
        Links::Clean => clean_events(alloc, file, plan, undo),
        Links::Drawn(chances) => drawn_events(alloc, file, plan, undo, chances),
    }
}
