//! What the columns of an event hold.
ghost use Rattle.std.specs.Prelude.{◌≡◌, ◌++◌, ◌-◌, List, OnOk, IfOk, string_bytes};
ghost use Rattle.app_play.specs.Chart.{call_cell, arrow, word_if, came_cell, comes_cell, more_text, lost_text, sent_cell, sends_cell, done_word, done_cell};
ghost use Rattle.lab_run.specs.declared.note.Note.{Note as AnyNote};
ghost use Rattle.app_play.specs.Arrivals.{HoldsNotes};

use crate::arrivals::Arrivals;
use bmc_core::Disposition;
use lab_run::{Delivery, Note};
use std::alloc::{AllocError, Global};
use text_lines::{Event, call_name};
use two_wire::Bus;

/// The call, where the manager is called.
pub(crate) fn call_cell(event: &Event) -> &'static str
    ensures { result.now ≡ call_cell event.now }
{
    match event {
        Event::Calls(call) => call_name(*call),
        _ => "",
    }
}

/// To which end a frame goes.
#[derive(Clone, Copy)]
pub(crate) enum Side {
    Manager,
    Controller,
}

/// The way of a frame that goes to this end.
fn arrow(to: Side, on: Bus) -> &'static str
    ensures { result.now ≡ arrow to on }
{
    match (to, on) {
        (Side::Controller, Bus::Ipmb) => "->",
        (Side::Controller, Bus::Smbus) => "=>",
        (Side::Manager, Bus::Ipmb) => "<-",
        (Side::Manager, Bus::Smbus) => "<=",
    }
}

/// The word, where it holds.
fn word_if(holds: bool, word: &'static str) -> &'static str
    ensures { result.now ≡ word_if holds word.now }
{
    if holds { word } else { "" }
}

/// A frame that came to an end, and had come before or not.
fn came_cell(
    alloc: Global,
    to: Side,
    number: u32,
    came: Option<Delivery>,
    copy: bool,
) -> Result<String, AllocError>
    ensures { IfOk result (λ cell. string_bytes cell ≡ came_cell to number came copy) }
{
    let mut cell = String::new(alloc);
    let Some(came) = came else {
        return Ok(cell);
    };
    let arrow = arrow(to, came.on);
    let late = word_if(came.late, " late");
    let copy = word_if(copy, " copy");
    write!(cell, "{arrow}{number}{late}{copy}")?;
    Ok(cell)
}

/// What comes, after what came earlier.
pub(crate) fn comes_cell(
    alloc: Global,
    earlier: &Arrivals,
    note: &Note,
) -> Result<String, AllocError>
    ensures { (notes : List AnyNote) → HoldsNotes earlier.now notes
        → IfOk result
        (λ cell. string_bytes cell ≡ comes_cell notes note.now.came note.now.event.now) }
{
    let word = match note.event {
        Event::ToBmc(number) => {
            let copy = earlier.has(*number as usize);
            return came_cell(alloc, Side::Controller, *number, note.came, copy);
        }
        Event::ToMgr(number) => {
            let copy = earlier.has(*number as usize);
            return came_cell(alloc, Side::Manager, *number, note.came, copy);
        }
        Event::Calls(_) => "",
        Event::OtherIpmb(_) => "->other",
        Event::OtherSmbus(_) => "=>other",
        other => other.name(),
    };
    String::from_str(alloc, word)
}

/// Adds how many frames there are behind the first.
fn push_more(cell: &mut String, more: usize) -> Result<(), AllocError>
    ensures { OnOk result (string_bytes cell.new ≡ string_bytes cell.old ++ more_text more) }
{
    match more {
        0 => Ok(()),
        _ => write!(cell, "+{more}"),
    }
}

/// Adds how many frames are lost, of the first and so many more.
fn push_lost(cell: &mut String, more: usize, lost: usize) -> Result<(), AllocError>
    ensures { OnOk result (string_bytes cell.new ≡ string_bytes cell.old ++ lost_text more lost) }
{
    match (more, lost) {
        (_, 0) => Ok(()),
        (0, _) => cell.push_str(" lost"),
        (_, _) => write!(cell, " {lost} lost"),
    }
}

/// The frames that an event sent to this end, and how many of them are lost.
fn sent_cell(alloc: Global, to: Side, note: &Note, lost: usize) -> Result<String, AllocError>
    ensures { IfOk result
        (λ cell. string_bytes cell
        ≡ sent_cell to note.now.sends note.now.before (note.now.after - note.now.before) lost) }
{
    let mut cell = String::new(alloc);
    let count = note.after.saturating_sub(note.before);
    let Some(on) = note.sends else {
        return Ok(cell);
    };
    if count == 0 {
        return Ok(cell);
    }
    let more = count - 1;
    let arrow = arrow(to, on);
    let first = note.before;
    write!(cell, "{arrow}{first}")?;
    push_more(&mut cell, more)?;
    push_lost(&mut cell, more, lost)?;
    Ok(cell)
}

/// What is sent, where these frames came at all events.
pub(crate) fn sends_cell(alloc: Global, all: &Arrivals, note: &Note) -> Result<String, AllocError>
    ensures { (notes : List AnyNote) → HoldsNotes all.now notes
        → IfOk result (λ cell. string_bytes cell ≡ sends_cell notes note.now note.now.event.now) }
{
    let lost = all.lost(note.before, note.after);
    match note.event {
        Event::Calls(_) | Event::ToMgr(_) => sent_cell(alloc, Side::Controller, note, lost),
        Event::ToBmc(_) => sent_cell(alloc, Side::Manager, note, lost),
        _ => sent_cell(alloc, Side::Manager, note, 0),
    }
}

/// What the controller did.
fn done_word(done: Disposition) -> &'static str
    ensures { result.now ≡ done_word done }
{
    match done {
        Disposition::Answered => "answers",
        Disposition::Repeated => "kept",
        Disposition::Busy => "busy",
        Disposition::Waiting => "waits",
        Disposition::Control => "control",
        Disposition::Ignored(_) => "ignored",
    }
}

/// What the controller did with what came to it, if something did.
pub(crate) fn done_cell(done: Option<Disposition>) -> &'static str
    ensures { result.now ≡ done_cell done }
{
    match done {
        Some(done) => done_word(done),
        None => "",
    }
}
