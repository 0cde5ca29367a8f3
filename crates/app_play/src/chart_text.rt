//! The chart of a play.
ghost use Rattle.std.specs.Prelude.{◌≡◌, ◌++◌, ◌+◌, ℕ, List, take, OnOk, IfOk, string_bytes};
ghost use Rattle.text_lines.specs.Cuts.{ended};
ghost use Rattle.lab_run.specs.declared.note.Note.{Note as AnyNote};
ghost use Rattle.app_play.specs.Arrivals.{HoldsNotes};
ghost use Rattle.app_play.specs.Chart.{event_line, chart_of};

use crate::arrivals::Arrivals;
use crate::cells::{call_cell, comes_cell, done_cell, sends_cell};
use crate::columns::{push_at_most, push_column};
use lab_run::Note;
use std::alloc::{AllocError, Global};

/// What the columns are.
pub(crate) const CHART_HEAD: &str =
    "event mgr  |comes             sends            |bmc     phase\n";

/// Adds the line of the event of this place, counted from 1, before which those came.
pub(crate) fn push_event(
    alloc: Global,
    text: &mut String,
    place: usize,
    note: &Note,
    earlier: &Arrivals,
    all: &Arrivals,
) -> Result<(), AllocError>
    ensures { (notes : List AnyNote) (n : ℕ) → place ≡ n + 1
        → HoldsNotes earlier.now (take n notes) → HoldsNotes all.now notes
        → OnOk result (string_bytes text.new
        ≡ string_bytes text.old ++ ended (event_line notes n note.now)) }
{
    let number = format!(in alloc; "{place}")?;
    let comes = comes_cell(alloc, earlier, note)?;
    let sends = sends_cell(alloc, all, note)?;
    let phase = format!(in alloc; "{}", note.phase)?;
    push_column(text, 6, number.as_str())?;
    push_column(text, 5, call_cell(note.event))?;
    text.push_str("|")?;
    push_column(text, 18, comes.as_str())?;
    push_column(text, 17, sends.as_str())?;
    text.push_str("|")?;
    push_column(text, 8, done_cell(note.done))?;
    push_at_most(text, 24, phase.as_str())?;
    text.push_str("\n")?;
    Ok(())
}

/// The chart of a play with these notes: manager, bus and controller side by side, a line an event. A line has at most eighty columns.
pub(crate) fn chart(alloc: Global, notes: &[Note]) -> Result<String, AllocError>
    ensures { IfOk result (λ text. string_bytes text ≡ chart_of notes.now) }
{
    let all = Arrivals::of(alloc, notes)?;
    let mut earlier = Arrivals::new(alloc);
    let mut text = String::new(alloc);
    text.push_str(CHART_HEAD)?;
    for (place, note) in notes.iter().enumerate() {
        push_event(alloc, &mut text, place + 1, note, &earlier, &all)?;
        earlier.add(note.event)?;
    }
    Ok(text)
}
