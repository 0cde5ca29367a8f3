//! The chart of a play in which the manager is made again.
ghost use Rattle.std.specs.Prelude.{◌≡◌, ◌++◌, ◌+◌, ℕ, List, take, OnOk, IfOk, string_bytes};
ghost use Rattle.std.specs.List.{flat_map};
ghost use Rattle.text_lines.specs.Cuts.{ended};
ghost use Rattle.lab_play.specs.Restarts.{remade_phase};
ghost use Rattle.lab_run.specs.declared.note.Note.{Note as AnyNote};
ghost use Rattle.app_play.specs.Arrivals.{HoldsNotes};
ghost use Rattle.app_play.specs.Restarted.{restart_line, restart_lines, restarted_chart, turn_lines};

use crate::arrivals::Arrivals;
use crate::chart_text::{CHART_HEAD, push_event};
use crate::columns::{push_at_most, push_column};
use lab_play::has_place;
use lab_run::Note;
use std::alloc::{AllocError, Global};
use undo_core::Phase;

/// The phase of a manager that is made again of one in this phase.
fn phase_behind(phase: Phase) -> Phase
    ensures { result ≡ remade_phase phase }
{
    match phase {
        Phase::Getting(step) | Phase::Setting(step) | Phase::Undoing(step) => {
            Phase::Unsettled(step)
        }
        other => other,
    }
}

/// Adds the line of a restart, behind which the manager is in this phase.
fn push_restart(alloc: Global, text: &mut String, phase: Phase) -> Result<(), AllocError>
    ensures { OnOk result (string_bytes text.new
        ≡ string_bytes text.old ++ ended (restart_line phase)) }
{
    let phase = format!(in alloc; "{phase}")?;
    push_column(text, 6, "")?;
    push_column(text, 5, "dies")?;
    text.push_str("|")?;
    push_column(text, 18, "")?;
    push_column(text, 17, "")?;
    text.push_str("|")?;
    push_column(text, 8, "")?;
    push_at_most(text, 24, phase.as_str())?;
    text.push_str("\n")?;
    Ok(())
}

/// Adds the line of the restart behind an event, if one is there, whose note says the manager's phase before it.
fn push_behind(
    alloc: Global,
    text: &mut String,
    is_there: bool,
    phase: Phase,
) -> Result<(), AllocError>
    ensures { OnOk result (string_bytes text.new ≡ string_bytes text.old
        ++ flat_map ended (restart_lines is_there (remade_phase phase))) }
{
    if !is_there {
        return Ok(());
    }
    push_restart(alloc, text, phase_behind(phase))
}

/// Adds the line of the event of this place, counted from 1, before which those came, and that of the restart behind it, if one is there.
fn push_turn(
    alloc: Global,
    text: &mut String,
    place: usize,
    places: &[usize],
    note: &Note,
    earlier: &Arrivals,
    all: &Arrivals,
) -> Result<(), AllocError>
    ensures { (notes : List AnyNote) (n : ℕ) → place ≡ n + 1
        → HoldsNotes earlier.now (take n notes) → HoldsNotes all.now notes
        → OnOk result (string_bytes text.new
        ≡ string_bytes text.old ++ flat_map ended (turn_lines places.now notes n note.now)) }
{
    push_event(alloc, text, place, note, earlier, all)?;
    push_behind(alloc, text, has_place(places, place), note.phase)
}

/// The chart of a play with these notes, whose manager was made again behind the events of these places: a line an event, and one a restart.
pub(crate) fn chart_restarts(
    alloc: Global,
    notes: &[Note],
    places: &[usize],
) -> Result<String, AllocError>
    ensures { IfOk result (λ text. string_bytes text ≡ restarted_chart places.now notes.now) }
{
    let all = Arrivals::of(alloc, notes)?;
    let mut earlier = Arrivals::new(alloc);
    let mut text = String::new(alloc);
    text.push_str(CHART_HEAD)?;
    for (place, note) in notes.iter().enumerate() {
        push_turn(alloc, &mut text, place + 1, places, note, &earlier, &all)?;
        earlier.add(note.event)?;
    }
    Ok(text)
}
