//! A play drawn as a sequence chart.
ghost use Rattle.std.specs.Prelude.{◌≡◌, [], IfOk, string_bytes};
ghost use Rattle.app_base.specs.declared.console.Stream.TheVariants.{Output};
ghost use Rattle.app_play.specs.Account.{status_of};
ghost use Rattle.app_play.specs.Drawn.{NotesPlayOf, DrawsChart, drawing};

use crate::chart_text::chart;
use crate::ended::{Ended, parts_of};
use crate::inputs::Inputs;
use crate::lines::push_stopped;
use crate::report::status;
use app_base::Report;
use cfg_records::BoardFile;
use lab_play::{Stopped, play_noted};
use lab_run::Note;
use std::alloc::{AllocError, Global};
use text_lines::Event;
use undo_plans::Plan;

/// Plays a plan on a board by a schedule, notes each event that happens, and gives the event that the lab didn't take.
fn noted<'a>(
    alloc: Global,
    file: BoardFile,
    plan: Plan,
    events: &'a [Event],
    notes: &mut Vec<Note<'a>>,
) -> Result<Option<Stopped>, AllocError>
    requires { notes.now.items ≡ [] }
    ensures { IfOk result (λ stopped.
        NotesPlayOf file plan.steps plan.retries events.now stopped notes.new.items) }
{
    match parts_of(play_noted(alloc, file, plan, events, notes)) {
        Ok(ended) => {
            let Ended { played, stopped } = ended;
            drop(played);
            Ok(stopped)
        }
        Err(AllocError) => Err(AllocError),
    }
}

/// The chart with these notes, and the line of the event that wasn't taken.
pub(crate) fn drawing(
    alloc: Global,
    notes: &[Note],
    stopped: Option<Stopped>,
) -> Result<Report, AllocError>
    ensures stream { IfOk result (λ report. report.stream ≡ Output) }
    ensures text { IfOk result (λ report. string_bytes report.text ≡ drawing notes.now stopped) }
    ensures status { IfOk result (λ report. report.status ≡ status_of stopped) }
{
    let mut text = chart(alloc, notes)?;
    if let Some(stopped) = stopped {
        push_stopped(&mut text, stopped)?;
    }
    Ok(Report::output(text, status(stopped)))
}

/// What is drawn of the play that these inputs tell.
pub(crate) fn drawn_report(alloc: Global, inputs: Inputs) -> Result<Report, AllocError>
    ensures stream { IfOk result (λ report. report.stream ≡ Output) }
    ensures drawn { IfOk result (λ report. DrawsChart inputs (string_bytes report.text) report.status) }
{
    let Inputs { file, plan, events } = inputs;
    let mut notes = Vec::new(alloc);
    let stopped = noted(alloc, file, plan, events.as_slice(), &mut notes)?;
    drawing(alloc, notes.as_slice(), stopped)
}
