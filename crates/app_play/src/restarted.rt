//! What is said of a play in which the manager is made again.
ghost use Rattle.std.specs.Prelude.{◌≡◌, [], IfOk, string_bytes};
ghost use Rattle.app_base.specs.declared.console.Stream.TheVariants.{Output, Error};
ghost use Rattle.app_base.specs.declared.status.Status.TheVariants.{RefusedWords};
ghost use Rattle.app_play.specs.Account.{status_of};
ghost use Rattle.app_play.specs.Restarted.{behind_last, place_line, restarted_drawing, DrawsRestarted, NotesTurnsPlay, RecountsRestarted, SaysOfPlaces};

use crate::ended::{Ended, parts_of};
use crate::inputs::Inputs;
use crate::lines::push_stopped;
use crate::report::{account_of, account_report, status};
use crate::restart_rows::chart_restarts;
use crate::run::Shown;
use app_base::{Report, Status};
use cfg_records::BoardFile;
use lab_play::{Stopped, play_restarting};
use lab_run::Note;
use std::alloc::{AllocError, Global};
use text_lines::Event;
use undo_plans::Plan;

/// The first of the places that is behind the last of the events.
pub(crate) fn first_behind(places: &[usize], events: &[Event]) -> Option<usize>
    ensures { result ≡ behind_last places.now events.now }
{
    let many = events.len();
    places.iter().copied().find(|place| *place > many)
}

/// What is said of a place that is behind the last event.
pub(crate) fn place_refusal(alloc: Global, place: usize) -> Result<Report, AllocError>
    ensures stream { IfOk result (λ report. report.stream ≡ Error) }
    ensures text { IfOk result (λ report. string_bytes report.text ≡ place_line place) }
    ensures status { IfOk result (λ report. report.status ≡ RefusedWords) }
{
    let mut text = String::new(alloc);
    writeln!(text, "restart {place}")?;
    Ok(Report::complaint(text, Status::RefusedWords))
}

/// What is said in lines of the play that these inputs tell, whose manager is made again behind the events of these places.
fn recounted_report(
    alloc: Global,
    frames: bool,
    premises: bool,
    places: &[usize],
    inputs: Inputs,
) -> Result<Report, AllocError>
    ensures stream { IfOk result (λ report. report.stream ≡ Output) }
    ensures told { IfOk result (λ report. RecountsRestarted frames premises places.now inputs
        (string_bytes report.text) report.status) }
{
    let Inputs { file, plan, events } = inputs;
    let mut notes = Vec::new(alloc);
    let events = events.as_slice();
    match parts_of(play_restarting(alloc, file, plan, events, places, &mut notes)) {
        Ok(ended) => {
            let Ended { played, stopped } = ended;
            let account = account_of(&played, stopped);
            let report = account_report(alloc, frames, premises, &account);
            drop(played);
            report
        }
        Err(AllocError) => Err(AllocError),
    }
}

/// Plays a plan so, notes each event that happens, and gives the event that the lab didn't take.
fn noted_restarts<'a>(
    alloc: Global,
    file: BoardFile,
    plan: Plan,
    events: &'a [Event],
    places: &[usize],
    notes: &mut Vec<Note<'a>>,
) -> Result<Option<Stopped>, AllocError>
    requires { notes.now.items ≡ [] }
    ensures { IfOk result (λ stopped.
        NotesTurnsPlay file plan.steps plan.retries places.now events.now stopped notes.new.items) }
{
    match parts_of(play_restarting(alloc, file, plan, events, places, notes)) {
        Ok(ended) => {
            let Ended { played, stopped } = ended;
            drop(played);
            Ok(stopped)
        }
        Err(AllocError) => Err(AllocError),
    }
}

/// The chart with these notes, and the line of the event that wasn't taken.
pub(crate) fn drawing(
    alloc: Global,
    notes: &[Note],
    places: &[usize],
    stopped: Option<Stopped>,
) -> Result<Report, AllocError>
    ensures stream { IfOk result (λ report. report.stream ≡ Output) }
    ensures text { IfOk result (λ report. string_bytes report.text
        ≡ restarted_drawing places.now notes.now stopped) }
    ensures status { IfOk result (λ report. report.status ≡ status_of stopped) }
{
    let mut text = chart_restarts(alloc, notes, places)?;
    if let Some(stopped) = stopped {
        push_stopped(&mut text, stopped)?;
    }
    Ok(Report::output(text, status(stopped)))
}

/// What is drawn of the play that these inputs tell, whose manager is made again behind the events of these places.
fn drawn_restarts(alloc: Global, places: &[usize], inputs: Inputs) -> Result<Report, AllocError>
    ensures stream { IfOk result (λ report. report.stream ≡ Output) }
    ensures drawn { IfOk result (λ report. DrawsRestarted places.now inputs
        (string_bytes report.text) report.status) }
{
    let Inputs { file, plan, events } = inputs;
    let mut notes = Vec::new(alloc);
    let events = events.as_slice();
    let stopped = noted_restarts(alloc, file, plan, events, places, &mut notes)?;
    drawing(alloc, notes.as_slice(), places, stopped)
}

/// What is said of the play that these inputs tell, whose manager is made again behind the events of these places, as it is to be shown; or of the
/// first place that is behind the last event.
pub(crate) fn restarted_report(
    alloc: Global,
    shown: Shown,
    places: &[usize],
    inputs: Inputs,
) -> Result<Report, AllocError>
    ensures { IfOk result (λ report. SaysOfPlaces places.now shown inputs report.stream
        (string_bytes report.text) report.status) }
{
    if let Some(place) = first_behind(places, inputs.events.as_slice()) {
        return place_refusal(alloc, place);
    }
    match shown {
        Shown::Lines { frames, premises } => {
            recounted_report(alloc, frames, premises, places, inputs)
        }
        Shown::Chart => drawn_restarts(alloc, places, inputs),
    }
}
