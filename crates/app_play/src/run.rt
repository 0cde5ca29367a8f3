//! A plan run and undone by a schedule: what is said of three texts, in lines or drawn.
ghost use Rattle.std.specs.Prelude.{◌≡◌, IfOk, string_bytes};
ghost use Rattle.app_base.specs.declared.console.Stream.TheVariants.{Output, Error};
ghost use Rattle.app_base.specs.declared.status.Status.TheVariants.{RefusedFile};
ghost use Rattle.app_base.specs.Ending.{RunEnds};
ghost use Rattle.app_play.specs.Drawn.{DrawsChart};
ghost use Rattle.app_play.specs.Run.{is_memory, refusal_line, tells_of, RecountsPlay, PrintsPlay};
ghost use Rattle.app_play.specs.Restarted.{PrintsBy};

use crate::drawn::drawn_report;
use crate::ended::{Ended, parts_of};
use crate::inputs::{InputFault, Inputs, read_inputs};
use crate::report::{account_of, account_report};
use crate::restarted::restarted_report;
use app_base::{Console, Ending, Report, Status};
use lab_play::play;
use plan_file::PlanFault;
use std::alloc::{AllocError, Global};
use std::io;
use text_board::FileFault;
use text_lines::ScheduleFault;

/// How what was played is shown.
#[derive(Clone, Copy)]
pub enum Shown {
    /// In lines, with those of the frames or without, and with that of the premise on packets or without.
    Lines { frames: bool, premises: bool },
    /// As a sequence chart.
    Chart,
}

/// Whether a text wasn't read for want of memory.
pub fn is_memory(why: &InputFault) -> bool
    ensures { result ≡ is_memory why.now }
{
    match why {
        InputFault::Board(why) => matches!(why, FileFault::Memory),
        InputFault::Plan(why) => matches!(why, PlanFault::Memory),
        InputFault::Schedule(why) => matches!(why, ScheduleFault::Memory),
    }
}

/// What is said of a text that is refused.
pub fn refusal_report(alloc: Global, why: InputFault) -> Result<Report, AllocError>
    ensures stream { IfOk result (λ report. report.stream ≡ Error) }
    ensures text { IfOk result (λ report. string_bytes report.text ≡ refusal_line why) }
    ensures status { IfOk result (λ report. report.status ≡ RefusedFile) }
{
    let mut text = String::new(alloc);
    writeln!(text, "{why}")?;
    Ok(Report::complaint(text, Status::RefusedFile))
}

/// What is said of the play that these inputs tell.
fn played_report(
    alloc: Global,
    frames: bool,
    premises: bool,
    inputs: Inputs,
) -> Result<Report, AllocError>
    ensures stream { IfOk result (λ report. report.stream ≡ Output) }
    ensures told { IfOk result (λ report. RecountsPlay frames premises inputs
        (string_bytes report.text) report.status) }
{
    let Inputs { file, plan, events } = inputs;
    match parts_of(play(alloc, file, plan, events.as_slice())) {
        Ok(ended) => {
            let Ended { played, stopped } = ended;
            let account = account_of(&played, stopped);
            let report = account_report(alloc, frames, premises, &account);
            drop(played);
            report
        }
        Err(AllocError) => Err(AllocError),
    }
}

/// What is said of the play that these inputs tell, as it is to be shown.
fn shown_report(alloc: Global, shown: Shown, inputs: Inputs) -> Result<Report, AllocError>
    ensures stream { IfOk result (λ report. report.stream ≡ Output) }
    ensures told { IfOk result (λ report. tells_of shown inputs
        (string_bytes report.text) report.status) }
{
    match shown {
        Shown::Lines { frames, premises } => played_report(alloc, frames, premises, inputs),
        Shown::Chart => drawn_report(alloc, inputs),
    }
}

/// What is said of the play that the texts tell, whose manager is made again behind the events of these places, or of the first text that is refused.
fn play_report(
    alloc: Global,
    shown: Shown,
    places: &[usize],
    board: &str,
    plan: &str,
    schedule: &str,
) -> Result<Report, AllocError>
    ensures { IfOk result (λ report. PrintsBy shown places.now board.now plan.now schedule.now
        report.stream (string_bytes report.text) report.status) }
{
    match read_inputs(alloc, board, plan, schedule) {
        Ok(inputs) if places.is_empty() => shown_report(alloc, shown, inputs),
        Ok(inputs) => restarted_report(alloc, shown, places, inputs),
        Err(why) if is_memory(&why) => Err(AllocError),
        Err(why) => refusal_report(alloc, why),
    }
}

/// Plays a plan on the board of a board file by a schedule, each given as its text, and shows what was played: without places what `play_run` or
/// `chart_run` does. With places, which count from 1, the manager's process ends behind the events of these, and the manager is made again of
/// the text of its journal; a chart has a line for each restart. Where a place is behind the last event, the status is 2, with `restart` and the
/// first such place on standard error.
pub fn show<W: io::Write, E: io::Write>(
    alloc: Global,
    shown: Shown,
    places: &[usize],
    board: &str,
    plan: &str,
    schedule: &str,
    console: &mut Console<W, E>,
) -> u8
    ensures { RunEnds W.contents E.contents
        (PrintsBy shown places.now board.now plan.now schedule.now)
        console.old console.new result }
{
    let report = play_report(alloc, shown, places, board, plan, schedule);
    u8::from(Ending::of(&report).write(console))
}

/// Plays a plan on the board of a board file by a schedule, each given as its text. Writes to standard output the lines of what was
/// played, with `frames` those of the frames too, and with `premises` the one that says at which event a packet of the manager first
/// joined one that waited while eight or more newer requests were begun on SMBus, if none has a fault also that this never happened. It
/// gives the status: 0 where each event was played, 4 where one has a fault, whose line is then the last. The status is 3 with `board`, `plan` or `schedule` and the fault on standard error where a text is refused, 5
/// with `memory` on standard error where memory was refused, and 6 where a write failed.
pub fn play_run<W: io::Write, E: io::Write>(
    alloc: Global,
    frames: bool,
    premises: bool,
    board: &str,
    plan: &str,
    schedule: &str,
    console: &mut Console<W, E>,
) -> u8
    ensures { RunEnds W.contents E.contents
        (PrintsPlay (RecountsPlay frames premises) board.now plan.now schedule.now)
        console.old console.new result }
{
    show(
        alloc,
        Shown::Lines { frames, premises },
        &[],
        board,
        plan,
        schedule,
        console,
    )
}

/// Plays as `play_run` does, and draws the play in place of its lines: manager, bus and controller side by side, a line an event, of
/// at most eighty columns. Where an event has a fault its line is the last, as without a chart.
pub fn chart_run<W: io::Write, E: io::Write>(
    alloc: Global,
    board: &str,
    plan: &str,
    schedule: &str,
    console: &mut Console<W, E>,
) -> u8
    ensures { RunEnds W.contents E.contents (PrintsPlay DrawsChart board.now plan.now schedule.now)
        console.old console.new result }
{
    show(alloc, Shown::Chart, &[], board, plan, schedule, console)
}
