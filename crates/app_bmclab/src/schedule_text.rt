//! A schedule of a plan on a board: what is said of two texts.
ghost use Rattle.std.specs.Prelude.{◌≡◌, [], IfOk, string_bytes};
ghost use Rattle.app_base.specs.declared.console.Stream.TheVariants.{Output};
ghost use Rattle.app_base.specs.Ending.{RunEnds};
ghost use Rattle.app_play.specs.Run.{PrintsPlay};
ghost use Rattle.app_bmclab.specs.Writes.{WritesSchedule};

use crate::explained::{note_of_schedule, write_notes};
use app_base::{Console, Ending, Report, Status};
use app_play::{Inputs, is_memory, read_inputs, refusal_report};
use lab_play::{ScheduleOptions, make_schedule};
use std::alloc::{AllocError, Global};
use std::io;
use text_lines::write_schedule;

/// The schedule of the plan on the board, written.
fn written_report(
    alloc: Global,
    wanted: ScheduleOptions,
    inputs: Inputs,
) -> Result<Report, AllocError>
    ensures stream { IfOk result (λ report. report.stream ≡ Output) }
    ensures written { IfOk result
        (λ report. WritesSchedule wanted inputs (string_bytes report.text) report.status) }
{
    let Inputs { file, plan, .. } = inputs;
    let events = make_schedule(alloc, file, plan, wanted)?;
    let text = write_schedule(alloc, events.as_slice())?;
    Ok(Report::output(text, Status::Success))
}

/// The schedule of the plan on the board, or what is said of the first text that is refused.
fn schedule_report(
    alloc: Global,
    wanted: ScheduleOptions,
    board: &str,
    plan: &str,
) -> Result<Report, AllocError>
    ensures { IfOk result
        (λ report. PrintsPlay (WritesSchedule wanted) board.now plan.now []
        report.stream (string_bytes report.text) report.status) }
{
    // Nothing happens yet.
    match read_inputs(alloc, board, plan, "") {
        Ok(inputs) => written_report(alloc, wanted, inputs),
        Err(why) if is_memory(&why) => Err(AllocError),
        Err(why) => refusal_report(alloc, why),
    }
}

/// What is told of the schedule of this report, where it has one.
fn note_of(
    alloc: Global,
    undo: bool,
    board: &str,
    plan: &str,
    report: &Result<Report, AllocError>,
) -> Result<String, AllocError> {
    match report {
        Ok(report) if report.status == Status::Success => {
            note_of_schedule(alloc, undo, board, plan, report.text.as_str())
        }
        _ => Ok(String::new(alloc)),
    }
}

/// Writes to standard output a schedule of a plan on the board of a board file, each given as its text. A play of the plan on that board
/// takes each of its events. Where the plan halts in it, or it ends for want of room, the notes get what is told of that. It gives the status: 0 where
/// the schedule is written, 3 with `board` or `plan` and the fault on standard error
/// where a text is refused, 5 with `memory` on standard error where memory was refused, and 6 where a write failed.
pub fn schedule_run<N: io::Write, W: io::Write, E: io::Write>(
    alloc: Global,
    wanted: ScheduleOptions,
    board: &str,
    plan: &str,
    notes: &mut N,
    console: &mut Console<W, E>,
) -> u8
    ensures { RunEnds W.contents E.contents
        (PrintsPlay (WritesSchedule wanted) board.now plan.now [])
        console.old console.new result }
{
    let undo = wanted.undo;
    let report = schedule_report(alloc, wanted, board, plan);
    let Ok(lines) = note_of(alloc, undo, board, plan, &report) else {
        return u8::from(Ending::without_report(Status::Memory).write(console));
    };
    let status = u8::from(Ending::of(&report).write(console));
    write_notes(notes, lines.as_str());
    status
}
