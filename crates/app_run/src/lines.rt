//! The lines that a run says.
ghost use Rattle.std.specs.Prelude.{◌≡◌, ◌⊎◌, ◌++◌, IfOk, OnOk, string_bytes};
ghost use Rattle.app_base.specs.declared.console.Stream.TheVariants.{Output, Error};
ghost use Rattle.app_base.specs.declared.status.Status.TheVariants.{Success, RefusedFile};
ghost use Rattle.app_base.specs.Ending.{RunEnds};
ghost use Rattle.app_run.specs.Ends.{EndsUngreeted, PrintsNothing, TellsBoth};
ghost use Rattle.app_run.specs.Lines.{phase_line, plan_line, undo_line, others_line};
ghost use Rattle.app_run.specs.Lines.{unanswered_line};
ghost use Rattle.app_run.specs.Strict.{ungreeted_status};

use crate::greeting::Unanswered;
use crate::strict::ungreeted_status;
use app_base::{Console, Ending, Report, ReportFault, Status, end_run};
use plan_file::PlanFault;
use std::alloc::{AllocError, Global};
use std::io;
use text_lines::UndoFault;
use undo_core::Phase;

/// Adds the line of a manager's phase.
pub fn push_phase(text: &mut String, phase: Phase) -> Result<(), AllocError>
    ensures { OnOk result (string_bytes text.new ≡ string_bytes text.old ++ phase_line phase) }
{
    writeln!(text, "phase {phase}")
}

/// What is said of a run that left the manager in this phase, and how it ends.
pub(crate) fn phase_report(
    alloc: Global,
    phase: Phase,
    status: Status,
) -> Result<Report, AllocError>
    ensures stream { IfOk result (λ report. report.stream ≡ Output) }
    ensures text { IfOk result (λ report. string_bytes report.text ≡ phase_line phase) }
    ensures status { IfOk result (λ report. report.status ≡ status) }
{
    let mut text = String::new(alloc);
    push_phase(&mut text, phase)?;
    Ok(Report::output(text, status))
}

/// What is said of a plan that is refused.
pub(crate) fn plan_refusal(alloc: Global, why: PlanFault) -> Result<Report, AllocError>
    ensures stream { IfOk result (λ report. report.stream ≡ Error) }
    ensures text { IfOk result (λ report. string_bytes report.text ≡ plan_line why) }
    ensures status { IfOk result (λ report. report.status ≡ RefusedFile) }
{
    let mut text = String::new(alloc);
    writeln!(text, "plan {why}")?;
    Ok(Report::complaint(text, Status::RefusedFile))
}

/// What is said of an undo text that is refused.
pub(crate) fn undo_refusal(alloc: Global, why: UndoFault) -> Result<Report, AllocError>
    ensures stream { IfOk result (λ report. report.stream ≡ Error) }
    ensures text { IfOk result (λ report. string_bytes report.text ≡ undo_line why) }
    ensures status { IfOk result (λ report. report.status ≡ RefusedFile) }
{
    let mut text = String::new(alloc);
    writeln!(text, "undo {why}")?;
    Ok(Report::complaint(text, Status::RefusedFile))
}

/// What is said of an undo text that has other names.
pub(crate) fn names_refusal(alloc: Global) -> Result<Report, AllocError>
    ensures stream { IfOk result (λ report. report.stream ≡ Error) }
    ensures text { IfOk result (λ report. string_bytes report.text ≡ others_line) }
    ensures status { IfOk result (λ report. report.status ≡ RefusedFile) }
{
    Ok(Report::complaint(
        String::from_str(alloc, "undo OtherNames\n")?,
        Status::RefusedFile,
    ))
}

/// What is said of a greeting that wasn't answered, and how the run ends.
fn unanswered_report(alloc: Global, why: Unanswered, strict: bool) -> Result<Report, AllocError>
    ensures stream { IfOk result (λ report. report.stream ≡ Error) }
    ensures text { IfOk result (λ report. string_bytes report.text ≡ unanswered_line why) }
    ensures status { IfOk result (λ report. report.status ≡ ungreeted_status strict) }
{
    let word = why.word();
    let bus = why.bus.name();
    let mut text = String::new(alloc);
    writeln!(text, "{word} on {bus}")?;
    Ok(Report::complaint(text, ungreeted_status(strict)))
}

/// Writes one report behind the other, unless the first can't be written, and gives the status of the last.
pub(crate) fn tell_both<W: io::Write, E: io::Write>(
    line: &Report,
    complaint: &Report,
    console: &mut Console<W, E>,
) -> u8
    requires line { (line.now.stream ≡ Output) × (line.now.status ≡ Success) }
    requires complaint { complaint.now.stream ≡ Error }
    ensures { RunEnds W.contents E.contents PrintsNothing console.old console.new result
        ⊎ TellsBoth W.contents E.contents
        (string_bytes line.now.text) (string_bytes complaint.now.text) complaint.now.status
        console.old console.new result }
{
    match Ending::of_report(line).write(console) {
        Status::Success => u8::from(Ending::of_report(complaint).write(console)),
        status => u8::from(status),
    }
}

/// Says in which phase a manager is that did nothing, and which greeting wasn't answered, and gives the status. Both lines are made before one is
/// written.
pub(crate) fn tell_ungreeted<W: io::Write, E: io::Write>(
    alloc: Global,
    phase: Phase,
    why: Unanswered,
    strict: bool,
    console: &mut Console<W, E>,
) -> u8
    ensures { RunEnds W.contents E.contents PrintsNothing console.old console.new result
        ⊎ EndsUngreeted W.contents E.contents phase why strict console.old console.new result }
{
    let line = phase_report(alloc, phase, Status::Success);
    let complaint = unanswered_report(alloc, why, strict);
    match (line, complaint) {
        (Ok(line), Ok(complaint)) => tell_both(&line, &complaint, console),
        _ => end_run(&Err(ReportFault::Memory), console),
    }
}
