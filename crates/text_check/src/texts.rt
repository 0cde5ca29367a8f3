//! What is told of a text, by what it looks like.
ghost use Rattle.std.specs.Prelude.{◌≡◌, IfOk, OnOk, if◌then◌else◌, string_bytes};
ghost use Rattle.text_check.specs.Known.{is_told_board, is_told_plan};
ghost use Rattle.text_check.specs.Outcomes.{tells, tells_board, IsBoardOutcome, IsPlanOutcome, IsScheduleOutcome, IsUndoOutcome, IsJournalOutcome, IsOutcomeBy};
ghost use Rattle.text_check.specs.Worded.{EndsInWords};

use crate::bad_line::{tell_journal_line, tell_readings_line, tell_schedule_line, tell_undo_line};
use crate::held::{push_board, push_held, push_plan};
use crate::notes::{tell_board, tell_plan};
use crate::outcome::Outcome;
use crate::refusals::{refuse_board, refuse_plan};
use crate::text_form::TextForm;
use crate::unfit::tell_unfit;
use crate::worded::tell_words;
use cfg_records::BoardFile;
use file_faults::{Sheet, Source};
use plan_file::{PlanFault, read_plan};
use std::alloc::{AllocError, Global};
use text_board::{FileFault, read_board};
use text_journal::{JournalTextFault, read_journal};
use text_lines::{ScheduleFault, UndoFault, read_schedule, read_undo};

/// Adds that a file of a sort is refused for its line of this number.
fn refuse_line(text: &mut String, name: &str, sort: &str, line: usize) -> Result<(), AllocError> {
    writeln!(text, "{name}: {sort} refused, line {line}")
}

/// What came of a file that is read, of which something is told or nothing.
fn read_outcome(is_told: bool) -> Outcome
    ensures { result ≡ (if is_told then Outcome.Told else Outcome.Fine) }
{
    if is_told {
        Outcome::Told
    } else {
        Outcome::Fine
    }
}

/// Tells of the keys of a board file that are unknown or not used, a line each for the first ten, and whether there is one.
pub fn told_board(alloc: Global, sheet: &mut Sheet, source: Source<'_>) -> Result<bool, AllocError>
    ensures { IfOk result (λ told. told ≡ tells is_told_board source.entry.file.now) }
{
    match toml::table_from_str(alloc, source.file) {
        Ok(tree) => tell_board(alloc, sheet, source, &tree),
        Err(error) if error.is_memory() => Err(AllocError),
        Err(_) => Ok(false),
    }
}

/// Tells of the keys of a plan that are unknown or not used, a line each for the first ten, and whether there is one.
pub fn told_plan(alloc: Global, sheet: &mut Sheet, source: Source<'_>) -> Result<bool, AllocError>
    ensures { IfOk result (λ told. told ≡ tells is_told_plan source.entry.file.now) }
{
    match toml::table_from_str(alloc, source.file) {
        Ok(tree) => tell_plan(alloc, sheet, source, &tree),
        Err(error) if error.is_memory() => Err(AllocError),
        Err(_) => Ok(false),
    }
}

/// Tells of a board file that is read: what it holds, its keys, and its sensor data records. Gives whether something is told of these.
fn told_read(
    alloc: Global,
    sheet: &mut Sheet,
    source: Source<'_>,
    board: &BoardFile,
) -> Result<bool, AllocError>
    ensures { IfOk result (λ told. told ≡ tells_board source.entry.file.now board.now) }
{
    push_board(&mut sheet.text, source.name, board)?;
    let keys = told_board(alloc, sheet, source)?;
    let records = tell_unfit(alloc, &mut sheet.text, source.name, board)?;
    Ok(keys || records)
}

/// Tells of a board file.
fn checked_board(
    alloc: Global,
    sheet: &mut Sheet,
    source: Source<'_>,
) -> Result<Outcome, AllocError>
    ensures { IfOk result (IsBoardOutcome source.entry.file.now) }
{
    match read_board(alloc, source.file) {
        Ok(board) => {
            let told = told_read(alloc, sheet, source, &board);
            drop(board);
            let told = told?;
            Ok(read_outcome(told))
        }
        Err(FileFault::Memory) => Err(AllocError),
        Err(why) => {
            refuse_board(alloc, sheet, source, why)?;
            Ok(Outcome::Refused)
        }
    }
}

/// Tells of a plan.
fn checked_plan(alloc: Global, sheet: &mut Sheet, source: Source<'_>) -> Result<Outcome, AllocError>
    ensures { IfOk result (IsPlanOutcome source.entry.file.now) }
{
    match read_plan(alloc, source.file) {
        Ok(plan) => {
            push_plan(&mut sheet.text, source.name, plan)?;
            let told = told_plan(alloc, sheet, source)?;
            Ok(read_outcome(told))
        }
        Err(PlanFault::Memory) => Err(AllocError),
        Err(why) => {
            refuse_plan(alloc, sheet, source, why)?;
            Ok(Outcome::Refused)
        }
    }
}

/// Tells of a schedule.
fn checked_schedule(
    alloc: Global,
    sheet: &mut Sheet,
    source: Source<'_>,
) -> Result<Outcome, AllocError>
    ensures { IfOk result (IsScheduleOutcome source.entry.file.now) }
{
    match read_schedule(alloc, source.file) {
        Ok(events) => {
            let count = events.as_slice().len();
            drop(events);
            push_held(&mut sheet.text, source.name, "schedule", count, "event")?;
            Ok(Outcome::Fine)
        }
        Err(ScheduleFault::Memory) => Err(AllocError),
        Err(ScheduleFault::Line(line)) => {
            refuse_line(&mut sheet.text, source.name, "schedule", line)?;
            tell_schedule_line(alloc, sheet, source, line)?;
            Ok(Outcome::Refused)
        }
    }
}

/// Tells of an undo text.
fn checked_undo(alloc: Global, sheet: &mut Sheet, source: Source<'_>) -> Result<Outcome, AllocError>
    ensures { IfOk result (IsUndoOutcome source.entry.file.now) }
{
    match read_undo(alloc, source.file) {
        Ok(list) => {
            let count = list.requests.len();
            drop(list);
            push_held(&mut sheet.text, source.name, "undo text", count, "request")?;
            Ok(Outcome::Fine)
        }
        Err(UndoFault::Memory) => Err(AllocError),
        Err(UndoFault::Line(line)) => {
            refuse_line(&mut sheet.text, source.name, "undo text", line)?;
            tell_undo_line(alloc, sheet, source, line)?;
            Ok(Outcome::Refused)
        }
    }
}

/// Tells of a journal.
fn checked_journal(
    alloc: Global,
    sheet: &mut Sheet,
    source: Source<'_>,
) -> Result<Outcome, AllocError>
    ensures { IfOk result (IsJournalOutcome source.entry.file.now) }
{
    match read_journal(alloc, source.file) {
        Ok(journal) => {
            let count = journal.contents.steps.len();
            drop(journal);
            push_held(&mut sheet.text, source.name, "journal", count, "step")?;
            Ok(Outcome::Fine)
        }
        Err(JournalTextFault::Memory) => Err(AllocError),
        Err(JournalTextFault::Line(line)) => {
            refuse_line(&mut sheet.text, source.name, "journal", line)?;
            tell_journal_line(alloc, sheet, source, line)?;
            Ok(Outcome::Refused)
        }
    }
}

/// Tells of a text that isn't read.
fn unread(text: &mut String, name: &str) -> Result<Outcome, AllocError>
    ensures { IfOk result (λ outcome. outcome ≡ Outcome.Refused) }
{
    writeln!(text, "{name}: readings, which aren't read here")?;
    Ok(Outcome::Refused)
}

/// Tells of a text of this form.
fn checked_by(
    alloc: Global,
    sheet: &mut Sheet,
    source: Source<'_>,
    form: TextForm,
) -> Result<Outcome, AllocError>
    ensures { IfOk result (IsOutcomeBy form source.entry.file.now) }
{
    match form {
        TextForm::Undo => checked_undo(alloc, sheet, source),
        TextForm::Journal => checked_journal(alloc, sheet, source),
        TextForm::Board => checked_board(alloc, sheet, source),
        TextForm::Plan => checked_plan(alloc, sheet, source),
        TextForm::Readings => unread(&mut sheet.text, source.name),
        TextForm::Schedule => checked_schedule(alloc, sheet, source),
        TextForm::Empty => {
            writeln!(sheet.text, "{}: empty", source.name)?;
            Ok(Outcome::Fine)
        }
    }
}

/// Tells of a byte order mark in front of a text of TOML, which its reader skips.
fn tell_mark(text: &mut String, source: Source<'_>, form: TextForm) -> Result<(), AllocError> {
    if matches!(form, TextForm::Board | TextForm::Plan) && source.file.starts_with('\u{FEFF}') {
        writeln!(text, "{}:1: it begins with a byte order mark", source.name)?;
    }
    Ok(())
}

/// Reads a file's text as one of this form, and adds what is told of the file: a line of what it holds or why it is refused; of one that is
/// refused where its faults are, what stands there and what would be right; a line for each key that is unknown or not used; and of a board
/// that is read one for each sensor data record that fits no sensor. Gives what came of it. Readings are refused: their reader stands above
/// this crate, and `tell_readings` and `refuse_readings` tell of them. Behind all that stand the lines in words of a plan, an undo text or a
/// journal that is read.
pub fn checked(
    alloc: Global,
    sheet: &mut Sheet,
    source: Source<'_>,
    form: TextForm,
) -> Result<Outcome, AllocError>
    ensures outcome { IfOk result (IsOutcomeBy form source.entry.file.now) }
    ensures words { OnOk result (EndsInWords form source.entry.name.now source.entry.file.now
        (string_bytes sheet.new.text)) }
{
    let outcome = checked_by(alloc, sheet, source, form)?;
    tell_mark(&mut sheet.text, source, form)?;
    tell_words(alloc, &mut sheet.text, source, form)?;
    Ok(outcome)
}

/// Tells how many events a text of readings has.
pub fn tell_readings(
    sheet: &mut Sheet,
    source: Source<'_>,
    count: usize,
) -> Result<(), AllocError> {
    push_held(&mut sheet.text, source.name, "readings", count, "event")
}

/// Tells that a text of readings is refused for its line of this number.
pub fn refuse_readings(
    alloc: Global,
    sheet: &mut Sheet,
    source: Source<'_>,
    line: usize,
) -> Result<(), AllocError> {
    refuse_line(&mut sheet.text, source.name, "readings", line)?;
    tell_readings_line(alloc, sheet, source, line)
}
