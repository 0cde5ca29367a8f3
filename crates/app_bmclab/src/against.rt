//! `bmclab check --against`: what plans meet on a board.
ghost use Rattle.std.specs.Prelude.{◌≡◌, ◌⊎◌, ◌++◌, [], ◌∷◌, Err, IfOk, IfErr, OnOk, map, string_bytes};
ghost use Rattle.std.specs.List.{list_all};
ghost use Rattle.text_board.specs.Holds.{ReadsText};
ghost use Rattle.text_check.specs.Outcomes.{worst_of};
ghost use Rattle.app_base.specs.Ending.{RunEnds};
ghost use Rattle.app_bmclab.specs.Checks.{status_of};
ghost use Rattle.app_bmclab.specs.Against.{EndsAgainst, FileAgainst, OnBoardOf, PlanAgainst, SaysOfAgainst, TellsEach, TextAgainst, goes, outcome_with};

use crate::check::{Cause, TellsCause, cause_words, shown_name, status_of, tell_looks};
use app_base::{Console, Ending, Report, Status, Stream, TextFiles, UnreadFile};
use bmc_lab::{Finding, push_findings, try_steps};
use cfg_records::BoardFile;
use file_faults::{Sheet, Source};
use plan_file::{PlanFault, read_plan};
use report_words::BoardNames;
use std::alloc::{AllocError, Global};
use std::io;
use text_board::{FileFault, read_board};
use text_check::{Outcome, TextForm, checked, push_steps, told_plan, worst};
use undo_plans::Plan;

/// What is told of a file, and what comes of it.
#[derive(Drop)]
struct Told {
    outcome: Outcome,
    text: String,
}

/// What is told of several files, and what comes of each.
#[derive(Drop)]
struct Account {
    outcomes: Vec<Outcome>,
    text: String,
}

impl Account {
    /// Adds what is told of one more file.
    fn push(&mut self, told: Told) -> Result<(), AllocError>
        ensures outcomes { OnOk result
            (self.new.outcomes.items ≡ self.old.outcomes.items ++ told.outcome ∷ []) }
        ensures text { OnOk result
            (string_bytes self.new.text ≡ string_bytes self.old.text ++ string_bytes told.text) }
    {
        self.text.push_str(told.text.as_str())?;
        self.outcomes.push(told.outcome)?;
        Ok(())
    }
}

/// Whether each step would be carried out, and could be taken back.
fn all_go(findings: &[Finding]) -> bool
    ensures { result ≡ list_all goes findings.now }
{
    findings
        .iter()
        .all(|finding| matches!(finding, Finding::Done(_)))
}

/// What comes of a plan of whose keys something is told or nothing, and whose steps meet these.
fn outcome_of(is_told: bool, findings: &[Finding]) -> Outcome
    ensures { result ≡ outcome_with is_told findings.now }
{
    if !all_go(findings) {
        return Outcome::Refused;
    }
    if is_told {
        Outcome::Told
    } else {
        Outcome::Fine
    }
}

/// What is told of a plan that was read of this text: what it holds, its keys, and what its steps meet on the board, with the names that the board gives.
fn tried(
    alloc: Global,
    board: BoardFile,
    source: Source<'_>,
    plan: &Plan,
) -> Result<Told, AllocError>
    ensures { IfOk result
        (λ told. PlanAgainst board source.entry.name.now source.entry.file.now plan.now.steps
        told.outcome (string_bytes told.text)) }
{
    let steps = &plan.steps;
    let mut sheet = Sheet::new(alloc);
    push_steps(
        &mut sheet.text,
        source.name,
        steps.len(),
        plan.retries.number(),
    )?;
    let is_told = told_plan(alloc, &mut sheet, source)?;
    tell_looks(alloc, &mut sheet, source, Some(TextForm::Plan))?;
    let names = BoardNames::of(alloc, &board)?;
    let findings = try_steps(alloc, board, steps)?;
    let mut text = sheet.into_text();
    push_findings(&mut text, &names, source.name, steps, findings.as_slice())?;
    Ok(Told {
        outcome: outcome_of(is_told, findings.as_slice()),
        text,
    })
}

/// What is told of a text that isn't of this form: its faults, and what it looks like.
fn refusal(alloc: Global, source: Source<'_>, form: TextForm) -> Result<String, AllocError> {
    let mut sheet = Sheet::new(alloc);
    let _outcome = checked(alloc, &mut sheet, source, form)?;
    tell_looks(alloc, &mut sheet, source, Some(form))?;
    Ok(sheet.into_text())
}

/// What is told of a text that is no plan.
fn refused(alloc: Global, source: Source<'_>) -> Result<Told, AllocError>
    ensures { IfOk result (λ told. told.outcome ≡ Outcome.Refused) }
{
    Ok(Told {
        outcome: Outcome::Refused,
        text: refusal(alloc, source, TextForm::Plan)?,
    })
}

/// What is told of a text, as a plan on the board.
fn told_text(alloc: Global, board: BoardFile, source: Source<'_>) -> Result<Told, AllocError>
    ensures { IfOk result
        (λ told. TextAgainst board source.entry.name.now source.entry.file.now
        told.outcome (string_bytes told.text)) }
{
    match read_plan(alloc, source.file) {
        Ok(plan) => tried(alloc, board, source, &plan),
        Err(PlanFault::Memory) => Err(AllocError),
        Err(_) => refused(alloc, source),
    }
}

/// The line of a file of this name that gives no text, for this cause.
fn unread_line(alloc: Global, name: &str, cause: Cause) -> Result<String, AllocError> {
    let cause = cause_words(cause);
    format!(in alloc; "{name}: not read, {cause}\n")
}

/// What is told of a file that gives no text, for this cause.
fn told_unread(alloc: Global, name: &str, cause: Cause) -> Result<Told, AllocError>
    ensures { IfOk result (λ told. told.outcome ≡ Outcome.Refused) }
{
    Ok(Told {
        outcome: Outcome::Refused,
        text: unread_line(alloc, name, cause)?,
    })
}

/// What is told of the file that the word names, as a plan on the board.
fn told_file<F: TextFiles + TellsCause>(
    alloc: Global,
    files: &F,
    board: BoardFile,
    word: &str,
) -> Result<Told, AllocError>
    ensures { IfOk result
        (λ told. FileAgainst (F.gives files.now) board word.now
        told.outcome (string_bytes told.text)) }
{
    let shown = shown_name(alloc, word)?;
    let name = shown.as_str();
    match files.text(word) {
        Ok(text) => {
            let file = text.as_str();
            told_text(alloc, board, Source { name, file })
        }
        Err(UnreadFile::Memory) => Err(AllocError),
        Err(UnreadFile::NoText) => told_unread(alloc, name, files.cause(word)),
    }
}

/// What is told of the file that the word names, as a plan on the board of this text, or why the text holds no board.
fn told_on<F: TextFiles + TellsCause>(
    alloc: Global,
    files: &F,
    board: &str,
    word: &str,
) -> Result<Told, FileFault>
    ensures told { IfOk result
        (λ told. OnBoardOf (F.gives files.now) board.now word.now
        told.outcome (string_bytes told.text)) }
    ensures fault { IfErr result
        (λ why. (why ≡ FileFault.Memory) ⊎ ReadsText board.now (Err why)) }
{
    let file = read_board(alloc, board)?;
    match told_file(alloc, files, file, word) {
        Ok(told) => Ok(told),
        Err(_) => Err(FileFault::Memory),
    }
}

/// What is told of the files that the words name, as plans on the board of this text, or why the text holds no board.
fn told_each<F: TextFiles + TellsCause>(
    alloc: Global,
    files: &F,
    board: &str,
    words: &[String],
) -> Result<Account, FileFault>
    ensures told { IfOk result
        (λ account. TellsEach (F.gives files.now) board.now (map string_bytes words.now)
        account.outcomes.items (string_bytes account.text)) }
    ensures fault { IfErr result
        (λ why. (why ≡ FileFault.Memory) ⊎ ReadsText board.now (Err why)) }
{
    let mut account = Account {
        outcomes: Vec::new(alloc),
        text: String::new(alloc),
    };
    for word in words {
        let told = told_on(alloc, files, board, word.as_str())?;
        let Ok(()) = account.push(told) else {
            return Err(FileFault::Memory);
        };
    }
    Ok(account)
}

/// The report of files.
fn account_report(account: Account) -> Report
    ensures stream { result.stream ≡ Stream.Output }
    ensures text { result.text ≡ account.text }
    ensures status { result.status ≡ status_of (worst_of account.outcomes.items) }
{
    let status = status_of(worst(account.outcomes.as_slice()));
    Report::output(account.text, status)
}

/// The report of a board's file that is refused, of which this is told.
fn refusal_report(text: String) -> Report
    ensures stream { result.stream ≡ Stream.Output }
    ensures text { result.text ≡ text }
    ensures status { result.status ≡ Status.RefusedFile }
{
    Report::output(text, Status::RefusedFile)
}

/// What is told of the files that the words name on the board of this text; or of the text, where it holds no board.
fn text_report<F: TextFiles + TellsCause>(
    alloc: Global,
    files: &F,
    board: Source<'_>,
    words: &[String],
) -> Result<Report, AllocError>
    ensures stream { IfOk result (λ report. report.stream ≡ Stream.Output) }
    ensures ends { IfOk result
        (λ report. EndsAgainst (F.gives files.now) board.entry.file.now
        (map string_bytes words.now) (string_bytes report.text) report.status) }
{
    match told_each(alloc, files, board.file, words) {
        Ok(account) => Ok(account_report(account)),
        Err(FileFault::Memory) => Err(AllocError),
        Err(_) => {
            let told = refusal(alloc, board, TextForm::Board)?;
            Ok(refusal_report(told))
        }
    }
}

/// What is told of the files that the words name on the board of the file that the word `board` names; or of that file, where it isn't read or
/// holds none.
fn against_report<F: TextFiles + TellsCause>(
    alloc: Global,
    files: &F,
    board: &str,
    words: &[String],
) -> Result<Report, AllocError>
    ensures { IfOk result
        (λ report. SaysOfAgainst (F.gives files.now) board.now (map string_bytes words.now)
        report.stream (string_bytes report.text) report.status) }
{
    let shown = shown_name(alloc, board)?;
    let name = shown.as_str();
    match files.text(board) {
        Ok(text) => {
            let file = text.as_str();
            text_report(alloc, files, Source { name, file }, words)
        }
        Err(UnreadFile::Memory) => Err(AllocError),
        Err(UnreadFile::NoText) => {
            let told = unread_line(alloc, name, files.cause(board))?;
            Ok(refusal_report(told))
        }
    }
}

/// Reads the file that the word `board` names as a board, and each of the others as a plan, and writes to standard output of each plan what it
/// holds, a line for each key that is unknown or not used, and one for each of its steps: what it meets on a fresh board, where each is tried on
/// what the steps before it leave. Where the first holds no board, that is all that is written, with its faults. Gives the status: 3 where the
/// board or a plan is refused, or a step would be refused or couldn't be taken back, and else as `check_files`.
pub fn check_against<F: TextFiles + TellsCause, W: io::Write, E: io::Write>(
    alloc: Global,
    files: &F,
    board: &str,
    words: &[String],
    console: &mut Console<W, E>,
) -> u8
    ensures { RunEnds W.contents E.contents
        (SaysOfAgainst (F.gives files.now) board.now (map string_bytes words.now))
        console.old console.new result }
{
    let report = against_report(alloc, files, board, words);
    u8::from(Ending::of(&report).write(console))
}
