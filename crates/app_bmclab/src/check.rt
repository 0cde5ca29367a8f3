//! `bmclab check`: what is told of files.
ghost use Rattle.std.specs.Prelude.{◌≡◌, IfOk, map, string_bytes};
ghost use Rattle.std.specs.List.{AllZip};
ghost use Rattle.app_base.specs.Ending.{RunEnds};
ghost use Rattle.file_words.specs.Escapes.{escaped};
ghost use Rattle.app_bmclab.specs.Checks.{FileOutcome, IsReadingsOutcome, IsTextOutcome, SaysOfChecks, status_of};

use app_base::{Console, Ending, Report, Status, TextFiles, UnreadFile};
use app_serve::{ReadingsFault, read_readings};
use file_faults::{Sheet, Source};
use file_words::push_escaped;
use std::alloc::{AllocError, Global};
use std::io;
use text_check::{Outcome, TextForm, checked, form_or, refuse_readings, tell_readings, worst};

/// Why a file gives no text.
#[derive(Clone, Copy)]
pub enum Cause {
    /// The file isn't there.
    Missing,
    /// The word names a folder.
    Folder,
    /// The file may not be read.
    Forbidden,
    /// The file isn't UTF-8.
    NotUtf8,
    /// The file can't be opened or read, or could be read now.
    Other,
}

/// Files that tell why one gives no text. Nothing is promised of that.
pub trait TellsCause {
    /// Why the file that the word names gave no text, when it was read last.
    fn cause(&self, word: &str) -> Cause;
}

/// Why a file gives no text, in words.
pub(crate) fn cause_words(cause: Cause) -> &'static str {
    match cause {
        Cause::Missing => "there is no such file",
        Cause::Folder => "it is a folder",
        Cause::Forbidden => "it may not be read",
        Cause::NotUtf8 => "it isn't UTF-8",
        Cause::Other => "it can't be read",
    }
}

/// The word as lines show it: in printable ASCII.
pub(crate) fn shown_name(alloc: Global, word: &str) -> Result<String, AllocError>
    ensures { IfOk result (λ name. string_bytes name ≡ escaped word.now) }
{
    let mut name = String::new(alloc);
    push_escaped(&mut name, word)?;
    Ok(name)
}

/// Adds what is told of a text of readings, and gives what came of it.
fn checked_readings(
    alloc: Global,
    sheet: &mut Sheet,
    source: Source<'_>,
) -> Result<Outcome, AllocError>
    ensures { IfOk result (IsReadingsOutcome source.entry.file.now) }
{
    match read_readings(alloc, source.file) {
        Ok(list) => {
            let count = list.len();
            drop(list);
            tell_readings(sheet, source, count)?;
            Ok(Outcome::Fine)
        }
        Err(ReadingsFault::Memory) => Err(AllocError),
        Err(ReadingsFault::Line(line)) => {
            refuse_readings(alloc, sheet, source, line)?;
            Ok(Outcome::Refused)
        }
    }
}

/// Adds what is told of a file of this form, and gives what came of it.
fn checked_file(
    alloc: Global,
    sheet: &mut Sheet,
    source: Source<'_>,
    form: TextForm,
) -> Result<Outcome, AllocError>
    ensures { IfOk result (IsTextOutcome form source.entry.file.now) }
{
    match form {
        TextForm::Readings => checked_readings(alloc, sheet, source),
        form => checked(alloc, sheet, source, form),
    }
}

/// What a text of this form is called.
pub(crate) fn form_words(form: TextForm) -> &'static str {
    match form {
        TextForm::Undo => "an undo text",
        TextForm::Journal => "a journal",
        TextForm::Board => "a board file",
        TextForm::Plan => "a plan",
        TextForm::Readings => "readings",
        TextForm::Schedule => "a schedule",
        TextForm::Empty => "an empty file",
    }
}

/// Tells what a file looks like that is said to be something else.
pub(crate) fn tell_looks(
    alloc: Global,
    sheet: &mut Sheet,
    source: Source<'_>,
    said: Option<TextForm>,
) -> Result<(), AllocError> {
    let Some(form) = said else {
        return Ok(());
    };
    let looks = form_or(alloc, None, source.file)?;
    if looks == form {
        return Ok(());
    }
    let (name, looks) = (source.name, form_words(looks));
    writeln!(sheet.text, "{name}: it looks like {looks}")
}

/// Adds what is told of the file that the word names, and gives what came of it.
fn check_file<F: TextFiles + TellsCause>(
    alloc: Global,
    files: &F,
    said: Option<TextForm>,
    word: &str,
    sheet: &mut Sheet,
) -> Result<Outcome, AllocError>
    ensures { IfOk result (FileOutcome (F.gives files.now) said word.now) }
{
    let shown = shown_name(alloc, word)?;
    let name = shown.as_str();
    match files.text(word) {
        Ok(text) => {
            let file = text.as_str();
            let source = Source { name, file };
            let form = form_or(alloc, said, file)?;
            let outcome = checked_file(alloc, sheet, source, form)?;
            tell_looks(alloc, sheet, source, said)?;
            Ok(outcome)
        }
        Err(UnreadFile::Memory) => Err(AllocError),
        Err(UnreadFile::NoText) => {
            let cause = cause_words(files.cause(word));
            writeln!(sheet.text, "{name}: not read, {cause}")?;
            Ok(Outcome::Refused)
        }
    }
}

/// Adds what is told of the files that the words name, and gives what came of each.
fn check_each<F: TextFiles + TellsCause>(
    alloc: Global,
    files: &F,
    said: Option<TextForm>,
    words: &[String],
    sheet: &mut Sheet,
) -> Result<Vec<Outcome>, AllocError>
    ensures { IfOk result
        (λ outcomes. AllZip (FileOutcome (F.gives files.now) said)
        (map string_bytes words.now) outcomes.items) }
{
    let mut outcomes = Vec::new(alloc);
    for word in words {
        let outcome = check_file(alloc, files, said, word.as_str(), sheet)?;
        outcomes.push(outcome)?;
    }
    Ok(outcomes)
}

/// How a run ends of whose files this came.
pub(crate) fn status_of(outcome: Outcome) -> Status
    ensures { result ≡ status_of outcome }
{
    match outcome {
        Outcome::Refused => Status::RefusedFile,
        Outcome::Told => Status::NotSent,
        Outcome::Fine => Status::Success,
    }
}

/// What is told of the files that the words name.
fn check_report<F: TextFiles + TellsCause>(
    alloc: Global,
    files: &F,
    said: Option<TextForm>,
    words: &[String],
) -> Result<Report, AllocError>
    ensures { IfOk result
        (λ report. SaysOfChecks (F.gives files.now) said (map string_bytes words.now)
        report.stream (string_bytes report.text) report.status) }
{
    let mut sheet = Sheet::new(alloc);
    let outcomes = check_each(alloc, files, said, words, &mut sheet)?;
    Ok(Report::output(sheet.into_text(), status_of(worst(outcomes.as_slice()))))
}

/// Reads each of the files that the words name as what they are said to be, or else as what it looks like, in their order, and writes to standard output what is told of it: a line
/// of what it holds or why it is refused, one for each fault, and one for each key that is unknown or not used. Gives the status: 3 where a file is refused, 1
/// where none is and something is told of a key, and else 0; 5 with `memory` on standard error where memory was refused, and 6 where a write
/// failed.
pub fn check_files<F: TextFiles + TellsCause, W: io::Write, E: io::Write>(
    alloc: Global,
    files: &F,
    said: Option<TextForm>,
    words: &[String],
    console: &mut Console<W, E>,
) -> u8
    ensures { RunEnds W.contents E.contents
        (SaysOfChecks (F.gives files.now) said (map string_bytes words.now))
        console.old console.new result }
{
    let report = check_report(alloc, files, said, words);
    u8::from(Ending::of(&report).write(console))
}
