//! What is told of the bad line of a text: where it is, what stands there, and what would be right.
ghost use Rattle.std.specs.Prelude.{IfOk, IfSome};
ghost use Rattle.text_check.specs.BadLines.{IsLineAt};

use crate::line_forms::{JOURNAL_LINES, UNDO_HEAD};
use file_faults::{Sheet, Source};
use file_words::{
    LineForm, READING_LINES, SCHEDULE_LINES, UNDO_LINES, push_form, push_line, push_reason, slip_of,
};
use std::alloc::{AllocError, Global};
use text_lines::{first_version, head_lines, lines};
use undo_plans::MOST_STEPS;

/// A line of a text.
#[derive(Clone, Copy)]
struct LineAt<'a> {
    /// Its number, counted from 1.
    number: usize,
    /// What it says.
    said: &'a str,
    /// Whether a line feed ends it.
    is_ended: bool,
}

/// The line of this number of the text, what stands behind the last line feed among them.
fn line_at<'a>(
    alloc: Global,
    text: &'a str,
    number: usize,
) -> Result<Option<LineAt<'a>>, AllocError>
    ensures { IfOk result (λ found. IfSome found (IsLineAt text.now number)) }
{
    let lines = lines(alloc, text)?;
    let place = number.saturating_sub(1);
    match lines.as_slice().get(place) {
        Some(said) => Ok(Some(LineAt {
            number,
            said: *said,
            is_ended: lines.as_slice().len() > number,
        })),
        None => Ok(None),
    }
}

/// The first word of the line.
fn first_word(line: &str) -> &str {
    match line.split_once(' ') {
        Some((word, _rest)) => word,
        None => line,
    }
}

/// Adds where the line is, and the front of what stands there.
fn push_place(text: &mut String, name: &str, line: LineAt<'_>) -> Result<(), AllocError> {
    write!(text, "{name}:{}: ", line.number)?;
    if line.said.is_empty() {
        return text.push_str("nothing stands here: ");
    }
    push_line(text, line.said)?;
    text.push_str(": ")
}

/// Adds what is wrong with a line of these forms, where none is blank.
fn push_wrong(text: &mut String, forms: &[LineForm], line: LineAt<'_>) -> Result<(), AllocError> {
    if !line.is_ended {
        return text.push_str("no line feed ends it");
    }
    if line.said.is_empty() {
        return text.push_str("no line is blank");
    }
    push_reason(text, forms, line.said, first_word(line.said))
}

/// Tells of the bad line of a schedule.
pub(crate) fn tell_schedule_line(
    alloc: Global,
    sheet: &mut Sheet,
    source: Source<'_>,
    number: usize,
) -> Result<(), AllocError> {
    let Some(line) = line_at(alloc, source.file, number)? else {
        return Ok(());
    };
    push_place(&mut sheet.text, source.name, line)?;
    push_reason(
        &mut sheet.text,
        &SCHEDULE_LINES,
        line.said,
        first_word(line.said),
    )?;
    sheet.text.push_str("\n")
}

/// How many lines stand in front of the requests of an undo text, as far as its first line says so.
fn head_of(file: &str) -> usize {
    match first_version(file) {
        Some((version, _behind)) => head_lines(version),
        None => UNDO_HEAD.len(),
    }
}

/// What a line of this number is to be in front of so many lines of an undo text.
fn undo_head(number: usize, head: usize) -> Option<&'static str> {
    if number > head {
        return None;
    }
    UNDO_HEAD.get(number.saturating_sub(1)).copied()
}

/// Adds what is wrong with a line of an undo text.
fn push_undo_wrong(text: &mut String, file: &str, line: LineAt<'_>) -> Result<(), AllocError> {
    let head = head_of(file);
    let form = undo_head(line.number, head);
    match (slip_of(line.said), form) {
        (None, Some(form)) if line.is_ended || line.said.is_empty() => text.push_str(form),
        (None, None) if line.number > MOST_STEPS.saturating_add(head) => {
            write!(text, "at most {MOST_STEPS} requests")
        }
        _ => push_wrong(text, &UNDO_LINES, line),
    }
}

/// Tells of the bad line of an undo text.
pub(crate) fn tell_undo_line(
    alloc: Global,
    sheet: &mut Sheet,
    source: Source<'_>,
    number: usize,
) -> Result<(), AllocError> {
    let Some(line) = line_at(alloc, source.file, number)? else {
        return Ok(());
    };
    push_place(&mut sheet.text, source.name, line)?;
    push_undo_wrong(&mut sheet.text, source.file, line)?;
    sheet.text.push_str("\n")
}

/// Whether a line of these forms begins with the word.
fn is_word_of(forms: &[LineForm], word: &str) -> bool {
    forms.iter().any(|form| form.0 == word)
}

/// Adds what is wrong with a line of a journal.
fn push_journal_wrong(text: &mut String, line: LineAt<'_>) -> Result<(), AllocError> {
    if line.said.is_empty() && !line.is_ended {
        return text.push_str("the text ends in front of its last line");
    }
    push_wrong(text, &JOURNAL_LINES, line)?;
    let is_plain = line.is_ended && slip_of(line.said).is_none();
    if is_plain && is_word_of(&JOURNAL_LINES, first_word(line.said)) {
        return text.push_str(", where the lines above call for it");
    }
    Ok(())
}

/// Tells of the bad line of a journal.
pub(crate) fn tell_journal_line(
    alloc: Global,
    sheet: &mut Sheet,
    source: Source<'_>,
    number: usize,
) -> Result<(), AllocError> {
    let Some(line) = line_at(alloc, source.file, number)? else {
        return Ok(());
    };
    push_place(&mut sheet.text, source.name, line)?;
    push_journal_wrong(&mut sheet.text, line)?;
    sheet.text.push_str("\n")
}

/// The word behind the line's time.
fn event_word(line: &str) -> Option<&str> {
    match line.split_once(' ') {
        Some((_time, rest)) => Some(first_word(rest)),
        None => None,
    }
}

/// Adds what is wrong with a line of readings.
fn push_readings_wrong(text: &mut String, line: &str) -> Result<(), AllocError> {
    if let Some(slip) = slip_of(line) {
        return write!(text, "{slip}");
    }
    let Some(word) = event_word(line) else {
        return text.push_str("MS, and what happens then");
    };
    push_form(text, &READING_LINES, word)?;
    if is_word_of(&READING_LINES, word) {
        return text.push_str(", and MS is no less than in a line above");
    }
    Ok(())
}

/// Tells of the bad line of a text of readings.
pub(crate) fn tell_readings_line(
    alloc: Global,
    sheet: &mut Sheet,
    source: Source<'_>,
    number: usize,
) -> Result<(), AllocError> {
    let Some(line) = line_at(alloc, source.file, number)? else {
        return Ok(());
    };
    push_place(&mut sheet.text, source.name, line)?;
    push_readings_wrong(&mut sheet.text, line.said)?;
    sheet.text.push_str("\n")
}
