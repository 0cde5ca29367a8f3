//! What a text looks like, by its first line that says something.
ghost use Rattle.std.specs.Prelude.{◌≡◌, ◌≤◌, IsTrue, IfOk, length, map, not, option_map};
ghost use Rattle.std.specs.List.{list_all, list_any, find};
ghost use Rattle.text_check.specs.Looks.{begins, form_named, form_or, is_digit, is_silent, is_number, is_undo, is_journal, is_toml, begins_with_digit, begins_board, first_spoken, looks_by, looks_of};

use std::alloc::{AllocError, Global};
use text_lines::lines;

/// What a text looks like.
#[derive(Clone, Copy, PartialEq, Eq)]
pub enum TextForm {
    /// An undo text.
    Undo,
    /// A journal.
    Journal,
    /// A board file.
    Board,
    /// A plan.
    Plan,
    /// A text of readings.
    Readings,
    /// A schedule.
    Schedule,
    /// Nothing: no line says anything.
    Empty,
}

impl TextForm {
    /// What the word calls a text.
    pub fn named(word: &str) -> Option<TextForm>
        ensures { result ≡ form_named word.now }
    {
        match word {
            "board" => Some(TextForm::Board),
            "plan" => Some(TextForm::Plan),
            "undo" => Some(TextForm::Undo),
            "journal" => Some(TextForm::Journal),
            "readings" => Some(TextForm::Readings),
            "schedule" => Some(TextForm::Schedule),
            _ => None,
        }
    }
}

/// Whether the text begins with the words.
fn begins(words: &str, text: &str) -> bool
    ensures value { result ≡ begins words.now text.now }
    ensures bound { IsTrue result → length words.now ≤ length text.now }
{
    text.as_bytes().starts_with(words.as_bytes())
}

/// Whether the line says nothing: it is blank, or a remark.
fn is_silent(line: &str) -> bool
    ensures { result ≡ is_silent line.now }
{
    let line = line.trim();
    line.is_empty() || begins("#", line)
}

/// Whether the byte is a decimal digit.
fn is_digit(byte: u8) -> bool
    ensures { result ≡ is_digit byte }
{
    48 <= byte && byte <= 57
}

/// Whether each of the bytes is a decimal digit.
fn are_digits(bytes: &[u8]) -> bool
    ensures { result ≡ list_all is_digit bytes.now }
{
    bytes.iter().all(|byte| is_digit(*byte))
}

/// Whether the word is a number: decimal digits, at least one.
fn is_number(word: &[u8]) -> bool
    ensures { result ≡ is_number word.now }
{
    !word.is_empty() && are_digits(word)
}

/// Whether the line is `undo` with a number.
fn is_undo(line: &str) -> bool
    ensures { result ≡ is_undo line.now }
{
    if !begins("undo ", line) {
        return false;
    }
    is_number(&line.as_bytes()[5..])
}

/// Whether the line is `journal` with a number.
fn is_journal(line: &str) -> bool
    ensures { result ≡ is_journal line.now }
{
    if !begins("journal ", line) {
        return false;
    }
    is_number(&line.as_bytes()[8..])
}

/// Whether the line is one of TOML: it has a `=`, or begins with `[`.
fn is_toml(line: &str) -> bool
    ensures { result ≡ is_toml line.now }
{
    line.as_bytes().contains(&b'=') || begins("[", line)
}

/// Whether the line begins with a decimal digit.
fn begins_with_digit(line: &str) -> bool
    ensures { result ≡ begins_with_digit line.now }
{
    !line.is_empty() && is_digit(line.as_bytes()[0])
}

/// Whether the line begins as one of a board file alone does.
fn begins_board(line: &str) -> bool
    ensures { result ≡ begins_board line.now }
{
    let line = line.trim();
    begins("tid ", line) || begins("tid=", line) || begins("[device]", line)
}

/// The first of the lines that isn't silent.
fn first_said<'a>(lines: &[&'a str]) -> Option<&'a str>
    ensures { result ≡ find (λ line. not (is_silent line.now)) lines.now }
{
    lines.iter().copied().find(|line| !is_silent(line))
}

/// The first of the lines that says something.
fn first_line<'a>(lines: &[&'a str]) -> Option<&'a str>
    ensures { option_map (λ line. line.now) result
        ≡ first_spoken (map (λ line. line.now) lines.now) }
{
    first_said(lines)
}

/// Whether one of the lines begins so.
fn has_any(lines: &[&str]) -> bool
    ensures { result ≡ list_any (λ line. begins_board line.now) lines.now }
{
    lines.iter().any(|line| begins_board(line))
}

/// Whether one of the lines begins as one of a board file alone does.
fn has_board(lines: &[&str]) -> bool
    ensures { result ≡ list_any begins_board (map (λ line. line.now) lines.now) }
{
    has_any(lines)
}

/// What lines look like.
fn looks_by(lines: &[&str]) -> TextForm
    ensures { result ≡ looks_by (map (λ line. line.now) lines.now) }
{
    let Some(first) = first_line(lines) else {
        return TextForm::Empty;
    };
    let line = first.trim();
    if is_undo(line) {
        return TextForm::Undo;
    }
    if is_journal(line) {
        return TextForm::Journal;
    }
    if is_toml(line) {
        return if has_board(lines) {
            TextForm::Board
        } else {
            TextForm::Plan
        };
    }
    if begins_with_digit(line) {
        TextForm::Readings
    } else {
        TextForm::Schedule
    }
}

/// What the text looks like. White space at the ends of a line counts for nothing.
fn looks_like(alloc: Global, text: &str) -> Result<TextForm, AllocError>
    ensures { IfOk result (λ looks. looks ≡ looks_of text.now) }
{
    let lines = lines(alloc, text)?;
    Ok(looks_by(lines.as_slice()))
}

/// What the text is: what it is said to be, or else what it looks like.
pub fn form_or(alloc: Global, said: Option<TextForm>, text: &str) -> Result<TextForm, AllocError>
    ensures { IfOk result (λ form. form ≡ form_or said text.now) }
{
    match said {
        Some(form) => Ok(form),
        None => looks_like(alloc, text),
    }
}
