//! What is said of the fields of a record, and the line that says it.
ghost use Rattle.std.specs.Prelude.{◌≡◌, ◌+◌, ◌≤◌, ◌<◌, [], ◌++◌, length, Some};
ghost use Rattle.std.specs.Fmt.{DisplaysOnOk};
ghost use Rattle.record_words.specs.PartWords.{found, front, line_words, listed, more_words, old_of, part_of, part_words, parts_of, said_words, saying};

use crate::field::{Field, Fields, Label, MOST_FIELDS};
use crate::name::{RecordName, Subject};
use crate::shown::Shown;
use arrayvec::ArrayVec;
use record_base::Key;
use std::fmt;
use std::marker::Model;

/// Which way a request goes.
#[derive(Clone, Copy, PartialEq)]
pub enum Way {
    /// It changes a record.
    There,
    /// It puts back what was there.
    Back,
}

/// What is said of a field.
#[derive(Clone, Copy)]
pub enum Said {
    /// What it becomes.
    Is(Shown),
    /// What it was, and what it becomes.
    Becomes(Shown, Shown),
    /// What it becomes again.
    Again(Shown),
}

/// A field, and what is said of it.
#[derive(Clone, Copy)]
pub struct Part {
    pub label: Label,
    pub said: Said,
}

impl Default for Part {
    fn default() -> Self {
        Part {
            label: Label::Whole,
            said: Said::Is(Shown::Kept),
        }
    }
}

/// At most `MOST_FIELDS` parts of a line. They lie in the value itself.
#[derive(Drop)]
pub struct Parts {
    items: ArrayVec<Part, { MOST_FIELDS }>,
}

impl Model for Parts {
    ghost use Rattle.std.specs.Prelude.{List};
    ghost use Rattle.record_words.specs.declared.parts.Part.{Part};

    ghost Value = { List Part };

    ghost view = { λ c. c.items.items };

    ghost inverse = { λ xs. record { items = record { items = xs } } };
}

/// The field of this name, if it is there.
fn found(olds: &[Field], label: Label) -> Option<Field>
    ensures { result ≡ found olds.now label }
{
    olds.iter().copied().find(|old| old.label == label)
}

/// What the field of this name was, or that nobody knows.
fn old_of(olds: &[Field], label: Label) -> Shown
    ensures { result ≡ old_of olds.now label }
{
    match found(olds, label) {
        Some(old) => old.shown,
        None => Shown::Kept,
    }
}

/// What is said of a field that was so and becomes so: nothing where an operation leaves it, or where it stays the same.
fn saying(way: Way, old: Shown, new: Shown) -> Option<Said>
    ensures { result ≡ saying way old new }
{
    if new == Shown::Kept || old == new {
        return None;
    }
    if way == Way::Back {
        return Some(Said::Again(new));
    }
    if old == Shown::Kept {
        return Some(Said::Is(new));
    }
    Some(Said::Becomes(old, new))
}

/// The part of a field, if something is said of it.
fn part_of(way: Way, olds: &[Field], field: &Field) -> Option<Part>
    ensures { result ≡ part_of way olds.now field.now }
{
    let label = field.label;
    match saying(way, old_of(olds, label), field.shown) {
        Some(said) => Some(Part { label, said }),
        None => None,
    }
}

impl Parts {
    /// No parts.
    fn new() -> Self
        ensures { result ≡ [] }
    {
        Parts {
            items: ArrayVec::new(),
        }
    }

    /// The parts.
    pub fn as_slice(&self) -> &[Part]
        ensures { result.now ≡ self.now }
    {
        self.items.as_slice()
    }

    /// Appends a part, if there is one.
    fn push(&mut self, part: Option<Part>)
        requires { length self.old < 9 }
        ensures parts { self.new ≡ self.old ++ listed part }
        ensures few { length self.new ≤ length self.old + 1 }
    {
        if let Some(part) = part {
            self.items.push(part);
        }
    }

    /// The parts of fields, where these are what they were.
    pub fn of(way: Way, olds: &[Field], fields: &Fields) -> Self
        ensures { result ≡ parts_of way olds.now fields.now }
    {
        let mut parts = Parts::new();
        for field in fields.as_slice() {
            parts.push(part_of(way, olds, field));
        }
        parts
    }
}

impl fmt::Display for Said {
    ghost output = { λ it. Some (said_words it) };

    fn fmt<W: fmt::Write>(&self, f: &mut fmt::Formatter<W>) -> fmt::Result {
        match self {
            Said::Is(new) => write!(f, ": {new}"),
            Said::Becomes(old, new) => write!(f, ": {old} -> {new}"),
            Said::Again(old) => write!(f, " <- {old}"),
        }
    }
}

impl fmt::Display for Part {
    ghost output = { λ it. Some (part_words it) };

    fn fmt<W: fmt::Write>(&self, f: &mut fmt::Formatter<W>) -> fmt::Result {
        let label = self.label;
        let said = self.said;
        write!(f, "{label}{said}")
    }
}

/// A record, and what is said of its fields.
#[derive(Drop)]
pub struct Line {
    pub record: Key,
    pub parts: Parts,
}

/// What stands in front of a part that is the first.
fn front(label: Label) -> &'static str
    ensures { result.now ≡ front label }
{
    match label {
        Label::Whole => "",
        Label::Of(_) | Label::Field(_) => " ",
    }
}

/// Writes parts that aren't the first.
fn write_more<W: fmt::Write>(f: &mut fmt::Formatter<W>, parts: &[Part]) -> fmt::Result
    ensures { DisplaysOnOk W.write_str_gives f.old result (Some (more_words parts.now)) f.new }
{
    for part in parts {
        write!(f, "; {part}")?;
    }
    Ok(())
}

impl fmt::Display for Line {
    ghost output = { λ it. Some (line_words it.record it.parts) };

    fn fmt<W: fmt::Write>(&self, f: &mut fmt::Formatter<W>) -> fmt::Result {
        let [first, more @ ..] = self.parts.as_slice() else {
            let name = RecordName(self.record);
            return write!(f, "{name}: no change");
        };
        let subject = Subject(self.record);
        let space = front(first.label);
        write!(f, "{subject}{space}{first}")?;
        write_more(f, more)
    }
}
