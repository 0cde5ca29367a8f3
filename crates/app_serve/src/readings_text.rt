//! Texts of readings.
ghost use Rattle.std.specs.Prelude.{◌≡◌, ◌++◌, ◌∷◌, [], ◌↔◌, IsTrue, map};
ghost use Rattle.text_lines.specs.Schedule.{is_skipped};
ghost use Rattle.app_serve.specs.ReadingsText.{LinesAreRead, TextIsRead, NeverFalls};

use crate::readings_line::read_line;
use bmc_ports::Timed;
use std::alloc::Global;
use std::fmt;
use text_lines::lines;

/// Why a text is no text of readings.
#[derive(Clone, Copy, Debug, PartialEq, Eq)]
pub enum ReadingsFault {
    /// Memory was refused.
    Memory,
    /// The first bad line, counted from 1.
    Line(usize),
}

/// Whether a line is skipped: it's blank, or a comment.
fn is_skipped(line: &str) -> bool
    ensures { result ≡ is_skipped line.now }
{
    line.is_empty() || line.starts_with('#')
}

/// Whether the time comes behind all of the list, or with the last.
fn comes_behind(list: &[Timed], next: &Timed) -> bool
    requires { NeverFalls list.now }
    ensures { IsTrue result ↔ NeverFalls (list.now ++ next.now ∷ []) }
{
    match list.last() {
        Some(last) => last.at_ms <= next.at_ms,
        None => true,
    }
}

/// The list that the lines say.
fn read_lines(alloc: Global, lines: &[&str]) -> Result<Vec<Timed>, ReadingsFault>
    ensures { LinesAreRead (map (λ x. x.now) lines.now) result }
{
    let mut list = Vec::new(alloc);
    for (place, line) in lines.iter().enumerate() {
        if is_skipped(line) {
            continue;
        }
        let Ok(found) = read_line(alloc, line) else {
            return Err(ReadingsFault::Memory);
        };
        let Some(timed) = found else {
            return Err(ReadingsFault::Line(place + 1));
        };
        if !comes_behind(list.as_slice(), &timed) {
            return Err(ReadingsFault::Line(place + 1));
        }
        if list.push(timed).is_err() {
            return Err(ReadingsFault::Memory);
        }
    }
    Ok(list)
}

/// The list that the text stands for, of what happens on a board and when, or its first bad line. A line whose time is before that of a
/// line above it is bad.
pub fn read_readings(alloc: Global, text: &str) -> Result<Vec<Timed>, ReadingsFault>
    ensures { TextIsRead text.now result }
{
    match lines(alloc, text) {
        Ok(lines) => read_lines(alloc, lines.as_slice()),
        Err(_) => Err(ReadingsFault::Memory),
    }
}

impl fmt::Display for ReadingsFault {
    ghost use Rattle.std.specs.Prelude.{Some};
    ghost use Rattle.app_serve.specs.ReadingsNames.{readings_fault_name};

    ghost output = { λ fault. Some (readings_fault_name fault) };

    fn fmt<W: fmt::Write>(&self, f: &mut fmt::Formatter<W>) -> fmt::Result {
        match self {
            ReadingsFault::Memory => f.write_str("Memory"),
            ReadingsFault::Line(line) => write!(f, "Line {line}"),
        }
    }
}
