//! Undo texts: the list of requests that undo a plan, as a file keeps it.
ghost use Rattle.std.specs.Prelude.{◌≡◌, ◌⊎◌, ◌≤◌, ◌+◌, ◌++◌, ℕ, Ok, Err, None, IfOk, IfErr, OnOk, length, map, reverse, string_bytes};
ghost use Rattle.std.specs.List.{All, AllZip, flat_map};
ghost use Rattle.text_lines.specs.Cuts.{ended};
ghost use Rattle.undo_plans.specs.Steps.{most_steps};
ghost use Rattle.text_lines.specs.Versions.{version_line, head_length};
ghost use Rattle.text_lines.specs.UndoText.{IsPlain, IsRequestLine, AreLinesOf, IsTextOf, IsFirstBad, IsFirstBadFrom, version_of, line_of, text_of};

use crate::undo_line::{add_first, first_numbers, push_request};
use crate::undo_names::{push_names_line, version_names};
use crate::undo_version::{Version, first_version, head_lines};
use std::alloc::{AllocError, Global};
use std::fmt;
use undo_plans::{MOST_STEPS, Names, Requests, UndoList};

/// Why a text is no undo text.
#[derive(Clone, Copy, Debug, PartialEq, Eq)]
pub enum UndoFault {
    /// Memory ran out.
    Memory,
    /// The first bad line, counted from 1.
    Line(usize),
}

/// The most requests of a text.
const MOST_REQUESTS: usize = MOST_STEPS;

/// The first line of a list with these names, or with none, and the line feed that ends it.
fn version_text(names: &Option<Names>) -> &'static str
    ensures { result.now ≡ ended (version_line (version_of names.now)) }
{
    match names {
        None => Version::One.line(),
        Some(_) => Version::Two.line(),
    }
}

/// The text of the list, in upper case: what `read_undo` reads as that list, where each request is from nobody and to logical unit 0. It is
/// of version 2 where the list has names, and else of version 1.
pub fn write_undo(alloc: Global, list: &UndoList) -> Result<String, AllocError>
    ensures text { IfOk result (λ text. string_bytes text ≡ text_of list.now) }
    ensures stands { All IsPlain list.now.requests.members
        → IfOk result (λ text. IsTextOf (string_bytes text) list.now) }
{
    let mut text = String::from_str(alloc, version_text(&list.names))?;
    let ipmb = list.next.ipmb.number();
    let smbus = list.next.smbus.number();
    writeln!(text, "next ipmb {ipmb} smbus {smbus}")?;
    push_names_line(alloc, &mut text, &list.names)?;
    push_requests(alloc, &mut text, &list.requests)?;
    Ok(text)
}

/// Adds the lines of the requests, that of the last first.
pub fn push_requests(
    alloc: Global,
    text: &mut String,
    requests: &Requests,
) -> Result<(), AllocError>
    ensures text { OnOk result (string_bytes text.new
        ≡ string_bytes text.old ++ flat_map ended (map line_of (reverse requests.now.members))) }
    ensures lines { OnOk result (All IsPlain requests.now.members
        → AllZip IsRequestLine
        (map line_of (reverse requests.now.members)) (reverse requests.now.members)) }
    ensures few { length requests.now.members ≤ most_steps }
{
    let mut place = requests.len();
    while place > 0 {
        place -= 1;
        let request = requests.get(place).unwrap();
        push_request(alloc, text, &request)?;
    }
    Ok(())
}

/// The requests of these lines, in their order, or the number of the first bad line, in a text of this version.
fn read_requests(alloc: Global, version: Version, text: &str) -> Result<Requests, UndoFault>
    ensures lines { IfOk result (λ requests. AreLinesOf text.now requests.members) }
    ensures few { IfOk result (λ requests. length requests.members ≤ most_steps) }
    ensures waiting { IfOk result (λ requests. requests.waiting ≡ None) }
    ensures fault { IfErr result
        (λ why. (why ≡ UndoFault.Memory) ⊎ ((n : ℕ) × (why ≡ UndoFault.Line n)
        × IsFirstBadFrom version (head_length version + 1) text.now n)) }
{
    let first = head_lines(version) + 1;
    let Ok(mut requests) = Requests::open(alloc, 0, 0) else {
        return Err(UndoFault::Memory);
    };
    let mut rest = text;
    while !rest.is_empty() {
        let line = UndoFault::Line(first + requests.len());
        if requests.len() == MOST_REQUESTS {
            return Err(line);
        }
        let Ok(found) = add_first(alloc, rest, &mut requests) else {
            return Err(UndoFault::Memory);
        };
        let Some(behind) = found else {
            return Err(line);
        };
        rest = behind;
    }
    Ok(requests)
}

/// The list that the text stands for, or its first bad line. A last line without a line feed is bad, and so is a line in front of the
/// requests that isn't there.
pub fn read_undo(alloc: Global, text: &str) -> Result<UndoList, UndoFault>
    ensures list { IfOk result (λ list. IsTextOf text.now list) }
    ensures fault { IfErr result (λ why. (why ≡ UndoFault.Memory)
        ⊎ ((n : ℕ) × (why ≡ UndoFault.Line n) × IsFirstBad text.now n)) }
{
    let Some(begun) = first_version(text) else {
        return Err(UndoFault::Line(1));
    };
    let Some(numbered) = first_numbers(begun.1) else {
        return Err(UndoFault::Line(2));
    };
    let Some(named) = version_names(begun.0, numbered.1) else {
        return Err(UndoFault::Line(3));
    };
    match read_requests(alloc, begun.0, named.1) {
        Ok(mut requests) => {
            requests.reverse();
            Ok(UndoList {
                requests,
                next: numbered.0,
                names: named.0,
            })
        }
        Err(why) => Err(why),
    }
}

impl fmt::Display for UndoFault {
    ghost use Rattle.std.specs.Prelude.{Some};
    ghost use Rattle.text_lines.specs.UndoNames.{undo_fault_name};

    ghost output = { λ fault. Some (undo_fault_name fault) };

    fn fmt<W: fmt::Write>(&self, f: &mut fmt::Formatter<W>) -> fmt::Result {
        match self {
            UndoFault::Memory => f.write_str("Memory"),
            UndoFault::Line(line) => write!(f, "Line {line}"),
        }
    }
}
