//! Reading the text of a journal.
ghost use Rattle.std.specs.Prelude.{◌≡◌, ◌≢◌, ◌⊎◌, ℕ, IfOk, IfErr, IfSome, IfNone};
ghost use Rattle.undo_plans.specs.Journals.{kept_in};
ghost use Rattle.text_journal.specs.declared.draft.Place.TheVariants as at;
ghost use Rattle.text_journal.specs.JournalText.{said_in, kept_so_far, IsOpen, IsTextOf, IsFirstBad};

use crate::draft::{Draft, Place};
use std::alloc::Global;
use std::fmt;
use undo_plans::Journal;

/// Why a text is no journal.
#[derive(Clone, Copy, Debug, PartialEq, Eq)]
pub enum JournalTextFault {
    /// Memory ran out.
    Memory,
    /// The first bad line, counted from 1.
    Line(usize),
}

/// The journal of a draft to which no line is to come.
fn journal_of(draft: Draft) -> Option<Journal>
    requires { IsOpen (said_in draft) }
    ensures some { IfSome result (λ journal. (draft.place ≡ at.End)
        × (kept_in journal.contents ≡ kept_so_far draft.contents)) }
    ensures none { IfNone result (draft.place ≢ at.End) }
{
    match draft.place {
        Place::End => Some(Journal {
            contents: draft.contents,
        }),
        _ => None,
    }
}

/// The journal that the text stands for, or its first bad line. A last line without a line feed is bad, and so is a line that has to come and
/// isn't there.
pub fn read_journal(alloc: Global, text: &str) -> Result<Journal, JournalTextFault>
    ensures journal { IfOk result (λ journal. IsTextOf text.now (kept_in journal.contents)) }
    ensures fault { IfErr result (λ why. (why ≡ JournalTextFault.Memory)
        ⊎ ((n : ℕ) × (why ≡ JournalTextFault.Line n) × IsFirstBad text.now n)) }
{
    let Ok(mut draft) = Draft::new(alloc) else {
        return Err(JournalTextFault::Memory);
    };
    let mut rest = text;
    let mut line = 1;
    while !rest.is_empty() {
        let Ok(found) = draft.take(alloc, rest) else {
            return Err(JournalTextFault::Memory);
        };
        let Some(behind) = found else {
            return Err(JournalTextFault::Line(line));
        };
        rest = behind;
        line += 1;
    }
    match journal_of(draft) {
        Some(journal) => Ok(journal),
        None => Err(JournalTextFault::Line(line)),
    }
}

impl fmt::Display for JournalTextFault {
    ghost use Rattle.std.specs.Prelude.{Some};
    ghost use Rattle.text_journal.specs.FaultNames.{fault_name};

    ghost output = { λ fault. Some (fault_name fault) };

    fn fmt<W: fmt::Write>(&self, f: &mut fmt::Formatter<W>) -> fmt::Result {
        match self {
            JournalTextFault::Memory => f.write_str("Memory"),
            JournalTextFault::Line(line) => write!(f, "Line {line}"),
        }
    }
}
