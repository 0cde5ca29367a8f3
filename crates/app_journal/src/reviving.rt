//! A manager that is made again of the text of a journal.
ghost use Rattle.std.specs.Prelude.{IfOk, IfErr};
ghost use Rattle.app_journal.specs.Reviving.{IsFault, IsMadeOf};

use model_lab::lab_names;
use std::alloc::Global;
use text_journal::{JournalTextFault, read_journal};
use undo_core::{Manager, ResumeFault};

/// Why no manager with the lab's names is made of a text.
#[derive(Clone, Copy, Debug, PartialEq, Eq)]
pub enum ReviveFault {
    /// Memory was refused.
    Memory,
    /// The text is no journal: its first bad line, counted from 1.
    Line(usize),
    /// It is the journal of a manager that sends a request again more often than one can.
    Retries,
    /// It is the journal of a manager of other names.
    OtherNames,
}

/// The manager with the lab's names that is made again of the text of a journal. One that has a request open has it unsettled, and its plan is to
/// stop.
pub fn revive_text(alloc: Global, text: &str) -> Result<Manager, ReviveFault>
    ensures made { IfOk result (IsMadeOf text.now) }
    ensures fault { IfErr result (λ why. IsFault why text.now) }
{
    let journal = match read_journal(alloc, text) {
        Ok(journal) => journal,
        Err(JournalTextFault::Memory) => return Err(ReviveFault::Memory),
        Err(JournalTextFault::Line(line)) => return Err(ReviveFault::Line(line)),
    };
    match Manager::revive(alloc, journal, lab_names()) {
        Ok(manager) => Ok(manager),
        Err(ResumeFault::Memory) => Err(ReviveFault::Memory),
        Err(ResumeFault::Retries) => Err(ReviveFault::Retries),
        Err(ResumeFault::OtherNames) => Err(ReviveFault::OtherNames),
    }
}
