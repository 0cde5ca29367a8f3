//! What a text says that there is to take back.
ghost use Rattle.std.specs.Prelude.{◌≡◌, IfOk};
ghost use Rattle.undo_plans.specs.Journals.{kept_in};
ghost use Rattle.undo_core.specs.Journals.{kept_by};
ghost use Rattle.app_journal.specs.Standing.{IsFinishedAs, IsListStanding, IsSameAs, IsStanding};
ghost use Rattle.app_journal.specs.Standing.{StandsBeside, is_over_at, stands_with, standing_of};

use crate::reviving::{ReviveFault, revive_text};
use std::alloc::{AllocError, Global};
use text_journal::{JournalTextFault, read_journal};
use text_lines::{UndoFault, read_undo, write_undo};
use undo_core::Manager;
use undo_plans::{Journal, KeptStage, KeptTask};

/// What a file beside that of an undo text has.
#[derive(Clone, Copy, Debug, PartialEq, Eq)]
pub enum Standing {
    /// There is nothing to take back.
    Nothing,
    /// There is something: a list that isn't empty, or an open request that changes a record.
    Something,
    /// The text is no journal and no undo text.
    NoJournal,
}

/// What stands where there is something to take back, or nothing.
fn stands_with(something: bool) -> Standing
    ensures { result ≡ stands_with something }
{
    if something {
        Standing::Something
    } else {
        Standing::Nothing
    }
}

/// What a journal says.
fn journal_standing(journal: &Journal) -> Standing
    ensures { result ≡ standing_of (kept_in journal.now.contents) }
{
    let contents = &journal.contents;
    match contents.stage {
        KeptStage::Undone => Standing::Nothing,
        KeptStage::Open {
            task: KeptTask::Set(_) | KeptTask::Undo(_),
            ..
        } => Standing::Something,
        _ => stands_with(contents.requests.len() > 0),
    }
}

/// What a text says that is no journal.
fn list_standing(alloc: Global, text: &str) -> Result<Standing, AllocError>
    ensures { IfOk result (λ standing. IsListStanding standing text.now) }
{
    match read_undo(alloc, text) {
        Ok(list) => Ok(stands_with(list.requests.len() > 0)),
        Err(UndoFault::Memory) => Err(AllocError),
        Err(UndoFault::Line(_)) => Ok(Standing::NoJournal),
    }
}

/// What the text of a journal, or an undo text, says that there is to take back.
pub fn standing_in(alloc: Global, text: &str) -> Result<Standing, AllocError>
    ensures { IfOk result (λ standing. IsStanding standing text.now) }
{
    match read_journal(alloc, text) {
        Ok(journal) => Ok(journal_standing(&journal)),
        Err(JournalTextFault::Memory) => Err(AllocError),
        Err(JournalTextFault::Line(_)) => list_standing(alloc, text),
    }
}

/// Whether the plan ended or halted.
fn is_over_at(stage: &KeptStage) -> bool
    ensures { result ≡ is_over_at stage.now }
{
    matches!(stage, KeptStage::Done | KeptStage::Halted(_, _))
}

/// Whether that of a manager did.
fn has_ended(manager: &Manager) -> bool
    ensures { result ≡ is_over_at (kept_by manager.now).stage }
{
    is_over_at(&manager.journal().stage)
}

/// Whether both texts are the same.
fn is_same(text: &str, other: &str) -> bool
    ensures { IsSameAs text.now other.now result }
{
    if text == other {
        return true;
    }
    false
}

/// Whether the text is that of the journal of a manager whose plan is over, and the undo text is that of its list.
fn is_finished(alloc: Global, text: &str, undo: &str) -> Result<bool, AllocError>
    ensures { IfOk result (IsFinishedAs text.now undo.now) }
{
    let manager = match revive_text(alloc, text) {
        Ok(manager) => manager,
        Err(ReviveFault::Memory) => return Err(AllocError),
        Err(_) => return Ok(false),
    };
    if !has_ended(&manager) {
        drop(manager);
        return Ok(false);
    }
    let list = write_undo(alloc, manager.undo_list())?;
    Ok(is_same(undo, list.as_str()))
}

/// What the text of a journal, or an undo text, says that there is to take back, beside this undo text: nothing where that has the list of a
/// journal whose plan is over.
pub(crate) fn standing_beside(alloc: Global, text: &str, undo: &str) -> Result<Standing, AllocError>
    ensures { IfOk result (StandsBeside text.now undo.now) }
{
    match standing_in(alloc, text)? {
        Standing::Something => Ok(stands_with(!is_finished(alloc, text, undo)?)),
        other => Ok(other),
    }
}
