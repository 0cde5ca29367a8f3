//! What FILE says to `bmcnet revert`: the manager that takes back, or why there is none.
ghost use Rattle.std.specs.Prelude.{◌≡◌, ◌⊎◌, IfErr, IfOk, Ok};
ghost use Rattle.undo_plans.specs.declared.undo_list.UndoList.{UndoList as AnyList};
ghost use Rattle.text_lines.specs.UndoText.{IsTextOf};
ghost use Rattle.model_lab.specs.Meaning.{lab_names};
ghost use Rattle.undo_core.specs.Shown.{AreOthers, Represents};
ghost use Rattle.app_journal.specs.Reviving.{IsMadeOf};
ghost use Rattle.app_run.specs.Driven.{resumed_from as resumed_with};
ghost use Rattle.app_run.specs.JournalUndo.{IsJournal};
ghost use Rattle.app_revert.specs.Revert.{IsManagerOf};
ghost use Rattle.app_revert.specs.Revert.{IsUnfit, unfit_journal, unfit_undo};

use app_journal::{ReviveFault, revive_text};
use app_run::{RemakeFault, is_journal, resume_manager};
use std::alloc::Global;
use text_lines::{UndoFault, read_undo};
use undo_core::Manager;
use undo_plans::UndoList;

/// Why no manager is made of a text.
#[derive(Clone, Copy, Debug)]
pub enum Unfit {
    /// Memory was refused.
    Memory,
    /// Its first bad line, counted from 1.
    Line(usize),
    /// It is the journal of a manager that sends a request again more often than one can.
    Retries,
    /// It is of a manager of other names.
    OtherNames,
}

/// Why a journal is unfit.
fn unfit_journal(why: ReviveFault) -> Unfit
    ensures { result ≡ unfit_journal why }
{
    match why {
        ReviveFault::Memory => Unfit::Memory,
        ReviveFault::Line(line) => Unfit::Line(line),
        ReviveFault::Retries => Unfit::Retries,
        ReviveFault::OtherNames => Unfit::OtherNames,
    }
}

/// The manager that a journal is made of.
fn revived(alloc: Global, text: &str) -> Result<Manager, Unfit>
    ensures made { IfOk result (IsMadeOf text.now) }
    ensures fault { IfErr result (λ why. IsJournal text.now → IsUnfit why text.now) }
{
    match revive_text(alloc, text) {
        Ok(manager) => Ok(manager),
        Err(why) => Err(unfit_journal(why)),
    }
}

/// Why an undo text is unfit.
fn unfit_text_by(why: UndoFault) -> Unfit
    ensures { result ≡ unfit_undo why }
{
    match why {
        UndoFault::Memory => Unfit::Memory,
        UndoFault::Line(line) => Unfit::Line(line),
    }
}

/// The manager that goes on from a list.
fn resumed_from(alloc: Global, list: UndoList) -> Result<Manager, Unfit>
    ensures resumed { IfOk result (λ manager.
        Represents lab_names manager (resumed_with list)) }
    ensures fault { IfErr result (λ why. (why ≡ Unfit.Memory)
        ⊎ ((why ≡ Unfit.OtherNames) × AreOthers lab_names list.names)) }
{
    match resume_manager(alloc, list) {
        Ok(manager) => Ok(manager),
        Err(RemakeFault::Memory) => Err(Unfit::Memory),
        Err(RemakeFault::OtherNames) => Err(Unfit::OtherNames),
    }
}

/// The manager that goes on from an undo text.
fn resumed(alloc: Global, text: &str) -> Result<Manager, Unfit>
    ensures resumed { IfOk result (λ manager. (list : AnyList) × IsTextOf text.now list
        × Represents lab_names manager (resumed_with list)) }
    ensures fault { IfErr result (λ why. (¬ IsJournal text.now) → IsUnfit why text.now) }
{
    match read_undo(alloc, text) {
        Ok(list) => resumed_from(alloc, list),
        Err(why) => Err(unfit_text_by(why)),
    }
}

/// The manager that takes back what this text says.
pub fn manager_of(alloc: Global, text: &str) -> Result<Manager, Unfit>
    ensures manager { IfOk result (IsManagerOf text.now) }
    ensures fault { IfErr result (λ why. IsUnfit why text.now) }
{
    if is_journal(text) {
        revived(alloc, text)
    } else {
        resumed(alloc, text)
    }
}
