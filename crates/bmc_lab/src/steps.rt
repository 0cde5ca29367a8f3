//! The steps of a plan, each tried on what the steps before it leave.
ghost use Rattle.std.specs.Prelude.{◌≡◌, ◌<◌, IfOk, Some, is_some, length, slice_get};
ghost use Rattle.record_base.specs.declared.op.Op.{Op as AnyOp};
ghost use Rattle.record_kinds.specs.Limits.{inverse};
ghost use Rattle.bmc_board.specs.State.{opened, state_of};
ghost use Rattle.bmc_lab.specs.Tries.{Meets, MeetsInTurn};

use crate::finding::Finding;
use crate::getting::got;
use crate::setting::set;
use bmc_board::{Board, Records};
use cfg_records::BoardFile;
use record_base::RecordKind;
use record_kinds::Limits;
use std::alloc::{AllocError, Global};
use undo_plans::Steps;

/// Whether an operation brings back what the Get of this step showed before it.
fn is_restorable(steps: &Steps, place: usize, shown: &[u8]) -> bool
    requires { place < length steps.now }
    ensures { (op : AnyOp) → slice_get steps.now place ≡ Some op
        → result ≡ is_some (inverse op shown.now) }
{
    let _steps = steps.len();
    let op = steps.get(place).unwrap();
    Limits::inverse(&op, shown).is_some()
}

/// Tries the step of this place on the board: its Get, and its Set where it could be taken back.
fn try_step(
    alloc: Global,
    board: &mut Board<Records>,
    steps: &Steps,
    place: usize,
) -> Result<Finding, AllocError>
    requires { place < length steps.now }
    ensures met { (op : AnyOp) → slice_get steps.now place ≡ Some op → IfOk result
        (λ finding. Meets board.old.setup op (state_of board.old) finding (state_of board.new)) }
    ensures setup { board.new.setup ≡ board.old.setup }
{
    let _steps = steps.len();
    let op = steps.get(place).unwrap();
    let shown = match got(alloc, board, &Limits::key(&op))? {
        Ok(shown) => shown,
        Err(code) => return Ok(Finding::GetRefused(code)),
    };
    if !is_restorable(steps, place, shown.as_slice()) {
        return Ok(Finding::NotRestorable);
    }
    match set(board, &op) {
        Ok(()) => Ok(Finding::Done(shown)),
        Err(code) => Ok(Finding::Refused(code)),
    }
}

/// Tries each of the steps on a fresh board of this file, in their order, and on what those before it leave: what each meets there. A step that isn't
/// carried out is passed over.
pub fn try_steps(alloc: Global, file: BoardFile, steps: &Steps) -> Result<Vec<Finding>, AllocError>
    ensures met { IfOk result
        (λ findings. MeetsInTurn file steps.now (opened file) findings.items) }
    ensures each { IfOk result (λ findings. length findings.items ≡ length steps.now) }
{
    let mut board = Board::of_file(alloc, file)?;
    let mut findings = Vec::new(alloc);
    for place in 0..steps.len() {
        let finding = try_step(alloc, &mut board, steps, place)?;
        findings.push(finding)?;
    }
    Ok(findings)
}
