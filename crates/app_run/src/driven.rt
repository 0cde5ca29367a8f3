//! A manager that runs a plan over two links, or undoes it.
ghost use Rattle.std.specs.Prelude.{◌≡◌, ◌↔◌, IfOk, Err};
ghost use Rattle.model_undo.specs.declared.call.Call.TheVariants.{Start, Undo};
ghost use Rattle.model_lab.specs.Meaning.{lab_names as the_names};
ghost use Rattle.undo_core.specs.Shown.{AreOthers, Represents};
ghost use Rattle.bmc_ports.specs.Driving.{both};
ghost use Rattle.app_run.specs.Driven.{DrivenState, CallRun, opened_with, resumed_from};

use bmc_ports::drive;
use model_lab::lab_names;
use std::alloc::{AllocError, Global};
use undo_core::{Manager, OpenFault, Phase, ResumeFault, WrongPhase};
use undo_plans::{Plan, UndoList};
use wire_links::Link;

/// How often a manager sends a request again that goes on from a list.
pub(crate) const UNDO_RETRIES: u8 = 3;

/// Why no manager with the lab's names goes on from a list.
#[derive(Clone, Copy, Debug)]
pub enum RemakeFault {
    /// Memory was refused.
    Memory,
    /// The list has other names.
    OtherNames,
}

/// A manager of a plan, with the plan's retries and the lab's names.
pub fn open_manager(alloc: Global, plan: Plan) -> Result<Manager, AllocError>
    ensures { IfOk result (λ m. Represents the_names m (opened_with plan)) }
{
    let Plan { steps, retries } = plan;
    match Manager::open(
        alloc,
        Plan { steps, retries },
        lab_names(),
        retries.number(),
    ) {
        Ok(manager) => Ok(manager),
        Err(OpenFault::Memory) => Err(AllocError),
        Err(OpenFault::Retries) => unreachable!(),
    }
}

/// A manager that goes on from a list, with the lab's names.
pub fn resume_manager(alloc: Global, list: UndoList) -> Result<Manager, RemakeFault>
    ensures resumed { IfOk result (λ m. Represents the_names m (resumed_from list)) }
    ensures others { (result ≡ Err RemakeFault.OtherNames) ↔ AreOthers the_names list.names }
{
    match Manager::resume(alloc, list, lab_names(), UNDO_RETRIES) {
        Ok(manager) => Ok(manager),
        Err(ResumeFault::Memory) => Err(RemakeFault::Memory),
        Err(ResumeFault::OtherNames) => Err(RemakeFault::OtherNames),
        Err(ResumeFault::Retries) => unreachable!(),
    }
}

/// Begins a manager's plan, and drives it until the plan ended, or until the links' `next` was called as often as there are turns.
pub fn run_plan<A: Link, B: Link>(
    manager: &mut Manager,
    ipmb: &mut A,
    smbus: &mut B,
    turns: u32,
) -> Phase
    ensures { (before : DrivenState) → Represents the_names manager.old before
        → CallRun Start turns before manager.new result
        (both (A.counts_of ipmb.old) (B.counts_of smbus.old))
        (both (A.counts_of ipmb.new) (B.counts_of smbus.new)) }
{
    match manager.start() {
        Ok(first) => drive(manager, first, ipmb, smbus, turns),
        Err(WrongPhase) => manager.phase(),
    }
}

/// Begins a manager's undo, and drives it likewise. Where the plan neither ended nor halted nothing is done.
pub fn undo_plan<A: Link, B: Link>(
    manager: &mut Manager,
    ipmb: &mut A,
    smbus: &mut B,
    turns: u32,
) -> Phase
    ensures { (before : DrivenState) → Represents the_names manager.old before
        → CallRun Undo turns before manager.new result
        (both (A.counts_of ipmb.old) (B.counts_of smbus.old))
        (both (A.counts_of ipmb.new) (B.counts_of smbus.new)) }
{
    match manager.undo() {
        Ok(first) => drive(manager, first, ipmb, smbus, turns),
        Err(WrongPhase) => manager.phase(),
    }
}
