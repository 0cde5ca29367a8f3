//! How a manager begins.
ghost use Rattle.std.specs.Prelude.{◌≡◌, ◌<◌, ◌≤◌, ◌↔◌, IfOk, SomeIff, true, Err};
ghost use Rattle.two_wire.specs.Retries.{most_retries};
ghost use Rattle.undo_core.specs.Shown.{AreOthers, IsForOthers, Represents, opened_with, resumed_from};

use crate::Why;
use crate::joining::JoinedReplies;
use crate::manager::{Manager, OpenFault, ResumeFault};
use crate::room::room_for;
use crate::sending::Counts;
use crate::stage::Stage;
use mctp_net::Assembler;
use std::alloc::Global;
use two_wire::{Below, MOST_RETRIES, Retries};
use undo_plans::{Names, NextNumbers, Plan, Steps, UndoList};

impl Manager {
    /// A manager of a plan, which it hasn't begun.
    pub fn open(alloc: Global, plan: Plan, names: Names, retries: u8) -> Result<Self, OpenFault>
        ensures refused { (result ≡ Err OpenFault.Retries) ↔ (most_retries < retries) }
        ensures opened { IfOk result (λ m.
            Represents names m (opened_with names plan.steps retries)) }
    {
        let next = NextNumbers {
            ipmb: Below::new(0),
            smbus: Below::new(0),
        };
        let Some(retries) = retries_of(retries) else {
            return Err(OpenFault::Retries);
        };
        let Ok(joined) = Assembler::new(alloc) else {
            return Err(OpenFault::Memory);
        };
        let Ok(replies) = JoinedReplies::open(alloc) else {
            return Err(OpenFault::Memory);
        };
        let Plan { steps, .. } = plan;
        let _steps = steps.len();
        let Ok(requests) = room_for(alloc, &steps) else {
            return Err(OpenFault::Memory);
        };
        Ok(Manager {
            steps,
            retries,
            names,
            stage: Stage::AtStart,
            stopped: false,
            resent: 0,
            undo: UndoList {
                requests,
                next,
                names: Some(names.copy()),
            },
            counts: Counts { ipmb: 0, smbus: 0 },
            joined,
            replies,
        })
    }

    /// A manager that goes on from a list of requests that undo. It is halted. A list that has other names is refused.
    pub fn resume(
        alloc: Global,
        undo: UndoList,
        names: Names,
        retries: u8,
    ) -> Result<Self, ResumeFault>
        ensures refused { (result ≡ Err ResumeFault.Retries) ↔ (most_retries < retries) }
        ensures others { (result ≡ Err ResumeFault.OtherNames)
            ↔ IsForOthers undo.names names retries }
        ensures resumed { IfOk result (λ m. Represents names m (resumed_from names undo retries)) }
    {
        let Some(retries) = retries_of(retries) else {
            return Err(ResumeFault::Retries);
        };
        if are_others(&names, &undo.names) {
            return Err(ResumeFault::OtherNames);
        }
        let Ok(joined) = Assembler::new(alloc) else {
            return Err(ResumeFault::Memory);
        };
        let Ok(replies) = JoinedReplies::open(alloc) else {
            return Err(ResumeFault::Memory);
        };
        let UndoList {
            requests,
            next,
            names: listed,
        } = undo;
        let counts = Counts {
            ipmb: u16::from(next.ipmb.number()),
            smbus: u16::from(next.smbus.number()),
        };
        let stage = Stage::AtHalt(requests.len(), Why::Stop);
        Ok(Manager {
            steps: Steps::none(alloc),
            retries,
            names,
            stage,
            stopped: true,
            resent: 0,
            undo: UndoList {
                requests,
                next,
                names: listed,
            },
            counts,
            joined,
            replies,
        })
    }
}

/// Whether a list has names, and they aren't these.
fn are_others(names: &Names, listed: &Option<Names>) -> bool
    ensures { (result ≡ true) ↔ AreOthers names.now listed.now }
{
    match listed {
        Some(listed) => listed != names,
        None => false,
    }
}

/// The number of retries, or nothing where it is above `MOST_RETRIES`.
pub(crate) fn retries_of(number: u8) -> Option<Retries>
    ensures { SomeIff result (number ≤ most_retries) number }
{
    if number > MOST_RETRIES {
        return None;
    }
    Some(Retries::new(number))
}
