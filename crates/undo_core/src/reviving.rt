//! A manager that is made again of its journal.
ghost use Rattle.std.specs.Prelude.{◌≡◌, ◌<◌, ◌↔◌, IfOk, Some, Err};
ghost use Rattle.two_wire.specs.Retries.{most_retries};
ghost use Rattle.undo_plans.specs.declared.kept_stage.KeptStage.TheVariants.{Open as IsOpen};
ghost use Rattle.undo_plans.specs.KeptManager.{IsTaskOf, IsStageOf};
ghost use Rattle.undo_plans.specs.Journals.{kept_in};
ghost use Rattle.undo_core.specs.Shown.{IsForOthers};
ghost use Rattle.undo_core.specs.Placed.{IsPlaced};
ghost use Rattle.undo_core.specs.Stages.{kept_task, kept_stage, IsUnheeded, resent_at as resent_of};
ghost use Rattle.undo_core.specs.Journals.{kept_by, IsRevived};

use crate::joining::JoinedReplies;
use crate::manager::{Manager, ResumeFault};
use crate::opening::retries_of;
use crate::room::make_room;
use crate::sending::Counts;
use crate::stage::{Stage, Task};
use mctp_net::Assembler;
use std::alloc::Global;
use two_wire::Retries;
use undo_plans::{
    Contents, Journal, KeptStage, KeptTask, Names, NextNumbers, Requests, Steps, UndoList,
};

impl Manager {
    /// A manager that is made again of a journal: one that has a request open has it unsettled, and its plan is to stop. A journal of a manager of
    /// other names is refused.
    pub fn revive(alloc: Global, journal: Journal, names: Names) -> Result<Self, ResumeFault>
        ensures refused { (result ≡ Err ResumeFault.Retries)
            ↔ (most_retries < journal.contents.retries) }
        ensures others { (result ≡ Err ResumeFault.OtherNames)
            ↔ IsForOthers (Some journal.contents.names) names journal.contents.retries }
        ensures kept { IfOk result (λ m. kept_by m ≡ kept_in journal.contents) }
        ensures remade { IfOk result (λ m. IsRevived (kept_in journal.contents) m) }
    {
        let Contents {
            steps,
            retries,
            names: own,
            listed,
            stage,
            stopped,
            mut requests,
            counts,
            replies,
        } = journal.contents;
        let Some(retries) = retries_of(retries) else {
            return Err(ResumeFault::Retries);
        };
        if own != names {
            return Err(ResumeFault::OtherNames);
        }
        let Ok(joined) = Assembler::new(alloc) else {
            return Err(ResumeFault::Memory);
        };
        let Ok(replies) = JoinedReplies::of(alloc, replies.as_slice()) else {
            return Err(ResumeFault::Memory);
        };
        let stage = stage_of(&stage, &steps, &requests);
        let Ok(()) = make_room(&mut requests, &steps) else {
            return Err(ResumeFault::Memory);
        };
        let counts = Counts {
            ipmb: counts.ipmb,
            smbus: counts.smbus,
        };
        let resent = resent_at(&stage, retries);
        Ok(Manager {
            steps,
            retries,
            names,
            stage,
            stopped,
            resent,
            undo: UndoList {
                requests,
                next: NextNumbers {
                    ipmb: counts.sequence(),
                    smbus: counts.instance(),
                },
                names: listed,
            },
            counts,
            joined,
            replies,
        })
    }
}

/// The stage of a manager that is made of a journal: its open request isn't heeded.
fn stage_of(kept: &KeptStage, steps: &Steps, requests: &Requests) -> Stage
    requires { IsStageOf steps.now requests.now kept.now }
    ensures kept { kept_stage result ≡ kept.now }
    ensures placed { IsPlaced steps.now requests.now result }
    ensures unheeded { IsUnheeded result }
{
    match kept {
        KeptStage::Fresh => Stage::AtStart,
        KeptStage::Open { task, part } => open_at(task, steps, requests, *part),
        KeptStage::Done => Stage::AtEnd,
        KeptStage::Halted(step, why) => Stage::AtHalt(*step, *why),
        KeptStage::Undone => Stage::AtUndone,
        KeptStage::UndoRefused(step, code) => Stage::AtRefused(*step, *code),
    }
}

/// The stage at which the task's request of this place is open, and isn't heeded.
fn open_at(kept: &KeptTask, steps: &Steps, requests: &Requests, part: u8) -> Stage
    requires { IsTaskOf steps.now requests.now kept.now part }
    ensures kept { kept_stage result ≡ IsOpen kept.now part }
    ensures placed { IsPlaced steps.now requests.now result }
    ensures unheeded { IsUnheeded result }
{
    let asked = kept.asked(steps, requests, part).unwrap();
    Stage::Opened {
        heeded: false,
        task: task_of(kept),
        parts: part,
        asked,
    }
}

/// The task that a journal has.
fn task_of(kept: &KeptTask) -> Task
    ensures { kept_task result ≡ kept.now }
{
    match kept {
        KeptTask::Get(step) => Task::Gets(*step),
        KeptTask::Set(step) => Task::Sets(*step),
        KeptTask::Undo(step) => Task::Undoes(*step),
    }
}

/// How often the open request counts as sent again: as often as is allowed.
fn resent_at(stage: &Stage, retries: Retries) -> u8
    ensures { result ≡ resent_of stage.now retries }
{
    match stage {
        Stage::Opened { .. } => retries.number(),
        _ => 0,
    }
}
