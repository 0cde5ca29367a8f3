//! How far the numbers of a manager go at a stage.
ghost use Rattle.std.specs.Prelude.{◌≡◌, ◌↔◌, ◌<◌, ◌≤◌, true, length};
ghost use Rattle.undo_plans.specs.Fitting.{most_requests};
ghost use Rattle.undo_plans.specs.Steps.{most_steps};
ghost use Rattle.undo_plans.specs.Bounds.{most_backs, most_kept, task_left, replies_left, most_replies, IsStepOf};
ghost use Rattle.undo_plans.specs.KeptManager.{IsPlaceOf, IsStageOf, IsToldToStop, AreFew};

use crate::kept_stage::{Counts, KeptStage, KeptTask};
use crate::plan::{MOST_STEPS, Steps};
use crate::requests::Requests;
use crate::undo_request::MOST_REQUESTS;
use bios_attr::entry_parts::BEFORE_PART;
use pldm_base::PART_LENGTH;

/// The most replies to a request's frames that a manager takes for a step: to its Gets, to its Sets, and to the requests that undo it.
const REPLIES_OF_STEP: usize = 3 * MOST_REQUESTS as usize;

/// The most replies that a manager takes.
const MOST_REPLIES: usize = REPLIES_OF_STEP * MOST_STEPS + MOST_REQUESTS as usize * MOST_STEPS;

impl KeptStage {
    /// The most requests that undo there are.
    fn most_backs(&self) -> usize
        ensures { result ≡ most_backs self.now }
    {
        match self {
            KeptStage::Fresh => 0,
            KeptStage::Open {
                task: KeptTask::Get(step) | KeptTask::Set(step),
                ..
            } => *step,
            _ => MOST_STEPS,
        }
    }

    /// The most bytes that are kept of the replies to an open Get.
    pub(crate) fn most_kept(&self) -> usize
        ensures { result ≡ most_kept self.now }
    {
        match self {
            KeptStage::Open {
                task: KeptTask::Get(_),
                part,
            } if *part > 0 => BEFORE_PART + PART_LENGTH * usize::from(*part),
            _ => 0,
        }
    }
}

impl KeptStage {
    /// Whether this can be the stage of a manager with these steps and these requests that undo.
    pub fn is_of(&self, steps: &Steps, requests: &Requests) -> bool
        ensures { (result ≡ true) ↔ IsStageOf steps.now requests.now self.now }
    {
        requests.len() <= self.most_backs() && self.is_place_of(steps, requests)
    }

    /// Whether the place can be that of such a manager.
    fn is_place_of(&self, steps: &Steps, requests: &Requests) -> bool
        ensures { (result ≡ true) ↔ IsPlaceOf steps.now requests.now self.now }
    {
        match self {
            KeptStage::Open { task, part } => task.is_of(steps, requests, *part),
            KeptStage::Halted(step, _) => *step <= MOST_STEPS,
            KeptStage::UndoRefused(step, _) => *step < MOST_STEPS,
            KeptStage::Fresh | KeptStage::Done | KeptStage::Undone => true,
        }
    }

    /// Whether a plan that is told to stop so, or isn't, can be at this stage: one that has a request open is to stop, since it is so once the
    /// manager is made again.
    pub fn is_stopped_so(&self, stopped: bool) -> bool
        ensures { (result ≡ true) ↔ IsToldToStop self.now stopped }
    {
        match self {
            KeptStage::Open {
                task: KeptTask::Get(_) | KeptTask::Set(_),
                ..
            } => stopped,
            _ => true,
        }
    }

    /// How many replies the manager may still take, of a plan of so many steps, with so many requests that undo.
    fn replies_left(&self, steps: &Steps, requests: &Requests) -> usize
        requires { IsStageOf steps.now requests.now self.now }
        ensures value { result
            ≡ replies_left (length steps.now) (length requests.now.members) self.now }
        ensures few { result ≤ most_replies }
    {
        let (steps, backs) = (steps.len(), requests.len());
        match self {
            KeptStage::Fresh => REPLIES_OF_STEP * steps,
            KeptStage::Open { task, part } => task.replies_left(steps, backs, *part),
            KeptStage::Done | KeptStage::Halted(_, _) => MOST_REQUESTS as usize * backs,
            KeptStage::Undone | KeptStage::UndoRefused(_, _) => 0,
        }
    }

    /// Whether the counts, with the replies that the manager may still take, are no more than the replies that it takes.
    pub fn has_counts(&self, steps: &Steps, requests: &Requests, counts: Counts) -> bool
        requires { IsStageOf steps.now requests.now self.now }
        ensures { (result ≡ true)
            ↔ AreFew (length steps.now) (length requests.now.members) self.now counts }
    {
        let answered = usize::from(counts.ipmb) + usize::from(counts.smbus);
        answered + self.replies_left(steps, requests) <= MOST_REPLIES
    }

    /// Whether so many bytes can be what the replies to the open Get show so far. Where none is open, or none came, they show nothing.
    pub fn has_replies(&self, replies: &[u8]) -> bool
        ensures { (result ≡ true) ↔ (length replies.now ≤ most_kept self.now) }
    {
        replies.len() <= self.most_kept()
    }
}

impl KeptTask {
    /// How many replies the manager may still take once it took so many of this task's.
    fn replies_left(&self, steps: usize, backs: usize, part: u8) -> usize
        requires step { IsStepOf steps backs self.now }
        requires steps { steps ≤ most_steps }
        requires backs { backs ≤ most_steps }
        requires part { part < most_requests }
        ensures value { result ≡ task_left steps backs self.now part }
        ensures few { result ≤ most_replies }
    {
        let part = usize::from(part);
        match self {
            KeptTask::Get(step) => REPLIES_OF_STEP * (steps - step) - part
                + MOST_REQUESTS as usize * backs,
            KeptTask::Set(step) => {
                REPLIES_OF_STEP * (steps - step) - MOST_REQUESTS as usize - part
                    + MOST_REQUESTS as usize * backs
            }
            KeptTask::Undo(step) => MOST_REQUESTS as usize * (step + 1) - part,
        }
    }
}
