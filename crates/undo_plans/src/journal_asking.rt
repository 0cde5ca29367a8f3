//! The request that a task has open.
ghost use Rattle.std.specs.Prelude.{◌≡◌, ◌↔◌, true};
ghost use Rattle.record_kinds.specs.Limits.{key_of as key_of_op};
ghost use Rattle.undo_plans.specs.Asking.{get_at as get_at_place, asked_at};
ghost use Rattle.undo_plans.specs.KeptManager.{IsTaskOf, Waits};

use crate::kept_stage::KeptTask;
use crate::plan::Steps;
use crate::requests::Requests;
use crate::undo_request::MOST_REQUESTS;
use cfg_records::{Asked, Op, RecordKind};
use pldm_base::PART_LENGTH;
use record_kinds::Limits;

/// The request of this place among those that get the record of an operation.
fn get_at(op: &Op<'_>, part: u8) -> Option<Asked>
    ensures { result ≡ get_at_place (key_of_op op.now) part }
{
    let key = Limits::key(op);
    if part == 0 {
        return Some(Limits::get_asked(&key));
    }
    Limits::get_next(&key, PART_LENGTH as u32 * u32::from(part))
}

impl KeptTask {
    /// The request of this place, counted from 0, among those of the task, of a plan of these steps, with these requests that undo. There
    /// is none where the step isn't one of them, and none past the last place.
    pub fn asked(&self, steps: &Steps, requests: &Requests, part: u8) -> Option<Asked>
        ensures { result ≡ asked_at steps.now requests.now.members self.now part }
    {
        match self {
            KeptTask::Get(step) => get_at(&steps.get(*step)?, part),
            KeptTask::Set(step) => Limits::set_next(&steps.get(*step)?, part),
            KeptTask::Undo(step) => requests.get(*step)?.request(part),
        }
    }

    /// Whether the request waits that undoes the step, where it has to.
    fn waits(&self, requests: &Requests) -> bool
        ensures { (result ≡ true) ↔ Waits requests.now.waiting self.now }
    {
        match self {
            KeptTask::Set(_) => requests.waiting().is_some(),
            KeptTask::Get(_) | KeptTask::Undo(_) => true,
        }
    }

    /// Whether its request of this place can be open.
    pub(crate) fn is_of(&self, steps: &Steps, requests: &Requests, part: u8) -> bool
        ensures { (result ≡ true) ↔ IsTaskOf steps.now requests.now self.now part }
    {
        if part >= MOST_REQUESTS || !self.waits(requests) {
            return false;
        }
        self.asked(steps, requests, part).is_some()
    }
}
