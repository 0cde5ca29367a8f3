//! A journal where it lies.
ghost use Rattle.std.specs.Prelude.{◌≡◌, IfSome, IfNone, None, Some};
ghost use Rattle.undo_plans.specs.Requests.{meant};
ghost use Rattle.undo_plans.specs.KeptManager.{IsSound, waiting_at};
ghost use Rattle.undo_plans.specs.KeptManagerLaws.{IsSound-prop};

use crate::kept_stage::{Counts, KeptStage, KeptTask};
use crate::names::Names;
use crate::plan::Steps;
use crate::requests::Requests;
use crate::undo_request::UndoRequest;

/// What is kept of a manager, where it lies: in the manager, or in a journal that was read.
#[derive(Clone, Copy)]
pub struct JournalView<'a> {
    /// The steps of the plan.
    pub steps: &'a Steps,
    /// How often the frames of a request may be sent again.
    pub retries: u8,
    /// The names of the manager and of its controller.
    pub names: &'a Names,
    /// The names in its list of requests that undo, where the list tells them.
    pub listed: &'a Option<Names>,
    pub stage: KeptStage,
    /// The plan is to stop. One that has a request open always is.
    pub stopped: bool,
    /// The requests that undo the steps that were done. Which one waits behind them, `waiting` says.
    pub requests: &'a Requests,
    pub counts: Counts,
    /// What the replies to an open Get show so far, where it goes in parts and some came. Else nothing.
    pub replies: &'a [u8],
    pub ghost sound: { IsSound steps.now requests.now stage stopped counts replies.now } by { IsSound-prop steps.now requests.now stage stopped counts replies.now },
}

impl<'a> JournalView<'a> {
    /// The request that undoes the step whose Set is open.
    pub fn waiting(&self) -> Option<UndoRequest<'a>>
        ensures there { IfSome result (λ request.
            waiting_at self.now.stage self.now.requests.now.waiting ≡ Some (meant request)) }
        ensures missing { IfNone result
            (waiting_at self.now.stage self.now.requests.now.waiting ≡ None) }
    {
        match self.stage {
            KeptStage::Open {
                task: KeptTask::Set(_),
                ..
            } => self.requests.waiting(),
            _ => None,
        }
    }
}
