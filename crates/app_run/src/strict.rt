//! How a run and an undo end strictly, and which plans a strict run refuses.
ghost use Rattle.std.specs.Prelude.{◌≡◌, IfOk};
ghost use Rattle.app_base.specs.Refusals.{RefusedIf};
ghost use Rattle.app_run.specs.Strict.{is_refused, ran_status, undone_status, ungreeted_status};

use crate::running::RunWords;
use app_base::{NamedText, Report, Status, plan_refusal, strict_status};
use std::alloc::{AllocError, Global};
use undo_core::Phase;
use undo_plans::Plan;

/// How a run ends that left its manager in this phase, strictly or not.
pub(crate) fn ran_status(strict: bool, phase: Phase) -> Status
    ensures { result ≡ ran_status strict phase }
{
    if strict {
        strict_status(phase)
    } else {
        Status::Success
    }
}

/// How an undo ends whose manager came to this phase, strictly or not. Where nothing was begun there is nothing to take back, and that is well.
pub(crate) fn undone_status(strict: bool, phase: Phase) -> Status
    ensures { result ≡ undone_status strict phase }
{
    match phase {
        Phase::Fresh => Status::Success,
        other => ran_status(strict, other),
    }
}

/// How a run or an undo ends of which a greeting wasn't answered, strictly or not.
pub(crate) fn ungreeted_status(strict: bool) -> Status
    ensures { result ≡ ungreeted_status strict }
{
    if strict {
        Status::Unsettled
    } else {
        Status::Success
    }
}

/// What is said of a plan that was read of this text, where the run is strict and refuses it.
pub(crate) fn refusal_of(
    alloc: Global,
    words: &RunWords,
    text: &str,
    plan: &Plan,
) -> Result<Option<Report>, AllocError>
    ensures { IfOk result (RefusedIf (is_refused words.now.strict text.now plan.now)) }
{
    if !words.strict {
        return Ok(None);
    }
    let named = NamedText {
        word: words.plan.as_str(),
        text,
    };
    plan_refusal(alloc, named, plan)
}
