//! The stages that a manager enters, and what a reply does with the list of requests that undo.
ghost use Rattle.std.specs.Prelude.{◌≡◌, ◌*◌, ◌≤◌, ◌<◌, ℕ, suc, length, drop, List, IsSome};
ghost use Rattle.record_base.specs.declared.op.Op.{Op};
ghost use Rattle.undo_plans.specs.Fitting.{most_requests};
ghost use Rattle.undo_plans.specs.Steps.{most_steps};
ghost use Rattle.undo_core.specs.declared.stage.Task.TheVariants.{Gets as IsGets, Sets as IsSets, Undoes as IsUndoes};
ghost use Rattle.undo_core.specs.Joining.{most_joined};
ghost use Rattle.undo_core.specs.Entered.{EntersStep, EntersUndo, AfterTask, AfterSet, AfterUndo};
ghost use Rattle.undo_core.specs.Bounds.{parts_at, most_got, most_replied, task_steps, steps_needed, task_undone, undone_needed, task_backs, most_backs, replies_left, FewerAreLeft, LeavesFewer, LeavesNoMore, task_ahead, steps_ahead};
ghost use Rattle.undo_core.specs.Room.{HasRoom, NeedsNoMoreRoom, NeedsNoRoom};
ghost use Rattle.undo_plans.specs.KeptManager.{Waits};
ghost use Rattle.undo_core.specs.Stages.{kept_task};
ghost use Rattle.undo_core.specs.Placed.{IsPlaced, IsPlacedIn, IsPlacedAmong};

use crate::Why;
use crate::getting::after_get;
use crate::joining::JoinedReplies;
use crate::stage::{Stage, Task};
use cfg_records::RecordKind;
use record_kinds::Limits;
use two_wire::Code;
use undo_plans::{Requests, Steps};

/// A reply that passed the test against the open request.
#[derive(Clone, Copy)]
pub(crate) struct Reply<'a> {
    pub(crate) code: u8,
    pub(crate) body: &'a [u8],
}

/// The stage of a step: its Get, or the plan's end, or a halt before it.
pub(crate) fn step_stage(steps: &Steps, stopped: bool, step: usize) -> Stage
    requires { step ≤ length steps.now }
    ensures stage { EntersStep steps.now stopped step result }
    ensures planned { steps_needed result ≤ length steps.now }
    ensures kept { undone_needed result ≡ 0 }
    ensures few { step ≤ most_backs result }
    ensures left { LeavesNoMore steps.now (IsGets step) 0 result }
    ensures room { NeedsNoMoreRoom steps.now step result }
    ensures first { parts_at result ≡ 0 }
    ensures placed { IsPlacedIn steps.now result }
{
    let _steps = steps.len();
    match steps.get(step) {
        None => Stage::AtEnd,
        Some(op) => {
            if stopped {
                return Stage::AtHalt(step, Why::Stop);
            }
            Stage::Opened {
                heeded: true,
                task: Task::Gets(step),
                parts: 0,
                asked: Limits::get_asked(&Limits::key(&op)),
            }
        }
    }
}

/// The stage in which this many steps are still to be undone.
pub(crate) fn undo_stage(requests: &Requests, left: usize) -> Stage
    requires { left ≤ length requests.now.members }
    ensures stage { EntersUndo requests.now left result }
    ensures planned { steps_needed result ≡ 0 }
    ensures kept { undone_needed result ≤ left }
    ensures few { most_backs result ≡ most_steps }
    ensures left { (steps undone : ℕ)
        → replies_left steps undone result ≤ most_requests * left }
    ensures room { NeedsNoRoom result }
    ensures first { parts_at result ≡ 0 }
    ensures placed { IsPlacedAmong requests.now result }
{
    if left == 0 {
        return Stage::AtUndone;
    }
    match requests.get(left - 1) {
        None => Stage::AtUndone,
        Some(request) => Stage::Opened {
            heeded: true,
            task: Task::Undoes(left - 1),
            parts: 0,
            asked: request.first(),
        },
    }
}

/// The stage after the reply to a task's request, which came after so many others of the task. The request that undoes a step is written where it
/// will lie once a Get shows how, and counts once the step was done.
pub(crate) fn stage_after(
    steps: &Steps,
    stopped: bool,
    requests: &mut Requests,
    replies: &mut JoinedReplies,
    task: Task,
    parts: u8,
    reply: Reply<'_>,
) -> Stage
    requires steps { task_steps task ≤ length steps.now }
    requires undone { task_undone task ≤ length requests.old.members }
    requires few { length requests.old.members ≤ task_backs task }
    requires room { HasRoom (task_ahead steps.now task) requests.old }
    requires parts { parts < most_requests }
    requires filled { length replies.old ≤ most_got task parts }
    requires waits { Waits requests.old.waiting (kept_task task) }
    ensures after { AfterTask steps.now stopped task parts reply.entry
        requests.old requests.new replies.old replies.new result }
    ensures planned { steps_needed result ≤ length steps.now }
    ensures kept { undone_needed result ≤ length requests.new.members }
    ensures few { length requests.new.members ≤ most_backs result }
    ensures left { FewerAreLeft steps.now requests.old requests.new task parts result }
    ensures room { HasRoom (steps_ahead steps.now result) requests.new }
    ensures parted { parts_at result < most_requests }
    ensures filled { length replies.new ≤ most_replied result }
    ensures placed { IsPlaced steps.now requests.new result }
{
    let _replies = replies.as_slice();
    match task {
        Task::Gets(step) => after_get(steps, stopped, requests, replies, step, parts, reply),
        Task::Sets(step) => after_set(steps, stopped, requests, step, parts, reply),
        Task::Undoes(step) => after_undo(requests, step, parts, reply),
    }
}

/// The stage after a reply to a Set.
fn after_set(
    steps: &Steps,
    stopped: bool,
    requests: &mut Requests,
    step: usize,
    parts: u8,
    reply: Reply<'_>,
) -> Stage
    requires step { step < length steps.now }
    requires few { length requests.old.members ≤ step }
    requires room { HasRoom (drop (suc step) steps.now) requests.old }
    requires parts { parts < most_requests }
    requires waits { IsSome requests.old.waiting }
    ensures after { AfterSet steps.now stopped step parts
        reply.entry requests.old requests.new result }
    ensures planned { steps_needed result ≤ length steps.now }
    ensures kept { undone_needed result ≡ 0 }
    ensures few { length requests.new.members ≤ most_backs result }
    ensures left { FewerAreLeft steps.now requests.old requests.new (IsSets step) parts result }
    ensures room { HasRoom (steps_ahead steps.now result) requests.new }
    ensures parted { parts_at result < most_requests }
    ensures free { most_replied result ≡ most_joined 0 }
    ensures placed { IsPlaced steps.now requests.new result }
{
    let _steps = steps.len();
    let op = steps.get(step).unwrap();
    if let Some(code) = Code::new(reply.code) {
        return Stage::AtHalt(step, Why::Refused(code));
    }
    match Limits::set_next(&op, parts + 1) {
        Some(asked) => Stage::Opened {
            heeded: true,
            task: Task::Sets(step),
            parts: parts + 1,
            asked,
        },
        None => {
            requests.keep();
            step_stage(steps, stopped, step + 1)
        }
    }
}

/// The stage after a reply to a request that undoes.
fn after_undo(requests: &Requests, step: usize, parts: u8, reply: Reply<'_>) -> Stage
    requires step { step < length requests.now.members }
    requires parts { parts < most_requests }
    ensures after { AfterUndo step parts reply.entry requests.now result }
    ensures planned { steps_needed result ≡ 0 }
    ensures kept { undone_needed result ≤ suc step }
    ensures few { most_backs result ≡ most_steps }
    ensures left { (plan : List Op) → LeavesFewer plan (IsUndoes step) parts result }
    ensures room { NeedsNoRoom result }
    ensures parted { parts_at result < most_requests }
    ensures free { most_replied result ≡ most_joined 0 }
    ensures placed { IsPlacedAmong requests.now result }
{
    let _members = requests.len();
    let member = requests.get(step).unwrap();
    if let Some(code) = Code::new(reply.code) {
        return Stage::AtRefused(step, code);
    }
    match member.request(parts + 1) {
        Some(asked) => Stage::Opened {
            heeded: true,
            task: Task::Undoes(step),
            parts: parts + 1,
            asked,
        },
        None => undo_stage(requests, step),
    }
}
