//! What the replies to a Get lead to.
ghost use Rattle.std.specs.Prelude.{◌≡◌, ◌+◌, ◌≤◌, ◌<◌, length, drop, IfSome};
ghost use Rattle.undo_plans.specs.Fitting.{most_requests};
ghost use Rattle.undo_core.specs.declared.stage.Task.TheVariants.{Gets as IsGets, Sets as IsSets};
ghost use Rattle.undo_core.specs.Joining.{most_joined, IsFullPart, get_after_reply};
ghost use Rattle.undo_core.specs.Entered.{EntersSet, AfterGet};
ghost use Rattle.undo_core.specs.Bounds.{parts_at, most_replied, steps_needed, undone_needed, most_backs, LeavesFewer, LeavesNoMore, steps_ahead};
ghost use Rattle.undo_core.specs.Room.{HasRoom};
ghost use Rattle.undo_core.specs.Placed.{IsPlaced};

use crate::Why;
use crate::entering::Reply;
use crate::joining::JoinedReplies;
use crate::keeping::prepare_set;
use crate::stage::{Stage, Task};
use bios_attr::entry_parts::goes_on;
use cfg_records::{Asked, Key, RecordKind};
use pldm_base::PART_LENGTH;
use record_kinds::Limits;
use two_wire::Code;
use undo_plans::{Requests, Steps, shown_alone};

/// The request for the next part of a record, after so many replies of which this is the last.
fn next_part(key: &Key, count: u8, body: &[u8]) -> Option<Asked>
    ensures asked { result ≡ get_after_reply key.now count body.now }
    ensures full { IfSome result (λ _. IsFullPart count body.now) }
{
    if !goes_on(count, body) {
        return None;
    }
    Limits::get_next(key, PART_LENGTH as u32 * u32::from(count))
}

/// The stage after a reply to a Get.
pub(crate) fn after_get(
    steps: &Steps,
    stopped: bool,
    requests: &mut Requests,
    replies: &mut JoinedReplies,
    step: usize,
    parts: u8,
    reply: Reply<'_>,
) -> Stage
    requires step { step < length steps.now }
    requires few { length requests.old.members ≤ step }
    requires room { HasRoom (drop step steps.now) requests.old }
    requires parts { parts < most_requests }
    requires filled { length replies.old ≤ most_joined parts }
    ensures after { AfterGet steps.now stopped step parts reply.entry
        requests.old requests.new replies.old replies.new result }
    ensures members { requests.new.members ≡ requests.old.members }
    ensures planned { steps_needed result ≤ length steps.now }
    ensures kept { undone_needed result ≡ 0 }
    ensures few { step ≤ most_backs result }
    ensures left { LeavesFewer steps.now (IsGets step) parts result }
    ensures room { HasRoom (steps_ahead steps.now result) requests.new }
    ensures parted { parts_at result < most_requests }
    ensures filled { length replies.new ≤ most_replied result }
    ensures placed { IsPlaced steps.now requests.new result }
{
    let _steps = steps.len();
    let _replies = replies.as_slice();
    let op = steps.get(step).unwrap();
    if let Some(code) = Code::new(reply.code) {
        return Stage::AtHalt(step, Why::GetRefused(code));
    }
    if let Some(asked) = next_part(&Limits::key(&op), parts + 1, reply.body) {
        if stopped {
            return Stage::AtHalt(step, Why::Stop);
        }
        replies.take(parts, reply.body);
        return Stage::Opened {
            heeded: true,
            task: Task::Gets(step),
            parts: parts + 1,
            asked,
        };
    }
    if parts == 0 {
        let shown = shown_alone(&Limits::key(&op), reply.body);
        return got_stage(steps, stopped, requests, step, shown);
    }
    replies.end(parts, reply.body);
    got_stage(steps, stopped, requests, step, replies.as_slice())
}

/// The stage once a Get showed these data.
fn got_stage(
    steps: &Steps,
    stopped: bool,
    requests: &mut Requests,
    step: usize,
    shown: &[u8],
) -> Stage
    requires step { step < length steps.now }
    requires few { length requests.old.members ≤ step }
    requires room { HasRoom (drop step steps.now) requests.old }
    ensures stage { EntersSet steps.now stopped step shown.now requests.new result }
    ensures members { requests.new.members ≡ requests.old.members }
    ensures planned { steps_needed result ≤ length steps.now }
    ensures kept { undone_needed result ≡ 0 }
    ensures few { step ≤ most_backs result }
    ensures left { LeavesNoMore steps.now (IsSets step) 0 result }
    ensures room { HasRoom (steps_ahead steps.now result) requests.new }
    ensures first { parts_at result ≡ 0 }
    ensures free { most_replied result ≡ most_joined 0 }
    ensures placed { IsPlaced steps.now requests.new result }
{
    let _steps = steps.len();
    let op = steps.get(step).unwrap();
    let Some(back) = Limits::inverse(&op, shown) else {
        return Stage::AtHalt(step, Why::NotRestorable);
    };
    if stopped {
        return Stage::AtHalt(step, Why::Stop);
    }
    prepare_set(requests, &back);
    Stage::Opened {
        heeded: true,
        task: Task::Sets(step),
        parts: 0,
        asked: Limits::set_asked(&op),
    }
}
