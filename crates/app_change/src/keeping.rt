//! The steps of a plan that change what was found of their records.
ghost use Rattle.std.specs.Prelude.{◌≡◌, ◌<◌, ◌||◌, IfOk, OnOk, Some, length, slice_get};
ghost use Rattle.record_base.specs.declared.op.Op.{Op as AnyOp};
ghost use Rattle.record_base.specs.Keys.{same_key};
ghost use Rattle.record_kinds.specs.Limits.{key_of};
ghost use Rattle.undo_plans.specs.Steps.{most_steps};
ghost use Rattle.app_change.specs.Kept.{changes, have_record, kept_of, leaves, with_step};

use app_look::{Came, Found};
use record_base::{Key, Op, RecordKind};
use record_kinds::Limits;
use shown_records::shown_after;
use std::alloc::{AllocError, Global};
use undo_plans::Steps;

/// The steps of a plan that are kept.
#[derive(Drop)]
pub struct Narrowed {
    pub kept: Steps,
    /// The places of the others, counted from 0.
    pub left_out: Vec<usize>,
}

/// Whether the operation can be taken back where the Get shows this, and leaves that.
fn leaves<'a>(alloc: Global, op: &Op<'a>, shown: &'a [u8]) -> Result<bool, AllocError>
    ensures { IfOk result (λ same. same ≡ leaves op.now shown.now) }
{
    let after = shown_after(alloc, op, shown)?;
    let same = after.as_slice() == shown;
    Ok(Limits::inverse(op, shown).is_some() && same)
}

/// Whether the operation doesn't leave what was found.
fn changes<'a>(alloc: Global, op: &Op<'a>, came: &'a Came) -> Result<bool, AllocError>
    ensures { IfOk result (λ other. other ≡ changes op.now came.now) }
{
    match came {
        Came::Shown(shown) => Ok(!leaves(alloc, op, shown.as_slice())?),
        Came::Refused(_) => Ok(true),
    }
}

/// Whether one of the steps before is on this record, or the operation is.
fn has_with(has: bool, op: &Op<'_>, key: &Key) -> bool
    ensures { result ≡ (has || same_key (key_of op.now) key.now) }
{
    let same = Limits::key(op).cmp(key).is_eq();
    has || same
}

/// Whether one of the steps is on this record.
fn have_record(steps: &Steps, key: &Key) -> bool
    ensures { result ≡ have_record steps.now key.now }
{
    let mut has = false;
    for place in 0..steps.len() {
        let op = steps.get(place).unwrap();
        has = has_with(has, &op, key);
    }
    has
}

/// Whether the step is kept behind these.
fn is_kept<'a>(alloc: Global, op: &Op<'a>, came: &'a Came, kept: &Steps) -> Result<bool, AllocError>
    ensures { IfOk result (λ stays.
        stays ≡ (have_record kept.now (key_of op.now) || changes op.now came.now)) }
{
    if have_record(kept, &Limits::key(op)) {
        return Ok(true);
    }
    changes(alloc, op, came)
}

/// Keeps the step of this place behind these, where it is to be kept, and tells whether it is.
fn keep_step(
    alloc: Global,
    steps: &Steps,
    place: usize,
    came: &Came,
    kept: &mut Steps,
) -> Result<bool, AllocError>
    requires place { place < length steps.now }
    requires room { length kept.old < most_steps }
    ensures { (op : AnyOp) → slice_get steps.now place ≡ Some op
        → OnOk result (kept.new ≡ with_step kept.old op came.now) }
{
    let _steps = steps.len();
    let op = steps.get(place).unwrap();
    let stays = is_kept(alloc, &op, came, &*kept)?;
    if stays {
        kept.push(&op)?;
    }
    Ok(stays)
}

/// The steps of a plan that are kept, by what was found of the record of each before the first.
pub fn kept_steps(alloc: Global, steps: &Steps, found: &[Found]) -> Result<Narrowed, AllocError>
    requires { length found.now ≡ length steps.now }
    ensures { IfOk result (λ narrowed. narrowed.kept ≡ kept_of steps.now found.now) }
{
    let mut kept = Steps::none(alloc);
    let mut left_out = Vec::new(alloc);
    for place in 0..steps.len() {
        if !keep_step(alloc, steps, place, &found[place].came, &mut kept)? {
            left_out.push(place)?;
        }
    }
    Ok(Narrowed { kept, left_out })
}
