//! The steps of a plan, as they are foreseen.
ghost use Rattle.std.specs.Prelude.{◌≡◌, ◌<◌, ◌≤◌, IfOk, Some, length, slice_get, take};
ghost use Rattle.record_base.specs.declared.op.Op.{Op as AnyOp};
ghost use Rattle.record_kinds.specs.Limits.{key_of};
ghost use Rattle.shown_records.specs.Meaning.{Means};
ghost use Rattle.app_change.specs.Foreseeing.{IsForeseen, can_go, left_behind, left_by};

use record_base::{Key, Op, RecordKind};
use record_kinds::Limits;
use shown_records::{Meaning, meaning_of, shown_after};
use std::alloc::{AllocError, Global};
use undo_plans::Steps;

/// A step as it is foreseen.
#[derive(Drop)]
pub struct Foreseen {
    /// What the Get of its record shows before it.
    pub before: Vec<u8>,
    /// What it makes of that.
    pub meaning: Meaning,
}

/// Whether a step is carried out on this record where its Get shows this.
fn is_carried_out<'a>(key: &Key, op: &Op<'a>, shown: &'a [u8]) -> bool
    ensures { result ≡ can_go key.now op.now shown.now }
{
    Limits::key(op) == *key && Limits::inverse(op, shown).is_some()
}

/// What the step of this place leaves of what the Get of this record shows.
fn step_leaves(
    alloc: Global,
    key: &Key,
    steps: &Steps,
    place: usize,
    shown: &[u8],
) -> Result<Vec<u8>, AllocError>
    requires { place < length steps.now }
    ensures { (op : AnyOp) → slice_get steps.now place ≡ Some op
        → IfOk result (λ left. left.items ≡ left_by key.now op shown.now) }
{
    let _steps = steps.len();
    let op = steps.get(place).unwrap();
    if is_carried_out(key, &op, shown) {
        shown_after(alloc, &op, shown)
    } else {
        Vec::from_slice(alloc, shown)
    }
}

/// What so many steps leave of what the Get of this record showed.
fn steps_leave(
    alloc: Global,
    key: &Key,
    steps: &Steps,
    count: usize,
    shown: &[u8],
) -> Result<Vec<u8>, AllocError>
    requires { count ≤ length steps.now }
    ensures { IfOk result (λ left. left.items
        ≡ left_behind key.now (take count steps.now) shown.now) }
{
    let mut left = Vec::from_slice(alloc, shown)?;
    for place in 0..count {
        left = step_leaves(alloc, key, steps, place, left.as_slice())?;
    }
    Ok(left)
}

/// What the step of this place makes of what the Get of its record shows.
fn meaning_at(
    alloc: Global,
    steps: &Steps,
    place: usize,
    shown: &[u8],
) -> Result<Meaning, AllocError>
    requires { place < length steps.now }
    ensures { (op : AnyOp) → slice_get steps.now place ≡ Some op
        → IfOk result (λ meaning. Means op shown.now meaning) }
{
    let _steps = steps.len();
    let op = steps.get(place).unwrap();
    let after = shown_after(alloc, &op, shown)?;
    Ok(meaning_of(&op, shown, after.as_slice()))
}

/// The record of the step of this place.
pub(crate) fn key_at(steps: &Steps, place: usize) -> Key
    requires { place < length steps.now }
    ensures { (op : AnyOp) → slice_get steps.now place ≡ Some op → result ≡ key_of op }
{
    let _steps = steps.len();
    let op = steps.get(place).unwrap();
    Limits::key(&op)
}

/// What is foreseen of the step of this place, by what the Get of its record showed before the first step. A step that can't be taken back is
/// passed over.
pub fn foresee(
    alloc: Global,
    steps: &Steps,
    place: usize,
    shown: &[u8],
) -> Result<Foreseen, AllocError>
    requires { place < length steps.now }
    ensures { (op : AnyOp) → slice_get steps.now place ≡ Some op
        → IfOk result (λ foreseen. IsForeseen steps.now place op shown.now foreseen) }
{
    let key = key_at(steps, place);
    let before = steps_leave(alloc, &key, steps, place, shown)?;
    let meaning = meaning_at(alloc, steps, place, before.as_slice())?;
    Ok(Foreseen { before, meaning })
}
