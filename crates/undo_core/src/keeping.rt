//! The request that undoes a step, as it is kept.
ghost use Rattle.std.specs.Prelude.{◌≡◌, ◌+◌, ◌<◌, ◌≤◌, suc, length, Some};
ghost use Rattle.record_kinds.specs.Limits.{set_asked};
ghost use Rattle.record_kinds.specs.Series.{set_whole};
ghost use Rattle.undo_plans.specs.Fitting.{data_of, from_nobody, FitsMessages};
ghost use Rattle.undo_plans.specs.Steps.{most_steps};
ghost use Rattle.undo_core.specs.Room.{most_data, HasShortValue};

use cfg_records::{Asked, Op, RecordKind};
use record_kinds::Limits;
use undo_plans::{Requests, UndoRequest};

/// Writes the request that carries an operation out, with all its data, where the next request that undoes will lie.
pub(crate) fn prepare_set(requests: &mut Requests, op: &Op<'_>)
    requires few { length requests.old.members < most_steps }
    requires place { 0 < requests.old.places }
    requires room { most_data op.now ≤ requests.old.room }
    requires short { HasShortValue op.now }
    ensures members { requests.new.members ≡ requests.old.members }
    ensures waiting { requests.new.waiting ≡ Some (set_whole op.now) }
    ensures places { requests.old.places ≤ suc requests.new.places }
    ensures room { requests.old.room ≤ requests.new.room + most_data op.now }
{
    let first = Limits::set_asked(op);
    match Limits::set_next(op, 1) {
        None => requests.prepare(&UndoRequest::of(&first)),
        Some(_) => prepare_whole(requests, op, &first),
    }
}

/// Makes ready the Set of an operation whose request goes in parts, of which the first is given.
fn prepare_whole(requests: &mut Requests, op: &Op<'_>, first: &Asked)
    requires few { length requests.old.members < most_steps }
    requires place { 0 < requests.old.places }
    requires room { length (data_of (set_whole op.now)) ≤ requests.old.room }
    requires first { first.now ≡ set_asked op.now }
    requires fits { FitsMessages (set_whole op.now) }
    ensures members { requests.new.members ≡ requests.old.members }
    ensures waiting { requests.new.waiting ≡ Some (from_nobody (set_whole op.now)) }
    ensures places { requests.old.places ≤ suc requests.new.places }
    ensures room { requests.old.room
        ≤ requests.new.room + length (data_of (set_whole op.now)) }
{
    let whole = Limits::set_data(op);
    requests.prepare(&UndoRequest::with(first, whole.as_slice()));
}
