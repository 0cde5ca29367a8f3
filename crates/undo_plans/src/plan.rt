//! Plans.
ghost use Rattle.std.specs.Prelude.{◌≡◌, ◌<◌, ◌≤◌, [], ◌∷◌, ◌++◌, OnErr, OnOk, length, slice_get};
ghost use Rattle.undo_plans.specs.Steps.{most_steps};

use crate::owned_op::{OwnedOp, value_of};
use record_base::Op;
use std::alloc::{AllocError, Global};
use std::marker::Model;
use two_wire::Retries;

/// The most steps that a plan can have.
pub const MOST_STEPS: usize = 256;

/// The steps of a plan, in its order: an operation each, and at most `MOST_STEPS`. A step takes the room of a small operation, and that
/// of the value that it gives to an attribute.
pub struct Steps {
    ops: Vec<OwnedOp>,
    /// The values, one behind another.
    values: Vec<u8>,
}

// Written out: the crates above would prove a derived one anew.
impl Drop for Steps {
    fn drop(self) {
        let Steps { ops, values } = self;
        drop(ops);
        drop(values);
    }
}

impl Model for Steps {
    ghost use Rattle.std.specs.Prelude.{All, List, length, map, ◌≤◌};
    ghost use Rattle.record_base.specs.declared.op.Op.{Op};
    ghost use Rattle.undo_plans.specs.Kept.{IsAmong, kept_op};
    ghost use Rattle.undo_plans.specs.Steps.{most_steps};

    ghost Value = { List Op };

    ghost view = { λ s. map (kept_op s.values.items) s.ops.items };

    ghost invariant = { λ s. (length s.ops.items ≤ most_steps)
        × All (IsAmong s.values.items) s.ops.items };
}

impl Steps {
    /// No step.
    pub fn none(alloc: Global) -> Self
        ensures { result ≡ [] }
    {
        Steps {
            ops: Vec::new(alloc),
            values: Vec::new(alloc),
        }
    }

    /// How many there are.
    pub fn len(&self) -> usize
        ensures value { result ≡ length self.now }
        ensures few { result ≤ most_steps }
    {
        self.ops.len()
    }

    /// The step of this place, counted from 0.
    pub fn get(&self, place: usize) -> Option<Op<'_>>
        ensures { result ≡ slice_get self.now place }
    {
        let kept = self.ops.get(place)?;
        Some(kept.op(self.values.as_slice()))
    }

    /// Adds a step, behind the others. Where memory is refused for it, the steps are what they were.
    pub fn push(&mut self, op: &Op<'_>) -> Result<(), AllocError>
        requires { length self.old < most_steps }
        ensures added { OnOk result (self.new ≡ self.old ++ op.now ∷ []) }
        ensures kept { OnErr result (self.new ≡ self.old) }
    {
        let value = value_of(op);
        let kept = OwnedOp::of(op, self.values.len());
        self.ops.reserve(1)?;
        self.values.extend_from_slice(value)?;
        self.ops.push_reserved(kept);
        Ok(())
    }
}

/// A plan.
#[derive(Drop)]
pub struct Plan {
    pub steps: Steps,
    pub retries: Retries,
}
