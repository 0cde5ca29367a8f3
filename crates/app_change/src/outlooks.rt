//! A plan, as it is foreseen.
ghost use Rattle.std.specs.Prelude.{◌≡◌, ◌<◌, IfOk, Some, length, slice_get};
ghost use Rattle.record_base.specs.declared.op.Op.{Op as AnyOp};
ghost use Rattle.app_change.specs.Outlooks.{AreOutlooks, IsOutlook};

use crate::foreseeing::{Foreseen, foresee};
use app_look::{Came, Found};
use std::alloc::{AllocError, Global};
use two_wire::Code;
use undo_plans::Steps;

/// What is foreseen of a step.
#[derive(Drop)]
pub enum Outlook {
    /// This is.
    Foreseen(Foreseen),
    /// The Get of its record was refused with this code.
    Refused(Code),
}

/// What is foreseen of the step of this place, by what the Get of its record came to.
fn outlook_at(
    alloc: Global,
    steps: &Steps,
    place: usize,
    came: &Came,
) -> Result<Outlook, AllocError>
    requires { place < length steps.now }
    ensures { (op : AnyOp) → slice_get steps.now place ≡ Some op
        → IfOk result (IsOutlook steps.now place op came.now) }
{
    match came {
        Came::Shown(shown) => {
            let foreseen = foresee(alloc, steps, place, shown.as_slice())?;
            Ok(Outlook::Foreseen(foreseen))
        }
        Came::Refused(code) => Ok(Outlook::Refused(*code)),
    }
}

/// What is foreseen of each step, by what was found of its record before the first.
pub fn foresee_all(
    alloc: Global,
    steps: &Steps,
    found: &[Found],
) -> Result<Vec<Outlook>, AllocError>
    requires { length found.now ≡ length steps.now }
    ensures { IfOk result (λ outlooks. AreOutlooks steps.now found.now outlooks.items) }
{
    let mut outlooks = Vec::new(alloc);
    for place in 0..steps.len() {
        let one = outlook_at(alloc, steps, place, &found[place].came)?;
        outlooks.push(one)?;
    }
    Ok(outlooks)
}
