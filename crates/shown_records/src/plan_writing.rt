//! Steps written as plans.
ghost use Rattle.std.specs.Prelude.{◌∷◌, [], List, ℕ, IfNone, IfOk, IfSome, IsTrue, string_bytes};
ghost use Rattle.shown_records.specs.KeptText.{IsBetween, IsPlanText};

use crate::plan_kept::is_kept_by;
use crate::plan_step::push_step;
use record_base::Op;
use std::alloc::{AllocError, Global};
use undo_plans::Steps;

/// The steps, each behind an empty line.
fn steps_text(alloc: Global, steps: &Steps) -> Result<String, AllocError> {
    let mut text = String::new(alloc);
    for place in 0..steps.len() {
        let op = steps.get(place).unwrap();
        text.push_str("\n")?;
        push_step(alloc, &mut text, &op)?;
    }
    Ok(text)
}

/// The steps between the lines of remark.
fn text_between(
    alloc: Global,
    front: &str,
    steps: &Steps,
    behind: &str,
) -> Result<String, AllocError>
    ensures { IfOk result (λ text. IsBetween front.now behind.now (string_bytes text)) }
{
    let written = steps_text(alloc, steps)?;
    let mut text = String::from_str(alloc, front)?;
    text.push_str(written.as_str())?;
    text.push_str(behind)?;
    Ok(text)
}

/// The text of a plan of these steps, each below a line that says it in words, between the lines of remark `front` and `behind`. There is
/// none where the text that was written isn't read as these steps.
pub fn write_plan(
    alloc: Global,
    front: &str,
    steps: &Steps,
    behind: &str,
) -> Result<Option<String>, AllocError>
    ensures between { IfOk result (λ told. IfSome told (λ text.
        IsBetween front.now behind.now (string_bytes text))) }
    ensures read { IfOk result (λ told. IfSome told (λ text.
        IsPlanText (string_bytes text) steps.now)) }
    ensures none { IfOk result (λ told. IfNone told ((text : List ℕ)
        × IsBetween front.now behind.now text × (IsPlanText text steps.now → ⊥))) }
{
    let text = text_between(alloc, front, steps, behind)?;
    if is_kept_by(alloc, text.as_str(), steps)? {
        Ok(Some(text))
    } else {
        Ok(None)
    }
}

/// Whether a plan can say the operation: then some text is that of a plan of this step alone.
pub fn is_sayable(alloc: Global, op: &Op<'_>) -> Result<bool, AllocError>
    ensures { IfOk result (λ sayable. IsTrue sayable
        → (text : List ℕ) × IsPlanText text (op.now ∷ [])) }
{
    let mut steps = Steps::none(alloc);
    steps.push(op)?;
    match write_plan(alloc, "", &steps, "")? {
        Some(_) => Ok(true),
        None => Ok(false),
    }
}
