//! What `bmcnet apply --only-changes` says: which steps are left out, that none is kept, or why it isn't known which are.
use app_apply::Reach;
use app_apply::sentences::push_unanswered;
use app_look::{LookFault, OpenFault, StopFault};
use record_base::RecordKind;
use record_kinds::Limits;
use record_words::RecordName;
use std::alloc::{AllocError, Global};
use undo_plans::Plan;

/// Adds the number of the step of this place, counted from 1.
fn push_number(text: &mut String, place: usize) -> Result<(), AllocError> {
    let number = place as u128 + 1;
    write!(text, "{number}")
}

/// Adds what stands before the number at this place of a list, of which so many are left.
fn push_between(text: &mut String, at: usize, left: usize) -> Result<(), AllocError> {
    match (at, left) {
        (0, _) => Ok(()),
        (_, 1) => text.push_str(" and "),
        (_, _) => text.push_str(", "),
    }
}

/// Adds the numbers of the steps of these places, as `2, 3 and 5`.
fn push_numbers(text: &mut String, places: &[usize]) -> Result<(), AllocError> {
    for at in 0..places.len() {
        push_between(text, at, places.len() - at)?;
        push_number(text, places[at])?;
    }
    Ok(())
}

/// What is said of the steps of these places, which are left out.
pub fn left_out_text(alloc: Global, left: &[usize]) -> Result<String, AllocError> {
    let mut text = String::new(alloc);
    let one = left.len() == 1;
    text.push_str(if one { "step " } else { "steps " })?;
    push_numbers(&mut text, left)?;
    text.push_str(if one {
        " changes nothing and is left out: the others are counted without it\n"
    } else {
        " change nothing and are left out: the others are counted without them\n"
    })?;
    Ok(text)
}

/// What is said of a plan of so many steps, none of which changes anything.
pub fn unchanged_text(alloc: Global, steps: usize) -> Result<String, AllocError> {
    match steps {
        1 => format!(in alloc; "nothing to change: 1 step, and it leaves its record as it is\n"),
        _ => format!(in alloc;
            "nothing to change: {steps} steps, and each leaves its record as it is\n"
        ),
    }
}

/// Adds that the Get of the step of this place has no answer.
fn push_silent(text: &mut String, plan: &Plan, place: usize) -> Result<(), AllocError> {
    text.push_str("no answer to the Get of step ")?;
    push_number(text, place)?;
    match plan.steps.get(place) {
        Some(op) => write!(text, ", {}", RecordName(Limits::key(&op))),
        None => Ok(()),
    }
}

/// Adds why the look failed.
fn push_unlooked(
    text: &mut String,
    plan: &Plan,
    reach: &Reach,
    why: &LookFault,
) -> Result<(), AllocError> {
    match why {
        LookFault::Unopened(OpenFault::Ungreeted(why)) => push_unanswered(text, *why, reach),
        LookFault::Unopened(OpenFault::NoLink) => text.push_str("no socket could be had"),
        LookFault::Stopped(StopFault::Silent(place)) => push_silent(text, plan, *place),
        LookFault::Unopened(OpenFault::Memory) | LookFault::Stopped(StopFault::Memory) => {
            Err(AllocError)
        }
    }
}

/// What is said where the look failed.
pub fn unlooked_text(
    alloc: Global,
    plan: &Plan,
    reach: &Reach,
    why: &LookFault,
) -> Result<String, AllocError> {
    let mut text = String::new(alloc);
    push_unlooked(&mut text, plan, reach, why)?;
    text.push_str("; nothing was set\n")?;
    Ok(text)
}
