//! What `bmcnet apply --only-changes --json` says: which steps are left out, that none is kept, or why it isn't known which are, as an object in a line.
use app_apply::objects::object_line;
use app_look::{LookFault, OpenFault, StopFault};
use record_base::RecordKind;
use record_kinds::Limits;
use record_words::RecordName;
use serde::Serialize;
use std::alloc::{AllocError, Global};
use undo_plans::Plan;

/// The steps that are left out.
#[derive(Drop, Serialize)]
struct LeftOutObject {
    outcome: &'static str,
    /// Their numbers in the plan, counted from 1.
    left_out: Vec<u128>,
}

/// None is kept.
#[derive(Drop, Serialize)]
struct UnchangedObject {
    outcome: &'static str,
    /// How many steps the plan has.
    steps: usize,
}

/// Why it isn't known which are kept. A member of which there is nothing to say is left out.
#[derive(Drop, Serialize)]
struct UnlookedObject {
    outcome: &'static str,
    /// The bus on which a greeting wasn't answered.
    #[serde(skip_serializing_if = "Option::is_none")]
    bus: Option<&'static str>,
    /// How many steps the plan has.
    steps: usize,
    /// The step whose Get has no answer, counted from 1.
    #[serde(skip_serializing_if = "Option::is_none")]
    step: Option<u128>,
    /// The record that it changes.
    #[serde(skip_serializing_if = "Option::is_none")]
    record: Option<String>,
}

/// What is said of the steps of these places, which are left out.
pub fn left_out_json(alloc: Global, left: &[usize]) -> Result<String, AllocError> {
    let mut left_out = Vec::new(alloc);
    for place in left {
        left_out.push(*place as u128 + 1)?;
    }
    let object = LeftOutObject {
        outcome: "left out",
        left_out,
    };
    object_line(alloc, &object)
}

/// What is said of a plan of so many steps, none of which changes anything.
pub fn unchanged_json(alloc: Global, steps: usize) -> Result<String, AllocError> {
    let object = UnchangedObject {
        outcome: "nothing to change",
        steps,
    };
    object_line(alloc, &object)
}

/// Why the look failed, in a word.
fn word_of(why: &LookFault) -> &'static str {
    match why {
        LookFault::Unopened(OpenFault::Ungreeted(why)) => why.word(),
        LookFault::Unopened(OpenFault::NoLink) => "no socket",
        LookFault::Stopped(StopFault::Silent(_)) => "get unanswered",
        LookFault::Unopened(OpenFault::Memory) | LookFault::Stopped(StopFault::Memory) => "memory",
    }
}

/// The bus on which a greeting wasn't answered.
fn bus_of(why: &LookFault) -> Option<&'static str> {
    match why {
        LookFault::Unopened(OpenFault::Ungreeted(why)) => Some(why.bus.name()),
        _ => None,
    }
}

/// The place of the step whose Get has no answer.
fn silent_at(why: &LookFault) -> Option<usize> {
    match why {
        LookFault::Stopped(StopFault::Silent(place)) => Some(*place),
        _ => None,
    }
}

/// The record that the step of this place changes.
fn record_at(alloc: Global, plan: &Plan, place: usize) -> Result<Option<String>, AllocError> {
    match plan.steps.get(place) {
        Some(op) => {
            let name = RecordName(Limits::key(&op));
            Ok(Some(format!(in alloc; "{name}")?))
        }
        None => Ok(None),
    }
}

/// What is said where the look failed.
pub fn unlooked_json(alloc: Global, plan: &Plan, why: &LookFault) -> Result<String, AllocError> {
    let (step, record) = match silent_at(why) {
        Some(place) => (Some(place as u128 + 1), record_at(alloc, plan, place)?),
        None => (None, None),
    };
    let object = UnlookedObject {
        outcome: word_of(why),
        bus: bus_of(why),
        steps: plan.steps.len(),
        step,
        record,
    };
    object_line(alloc, &object)
}
