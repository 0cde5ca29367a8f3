//! What `bmcnet apply --json` says at its end: what is so, and what to call next, as one object in a line.
use crate::applied_words::push_did;
use crate::applying::{Applied, ApplyWords};
use crate::kept_calls::Reach;
use crate::objects::{name_of, object_line};
use crate::outcome::Outcome;
use crate::sentences::{bus_of_op, push_record, push_revert};
use app_journal::Standing;
use record_base::RecordKind;
use record_kinds::Limits;
use report_words::{Names, code_row};
use serde::Serialize;
use std::alloc::{AllocError, Global};
use two_wire::Code;
use undo_core::{Manager, Phase, Why};
use undo_plans::{KeptStage, KeptTask};

/// Where a plan halted, or which request of it has no answer. A member of which there is nothing to say is left out.
#[derive(Drop, Serialize)]
struct StopObject {
    /// The step, counted from 1.
    step: u128,
    /// The record that it changes.
    #[serde(skip_serializing_if = "Option::is_none")]
    record: Option<String>,
    /// The name of the record's sensor or attribute, where that is known.
    #[serde(skip_serializing_if = "Option::is_none")]
    name: Option<String>,
    /// What came of it.
    why: &'static str,
    /// The code by which a request of it was refused.
    #[serde(skip_serializing_if = "Option::is_none")]
    code: Option<u8>,
    /// What the standard calls that code.
    #[serde(skip_serializing_if = "Option::is_none")]
    meaning: Option<&'static str>,
}

/// What came of a plan. A member of which there is nothing to say is left out.
#[derive(Drop, Serialize)]
struct ApplyObject<'a> {
    /// What came of it, in a word.
    outcome: &'static str,
    /// The bus on which a greeting wasn't answered.
    #[serde(skip_serializing_if = "Option::is_none")]
    bus: Option<&'static str>,
    /// How many steps the plan has.
    steps: usize,
    /// How many of them stand, from the first on.
    stands: usize,
    /// What each of these did.
    did: Vec<String>,
    /// Where it halted, or which request has no answer.
    #[serde(skip_serializing_if = "Option::is_none")]
    stop: Option<StopObject>,
    /// The word of FILE.
    file: &'a str,
    /// Whether FILE was kept.
    kept: bool,
    /// The word under which lies now what FILE had.
    #[serde(skip_serializing_if = "Option::is_none")]
    aside: Option<&'a str>,
    /// The call that takes back what was done, or settles what is open.
    #[serde(skip_serializing_if = "Option::is_none")]
    next: Option<String>,
}

/// What came of the step at which a plan stopped.
#[derive(Clone, Copy)]
enum Cause {
    Halted(Why),
    /// Its Get has no answer.
    Get,
    /// Its Set has none.
    Set,
    /// What takes it back has none.
    Undo,
}

/// The word of a phase.
fn phase_word(phase: &Phase) -> &'static str {
    match phase {
        Phase::Fresh => "nothing",
        Phase::Done => "done",
        Phase::Halted(_, _) => "halted",
        _ => "unsettled",
    }
}

/// The word of what came of a plan.
fn outcome_word(outcome: &Outcome) -> &'static str {
    match outcome {
        Outcome::Held => "held",
        Outcome::Occupied(_) => "occupied",
        Outcome::Unmade => "unmade",
        Outcome::Ungreeted(why) => why.word(),
        Outcome::NoLink => "no socket",
        Outcome::Ended(phase, _) => phase_word(phase),
        Outcome::Empty | Outcome::Unkept => "nothing",
    }
}

/// The bus on which a greeting wasn't answered.
fn bus_word(outcome: &Outcome) -> Option<&'static str> {
    match outcome {
        Outcome::Ungreeted(why) => Some(why.bus.name()),
        _ => None,
    }
}

/// Whether FILE was kept.
fn is_kept(outcome: &Outcome) -> bool {
    match outcome {
        Outcome::Unmade | Outcome::Unkept => false,
        Outcome::Ended(_, kept) => kept.is_ok(),
        _ => true,
    }
}

/// What came of the step, in words.
fn cause_words(cause: &Cause) -> &'static str {
    match cause {
        Cause::Halted(Why::Refused(_)) => "set refused",
        Cause::Halted(Why::GetRefused(_)) => "get refused",
        Cause::Halted(Why::NotRestorable) => "not restorable",
        Cause::Halted(Why::Stop) => "stopped",
        Cause::Get => "get unanswered",
        Cause::Set => "set unanswered",
        Cause::Undo => "undo unanswered",
    }
}

/// The code by which a request of the step was refused.
fn cause_code(cause: &Cause) -> Option<Code> {
    match cause {
        Cause::Halted(Why::Refused(code) | Why::GetRefused(code)) => Some(*code),
        _ => None,
    }
}

/// Which request has no answer, and of which step.
fn open_at(manager: &Manager) -> Option<(usize, Cause)> {
    match manager.journal().stage {
        KeptStage::Open {
            task: KeptTask::Get(step),
            ..
        } => Some((step, Cause::Get)),
        KeptStage::Open {
            task: KeptTask::Set(step),
            ..
        } => Some((step, Cause::Set)),
        KeptStage::Open {
            task: KeptTask::Undo(step),
            ..
        } => Some((step, Cause::Undo)),
        _ => None,
    }
}

/// The step at which the plan's manager stopped, and why.
fn stop_of(manager: &Manager, outcome: &Outcome) -> Option<(usize, Cause)> {
    match outcome {
        Outcome::Ended(Phase::Halted(step, why), _) => Some((*step, Cause::Halted(*why))),
        Outcome::Ended(_, _) => open_at(manager),
        _ => None,
    }
}

/// The record that the step of this place changes.
fn record_at(alloc: Global, manager: &Manager, step: usize) -> Result<Option<String>, AllocError> {
    match manager.journal().steps.get(step) {
        Some(op) => {
            let mut text = String::new(alloc);
            push_record(&mut text, &op)?;
            Ok(Some(text))
        }
        None => Ok(None),
    }
}

/// The name of that record's sensor or attribute, where it is among these names.
fn name_at(
    alloc: Global,
    manager: &Manager,
    step: usize,
    names: &Names,
) -> Result<Option<String>, AllocError> {
    match manager.journal().steps.get(step) {
        Some(op) => name_of(alloc, names, &Limits::key(&op)),
        None => Ok(None),
    }
}

/// What the standard calls the code by which a request of the step of this place was refused.
fn meaning_at(manager: &Manager, step: usize, code: Option<u8>) -> Option<&'static str> {
    let (Some(op), Some(code)) = (manager.journal().steps.get(step), code) else {
        return None;
    };
    match code_row(bus_of_op(&op), code) {
        Some(row) => Some(row.name),
        None => None,
    }
}

/// The object of the step at which the plan's manager stopped.
fn stop_at(
    alloc: Global,
    manager: &Manager,
    step: usize,
    cause: &Cause,
    names: &Names,
) -> Result<StopObject, AllocError> {
    let record = record_at(alloc, manager, step)?;
    let name = name_at(alloc, manager, step, names)?;
    let code = cause_code(cause).map(Code::value);
    let meaning = meaning_at(manager, step, code);
    let why = cause_words(cause);
    Ok(StopObject {
        step: step as u128 + 1,
        record,
        name,
        why,
        code,
        meaning,
    })
}

/// The same, where it stopped at one.
fn stop_object(
    alloc: Global,
    manager: &Manager,
    outcome: &Outcome,
    names: &Names,
) -> Result<Option<StopObject>, AllocError> {
    match stop_of(manager, outcome) {
        Some((step, cause)) => Ok(Some(stop_at(alloc, manager, step, &cause, names)?)),
        None => Ok(None),
    }
}

/// Whether there is something to take back or to settle.
fn has_next(outcome: &Outcome, stands: usize) -> bool {
    match outcome {
        Outcome::Occupied(standing) => !matches!(standing, Standing::NoJournal),
        Outcome::Ended(Phase::Done | Phase::Halted(_, _), _) => stands > 0,
        Outcome::Ended(Phase::Fresh, _) => false,
        Outcome::Ended(_, _) => true,
        _ => false,
    }
}

/// The call to make next, where there is one.
fn next_call(
    alloc: Global,
    outcome: &Outcome,
    stands: usize,
    file: &str,
    reach: &Reach,
) -> Result<Option<String>, AllocError> {
    if !has_next(outcome, stands) {
        return Ok(None);
    }
    let mut text = String::new(alloc);
    push_revert(&mut text, file, reach)?;
    Ok(Some(text))
}

/// What each step did that was done.
fn all_did(alloc: Global, manager: &Manager) -> Result<Vec<String>, AllocError> {
    let journal = manager.journal();
    let requests = &manager.undo_list().requests;
    let mut did = Vec::new(alloc);
    for place in 0..requests.len() {
        let (Some(op), Some(undone)) = (journal.steps.get(place), requests.get(place)) else {
            return Ok(did);
        };
        let mut text = String::new(alloc);
        push_did(&mut text, &op, &undone)?;
        did.push(text)?;
    }
    Ok(did)
}

/// The object of what came of a plan.
fn object_of<'a>(
    alloc: Global,
    words: &'a ApplyWords,
    applied: &'a Applied,
    names: &Names,
) -> Result<ApplyObject<'a>, AllocError> {
    let (manager, outcome) = (&applied.manager, &applied.outcome);
    let file = words.file.as_str();
    let steps = manager.journal().steps.len();
    let stands = manager.undo_list().requests.len();
    let did = all_did(alloc, manager)?;
    let stop = stop_object(alloc, manager, outcome, names)?;
    let next = next_call(alloc, outcome, stands, file, &words.reach)?;
    let (word, bus) = (outcome_word(outcome), bus_word(outcome));
    let kept = is_kept(outcome);
    let aside = applied.aside.as_deref();
    Ok(ApplyObject {
        outcome: word,
        bus,
        steps,
        stands,
        did,
        stop,
        file,
        kept,
        aside,
        next,
    })
}

/// What is said of a plan, as an object in a line. Its members: `outcome`, which is `done`, `halted`, `unsettled`, `nothing`, `held`, `occupied`,
/// `unmade`, `no answer`, `busy` or `no socket`; `bus`, of a greeting that wasn't answered; `steps`, how many the plan has; `stands`, how many were
/// done; `did`, a text for each of these; `stop`, where the plan halted or has no answer; `file` and whether it was `kept`; `aside`, the new word of
/// what it had; and `next`, the call to make. Those of `stop`: `step`, from 1, `record`, the `name` of its sensor or attribute, `why`, which is `set
/// refused`, `get refused`, `not restorable`, `stopped`, `get unanswered`, `set unanswered` or `undo unanswered`, `code` and its `meaning`. `bus`,
/// `stop`, `aside`, `next`, `record`, `name`, `code` and `meaning` are left out where there is nothing to say.
pub fn apply_json(
    alloc: Global,
    words: &ApplyWords,
    applied: &Applied,
    names: &Names,
) -> Result<String, AllocError> {
    let object = object_of(alloc, words, applied, names)?;
    object_line(alloc, &object)
}
