//! What `bmcnet revert --json` says at its end: what is so, which records aren't as before, and what to call next, as one object in a line.
use crate::looking::{Sight, Sighting};
use crate::reverted_words::bus_of_request;
use crate::reverting::{RevertWords, Reverted};
use app_apply::objects::{name_of, object_line};
use app_apply::sentences::push_revert;
use app_apply::{Outcome, Reach};
use app_look::KnownNames;
use record_words::{RecordName, undo_in_words};
use report_words::code_row;
use serde::Serialize;
use std::alloc::{AllocError, Global};
use two_wire::Code;
use undo_core::{Manager, Phase};
use undo_plans::{KeptStage, KeptTask};

/// The request that takes a step back, and that was refused. A member of which there is nothing to say is left out.
#[derive(Drop, Serialize)]
struct RefusedObject {
    /// The step, counted from 1.
    step: u128,
    /// What the request was to bring back.
    #[serde(skip_serializing_if = "Option::is_none")]
    undo: Option<String>,
    /// The code by which it was refused.
    code: u8,
    /// What the standard calls that code.
    #[serde(skip_serializing_if = "Option::is_none")]
    meaning: Option<&'static str>,
}

/// The request that has no answer.
#[derive(Drop, Serialize)]
struct OpenObject {
    /// Its step, counted from 1.
    step: u128,
    /// Whether it gets the step's record, sets it, or takes the step back.
    request: &'static str,
}

/// A record that isn't as before, or that couldn't be looked at.
#[derive(Drop, Serialize)]
struct RecordObject {
    record: String,
    /// The name of its sensor or attribute, where that is known.
    #[serde(skip_serializing_if = "Option::is_none")]
    name: Option<String>,
    /// What the look at it showed.
    why: &'static str,
}

/// What came of taking back. A member of which there is nothing to say is left out.
#[derive(Drop, Serialize)]
struct RevertObject<'a> {
    /// What came of it, in a word.
    outcome: &'static str,
    /// The bus on which a greeting wasn't answered.
    #[serde(skip_serializing_if = "Option::is_none")]
    bus: Option<&'static str>,
    /// How many steps there were to take back, where FILE was read.
    #[serde(skip_serializing_if = "Option::is_none")]
    steps: Option<usize>,
    /// How many of them stand, from the first on.
    #[serde(skip_serializing_if = "Option::is_none")]
    stands: Option<usize>,
    /// The request that was refused.
    #[serde(skip_serializing_if = "Option::is_none")]
    refused: Option<RefusedObject>,
    /// The request that has no answer.
    #[serde(skip_serializing_if = "Option::is_none")]
    open: Option<OpenObject>,
    /// The records that aren't as before, or that couldn't be looked at.
    records: Vec<RecordObject>,
    /// Whether each record was looked at.
    looked: bool,
    /// The word of FILE.
    file: &'a str,
    /// Whether FILE was kept.
    kept: bool,
    /// The call that goes on.
    #[serde(skip_serializing_if = "Option::is_none")]
    next: Option<String>,
}

/// The word of a phase.
fn phase_word(phase: &Phase) -> &'static str {
    match phase {
        Phase::Undone => "undone",
        Phase::UndoRefused(_, _) => "undo refused",
        _ => "unsettled",
    }
}

/// The word of what came of taking back.
fn outcome_word(outcome: &Outcome) -> &'static str {
    match outcome {
        Outcome::Held => "held",
        Outcome::Occupied(_) => "occupied",
        Outcome::Empty => "empty",
        Outcome::Unmade => "unmade",
        Outcome::Unkept => "unkept",
        Outcome::Ungreeted(why) => why.word(),
        Outcome::NoLink => "no socket",
        Outcome::Ended(phase, _) => phase_word(phase),
    }
}

/// The bus on which a greeting wasn't answered.
fn bus_word(outcome: &Outcome) -> Option<&'static str> {
    match outcome {
        Outcome::Ungreeted(why) => Some(why.bus.name()),
        _ => None,
    }
}

/// Whether FILE was kept.
fn is_kept(outcome: &Outcome) -> bool {
    match outcome {
        Outcome::Unmade | Outcome::Unkept => false,
        Outcome::Ended(_, kept) => kept.is_ok(),
        _ => true,
    }
}

/// How many steps stand, where that is known.
fn stands_of(outcome: &Outcome) -> Option<usize> {
    match outcome {
        Outcome::Ended(Phase::Undone, _) => Some(0),
        Outcome::Ended(Phase::UndoRefused(place, _), _) => Some(place.saturating_add(1)),
        _ => None,
    }
}

/// The request that takes back the step of this place, which was refused with this code.
fn refused_at(
    alloc: Global,
    manager: &Manager,
    place: usize,
    code: Code,
) -> Result<RefusedObject, AllocError> {
    let step = place as u128 + 1;
    let code = code.value();
    match manager.undo_list().requests.get(place) {
        Some(request) => Ok(RefusedObject {
            step,
            undo: Some(format!(in alloc; "{}", undo_in_words(&request))?),
            code,
            meaning: code_row(bus_of_request(&request), code).map(|row| row.name),
        }),
        None => Ok(RefusedObject {
            step,
            undo: None,
            code,
            meaning: None,
        }),
    }
}

/// The same, where one was.
fn refused_of(
    alloc: Global,
    manager: &Manager,
    outcome: &Outcome,
) -> Result<Option<RefusedObject>, AllocError> {
    match outcome {
        Outcome::Ended(Phase::UndoRefused(place, code), _) => {
            Ok(Some(refused_at(alloc, manager, *place, *code)?))
        }
        _ => Ok(None),
    }
}

/// The request that has no answer, where one is open.
fn open_of(manager: &Manager) -> Option<OpenObject> {
    let KeptStage::Open { task, .. } = manager.journal().stage else {
        return None;
    };
    let (step, request) = match task {
        KeptTask::Get(step) => (step, "get"),
        KeptTask::Set(step) => (step, "set"),
        KeptTask::Undo(step) => (step, "undo"),
    };
    Some(OpenObject {
        step: step as u128 + 1,
        request,
    })
}

/// What a look showed, in a word.
fn sight_word(sight: Sight) -> &'static str {
    match sight {
        Sight::AsBefore => "as before",
        Sight::Differs => "differs",
        Sight::Unseen => "unanswered",
    }
}

/// The object of a record that was looked at.
fn record_of(
    alloc: Global,
    sighting: &Sighting,
    names: &KnownNames,
) -> Result<RecordObject, AllocError> {
    let key = &sighting.key;
    let record = format!(in alloc; "{}", RecordName(*key))?;
    let name = match names {
        Ok(names) => name_of(alloc, names, key)?,
        Err(AllocError) => None,
    };
    let why = sight_word(sighting.sight);
    Ok(RecordObject { record, name, why })
}

/// Those of the records that the looks named.
fn records_of(alloc: Global, reverted: &Reverted) -> Result<Vec<RecordObject>, AllocError> {
    let mut records = Vec::new(alloc);
    for sighting in &reverted.looked.sightings {
        records.push(record_of(alloc, sighting, &reverted.names)?)?;
    }
    Ok(records)
}

/// Whether there is something to go on with.
fn has_next(outcome: &Outcome) -> bool {
    match outcome {
        Outcome::Empty | Outcome::Unmade => false,
        Outcome::Ended(Phase::Undone, kept) => kept.is_err(),
        _ => true,
    }
}

/// The call that goes on, where there is something to go on with.
fn next_call(
    alloc: Global,
    outcome: &Outcome,
    file: &str,
    reach: &Reach,
) -> Result<Option<String>, AllocError> {
    if !has_next(outcome) {
        return Ok(None);
    }
    let mut text = String::new(alloc);
    push_revert(&mut text, file, reach)?;
    Ok(Some(text))
}

/// The object of what came of taking back.
fn object_of<'a>(
    alloc: Global,
    words: &'a RevertWords,
    reverted: &'a Reverted,
) -> Result<RevertObject<'a>, AllocError> {
    let (manager, outcome) = (&reverted.manager, &reverted.outcome);
    let file = words.file.as_str();
    let refused = refused_of(alloc, manager, outcome)?;
    let records = records_of(alloc, reverted)?;
    let next = next_call(alloc, outcome, file, &words.reach)?;
    let (word, bus) = (outcome_word(outcome), bus_word(outcome));
    let steps = Some(manager.undo_list().requests.len());
    let stands = stands_of(outcome);
    let open = open_of(manager);
    let kept = is_kept(outcome);
    let looked = matches!(outcome, Outcome::Ended(Phase::Undone, Ok(())))
        && !reverted.looked.unseen;
    Ok(RevertObject {
        outcome: word,
        bus,
        steps,
        stands,
        refused,
        open,
        records,
        looked,
        file,
        kept,
        next,
    })
}

/// What is said of what was taken back, as an object in a line.
pub fn revert_json(
    alloc: Global,
    words: &RevertWords,
    reverted: &Reverted,
) -> Result<String, AllocError> {
    let object = object_of(alloc, words, reverted)?;
    object_line(alloc, &object)
}

/// What is said of a FILE that can't be held, as an object in a line.
pub(crate) fn held_json(alloc: Global, words: &RevertWords) -> Result<String, AllocError> {
    let (held, file) = (Outcome::Held, words.file.as_str());
    let next = next_call(alloc, &held, file, &words.reach)?;
    let object = RevertObject {
        outcome: outcome_word(&held),
        bus: None,
        steps: None,
        stands: None,
        refused: None,
        open: None,
        records: Vec::new(alloc),
        looked: false,
        file,
        kept: is_kept(&held),
        next,
    };
    object_line(alloc, &object)
}
