//! What `bmcnet revert --preview --json` says: an object for each line.
use crate::foretold_words::{has_something, left_of, number_in_doubt};
use app_apply::objects::object_line;
use record_words::undo_in_words;
use serde::Serialize;
use std::alloc::{AllocError, Global};
use undo_core::Manager;
use undo_plans::{KeptStage, KeptTask, UndoRequest};

/// The request that has no answer, so that it isn't known whether it was carried out.
#[derive(Drop, Serialize)]
struct DoubtObject {
    /// Its step, counted from 1.
    step: u128,
    /// Whether it gets the step's record, sets it, or takes the step back.
    open: &'static str,
}

/// What takes a step back.
#[derive(Drop, Serialize)]
struct LineObject {
    /// The step, counted from 1.
    step: u128,
    undo: String,
    /// Whether the step was set.
    sure: bool,
}

/// How many steps would be taken back.
#[derive(Drop, Serialize)]
struct CountObject<'a> {
    outcome: &'static str,
    steps: usize,
    file: &'a str,
}

/// Adds the object of what takes back the step of this number.
fn push_line(
    alloc: Global,
    text: &mut String,
    number: u128,
    sure: bool,
    request: &UndoRequest<'_>,
) -> Result<(), AllocError> {
    let words = undo_in_words(request);
    let object = LineObject {
        step: number,
        undo: format!(in alloc; "{words}")?,
        sure,
    };
    let line = object_line(alloc, &object)?;
    text.push_str(line.as_str())
}

/// Adds the object of the request that has no answer.
fn push_open(alloc: Global, text: &mut String, task: KeptTask) -> Result<(), AllocError> {
    let (place, open) = match task {
        KeptTask::Get(place) => (place, "get"),
        KeptTask::Set(place) => (place, "set"),
        KeptTask::Undo(place) => (place, "undo"),
    };
    let object = DoubtObject {
        step: place as u128 + 1,
        open,
    };
    let line = object_line(alloc, &object)?;
    text.push_str(line.as_str())
}

/// Adds what isn't known, and what takes back the step whose Set is open.
fn push_doubt(alloc: Global, text: &mut String, manager: &Manager) -> Result<(), AllocError> {
    let KeptStage::Open { task, .. } = manager.journal().stage else {
        return Ok(());
    };
    push_open(alloc, text, task)?;
    match manager.journal().waiting() {
        Some(request) => push_line(alloc, text, number_in_doubt(manager), false, &request),
        None => Ok(()),
    }
}

/// Adds an object for each request of the list that is still to be sent, from the last to the first.
fn push_listed(
    alloc: Global,
    text: &mut String,
    manager: &Manager,
    count: usize,
) -> Result<(), AllocError> {
    let requests = &manager.undo_list().requests;
    for at in 0..count {
        let place = count - 1 - at;
        let Some(request) = requests.get(place) else {
            return Ok(());
        };
        push_line(alloc, text, place as u128 + 1, true, &request)?;
    }
    Ok(())
}

/// What came of the call, in a word.
fn outcome_word(manager: &Manager, count: usize) -> &'static str {
    if has_something(manager, count) {
        "to take back"
    } else {
        "empty"
    }
}

/// What is said of what a manager would take back that is made of FILE: an object in a line for the request that has no answer, with the members `step`
/// and `open`; one for each request that would be sent, in their order, with `step`, `undo` and `sure`; and at the end one with `outcome`, which is `to
/// take back` or `empty`, `steps` and `file`.
pub fn foretell_json(alloc: Global, file: &str, manager: &Manager) -> Result<String, AllocError> {
    let mut text = String::new(alloc);
    let count = left_of(manager);
    push_doubt(alloc, &mut text, manager)?;
    push_listed(alloc, &mut text, manager, count)?;
    let object = CountObject {
        outcome: outcome_word(manager, count),
        steps: count,
        file,
    };
    let line = object_line(alloc, &object)?;
    text.push_str(line.as_str())?;
    Ok(text)
}
