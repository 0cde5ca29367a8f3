//! What `bmcnet apply` says at its end: what is so, and what to call next.
use crate::applying::{Applied, ApplyWords};
use crate::kept_calls::Reach;
use crate::outcome::Outcome;
use crate::sentences::{
    bus_of_op, push_code, push_held, push_record, push_revert, push_standing, push_unanswered,
    push_unsettled,
};
use app_journal::Standing;
use record_base::{Op, RecordKind};
use record_kinds::Limits;
use record_words::{Way, op_in_words, push_named, undone_op};
use report_words::Names;
use std::alloc::{AllocError, Global};
use two_wire::Bus;
use undo_core::{Manager, Phase, Why};
use undo_plans::UndoRequest;

/// Adds the record that a step changes, with the name of its sensor or attribute where that is known.
fn push_named_record(
    alloc: Global,
    text: &mut String,
    op: &Op<'_>,
    names: &Names,
) -> Result<(), AllocError> {
    let key = Limits::key(op);
    let mut record = String::new(alloc);
    push_record(&mut record, op)?;
    push_named(alloc, text, &key, names.of(&key), record.as_str())
}

/// Adds why the plan halted at a step whose record is called so.
fn push_why(text: &mut String, bus: Bus, record: &str, why: Why) -> Result<(), AllocError> {
    match why {
        Why::Refused(code) => {
            write!(text, "{record} refused ")?;
            push_code(text, bus, code)?;
            text.push_str(": nothing of it was set")
        }
        Why::GetRefused(code) => {
            write!(text, "{record} can't be read ")?;
            push_code(text, bus, code)?;
            text.push_str(": nothing of it was set")
        }
        Why::NotRestorable => write!(
            text,
            "{record} has a value that no request brings back: nothing of it was set"
        ),
        Why::Stop => write!(text, "nothing of {record} was set"),
    }
}

/// Adds at which of so many steps the plan halted, and why.
fn push_stop(
    alloc: Global,
    text: &mut String,
    op: &Op<'_>,
    step: usize,
    steps: usize,
    why: Why,
    names: &Names,
) -> Result<(), AllocError> {
    let number = step as u128 + 1;
    let mut record = String::new(alloc);
    push_named_record(alloc, &mut record, op, names)?;
    write!(text, "halted at step {number} of {steps}: ")?;
    push_why(text, bus_of_op(op), record.as_str(), why)
}

/// Adds which steps stand, and the call that takes them back, where there are some.
fn push_next(text: &mut String, done: usize, file: &str, reach: &Reach) -> Result<(), AllocError> {
    text.push_str("; ")?;
    push_standing(text, done)?;
    if done == 0 {
        return text.push_str("\n");
    }
    text.push_str(": ")?;
    push_revert(text, file, reach)?;
    text.push_str("\n")
}

/// Adds that the plan halted at the step of this place, whose record is said with its name.
fn push_halted(
    alloc: Global,
    text: &mut String,
    manager: &Manager,
    step: usize,
    why: Why,
    names: &Names,
) -> Result<(), AllocError> {
    let journal = manager.journal();
    let steps = journal.steps.len();
    match journal.steps.get(step) {
        Some(op) => push_stop(alloc, text, &op, step, steps, why, names),
        None => write!(text, "halted behind the last of {steps} steps"),
    }
}

/// Adds that the plan is done.
fn push_done(text: &mut String, steps: usize, file: &str, reach: &Reach) -> Result<(), AllocError> {
    match steps {
        1 => text.push_str("done: 1 step; to take it back: ")?,
        _ => write!(text, "done: {steps} steps; to take them back: ")?,
    }
    push_revert(text, file, reach)?;
    text.push_str("\n")
}

/// Adds what FILE has that isn't written over.
fn push_occupied(
    text: &mut String,
    standing: Standing,
    file: &str,
    reach: &Reach,
) -> Result<(), AllocError> {
    match standing {
        Standing::NoJournal => writeln!(
            text,
            "{file} is no undo text and no journal, and isn't written over: --undo FILE names another file, --replace puts it aside"
        ),
        _ => {
            write!(
                text,
                "{file} has something to take back, and isn't written over: "
            )?;
            push_revert(text, file, reach)?;
            text.push_str(", or --replace puts it aside\n")
        }
    }
}

/// Adds what is so where the plan's manager is in this phase.
fn push_phase(
    alloc: Global,
    text: &mut String,
    manager: &Manager,
    phase: Phase,
    words: &ApplyWords,
    names: &Names,
) -> Result<(), AllocError> {
    let (file, reach) = (words.file.as_str(), &words.reach);
    match phase {
        Phase::Fresh => text.push_str("nothing was set\n"),
        Phase::Done => push_done(text, manager.journal().steps.len(), file, reach),
        Phase::Halted(step, why) => {
            push_halted(alloc, text, manager, step, why, names)?;
            push_next(text, manager.undo_list().requests.len(), file, reach)
        }
        _ => push_unsettled(text, manager, file, reach),
    }
}

/// Adds why nothing of a plan was begun.
fn push_unbegun(
    text: &mut String,
    outcome: Outcome,
    file: &str,
    reach: &Reach,
) -> Result<(), AllocError> {
    match outcome {
        Outcome::Held => push_held(text, file),
        Outcome::Occupied(standing) => push_occupied(text, standing, file, reach),
        Outcome::Unmade => writeln!(text, "{file} can't be written; nothing was sent"),
        Outcome::Ungreeted(why) => {
            push_unanswered(text, why, reach)?;
            text.push_str("; nothing was set\n")
        }
        Outcome::NoLink => text.push_str("no socket could be had; nothing was set\n"),
        Outcome::Unkept | Outcome::Empty | Outcome::Ended(_, _) => Ok(()),
    }
}

/// Adds what a step did that was done: what it changed, over what its Get showed.
pub(crate) fn push_did(
    text: &mut String,
    op: &Op<'_>,
    undone: &UndoRequest<'_>,
) -> Result<(), AllocError> {
    match undone_op(undone) {
        Some(before) => write!(text, "{}", op_in_words(Way::There, op, Some(&before))),
        None => write!(text, "{}", op_in_words(Way::There, op, None)),
    }
}

/// Adds the line of a step that was done: which it is, and what it did.
fn push_step_done(
    text: &mut String,
    place: usize,
    op: &Op<'_>,
    undone: &UndoRequest<'_>,
) -> Result<(), AllocError> {
    let number = place as u128 + 1;
    write!(text, "step {number}: ")?;
    push_did(text, op, undone)?;
    text.push_str("\n")
}

/// Adds a line for each step that was done.
fn push_steps(text: &mut String, manager: &Manager) -> Result<(), AllocError> {
    let journal = manager.journal();
    let requests = &manager.undo_list().requests;
    for place in 0..requests.len() {
        let (Some(op), Some(undone)) = (journal.steps.get(place), requests.get(place)) else {
            return Ok(());
        };
        push_step_done(text, place, &op, &undone)?;
    }
    Ok(())
}

/// Adds that the file couldn't be kept.
fn push_unkept(text: &mut String, file: &str) -> Result<(), AllocError> {
    writeln!(text, "{file} couldn't be written")
}

/// Adds what came of a plan.
fn push_outcome(
    alloc: Global,
    text: &mut String,
    words: &ApplyWords,
    applied: &Applied,
    names: &Names,
) -> Result<(), AllocError> {
    let file = words.file.as_str();
    match applied.outcome {
        Outcome::Ended(phase, kept) => {
            push_steps(text, &applied.manager)?;
            if kept.is_err() {
                push_unkept(text, file)?;
            }
            push_phase(alloc, text, &applied.manager, phase, words, names)
        }
        outcome => push_unbegun(text, outcome, file, &words.reach),
    }
}

/// What is said of a plan. Where it halted, the record of that step is said with its name, if that is among these names.
pub fn apply_text(
    alloc: Global,
    words: &ApplyWords,
    applied: &Applied,
    names: &Names,
) -> Result<String, AllocError> {
    let mut text = String::new(alloc);
    if let Some(name) = &applied.aside {
        writeln!(text, "put aside: {}", name.as_str())?;
    }
    push_outcome(alloc, &mut text, words, applied, names)?;
    Ok(text)
}
