//! What is said of a play.
use crate::halt::{first_halt, tried_steps};
use crate::played::{LabFault, Played, play_restarting};
use crate::run::Stopped;
use crate::sentences::{Course, Outcome, push_explanation, push_schedule_note};
use cfg_records::BoardFile;
use lab_run::Note;
use record_base::{Key, RecordKind};
use record_kinds::Limits;
use report_words::BoardNames;
use std::alloc::{AllocError, Global};
use text_lines::Event;
use undo_plans::{Plan, Steps};

/// The records of a plan's steps, in their order.
fn keys_of(alloc: Global, steps: &Steps) -> Result<Vec<Key>, AllocError> {
    let mut keys = Vec::new(alloc);
    for place in 0..steps.len() {
        if let Some(op) = steps.get(place) {
            keys.push(Limits::key(&op))?;
        }
    }
    Ok(keys)
}

/// What the lines name of a board and of a plan: the records of the plan's steps, and the names of the board's sensors and attributes.
#[derive(Drop)]
struct Named {
    keys: Vec<Key>,
    names: BoardNames,
}

/// What the lines name of the board of this file and of a plan with these steps.
fn named_of(alloc: Global, file: &BoardFile, steps: &Steps) -> Result<Named, AllocError> {
    Ok(Named {
        keys: keys_of(alloc, steps)?,
        names: BoardNames::of(alloc, file)?,
    })
}

/// What is told.
#[derive(Clone, Copy)]
enum Telling {
    /// What explains a play.
    Explanation,
    /// What is told of a schedule that was made, whose plan is to be undone or not.
    Note { undo: bool },
}

/// The lines that tell what came of what was played, with these notes, and with this event that the lab didn't take.
fn told_of(
    alloc: Global,
    telling: Telling,
    course: &Course<'_>,
    notes: &[Note],
    played: Played,
    stopped: Option<Stopped>,
) -> Result<String, AllocError> {
    let outcome = Outcome {
        halt: first_halt(notes),
        tried: tried_steps(notes),
        phase: played.phase(),
        frames: played.frames().len(),
        stopped,
    };
    drop(played);
    let mut text = String::new(alloc);
    match telling {
        Telling::Explanation => push_explanation(&mut text, course, outcome)?,
        Telling::Note { undo } => push_schedule_note(&mut text, course, undo, outcome)?,
    }
    Ok(text)
}

/// The lines that tell what came of the play that gave this.
fn told_by(
    alloc: Global,
    telling: Telling,
    course: &Course<'_>,
    notes: &[Note],
    given: Result<Played, LabFault>,
) -> Result<String, AllocError> {
    match given {
        Ok(played) => told_of(alloc, telling, course, notes, played, None),
        Err(LabFault::Memory) => Err(AllocError),
        Err(
            LabFault::Event {
                fault,
                place,
                played,
            },
        ) => {
            let stopped = Some(Stopped { place, fault });
            told_of(alloc, telling, course, notes, played, stopped)
        }
    }
}

/// The lines that tell of the play of the plan on the board by these events, of which the text is the schedule. The manager is made again behind the
/// events of these places.
fn told(
    alloc: Global,
    telling: Telling,
    places: &[usize],
    file: BoardFile,
    plan: Plan,
    events: &[Event],
    schedule: &str,
) -> Result<String, AllocError> {
    let named = match named_of(alloc, &file, &plan.steps) {
        Ok(named) => named,
        Err(error) => {
            drop(file);
            drop(plan);
            return Err(error);
        }
    };
    let mut notes = Vec::new(alloc);
    let given = play_restarting(alloc, file, plan, events, places, &mut notes);
    let course = Course {
        steps: named.keys.as_slice(),
        names: &named.names,
        schedule,
    };
    told_by(alloc, telling, &course, notes.as_slice(), given)
}

/// The lines that explain the play of the plan on the board by these events, of which the text is the schedule. The manager is made again behind the
/// events of these places.
pub fn explanation(
    alloc: Global,
    places: &[usize],
    file: BoardFile,
    plan: Plan,
    events: &[Event],
    schedule: &str,
) -> Result<String, AllocError> {
    told(
        alloc,
        Telling::Explanation,
        places,
        file,
        plan,
        events,
        schedule,
    )
}

/// What is told of a schedule that was made of a plan on a board, whose plan is to be undone or not: where the plan halts in it, and that it ends for want
/// of room. Of any other nothing is told.
pub fn schedule_note(
    alloc: Global,
    undo: bool,
    file: BoardFile,
    plan: Plan,
    events: &[Event],
    schedule: &str,
) -> Result<String, AllocError> {
    told(
        alloc,
        Telling::Note { undo },
        &[],
        file,
        plan,
        events,
        schedule,
    )
}
