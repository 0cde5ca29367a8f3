//! The lines that explain a play.
use crate::halt::Halt;
use crate::run::Stopped;
use crate::schedule_lines::event_line;
use model_undo::{Phase, Why};
use record_base::Key;
use record_words::{RecordName, push_named};
use report_words::{BoardNames, NamedCode, code_row, phase_row};
use std::alloc::AllocError;
use two_wire::Bus;

/// What the lines name: the records of the plan's steps, with the names of the board's sensors and attributes, and the lines of the schedule.
#[derive(Clone, Copy)]
pub(crate) struct Course<'a> {
    pub steps: &'a [Key],
    pub names: &'a BoardNames,
    pub schedule: &'a str,
}

/// The bus of the requests that get and set this record.
fn bus_of(key: Key) -> Bus {
    match key {
        Key::NumericEffecter(_) | Key::StateEffecter(_) | Key::BiosAttribute(_) => Bus::Smbus,
        _ => Bus::Ipmb,
    }
}

/// Adds a record, with the name of its sensor or attribute where the board gives one.
fn push_record(text: &mut String, names: &BoardNames, key: &Key) -> Result<(), AllocError> {
    let alloc = *text.allocator();
    let record = format!(in alloc; "{}", RecordName(*key))?;
    push_named(alloc, text, key, names.name_of(key), record.as_str())
}

/// Adds which step that is, counted from 1, and its record.
fn push_step(text: &mut String, course: &Course<'_>, step: usize) -> Result<(), AllocError> {
    let all = course.steps.len();
    match course.steps.get(step) {
        Some(key) => {
            let place = step.saturating_add(1);
            write!(text, "step {place} of {all} (")?;
            push_record(text, course.names, key)?;
            text.push_str(")")
        }
        None => write!(text, "the end of {all} steps"),
    }
}

/// The step that a phase names.
fn step_of(phase: &Phase) -> Option<usize> {
    match *phase {
        Phase::Getting(step)
        | Phase::Setting(step)
        | Phase::Halted(step, _)
        | Phase::Unsettled(step)
        | Phase::Undoing(step)
        | Phase::UndoRefused(step, _) => Some(step),
        Phase::Fresh | Phase::Done | Phase::Undone => None,
    }
}

/// The code for which a plan halted.
fn refusal_code(why: &Why) -> Option<u8> {
    match why {
        Why::Refused(code) => Some(code.value()),
        Why::GetRefused(code) => Some(code.value()),
        Why::Stop | Why::NotRestorable => None,
    }
}

/// The code that a phase names.
fn code_of(phase: &Phase) -> Option<u8> {
    match phase {
        Phase::Halted(_, why) => refusal_code(why),
        Phase::UndoRefused(_, code) => Some(code.value()),
        _ => None,
    }
}

/// The bus of the step's requests.
fn step_bus(course: &Course<'_>, step: usize) -> Bus {
    match course.steps.get(step) {
        Some(key) => bus_of(*key),
        None => Bus::Ipmb,
    }
}

/// Adds which step the phase names, if it names one, before what the phase means.
fn push_place(text: &mut String, course: &Course<'_>, phase: &Phase) -> Result<(), AllocError> {
    let Some(step) = step_of(phase) else {
        return Ok(());
    };
    push_step(text, course, step)?;
    text.push_str(": ")
}

/// Adds the line of a code: what it is called, what it says, and what to do.
fn push_row(text: &mut String, bus: Bus, code: u8) -> Result<(), AllocError> {
    let named = NamedCode { bus, code };
    match code_row(bus, code) {
        Some(row) => {
            let meaning = row.meaning;
            let advice = row.advice;
            writeln!(text, "{named}: {meaning}\nnext: {advice}")
        }
        None => writeln!(text, "{named}"),
    }
}

/// Adds the line of the code that the phase names, if it names one.
fn push_code(text: &mut String, course: &Course<'_>, phase: &Phase) -> Result<(), AllocError> {
    let Some(code) = code_of(phase) else {
        return Ok(());
    };
    let Some(step) = step_of(phase) else {
        return Ok(());
    };
    push_row(text, step_bus(course, step), code)
}

/// Adds what to do, if anything.
fn push_advice(text: &mut String, advice: &str) -> Result<(), AllocError> {
    if advice.is_empty() {
        return Ok(());
    }
    writeln!(text, "next: {advice}")
}

/// Adds what a phase means, what its code says, and what to do.
fn push_phase(text: &mut String, course: &Course<'_>, phase: &Phase) -> Result<(), AllocError> {
    let row = phase_row(*phase);
    let meaning = row.meaning;
    push_place(text, course, phase)?;
    writeln!(text, "{meaning}")?;
    push_code(text, course, phase)?;
    push_advice(text, row.in_play)
}

/// Adds at which event the plan halted.
fn push_event(text: &mut String, course: &Course<'_>, place: usize) -> Result<(), AllocError> {
    match event_line(course.schedule, place) {
        Some(line) => {
            let number = line.number;
            write!(
                text,
                "halted at event {place}, line {number} of the schedule, "
            )
        }
        None => write!(text, "halted at event {place}, "),
    }
}

/// Adds where the plan halted, and why, if it did.
fn push_halt(text: &mut String, course: &Course<'_>, halt: Option<Halt>) -> Result<(), AllocError> {
    let Some(Halt { place, phase }) = halt else {
        return Ok(());
    };
    push_event(text, course, place)?;
    push_phase(text, course, &phase)
}

/// Adds what the phase at the end means, unless the plan is halted there, which was said.
fn push_end(text: &mut String, course: &Course<'_>, phase: &Phase) -> Result<(), AllocError> {
    if matches!(phase, Phase::Halted(_, _)) {
        return Ok(());
    }
    push_phase(text, course, phase)
}

/// Adds how many of the steps were never tried, where one wasn't.
fn push_untried(text: &mut String, course: &Course<'_>, tried: usize) -> Result<(), AllocError> {
    let all = course.steps.len();
    let untried = all.saturating_sub(tried);
    match untried {
        0 => Ok(()),
        1 => writeln!(text, "1 of {all} steps was never tried"),
        _ => writeln!(text, "{untried} of {all} steps were never tried"),
    }
}

/// Adds in which line the event stands that the lab didn't take.
fn push_stopped(
    text: &mut String,
    course: &Course<'_>,
    stopped: Option<Stopped>,
) -> Result<(), AllocError> {
    let Some(Stopped { place, .. }) = stopped else {
        return Ok(());
    };
    let Some(line) = event_line(course.schedule, place) else {
        return Ok(());
    };
    let number = line.number;
    let words = line.text;
    writeln!(
        text,
        "event {place} is line {number} of the schedule: {words}"
    )
}

/// What the lines say: of the plan's halt, of the steps that were tried, of the phase and the frames at the end, and of the event that wasn't taken.
#[derive(Clone, Copy)]
pub(crate) struct Outcome {
    pub halt: Option<Halt>,
    pub tried: usize,
    pub phase: Phase,
    pub frames: usize,
    pub stopped: Option<Stopped>,
}

/// Adds the lines that explain a play that came to this.
pub(crate) fn push_explanation(
    text: &mut String,
    course: &Course<'_>,
    outcome: Outcome,
) -> Result<(), AllocError> {
    let Outcome {
        halt,
        tried,
        phase,
        frames: _,
        stopped,
    } = outcome;
    push_halt(text, course, halt)?;
    push_end(text, course, &phase)?;
    push_untried(text, course, tried)?;
    push_stopped(text, course, stopped)
}

/// Whether a schedule that is to undo its plan, or isn't, comes to its end in this phase.
fn has_ended(undo: bool, phase: &Phase) -> bool {
    match phase {
        Phase::Undone | Phase::UndoRefused(_, _) => true,
        Phase::Done | Phase::Halted(_, _) => !undo,
        _ => false,
    }
}

/// Adds that a schedule ends for want of room, where it does.
fn push_room(
    text: &mut String,
    has_ended: bool,
    frames: usize,
    phase: &Phase,
) -> Result<(), AllocError> {
    if has_ended {
        return Ok(());
    }
    writeln!(
        text,
        "the schedule ends for want of room, after {frames} frames, in phase {phase}"
    )
}

/// Adds what is told of a schedule that was made: where the plan halts in it, that it ends for want of room, and how many steps it never tries. Where the
/// plan doesn't halt and the schedule comes to its end, nothing is added.
pub(crate) fn push_schedule_note(
    text: &mut String,
    course: &Course<'_>,
    undo: bool,
    outcome: Outcome,
) -> Result<(), AllocError> {
    let Outcome {
        halt,
        tried,
        phase,
        frames,
        stopped: _,
    } = outcome;
    let has_ended = has_ended(undo, &phase);
    if halt.is_none() && has_ended {
        return Ok(());
    }
    push_halt(text, course, halt)?;
    push_room(text, has_ended, frames, &phase)?;
    push_untried(text, course, tried)
}
