//! What `bmcnet apply` and `bmcnet revert` say alike: a code of a reply, a record, a request without an answer, and what to call next.
use crate::kept_calls::Reach;
use app_run::Unanswered;
use record_base::{Asked, Op, RecordKind};
use record_kinds::Limits;
use record_words::{RecordName, undo_in_words};
use report_words::code_row;
use std::alloc::{AllocError, Global};
use two_wire::{Bus, Code};
use undo_core::Manager;
use undo_plans::{KeptStage, KeptTask};

/// Adds a code of a reply on this bus, as `(CCh, invalid data field)`.
pub fn push_code(text: &mut String, bus: Bus, code: Code) -> Result<(), AllocError> {
    let byte = code.value();
    match code_row(bus, byte) {
        Some(row) => write!(text, "({byte:02X}h, {})", row.name),
        None => write!(text, "({byte:02X}h)"),
    }
}

/// The bus on which the requests of a step go.
pub(crate) fn bus_of_op(op: &Op<'_>) -> Bus {
    match Limits::get_asked(&Limits::key(op)) {
        Asked::Ipmi { .. } => Bus::Ipmb,
        Asked::Pldm { .. } => Bus::Smbus,
    }
}

/// Adds the name of the record that the step of this place changes.
pub(crate) fn push_record(text: &mut String, op: &Op<'_>) -> Result<(), AllocError> {
    write!(text, "{}", RecordName(Limits::key(op)))
}

/// Adds the call that takes back what FILE says, on the controller.
pub fn push_revert(text: &mut String, file: &str, reach: &Reach) -> Result<(), AllocError> {
    write!(text, "bmcnet revert {file} {}", reach.ipmb_port)?;
    match reach.smbus_port {
        Some(port) => write!(text, " {port}"),
        None => Ok(()),
    }
}

/// Adds which steps stand: so many, from the first on.
pub fn push_standing(text: &mut String, done: usize) -> Result<(), AllocError> {
    match done {
        0 => text.push_str("no step was done"),
        1 => text.push_str("step 1 stands"),
        2 => text.push_str("steps 1 and 2 stand"),
        _ => write!(text, "steps 1 to {done} stand"),
    }
}

/// The step of a task.
fn step_of(task: &KeptTask) -> usize {
    match task {
        KeptTask::Get(step) | KeptTask::Set(step) | KeptTask::Undo(step) => *step,
    }
}

/// Adds what the request that takes back the step of this place does.
fn push_request(text: &mut String, manager: &Manager, step: usize) -> Result<(), AllocError> {
    match manager.undo_list().requests.get(step) {
        Some(request) => write!(text, ", {}", undo_in_words(&request)),
        None => Ok(()),
    }
}

/// Adds which record the step of this place changes.
fn push_step(text: &mut String, manager: &Manager, step: usize) -> Result<(), AllocError> {
    match manager.journal().steps.get(step) {
        Some(op) => {
            text.push_str(", ")?;
            push_record(text, &op)
        }
        None => Ok(()),
    }
}

/// Adds what the task is about.
fn push_about(text: &mut String, manager: &Manager, task: &KeptTask) -> Result<(), AllocError> {
    match task {
        KeptTask::Get(step) | KeptTask::Set(step) => push_step(text, manager, *step),
        KeptTask::Undo(step) => push_request(text, manager, *step),
    }
}

/// Adds which request has no answer.
fn push_task(text: &mut String, task: &KeptTask) -> Result<(), AllocError> {
    let number = step_of(task) as u128 + 1;
    match task {
        KeptTask::Get(_) => write!(text, "no answer to the Get of step {number}"),
        KeptTask::Set(_) => write!(text, "no answer to the Set of step {number}"),
        KeptTask::Undo(_) => write!(text, "no answer to what takes step {number} back"),
    }
}

/// What isn't known while such a request has no answer.
fn doubt_words(task: &KeptTask) -> &'static str {
    match task {
        KeptTask::Get(_) => "nothing of it was set",
        KeptTask::Set(_) => "whether it was set isn't known",
        KeptTask::Undo(_) => "whether it was taken back isn't known",
    }
}

/// Adds which request of the manager has no answer, and what that leaves in doubt.
pub fn push_open(text: &mut String, manager: &Manager) -> Result<(), AllocError> {
    let KeptStage::Open { task, .. } = manager.journal().stage else {
        return text.push_str("no answer");
    };
    push_task(text, &task)?;
    push_about(text, manager, &task)?;
    write!(text, ": {}", doubt_words(&task))
}

/// Adds that a request of the manager has no answer, and the call that settles it.
pub fn push_unsettled(
    text: &mut String,
    manager: &Manager,
    file: &str,
    reach: &Reach,
) -> Result<(), AllocError> {
    push_open(text, manager)?;
    text.push_str("; to settle it and take back what was done: ")?;
    push_revert(text, file, reach)?;
    text.push_str("\n")
}

/// Adds which greeting wasn't answered.
pub fn push_unanswered(
    text: &mut String,
    why: Unanswered,
    reach: &Reach,
) -> Result<(), AllocError> {
    let (word, bus) = (why.word(), why.bus.name());
    let port = match why.bus {
        Bus::Ipmb => reach.ipmb_port,
        Bus::Smbus => reach.smbus_or_none(),
    };
    write!(text, "{word} on {bus}, port {port}")?;
    if why.busy {
        text.push_str(": eight others are being served there")?;
    }
    Ok(())
}

/// Adds that FILE can't be held.
pub(crate) fn push_held(text: &mut String, file: &str) -> Result<(), AllocError> {
    writeln!(
        text,
        "{file} is held by another process, or can't be held; nothing was sent"
    )
}

/// What is said of a file that can't be held.
pub fn held_text(alloc: Global, file: &str) -> Result<String, AllocError> {
    let mut text = String::new(alloc);
    push_held(&mut text, file)?;
    Ok(text)
}

/// What is said where a request goes on SMBus, and no port of that is known.
pub fn port_text(alloc: Global, what: &str) -> Result<String, AllocError> {
    format!(in alloc;
        "{what} has a request on smbus, and no port of smbus is given: P1; nothing was sent\n"
    )
}
