//! What `bmcnet revert --preview` says: what would be taken back, in the order in which its requests would be sent.
use app_apply::sentences::push_open;
use record_words::undo_in_words;
use std::alloc::{AllocError, Global};
use undo_core::Manager;
use undo_plans::{KeptStage, KeptTask, UndoRequest};

/// How many requests of the manager's list are still to be sent, from the first on. The last of them is the one that is sent first.
pub(crate) fn left_of(manager: &Manager) -> usize {
    match manager.journal().stage {
        KeptStage::Undone => 0,
        KeptStage::UndoRefused(place, _) => place.saturating_add(1),
        KeptStage::Open {
            task: KeptTask::Undo(place),
            ..
        } => place.saturating_add(1),
        _ => manager.undo_list().requests.len(),
    }
}

/// Whether a request of the manager is open.
pub(crate) fn has_open(manager: &Manager) -> bool {
    matches!(manager.journal().stage, KeptStage::Open { .. })
}

/// Whether there is something to take back, where so many requests of its list are still to be sent.
pub(crate) fn has_something(manager: &Manager, count: usize) -> bool {
    count > 0 || manager.journal().waiting().is_some()
}

/// The number, counted from 1, of the step whose Set is open.
pub(crate) fn number_in_doubt(manager: &Manager) -> u128 {
    manager.undo_list().requests.len() as u128 + 1
}

/// Adds the line of what takes back the step of this number.
fn push_line(
    text: &mut String,
    number: u128,
    doubt: &str,
    request: &UndoRequest<'_>,
) -> Result<(), AllocError> {
    writeln!(text, "step {number}{doubt}: {}", undo_in_words(request))
}

/// Adds what isn't known, and what takes back the step whose Set is open.
fn push_doubt(text: &mut String, manager: &Manager) -> Result<(), AllocError> {
    if !has_open(manager) {
        return Ok(());
    }
    push_open(text, manager)?;
    text.push_str("\n")?;
    match manager.journal().waiting() {
        Some(request) => push_line(text, number_in_doubt(manager), ", if it was set", &request),
        None => Ok(()),
    }
}

/// Adds a line for each request of the list that is still to be sent, from the last to the first.
fn push_listed(text: &mut String, manager: &Manager, count: usize) -> Result<(), AllocError> {
    let requests = &manager.undo_list().requests;
    for at in 0..count {
        let place = count - 1 - at;
        let Some(request) = requests.get(place) else {
            return Ok(());
        };
        push_line(text, place as u128 + 1, "", &request)?;
    }
    Ok(())
}

/// Adds how many steps would be taken back.
fn push_count(text: &mut String, manager: &Manager, count: usize) -> Result<(), AllocError> {
    match count {
        1 => text.push_str("to be taken back: 1 step")?,
        _ => write!(text, "to be taken back: {count} steps")?,
    }
    if manager.journal().waiting().is_some() {
        let number = number_in_doubt(manager);
        write!(text, ", and step {number} if it was set")?;
    }
    text.push_str("; nothing was sent\n")
}

/// Adds what would be taken back in all.
fn push_end(
    text: &mut String,
    file: &str,
    manager: &Manager,
    count: usize,
) -> Result<(), AllocError> {
    if has_something(manager, count) {
        push_count(text, manager, count)
    } else {
        writeln!(text, "{file} has nothing to take back; nothing was sent")
    }
}

/// What is said of what a manager would take back that is made of FILE.
pub fn foretell_text(alloc: Global, file: &str, manager: &Manager) -> Result<String, AllocError> {
    let mut text = String::new(alloc);
    let count = left_of(manager);
    push_doubt(&mut text, manager)?;
    push_listed(&mut text, manager, count)?;
    push_end(&mut text, file, manager, count)?;
    Ok(text)
}
