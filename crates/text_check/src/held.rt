//! What is told of a file that is read: what it holds.
use cfg_records::BoardFile;
use std::alloc::AllocError;
use undo_plans::Plan;

/// Adds how many there are, and what they are called.
fn push_count(text: &mut String, count: usize, called: &str) -> Result<(), AllocError> {
    if count == 1 {
        write!(text, ", 1 {called}")
    } else {
        write!(text, ", {count} {called}s")
    }
}

/// What each board file is told to hold: how many of each sort, and what they are called.
fn held_by(file: &BoardFile) -> [(usize, &'static str); 7] {
    let channels = file.channels.items.as_slice().len();
    let sessionless = file.sessionless.items.as_slice().len();
    [
        (file.sensors.items.as_slice().len(), "sensor"),
        (file.users.items.as_slice().len(), "user"),
        (channels.saturating_add(sessionless), "channel"),
        (file.attributes.items.as_slice().len(), "attribute"),
        (
            file.state_effecters.items.as_slice().len(),
            "state effecter",
        ),
        (
            file.numeric_effecters.items.as_slice().len(),
            "numeric effecter",
        ),
        (file.sdr.items.as_slice().len(), "sensor data record"),
    ]
}

/// Adds the front of the line of a file of a sort that holds these.
fn push_sort(
    text: &mut String,
    name: &str,
    sort: &str,
    held: &[(usize, &str)],
) -> Result<(), AllocError> {
    write!(text, "{name}: {sort}")?;
    for (count, called) in held {
        push_count(text, *count, called)?;
    }
    Ok(())
}

/// Adds the line of a file of a sort that holds so many of these.
pub(crate) fn push_held(
    text: &mut String,
    name: &str,
    sort: &str,
    count: usize,
    called: &str,
) -> Result<(), AllocError> {
    push_sort(text, name, sort, &[(count, called)])?;
    text.push_str("\n")
}

/// Adds the line of a board. LAN parameters are told where there are some.
pub(crate) fn push_board(
    text: &mut String,
    name: &str,
    file: &BoardFile,
) -> Result<(), AllocError> {
    push_sort(text, name, "board", &held_by(file))?;
    let lans = file.lans.items.as_slice().len();
    if lans > 0 {
        push_count(text, lans, "LAN channel")?;
    }
    text.push_str("\n")
}

/// Adds the line of a plan of so many steps, with so many retries.
pub fn push_steps(
    text: &mut String,
    name: &str,
    steps: usize,
    retries: u8,
) -> Result<(), AllocError> {
    push_sort(text, name, "plan", &[(steps, "step")])?;
    writeln!(text, ", retries {retries}")
}

/// Adds the line of a plan that isn't used any more.
pub(crate) fn push_plan(text: &mut String, name: &str, plan: Plan) -> Result<(), AllocError> {
    let steps = plan.steps.len();
    let retries = plan.retries.number();
    drop(plan);
    push_steps(text, name, steps, retries)
}
