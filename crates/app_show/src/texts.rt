//! What is said of records in plans, and of the plans.
use crate::backup::{Remark, Why};
use crate::reading::bus_of;
use app_apply::Reach;
use app_apply::sentences::{push_code, push_unanswered};
use app_run::Unanswered;
use record_words::RecordName;
use shown_records::Unsaid;
use std::alloc::{AllocError, Global};

/// Which plan of how many, from 1 on.
#[derive(Clone, Copy)]
pub(crate) struct Part {
    pub number: usize,
    pub count: usize,
}

/// Why no operation sets a record to what its Get shows, in words.
fn unsaid_words(why: Unsaid) -> &'static str {
    match why {
        Unsaid::NoThreshold => "none of them can be read",
        Unsaid::FirstUser => "no request sets the first user's name",
        Unsaid::ReadOnly => "it can only be read",
        Unsaid::NotRestorable => "no request brings back what its Get shows",
    }
}

/// Adds why there is no step for a record.
pub(crate) fn push_why(text: &mut String, remark: &Remark) -> Result<(), AllocError> {
    match remark.why {
        Why::Unsaid(why) => text.push_str(unsaid_words(why)),
        Why::Unwritten => text.push_str("no step of a plan says what its Get shows"),
        Why::Unanswered => text.push_str("its Get wasn't answered"),
        Why::Refused(code) => {
            text.push_str("its Get is refused ")?;
            push_code(text, bus_of(&remark.key), code)
        }
    }
}

/// The lines of these remarks, behind an empty one.
pub(crate) fn remarks_text(alloc: Global, remarks: &[Remark]) -> Result<String, AllocError> {
    let mut text = String::new(alloc);
    for remark in remarks {
        if text.is_empty() {
            text.push_str("\n")?;
        }
        write!(text, "# {}: ", RecordName(remark.key))?;
        push_why(&mut text, remark)?;
        text.push_str("\n")?;
    }
    Ok(text)
}

/// Adds so many of these.
fn push_count(text: &mut String, count: usize, one: &str, more: &str) -> Result<(), AllocError> {
    match count {
        1 => write!(text, "1 {one}"),
        _ => write!(text, "{count} {more}"),
    }
}

/// The lines in front of a plan's steps.
pub(crate) fn front_text(alloc: Global, part: Part, steps: usize) -> Result<String, AllocError> {
    let mut text = String::from_str(alloc, "# What a controller's records were set to, ")?;
    if part.count > 1 {
        write!(text, "part {} of {}, ", part.number, part.count)?;
    }
    push_count(&mut text, steps, "record", "records")?;
    text.push_str(
        ". Of a sensor's events those are enabled that\n# were, and the others are left as they are: which of them a sensor has no Get shows.\n",
    )?;
    Ok(text)
}

/// What is said of all plans: how many records are in them, and how many remarks.
pub(crate) fn counts_text(
    alloc: Global,
    records: usize,
    plans: usize,
    remarks: usize,
) -> Result<String, AllocError> {
    let mut text = String::new(alloc);
    push_count(&mut text, records, "record", "records")?;
    text.push_str(" in ")?;
    push_count(&mut text, plans, "plan", "plans")?;
    text.push_str(", ")?;
    push_count(&mut text, remarks, "remark", "remarks")?;
    text.push_str("\n")?;
    Ok(text)
}

/// What is said of all objects: of how many records they tell, and how many remarks they have.
pub(crate) fn told_text(
    alloc: Global,
    records: usize,
    remarks: usize,
) -> Result<String, AllocError> {
    let mut text = String::new(alloc);
    push_count(&mut text, records, "record", "records")?;
    text.push_str(", ")?;
    push_count(&mut text, remarks, "remark", "remarks")?;
    text.push_str("\n")?;
    Ok(text)
}

/// What is said where a greeting isn't answered.
pub(crate) fn ungreeted_text(
    alloc: Global,
    why: Unanswered,
    reach: &Reach,
) -> Result<String, AllocError> {
    let mut text = String::new(alloc);
    push_unanswered(&mut text, why, reach)?;
    text.push_str("; nothing was read\n")?;
    Ok(text)
}

/// What is said where a link can't be had.
pub(crate) fn no_link_text(alloc: Global) -> Result<String, AllocError> {
    String::from_str(alloc, "no socket could be had; nothing was read\n")
}

/// What is said where as many Gets in a row weren't answered as end the reading.
pub(crate) fn silent_text(alloc: Global) -> Result<String, AllocError> {
    String::from_str(
        alloc,
        "no answer to three Gets in a row; nothing is shown\n",
    )
}

/// What is said where effecters are asked for, and no port of SMBus is given.
pub(crate) fn no_port_text(alloc: Global) -> Result<String, AllocError> {
    String::from_str(
        alloc,
        "effecters are read on smbus, and no port of smbus is given: P1; nothing was sent\n",
    )
}

/// What is said where objects are asked for, and files, too.
pub(crate) fn no_files_text(alloc: Global) -> Result<String, AllocError> {
    String::from_str(
        alloc,
        "--json goes without --out: standard output gets objects, or files get plans; nothing was sent\n",
    )
}

/// What is said where a plan's text isn't read back as its steps.
pub(crate) fn unwritten_text(alloc: Global) -> Result<String, AllocError> {
    String::from_str(
        alloc,
        "a plan's text isn't read back as its steps; nothing is shown\n",
    )
}

/// What is said of a file that is there.
pub(crate) fn taken_text(alloc: Global, name: &str) -> Result<String, AllocError> {
    format!(in alloc; "{name} is there, and isn't written over; no file was written\n")
}

/// What is said of a file that can't be written, behind so many that were.
pub(crate) fn unput_text(alloc: Global, name: &str, before: usize) -> Result<String, AllocError> {
    let mut text = format!(in alloc; "{name} can't be written")?;
    match before {
        0 => text.push_str("; no file was written\n")?,
        1 => text.push_str("; the file before it was\n")?,
        _ => writeln!(text, "; the {before} files before it were")?,
    }
    Ok(text)
}
