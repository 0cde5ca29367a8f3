//! What `bmcnet preview` says of the steps of a plan, in words.
use crate::foreseeing::Foreseen;
use crate::outlooks::Outlook;
use crate::previewing::is_barred;
use app_apply::sentences::push_code;
use record_base::{Asked, Op, RecordKind};
use record_kinds::Limits;
use record_words::{RecordName, Way, op_in_words, push_named};
use report_words::Names;
use shown_records::Meaning;
use std::alloc::{AllocError, Global};
use two_wire::Bus;
use undo_plans::Steps;

/// Whether the step would change its record.
fn would_change(outlook: &Outlook) -> bool {
    match outlook {
        Outlook::Foreseen(foreseen) => foreseen.meaning == Meaning::Changes,
        Outlook::Refused(_) => false,
    }
}

/// Whether its record has already what the step would make of it.
fn would_stay(outlook: &Outlook) -> bool {
    match outlook {
        Outlook::Foreseen(foreseen) => foreseen.meaning == Meaning::Same,
        Outlook::Refused(_) => false,
    }
}

/// The bus on which the Get of a step's record goes.
pub(crate) fn bus_of_get(op: &Op<'_>) -> Bus {
    match Limits::get_asked(&Limits::key(op)) {
        Asked::Ipmi { .. } => Bus::Ipmb,
        Asked::Pldm { .. } => Bus::Smbus,
    }
}

/// Adds what a step would do over what the steps before it leave.
pub(crate) fn push_change<'a>(
    text: &mut String,
    op: &Op<'a>,
    before: &'a [u8],
) -> Result<(), AllocError> {
    let back = Limits::inverse(op, before);
    write!(text, "{}", op_in_words(Way::There, op, back.as_ref()))
}

/// Adds the name of a step's record, with that of its sensor or attribute.
fn push_record(
    alloc: Global,
    text: &mut String,
    op: &Op<'_>,
    names: &Names,
) -> Result<(), AllocError> {
    let key = Limits::key(op);
    let said = format!(in alloc; "{}", RecordName(key))?;
    push_named(alloc, text, &key, names.of(&key), said.as_str())
}

/// Adds what a step leaves as it is.
pub(crate) fn push_same(text: &mut String, op: &Op<'_>) -> Result<(), AllocError> {
    write!(text, "{}", op_in_words(Way::There, op, None))
}

/// Adds what is said of a step's record, with the name of its sensor or attribute.
fn push_said(
    alloc: Global,
    text: &mut String,
    op: &Op<'_>,
    names: &Names,
    said: &str,
) -> Result<(), AllocError> {
    let key = Limits::key(op);
    push_named(alloc, text, &key, names.of(&key), said)
}

/// Adds what a step would make of what the steps before it leave.
fn push_foreseen(
    alloc: Global,
    text: &mut String,
    op: &Op<'_>,
    foreseen: &Foreseen,
    names: &Names,
) -> Result<(), AllocError> {
    let mut said = String::new(alloc);
    match foreseen.meaning {
        Meaning::Changes => push_change(&mut said, &*op, foreseen.before.as_slice())?,
        Meaning::Same => {
            text.push_str("same: ")?;
            push_same(&mut said, op)?;
        }
        Meaning::NotRestorable => {
            text.push_str("can't be taken back: ")?;
            push_record(alloc, text, op, names)?;
            return text.push_str(" has a value that no request brings back");
        }
    }
    push_said(alloc, text, op, names, said.as_str())
}

/// Adds what is told of a step.
fn push_outlook(
    alloc: Global,
    text: &mut String,
    op: &Op<'_>,
    outlook: &Outlook,
    names: &Names,
) -> Result<(), AllocError> {
    match outlook {
        Outlook::Foreseen(foreseen) => push_foreseen(alloc, text, op, foreseen, names),
        Outlook::Refused(code) => {
            text.push_str("refused: ")?;
            push_record(alloc, text, op, names)?;
            text.push_str(" can't be read ")?;
            push_code(text, bus_of_get(op), *code)
        }
    }
}

/// Adds the line of a step: which it is, and what is told of it.
fn push_line(
    alloc: Global,
    text: &mut String,
    place: usize,
    op: &Op<'_>,
    outlook: &Outlook,
    names: &Names,
) -> Result<(), AllocError> {
    let number = place as u128 + 1;
    write!(text, "step {number}: ")?;
    push_outlook(alloc, text, op, outlook, names)?;
    text.push_str("\n")
}

/// Adds how many of the steps would do what, and what isn't known of any.
fn push_counts(text: &mut String, outlooks: &[Outlook]) -> Result<(), AllocError> {
    let changes = outlooks.iter().filter(|one| would_change(one)).count();
    let same = outlooks.iter().filter(|one| would_stay(one)).count();
    let barred = outlooks.iter().filter(|one| is_barred(one)).count();
    let steps = if changes == 1 { "step" } else { "steps" };
    writeln!(
        text,
        "{changes} {steps} would change something, {same} nothing, {barred} can't be done; whether the controller takes a change isn't known before it is sent"
    )
}

/// What is said of the steps of a plan: a line of each, with the names of sensors and attributes that are known, and one of all.
pub fn outlooks_text(
    alloc: Global,
    steps: &Steps,
    outlooks: &[Outlook],
    names: &Names,
) -> Result<String, AllocError> {
    let mut text = String::new(alloc);
    for place in 0..outlooks.len() {
        let (Some(op), Some(outlook)) = (steps.get(place), outlooks.get(place)) else {
            return Ok(text);
        };
        push_line(alloc, &mut text, place, &op, outlook, names)?;
    }
    push_counts(&mut text, outlooks)?;
    Ok(text)
}
