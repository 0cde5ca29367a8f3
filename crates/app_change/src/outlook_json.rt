//! What `bmcnet preview --json` says of the steps of a plan: an object in a line of each.
use crate::outlook_text::{bus_of_get, push_change, push_same};
use crate::outlooks::Outlook;
use app_apply::objects::name_of;
use record_base::{Op, RecordKind};
use record_kinds::Limits;
use record_words::RecordName;
use report_words::{Names, code_row};
use serde::Serialize;
use shown_records::Meaning;
use std::alloc::{AllocError, Global};
use undo_plans::Steps;

/// What is told of a step. A member of which there is nothing to say is left out.
#[derive(Drop, Serialize)]
struct OutlookObject {
    /// The step, counted from 1.
    step: u128,
    /// The record that it is on.
    record: String,
    /// The name of that record's sensor or attribute.
    #[serde(skip_serializing_if = "Option::is_none")]
    name: Option<String>,
    /// What it would make of that, in a word.
    outlook: &'static str,
    /// What it would do.
    #[serde(skip_serializing_if = "Option::is_none")]
    does: Option<String>,
    /// The code by which the Get of the record was refused.
    #[serde(skip_serializing_if = "Option::is_none")]
    code: Option<u8>,
    /// What the standard calls that code.
    #[serde(skip_serializing_if = "Option::is_none")]
    meaning: Option<&'static str>,
}

/// The word of what a step would make of its record.
fn outlook_word(outlook: &Outlook) -> &'static str {
    match outlook {
        Outlook::Foreseen(foreseen) => match foreseen.meaning {
            Meaning::Changes => "changes",
            Meaning::Same => "same",
            Meaning::NotRestorable => "not restorable",
        },
        Outlook::Refused(_) => "get refused",
    }
}

/// What a step would do, where it can be done.
fn does_of(alloc: Global, op: &Op<'_>, outlook: &Outlook) -> Result<Option<String>, AllocError> {
    let Outlook::Foreseen(foreseen) = outlook else {
        return Ok(None);
    };
    let mut text = String::new(alloc);
    match foreseen.meaning {
        Meaning::Changes => push_change(&mut text, op, foreseen.before.as_slice())?,
        Meaning::Same => push_same(&mut text, op)?,
        Meaning::NotRestorable => return Ok(None),
    }
    Ok(Some(text))
}

/// The code by which the Get of a step's record was refused.
fn code_of(outlook: &Outlook) -> Option<u8> {
    match outlook {
        Outlook::Foreseen(_) => None,
        Outlook::Refused(code) => Some(code.value()),
    }
}

/// What the standard calls this code of a reply to the Get of a step's record.
fn meaning_of(op: &Op<'_>, code: Option<u8>) -> Option<&'static str> {
    let Some(code) = code else {
        return None;
    };
    match code_row(bus_of_get(op), code) {
        Some(row) => Some(row.name),
        None => None,
    }
}

/// The object of a step.
fn object_of(
    alloc: Global,
    place: usize,
    op: &Op<'_>,
    outlook: &Outlook,
    names: &Names,
) -> Result<OutlookObject, AllocError> {
    let key = Limits::key(op);
    let record = format!(in alloc; "{}", RecordName(key))?;
    let name = name_of(alloc, names, &key)?;
    let does = does_of(alloc, op, outlook)?;
    let code = code_of(outlook);
    Ok(OutlookObject {
        step: place as u128 + 1,
        record,
        name,
        outlook: outlook_word(outlook),
        does,
        code,
        meaning: meaning_of(op, code),
    })
}

/// Adds the object of a step, as a line.
fn push_object(
    alloc: Global,
    text: &mut String,
    place: usize,
    op: &Op<'_>,
    outlook: &Outlook,
    names: &Names,
) -> Result<(), AllocError> {
    let object = object_of(alloc, place, op, outlook, names)?;
    let Ok(line) = serde_json::to_string(alloc, &object) else {
        return Err(AllocError);
    };
    text.push_str(line.as_str())?;
    text.push_str("\n")
}

/// What is said of the steps of a plan, as an object in a line of each. Its members: `step`, from 1; `record`; `name`, that of the record's sensor or
/// attribute, where it is known; `outlook`, which is `changes`, `same`, `not restorable` or `get refused`; `does`, what the step would do, where it is
/// `changes` or `same`; and, of a Get that was refused, its `code` and the `meaning` of that.
pub fn outlooks_json(
    alloc: Global,
    steps: &Steps,
    outlooks: &[Outlook],
    names: &Names,
) -> Result<String, AllocError> {
    let mut text = String::new(alloc);
    for place in 0..outlooks.len() {
        let (Some(op), Some(outlook)) = (steps.get(place), outlooks.get(place)) else {
            return Ok(text);
        };
        push_object(alloc, &mut text, place, &op, outlook, names)?;
    }
    Ok(text)
}
