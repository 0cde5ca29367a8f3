//! What `bmcnet show --json` says of a backup: an object in a line of each record and of each remark.
use crate::backup::{Backup, Remark};
use crate::texts::push_why;
use record_base::{Op, RecordKind};
use record_kinds::Limits;
use record_words::{RecordName, Way, op_in_words};
use serde::Serialize;
use std::alloc::{AllocError, Global};
use undo_plans::Steps;

/// What is told of a record. A member of which there is nothing to say is left out.
#[derive(Drop, Serialize)]
struct RecordObject {
    /// The record.
    record: String,
    /// What it is set to.
    #[serde(skip_serializing_if = "Option::is_none")]
    is: Option<String>,
    /// Why no step sets it to what it is.
    #[serde(skip_serializing_if = "Option::is_none")]
    remark: Option<String>,
}

/// Adds an object, as a line.
fn push_object(alloc: Global, text: &mut String, object: &RecordObject) -> Result<(), AllocError> {
    let Ok(line) = serde_json::to_string(alloc, object) else {
        return Err(AllocError);
    };
    text.push_str(line.as_str())?;
    text.push_str("\n")
}

/// The object of the record that this operation sets to what it is.
fn set_object(alloc: Global, op: &Op<'_>) -> Result<RecordObject, AllocError> {
    let record = format!(in alloc; "{}", RecordName(Limits::key(op)))?;
    let is = format!(in alloc; "{}", op_in_words(Way::There, op, None))?;
    Ok(RecordObject {
        record,
        is: Some(is),
        remark: None,
    })
}

/// The object of a remark.
fn remark_object(alloc: Global, remark: &Remark) -> Result<RecordObject, AllocError> {
    let record = format!(in alloc; "{}", RecordName(remark.key))?;
    let mut why = String::new(alloc);
    push_why(&mut why, remark)?;
    Ok(RecordObject {
        record,
        is: None,
        remark: Some(why),
    })
}

/// Adds the objects of the records that these steps set to what they are.
fn push_steps(alloc: Global, text: &mut String, steps: &Steps) -> Result<(), AllocError> {
    for place in 0..steps.len() {
        if let Some(op) = steps.get(place) {
            let object = set_object(alloc, &op)?;
            push_object(alloc, text, &object)?;
        }
    }
    Ok(())
}

/// Adds the objects of these remarks.
fn push_remarks(alloc: Global, text: &mut String, remarks: &[Remark]) -> Result<(), AllocError> {
    for place in 0..remarks.len() {
        let object = remark_object(alloc, &remarks[place])?;
        push_object(alloc, text, &object)?;
    }
    Ok(())
}

/// What is said of a backup, as an object in a line of each record and behind them of each remark. Its members: `record`; `is`, what it is set to, of a
/// record that a step sets to that; and else `remark`, why none does.
pub fn backup_json(alloc: Global, backup: &Backup) -> Result<String, AllocError> {
    let mut text = String::new(alloc);
    let full = backup.full.as_slice();
    for place in 0..full.len() {
        push_steps(alloc, &mut text, &full[place])?;
    }
    push_steps(alloc, &mut text, &backup.last)?;
    push_remarks(alloc, &mut text, backup.remarks.as_slice())?;
    Ok(text)
}

/// The same, as the only text of a list.
pub(crate) fn only_text(alloc: Global, backup: &Backup) -> Result<Vec<String>, AllocError> {
    let text = backup_json(alloc, backup)?;
    let mut texts = Vec::new(alloc);
    texts.push(text)?;
    Ok(texts)
}
