//! What is said with `--json`: one object in a line.
use record_base::Key;
use report_words::Names;
use serde::Serialize;
use std::alloc::{AllocError, Global};

/// Why a call is refused.
#[derive(Drop, Serialize)]
struct RefusalObject<'a> {
    outcome: &'static str,
    /// What is wrong, a text for each line.
    why: Vec<&'a str>,
}

/// The line of an object.
pub fn object_line<T: Serialize>(alloc: Global, object: &T) -> Result<String, AllocError> {
    let Ok(mut text) = serde_json::to_string(alloc, object) else {
        return Err(AllocError);
    };
    text.push_str("\n")?;
    Ok(text)
}

/// The name of the record's sensor or attribute, where it is among these names. Each of its bytes is a character of Latin 1.
pub fn name_of(alloc: Global, names: &Names, key: &Key) -> Result<Option<String>, AllocError> {
    let Some(name) = names.of(key) else {
        return Ok(None);
    };
    let mut text = String::new(alloc);
    for byte in name {
        text.push(char::from(*byte))?;
    }
    Ok(Some(text))
}

/// The lines of a text.
fn lines_of<'a>(alloc: Global, text: &'a str) -> Result<Vec<&'a str>, AllocError> {
    let mut lines = Vec::new(alloc);
    for line in text.lines() {
        lines.push(line)?;
    }
    Ok(lines)
}

/// What is said of a call that is refused for what these lines say. The members of the object: `outcome`, which is `refused`, and `why`, a text for each line.
pub fn refusal_json(alloc: Global, why: &str) -> Result<String, AllocError> {
    let object = RefusalObject {
        outcome: "refused",
        why: lines_of(alloc, why)?,
    };
    object_line(alloc, &object)
}
