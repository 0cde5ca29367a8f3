//! What stands in a field.
use crate::escape::push_escaped;
use std::alloc::AllocError;
use toml::Value;

/// How many bytes of a text are shown.
const MOST_SHOWN: usize = 60;

/// How many members of a list are shown.
const MOST_MEMBERS: usize = 8;

/// The front of a text, of at most so many bytes, which ends where a character does.
fn front(text: &str) -> &str {
    match text.split_at_checked(text.floor_char_boundary(MOST_SHOWN)) {
        Some((front, _rest)) => front,
        None => "",
    }
}

/// Adds a text in quotes, or its front and how long it is.
fn push_text(text: &mut String, value: &str) -> Result<(), AllocError> {
    let front = front(value);
    text.push_str("\"")?;
    push_escaped(text, front)?;
    text.push_str("\"")?;
    if front.len() == value.len() {
        return Ok(());
    }
    write!(text, " .. ({} bytes)", value.len())
}

/// Adds a value. Of a list and of a table it says only what it is.
fn push_one(text: &mut String, value: &Value) -> Result<(), AllocError> {
    match value {
        Value::String(value) => push_text(text, value.as_str()),
        Value::Integer(number) => write!(text, "{number}"),
        Value::Boolean(flag) => write!(text, "{flag}"),
        Value::Float(_) => text.push_str("a number with a fraction"),
        Value::Datetime(_) => text.push_str("a date or time"),
        Value::Array(members) => write!(text, "a list of {}", members.len()),
        Value::Table(_) => text.push_str("a table"),
    }
}

/// Adds the members of a list, with commas between them.
fn push_members(text: &mut String, values: &[Value]) -> Result<(), AllocError> {
    for (place, value) in values.iter().enumerate() {
        if place > 0 {
            text.push_str(", ")?;
        }
        if place == MOST_MEMBERS {
            return write!(text, ".. ({} in all)", values.len());
        }
        push_one(text, value)?;
    }
    Ok(())
}

/// Adds a value as it stands in a file, on one line and as printable ASCII: of a long text or list its front and how long it is.
pub fn push_value(text: &mut String, value: &Value) -> Result<(), AllocError> {
    match value.as_array() {
        Some(members) => {
            text.push_str("[")?;
            push_members(text, members.as_slice())?;
            text.push_str("]")
        }
        None => push_one(text, value),
    }
}
