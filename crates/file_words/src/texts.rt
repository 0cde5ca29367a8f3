//! What a field that has a text, a flag or a table can hold.
use record_base::attribute_sizes::{MOST_NAME, MOST_TEXT};
use record_base::user_sizes::USER_NAME_SIZE;
use std::alloc::AllocError;
use text_fields::tree::number;
use text_fields::{Field, Shape};
use toml::Table;

/// Adds how long a text can be that is from the item's least length to its most.
fn push_sized_text(text: &mut String, item: &Table) -> Result<(), AllocError> {
    match (number(item, Field::Least), number(item, Field::Most)) {
        (Some(least), Some(most)) => {
            write!(
                text,
                "a text of {least} to {most} bytes, as least and most say"
            )
        }
        _ => text.push_str("a text of least to most bytes"),
    }
}

/// Adds what the most length of an item can be.
fn push_most(text: &mut String, item: &Table) -> Result<(), AllocError> {
    match number(item, Field::Least) {
        Some(least) => write!(text, "a number from least, {least}, to {MOST_TEXT}"),
        None => write!(text, "a number from least to {MOST_TEXT}"),
    }
}

/// Adds what a field of this shape can hold, and whether it is one of these.
pub(crate) fn push_texts(
    text: &mut String,
    shape: &Shape,
    item: &Table,
) -> Result<bool, AllocError> {
    match shape {
        Shape::Table => text.push_str("a table")?,
        Shape::Tables(most) => write!(text, "an array of at most {most} tables")?,
        Shape::Flag => text.push_str("true or false")?,
        Shape::Text => text.push_str("a text")?,
        Shape::Select => text.push_str("\"leave\", \"enable\" or \"disable\"")?,
        Shape::Store => text.push_str("\"non-volatile\" or \"volatile\"")?,
        Shape::AttributeKind => text.push_str("\"enumeration\", \"string\" or \"integer\"")?,
        Shape::Name => write!(text, "a text of at most {USER_NAME_SIZE} bytes")?,
        Shape::ShortText => write!(text, "a text of at most {MOST_NAME} bytes")?,
        Shape::AttributeText => {
            write!(
                text,
                "a text of at most {MOST_TEXT} bytes, and no number beside it"
            )?;
        }
        Shape::MostLength => push_most(text, item)?,
        Shape::SizedText => push_sized_text(text, item)?,
        _ => return Ok(false),
    }
    Ok(true)
}
