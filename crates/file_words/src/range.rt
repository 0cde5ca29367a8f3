//! What a field can hold.
use crate::lists::push_lists;
use crate::numbers::push_numbers;
use crate::texts::push_texts;
use std::alloc::AllocError;
use text_fields::Shape;
use toml::Table;

/// Adds what a field of this shape can hold in the item, in words.
pub fn push_range(text: &mut String, shape: &Shape, item: &Table) -> Result<(), AllocError> {
    if push_numbers(text, shape, item)? || push_texts(text, shape, item)? {
        return Ok(());
    }
    push_lists(text, shape, item)?;
    Ok(())
}
