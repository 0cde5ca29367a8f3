//! What a field that has a number can hold.
use record_base::NumericSize;
use record_base::user_sizes::{LEAST_PRIVILEGE, MOST_MODE, MOST_PRIVILEGE, NO_ACCESS};
use std::alloc::AllocError;
use text_fields::numeric::size_in;
use text_fields::tree::number;
use text_fields::{Field, Shape};
use toml::Table;

/// The least number of a size and the greatest.
fn ends_of(size: NumericSize) -> (i64, i64) {
    match size {
        NumericSize::U8 => (0, 0xFF),
        NumericSize::S8 => (-0x80, 0x7F),
        NumericSize::U16 => (0, 0xFFFF),
        NumericSize::S16 => (-0x8000, 0x7FFF),
        NumericSize::U32 => (0, 0xFFFF_FFFF),
        NumericSize::S32 => (-0x8000_0000, 0x7FFF_FFFF),
    }
}

/// Adds the numbers of the size that the item names.
fn push_sized(text: &mut String, item: &Table) -> Result<(), AllocError> {
    match size_in(item) {
        Some(size) => {
            let (least, most) = ends_of(size);
            write!(text, "a number from {least} to {most}, as size says")
        }
        None => text.push_str("a number of the size that size names"),
    }
}

/// Adds the number that the item has in the field, or the field's word where it has none.
fn push_number_in(text: &mut String, item: &Table, field: Field) -> Result<(), AllocError> {
    match number(item, field) {
        Some(number) => write!(text, "{field}, {number}"),
        None => write!(text, "{field}"),
    }
}

/// Adds the range of an attribute's number: between its bounds, by its steps.
fn push_stepped(text: &mut String, item: &Table) -> Result<(), AllocError> {
    text.push_str("a number from ")?;
    push_number_in(text, item, Field::Lower)?;
    text.push_str(", to ")?;
    push_number_in(text, item, Field::Upper)?;
    text.push_str(", by steps of ")?;
    push_number_in(text, item, Field::Increment)
}

/// Adds what a mask of events can have.
fn push_events(text: &mut String, item: &Table) -> Result<(), AllocError> {
    text.push_str("a number that has no bit but those of ")?;
    push_number_in(text, item, Field::Supported)
}

/// Adds the range of a number that rests on other fields of the item, and whether it is one.
fn push_dependent(text: &mut String, shape: &Shape, item: &Table) -> Result<bool, AllocError> {
    match shape {
        Shape::Events => push_events(text, item)?,
        Shape::Sized => push_sized(text, item)?,
        Shape::Upper => {
            push_sized(text, item)?;
            text.push_str(", and not below lower")?;
        }
        Shape::Current => {
            push_sized(text, item)?;
            text.push_str(", from lower to upper")?;
        }
        Shape::UpperNatural => {
            text.push_str("a number from ")?;
            push_number_in(text, item, Field::Lower)?;
            text.push_str(", on")?;
        }
        Shape::Stepped => push_stepped(text, item)?,
        _ => return Ok(false),
    }
    Ok(true)
}

/// Adds what a field of this shape can hold, and whether it has a number.
pub(crate) fn push_numbers(
    text: &mut String,
    shape: &Shape,
    item: &Table,
) -> Result<bool, AllocError> {
    match shape {
        Shape::Number(least, most) if *most == least.saturating_add(1) => write!(
            text,
            "{least} or {most}"
        )?,
        Shape::Number(least, most) => write!(text, "a number from {least} to {most}")?,
        Shape::Digits => {
            text.push_str("two decimal digits in a byte, the tens in its upper half, as 0x23")?;
        }
        Shape::Enables => text.push_str("a number from 0 to 255 whose bit 4 is clear")?,
        Shape::Flags => text.push_str("0, 0x40, 0x80 or 0xC0")?,
        Shape::Natural => text.push_str("a number from 0 on")?,
        Shape::UserLimit => {
            write!(
                text,
                "a number from {LEAST_PRIVILEGE} to {MOST_PRIVILEGE}, or {NO_ACCESS}"
            )?;
        }
        Shape::Access => {
            write!(
                text,
                "a number from 0 to 63 whose bits 2:0 are at most {MOST_MODE}"
            )?;
        }
        Shape::ChannelNumber => text.push_str("a number from 0 to 11, or 15")?,
        other => return push_dependent(text, other, item),
    }
    Ok(true)
}
