//! Steps on effecters.
use crate::plan_texts::push_number;
use record_base::{FieldChange, NumericBytes, SetNumericEffecter, SetStateEffecter};
use std::alloc::AllocError;

/// The code of a size that has a sign.
fn is_signed(size: u8) -> bool {
    size % 2 == 1
}

/// The number of these bytes, with a sign or without.
fn number_of(size: u8, value: &NumericBytes) -> i64 {
    match (is_signed(size), value) {
        (false, NumericBytes::One(a)) => i64::from(*a),
        (true, NumericBytes::One(a)) => i64::from(i8::from_le_bytes([*a])),
        (false, NumericBytes::Two(a, b)) => i64::from(u16::from_le_bytes([*a, *b])),
        (true, NumericBytes::Two(a, b)) => i64::from(i16::from_le_bytes([*a, *b])),
        (false, NumericBytes::Four(a, b, c, d)) => {
            i64::from(u32::from_le_bytes([*a, *b, *c, *d]))
        }
        (true, NumericBytes::Four(a, b, c, d)) => i64::from(i32::from_le_bytes([*a, *b, *c, *d])),
        (_, NumericBytes::Other) => 0,
    }
}

/// Adds the fields of a step that sets the value of a numeric effecter.
pub(crate) fn push_numeric(text: &mut String, set: &SetNumericEffecter) -> Result<(), AllocError> {
    push_number(text, "effecter", u64::from(set.effecter))?;
    push_number(text, "size", u64::from(set.size))?;
    let number = number_of(set.size, &set.value);
    writeln!(text, "value = {number}")
}

/// Adds what becomes of a field.
fn push_change(text: &mut String, change: &FieldChange) -> Result<(), AllocError> {
    if change.choice == 0 {
        text.push_str("-1")
    } else {
        write!(text, "{}", change.state)
    }
}

/// Adds the fields of a step that sets states of a state effecter.
pub(crate) fn push_states(text: &mut String, set: &SetStateEffecter) -> Result<(), AllocError> {
    push_number(text, "effecter", u64::from(set.effecter))?;
    text.push_str("states = [")?;
    for (place, change) in set.changes.as_slice().iter().enumerate() {
        if place > 0 {
            text.push_str(", ")?;
        }
        push_change(text, change)?;
    }
    text.push_str("]\n")
}
