//! Fields as TOML has them.
use std::alloc::AllocError;

/// Adds a field with a number.
pub(crate) fn push_number(text: &mut String, key: &str, number: u64) -> Result<(), AllocError> {
    writeln!(text, "{key} = {number}")
}

/// Adds a field with a byte, by its hexadecimal digits.
pub(crate) fn push_byte(text: &mut String, key: &str, byte: u8) -> Result<(), AllocError> {
    writeln!(text, "{key} = 0x{byte:02X}")
}

/// Adds a field with a flag.
pub(crate) fn push_flag(text: &mut String, key: &str, flag: bool) -> Result<(), AllocError> {
    let word = if flag { "true" } else { "false" };
    writeln!(text, "{key} = {word}")
}

/// Adds a field with a word that needs no escape.
pub(crate) fn push_word(text: &mut String, key: &str, word: &str) -> Result<(), AllocError> {
    writeln!(text, "{key} = \"{word}\"")
}

/// Adds a field with a list of numbers.
pub(crate) fn push_list(text: &mut String, key: &str, bytes: &[u8]) -> Result<(), AllocError> {
    write!(text, "{key} = [")?;
    for (place, byte) in bytes.iter().enumerate() {
        if place > 0 {
            text.push_str(", ")?;
        }
        write!(text, "{byte}")?;
    }
    text.push_str("]\n")
}

/// Adds a character of a text.
fn push_char(text: &mut String, character: char) -> Result<(), AllocError> {
    match character {
        '"' => text.push_str("\\\""),
        '\\' => text.push_str("\\\\"),
        ' '..='~' => text.push(character),
        _ => write!(text, "\\U{:08X}", character as u32),
    }
}

/// Adds a field with a text. Bytes that are no UTF-8 can't be one: then the field is left out.
pub(crate) fn push_text(text: &mut String, key: &str, bytes: &[u8]) -> Result<(), AllocError> {
    let Ok(characters) = std::str::from_utf8(bytes) else {
        return Ok(());
    };
    write!(text, "{key} = \"")?;
    for character in characters.chars() {
        push_char(text, character)?;
    }
    text.push_str("\"\n")
}
