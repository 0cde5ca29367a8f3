//! What stands behind a value.
ghost use Rattle.std.specs.Prelude.{◌≡◌, true};
ghost use Rattle.toml_parser.specs.Strings.{starts_string};

use std::alloc::{AllocError, Global};
use toml_parser::bytes::is_word;
use toml_parser::text::{first, skip, skip_blank};
use toml_parser::{ParseError, quoted, starts_string};

/// What follows the string at the front, if there is one.
fn after_string<'a>(alloc: Global, text: &'a str) -> Result<Option<&'a str>, AllocError>
    requires { starts_string text.now ≡ true }
{
    match quoted(alloc, text) {
        Ok((_text, rest)) => Ok(Some(rest)),
        Err(ParseError::OutOfMemory) => Err(AllocError),
        Err(ParseError::At(..)) => Ok(None),
    }
}

/// What follows the bytes at the front of which numbers, dates and bare keys are made, if there is one.
fn after_word(text: &str) -> Option<&str> {
    let size = text
        .as_bytes()
        .iter()
        .take_while(|byte| is_word(**byte))
        .count();
    match text.split_at_checked(size) {
        Some((_word, rest)) if size > 0 => Some(rest),
        _ => None,
    }
}

/// What follows the first token, of those of which values are made.
fn after_token<'a>(alloc: Global, text: &'a str) -> Result<Option<&'a str>, AllocError> {
    if starts_string(text) {
        return after_string(alloc, text);
    }
    match first(text) {
        b'[' | b']' | b'{' | b'}' | b',' | b'=' => Ok(Some(skip(text, 1))),
        _ => Ok(after_word(text)),
    }
}

/// How many brackets are open behind this byte, of so many before it.
fn open_behind(open: usize, byte: u8) -> usize {
    match byte {
        b'[' | b'{' => open.saturating_add(1),
        b']' | b'}' => open.saturating_sub(1),
        _ => open,
    }
}

/// What follows the value at the front, up to the end of a text that has none.
pub(crate) fn after_value<'a>(alloc: Global, text: &'a str) -> Result<Option<&'a str>, AllocError> {
    let mut rest = text;
    let mut open = 0;
    for _token in 0..text.len() {
        let start = skip_blank(rest, true);
        let Some(behind) = after_token(alloc, start)? else {
            return Ok(None);
        };
        open = open_behind(open, first(start));
        rest = behind;
        if open == 0 {
            return Ok(Some(rest));
        }
    }
    Ok(None)
}

/// What follows the line at the front, from its line feed on.
pub(crate) fn after_line(text: &str) -> &str {
    match text.split_once('\n') {
        Some((_line, rest)) => rest,
        None => "",
    }
}
