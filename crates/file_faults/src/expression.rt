//! The expressions of a TOML text: heads of tables and of arrays' items, and keys with their values.
ghost use Rattle.std.specs.Prelude.{◌≡◌, ◌≤◌, IfOk, IfSome, IsTrue, length, true};
ghost use Rattle.toml_parser.specs.Reading.{key_view};
ghost use Rattle.file_faults.specs.Places.{names, IsExpressionIn};

use crate::value::{after_line, after_value};
use std::alloc::{AllocError, Global};
use toml_parser::text::{first, skip, skip_blank, skip_ws};
use toml_parser::{Key, ParseError, dotted_key};

/// A key of a text, of a head or of a pair.
#[derive(Drop)]
pub(crate) struct Expression {
    pub key: Key,
    /// The offset of the key in the text.
    pub place: usize,
    /// The offset of what follows the key.
    pub behind: usize,
    /// Whether it is the key of a head.
    pub is_head: bool,
}

/// Whether a key's first part is the word.
pub(crate) fn begins_with(key: &Key, word: &str) -> bool
    ensures { IsTrue result → names word.now (key_view key.now) ≡ true }
{
    match key.path.as_slice() {
        [part, ..] => part.as_str() == word,
        [] => key.last.as_str() == word,
    }
}

/// Whether a key's last part is the word.
pub(crate) fn ends_with(key: &Key, word: &str) -> bool
    ensures { IsTrue result → names word.now (key_view key.now) ≡ true }
{
    key.last.as_str() == word
}

/// What follows the brackets of a head and the white space behind them.
fn in_head(text: &str) -> &str
    ensures { length result.now ≤ length text.now }
{
    if first(text) != b'[' {
        return text;
    }
    let inner = skip(text, 1);
    if first(inner) == b'[' {
        skip_ws(skip(inner, 1))
    } else {
        skip_ws(inner)
    }
}

/// The key at this offset.
fn key_at(
    alloc: Global,
    text: &str,
    place: usize,
    is_head: bool,
) -> Result<Option<Expression>, AllocError>
    ensures { IfOk result (λ found. IfSome found (IsExpressionIn text.now)) }
{
    let Some((_before, there)) = text.split_at_checked(place) else {
        return Ok(None);
    };
    match dotted_key(alloc, there) {
        Ok((key, rest)) => Ok(Some(Expression {
            key,
            place,
            behind: text.len() - rest.len(),
            is_head,
        })),
        Err(ParseError::OutOfMemory) => Err(AllocError),
        Err(ParseError::At(..)) => Ok(None),
    }
}

/// The first expression from this offset on. There is none at the end, and where the text is no TOML.
pub(crate) fn next_expression(
    alloc: Global,
    text: &str,
    from: usize,
) -> Result<Option<Expression>, AllocError>
    ensures { IfOk result (λ found. IfSome found (IsExpressionIn text.now)) }
{
    let Some((_before, rest)) = text.split_at_checked(from) else {
        return Ok(None);
    };
    let start = skip_blank(rest, true);
    let is_head = first(start) == b'[';
    let place = text.len() - in_head(start).len();
    key_at(alloc, text, place, is_head)
}

/// The offset of what follows the expression and the line in which it ends.
pub(crate) fn behind(
    alloc: Global,
    text: &str,
    expression: &Expression,
) -> Result<Option<usize>, AllocError> {
    let Some((_before, rest)) = text.split_at_checked(expression.behind) else {
        return Ok(None);
    };
    if expression.is_head {
        return Ok(Some(text.len().saturating_sub(after_line(rest).len())));
    }
    if first(rest) != b'=' {
        return Ok(None);
    }
    match after_value(alloc, skip(rest, 1))? {
        Some(rest) => Ok(Some(text.len().saturating_sub(after_line(rest).len()))),
        None => Ok(None),
    }
}
