//! What the lines of a journal are made of.
ghost use Rattle.std.specs.Prelude.{◌≡◌, ◌≢◌, ◌++◌, ◌∷◌, [], ◌<◌, ◌^◌, ℕ, List, IfOk, IfSome, IfNone, MatchOption};
ghost use Rattle.text_lines.specs.Cuts.{line_feed, LacksByte};
ghost use Rattle.text_lines.specs.UndoText.{BeginsWith};
ghost use Rattle.text_journal.specs.JournalLines.{number_line, numbers_line, IsBytesLine};

use std::alloc::{AllocError, Global};
use text_lines::{behind, bytes, first_line, first_word, plain_number};

/// What stands behind these words on the text's first line, and the text behind that line.
fn first_behind<'a>(words: &str, text: &'a str) -> Option<(&'a str, &'a str)>
    ensures some { IfSome result (λ found. LacksByte line_feed found.0.now
        × (text.now ≡ words.now ++ (found.0.now ++ line_feed ∷ found.1.now))) }
    ensures none { IfNone result ((line more : List ℕ) → LacksByte line_feed line
        → text.now ≢ words.now ++ (line ++ line_feed ∷ more)) }
{
    let Some(rest) = behind(words, text) else {
        return None;
    };
    first_line(rest)
}

/// The text behind its first line, where that is these words.
pub(crate) fn first_words<'a>(words: &str, text: &'a str) -> Option<&'a str>
    ensures some { IfSome result (λ rest.
        BeginsWith (λ line. line ≡ words.now) text.now rest.now) }
    ensures none { IfNone result ((more : List ℕ)
        → ¬ BeginsWith (λ line. line ≡ words.now) text.now more) }
{
    let Some(rest) = behind(words, text) else {
        return None;
    };
    behind("\n", rest)
}

/// The number behind these words on the text's first line, and the text behind that line.
pub(crate) fn first_number<'a>(words: &str, text: &'a str) -> Option<(u32, &'a str)>
    ensures some { IfSome result (λ found. (found.0 < 2 ^ 32)
        × BeginsWith (λ line. line ≡ number_line words.now found.0) text.now found.1.now) }
    ensures none { IfNone result ((more : List ℕ) (n : ℕ) → n < 2 ^ 32
        → ¬ BeginsWith (λ line. line ≡ number_line words.now n) text.now more) }
{
    let Some(found) = first_behind(words, text) else {
        return None;
    };
    match plain_number(found.0) {
        Some(number) => Some((number, found.1)),
        None => None,
    }
}

/// The two numbers that the words are, with a space between.
fn two_numbers(words: &str) -> Option<(u32, u32)>
    ensures some { IfSome result (λ found. (found.0 < 2 ^ 32) × (found.1 < 2 ^ 32)
        × (words.now ≡ numbers_line [] found.0 found.1)) }
    ensures none { IfNone result ((first second : ℕ) → first < 2 ^ 32 → second < 2 ^ 32
        → words.now ≢ numbers_line [] first second) }
{
    let Some(parts) = first_word(words) else {
        return None;
    };
    let Some(first) = plain_number(parts.0) else {
        return None;
    };
    match plain_number(parts.1) {
        Some(second) => Some((first, second)),
        None => None,
    }
}

/// The two numbers behind these words on the text's first line, and the text behind that line.
pub(crate) fn first_numbers<'a>(words: &str, text: &'a str) -> Option<((u32, u32), &'a str)>
    ensures some { IfSome result (λ found. (found.0.0 < 2 ^ 32) × (found.0.1 < 2 ^ 32)
        × BeginsWith (λ line. line ≡ numbers_line words.now found.0.0 found.0.1)
        text.now found.1.now) }
    ensures none { IfNone result ((more : List ℕ) (first second : ℕ)
        → first < 2 ^ 32 → second < 2 ^ 32
        → ¬ BeginsWith (λ line. line ≡ numbers_line words.now first second) text.now more) }
{
    let Some(found) = first_behind(words, text) else {
        return None;
    };
    match two_numbers(found.0) {
        Some(numbers) => Some((numbers, found.1)),
        None => None,
    }
}

/// The bytes behind these words on the text's first line, and the text behind that line.
pub(crate) fn first_bytes<'a>(
    alloc: Global,
    words: &str,
    text: &'a str,
) -> Result<Option<(Vec<u8>, &'a str)>, AllocError>
    ensures { IfOk result (λ found. MatchOption found
        ((more bytes : List ℕ)
        → ¬ BeginsWith (λ line. IsBytesLine words.now line bytes) text.now more)
        (λ it. BeginsWith (λ line. IsBytesLine words.now line it.0.items) text.now it.1.now)) }
{
    let Some(found) = first_behind(words, text) else {
        return Ok(None);
    };
    match bytes(alloc, found.0)? {
        Some(bytes) => Ok(Some((bytes, found.1))),
        None => Ok(None),
    }
}
