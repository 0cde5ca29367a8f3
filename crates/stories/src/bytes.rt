//! Bytes in hexadecimal, with blanks wherever they help to read.
use std::alloc::{AllocError, Global};

/// Appends the bytes of a word. Gives whether it stands for bytes.
fn push_word(alloc: Global, bytes: &mut Vec<u8>, word: &str) -> Result<bool, AllocError> {
    match text_lines::bytes(alloc, word)? {
        Some(part) => {
            let pushed = bytes.extend_from_slice(part.as_slice());
            drop(part);
            pushed?;
            Ok(true)
        }
        None => Ok(false),
    }
}

/// The bytes that the words stand for, if all of them do.
pub fn bytes_of(alloc: Global, words: &str) -> Result<Option<Vec<u8>>, AllocError> {
    let mut bytes = Vec::new(alloc);
    for word in words.split(' ') {
        if !push_word(alloc, &mut bytes, word)? {
            return Ok(None);
        }
    }
    Ok(Some(bytes))
}

/// Appends bytes in hexadecimal.
pub fn push_digits(alloc: Global, text: &mut String, bytes: &[u8]) -> Result<(), AllocError> {
    let digits = hex::encode_upper(alloc, bytes)?;
    text.push_str(digits.as_str())
}

/// Appends the word: its bytes, where it stands for bytes, and else as it is written.
fn push_plain(alloc: Global, text: &mut String, word: &str) -> Result<(), AllocError> {
    match text_lines::bytes(alloc, word)? {
        Some(bytes) => push_digits(alloc, text, bytes.as_slice()),
        None => text.push_str(word),
    }
}

/// The words in the one way of writing them that has no blanks and no lower-case digits.
fn plain(alloc: Global, words: &str) -> Result<String, AllocError> {
    let mut text = String::new(alloc);
    for word in words.split(' ') {
        push_plain(alloc, &mut text, word)?;
    }
    Ok(text)
}

/// Whether the plain text is the wanted one. What stands for `..` in its end is not looked at.
fn is_plain(found: &str, want: &str) -> bool {
    match want.strip_suffix("..") {
        Some(first) => found.starts_with(first),
        None => found == want,
    }
}

/// Whether what came is what was told, however the bytes in both are written.
pub fn is_told(alloc: Global, found: &str, want: &str) -> Result<bool, AllocError> {
    let found = plain(alloc, found)?;
    let want = plain(alloc, want)?;
    Ok(is_plain(found.as_str(), want.as_str()))
}
