//! What stories and tests have in common: a line's first word, bytes as words, and that all comes as told.
use super::scene::Wire;
use std::alloc::Global;
use std::fmt::{Debug, Display};
use std::process::Abort;
use stories::{NoOutcome, report_of};
use two_wire::Bytes;

/// The first word, and the words behind it.
pub fn parted(words: &str) -> (&str, &str) {
    words.split_once(' ').unwrap_or((words, ""))
}

/// Appends the bytes of words of two hexadecimal digits.
pub fn push_words(bytes: &mut Vec<u8>, words: &str) -> Result<(), NoOutcome> {
    for word in words.split_whitespace() {
        bytes.extend_from_slice(&[u8::from_str_radix(word, 16)?])?;
    }
    Ok(())
}

/// The bytes of such words.
pub fn bytes_of(alloc: Global, words: &str) -> Result<Vec<u8>, NoOutcome> {
    let mut bytes = Vec::new(alloc);
    push_words(&mut bytes, words)?;
    Ok(bytes)
}

/// Appends the word.
pub fn push_word(text: &mut String, word: &impl Display) -> Result<(), NoOutcome> {
    write!(text, " {word}")?;
    Ok(())
}

/// Appends the byte as a word of two hexadecimal digits.
pub fn push_byte(text: &mut String, byte: u8) -> Result<(), NoOutcome> {
    write!(text, " {byte:02X}")?;
    Ok(())
}

/// Appends the bytes as such words.
pub fn push_bytes(text: &mut String, bytes: &[u8]) -> Result<(), NoOutcome> {
    for byte in bytes {
        push_byte(text, *byte)?;
    }
    Ok(())
}

/// Appends what the bytes are, and the bytes.
pub fn push_named(text: &mut String, name: &str, bytes: &[u8]) -> Result<(), NoOutcome> {
    text.push_str(name)?;
    push_bytes(text, bytes)
}

/// Appends how a message is written, where that isn't these bytes.
pub fn push_other<const CAP: usize>(
    written: Bytes<CAP>,
    bytes: &[u8],
    text: &mut String,
) -> Result<(), NoOutcome> {
    if written.is(bytes) {
        return Ok(());
    }
    push_named(text, " written", written.as_slice())
}

/// This is said of the stories of the text.
pub fn expect_report(rt: &impl Abort, alloc: Global, text: &str, report: &str) {
    let said = report_of::<Wire>(alloc, text).expect(rt, "memory");
    expect_equal(rt, said.as_str(), report);
}

/// All comes as the stories of the text tell.
pub fn expect_told(rt: &impl Abort, alloc: Global, text: &str) {
    expect_report(rt, alloc, text, "");
}

/// The value is the one that is wanted.
pub fn expect_equal<T: Copy + Debug + PartialEq>(rt: &impl Abort, value: T, wanted: T) {
    assert_eq!(rt; value, wanted);
}
