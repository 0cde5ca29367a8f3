//! The words of a line.
use crate::scene::NoOutcome;
use std::alloc::Global;

/// Appends the word, as often as a number behind its `*` says, each with a blank before it where something stands already.
fn push_word(text: &mut String, word: &str) -> Result<(), NoOutcome> {
    let (word, times) = word.split_once('*').unwrap_or((word, "1"));
    for _ in 0..times.parse::<u16>()? {
        if !text.is_empty() {
            text.push_str(" ")?;
        }
        text.push_str(word)?;
    }
    Ok(())
}

/// The words, with one blank between two: `00*3` is `00 00 00`.
pub(crate) fn spelled(alloc: Global, words: &str) -> Result<String, NoOutcome> {
    let mut text = String::new(alloc);
    for word in words.split_whitespace() {
        push_word(&mut text, word)?;
    }
    Ok(text)
}
