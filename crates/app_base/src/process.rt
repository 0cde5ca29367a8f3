//! The words of the process.
use crate::refusal::Refusal;
use std::alloc::{AllocError, Global};
use std::env::{Env, FillError};
use std::{env, io};

/// The most bytes that a word has (Linux).
const MOST_BYTES: usize = 131_072;

/// The most words that are looked at.
const MOST_WORDS: usize = 1_000_000;

/// Adds the byte as it is, or as `\x` and two hexadecimal digits where it isn't printable ASCII.
fn push_byte(text: &mut String, byte: u8) -> Result<(), AllocError> {
    if b' ' <= byte && byte <= b'~' {
        return text.push(byte as char);
    }
    write!(text, "\\x{:x}{:x}", byte / 16, byte % 16)
}

/// Adds the first of the process's words that isn't UTF-8, if one isn't.
fn push_no_text<R: Env>(rt: &R, alloc: Global, text: &mut String) -> Result<(), AllocError> {
    let mut bytes = vec![in alloc; 0u8; MOST_BYTES]?;
    for place in 0..MOST_WORDS {
        let length = match rt.arg(place, bytes.as_mut_slice()) {
            Ok(length) => length,
            Err(FillError::NotPresent) => return Ok(()),
            Err(FillError::TooLong) => continue,
        };
        let word = &bytes.as_slice()[..length];
        if str::from_utf8(word).is_ok() {
            continue;
        }
        write!(text, " {place}, ")?;
        for byte in word {
            push_byte(text, *byte)?;
        }
        return text.push(',');
    }
    Ok(())
}

/// The refusal of words of which one isn't UTF-8, which it names.
fn no_text<R: Env>(rt: &R, alloc: Global) -> Refusal {
    let mut text = String::new(alloc);
    let said = match text.push_str("error: word") {
        Ok(()) => push_no_text(rt, alloc, &mut text),
        Err(error) => Err(error),
    };
    if said.is_err() || text.push_str(" isn't UTF-8\n").is_err() {
        return Refusal::Memory;
    }
    Refusal::Words(text)
}

/// The words that the process was given, the program's own name first among them.
pub fn words_of_process<R: Env + AllocGlobal>(rt: &R) -> Result<Vec<String>, Refusal> {
    let args = match env::args(rt) {
        Ok(args) => args,
        Err(error) if error.kind() == io::ErrorKind::OutOfMemory => return Err(Refusal::Memory),
        Err(_) => return Err(no_text(rt, rt.alloc())),
    };
    let words: Result<Vec<String>, AllocError> = args.collect(rt.alloc());
    match words {
        Ok(words) => Ok(words),
        Err(_) => Err(Refusal::Memory),
    }
}
