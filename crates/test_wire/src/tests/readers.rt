//! Lines about bytes that are read or checked, whatever came before.
use super::frames::{are_same_frames, read_ipmb};
use super::packets::read_mctp;
use super::player::{bytes_of, parted, push_byte, push_word};
use super::pldm::{are_same_messages, read_reply, read_request};
use pldm_base::crc32;
use std::alloc::Global;
use stories::NoOutcome;
use two_wire::{check_byte, pec};

fn push_crc32(bytes: &[u8], text: &mut String) -> Result<(), NoOutcome> {
    write!(text, " {:08X}", crc32(bytes))?;
    Ok(())
}

/// The check byte, the packet error code or the CRC-32 of the bytes.
fn check(kind: &str, bytes: &[u8], text: &mut String) -> Result<(), NoOutcome> {
    match kind {
        "sum" => push_byte(text, check_byte(bytes)),
        "pec" => push_byte(text, pec(bytes)),
        "crc32" => push_crc32(bytes, text),
        _ => Err(NoOutcome::Unread),
    }
}

/// What the bytes are read as, or what checks them.
pub fn read(kind: &str, bytes: &[u8], text: &mut String) -> Result<(), NoOutcome> {
    match kind {
        "ipmb" => read_ipmb(bytes, text),
        "packet" => read_mctp(bytes, text),
        "pldm" => read_request(bytes, text),
        "reply" => read_reply(bytes, text),
        _ => check(kind, bytes, text),
    }
}

/// What the first 0, 1, .. of the bytes are read as.
fn push_cuts(kind: &str, bytes: &[u8], text: &mut String) -> Result<(), NoOutcome> {
    for end in 0..bytes.len() {
        read(kind, bytes.split_at(end).0, text)?;
    }
    Ok(())
}

/// What the first 0, 1, .. of the bytes of these words are read as.
pub fn cuts(alloc: Global, words: &str, text: &mut String) -> Result<(), NoOutcome> {
    let (kind, words) = parted(words);
    let bytes = bytes_of(alloc, words)?;
    push_cuts(kind, bytes.as_slice(), text)
}

/// Whether the bytes are read without a fault, which is one word.
fn is_read(alloc: Global, kind: &str, bytes: &[u8]) -> Result<bool, NoOutcome> {
    let mut text = String::new(alloc);
    read(kind, bytes, &mut text)?;
    Ok(text.as_str().trim_start().contains(' '))
}

/// With how many of the 255 other bytes at the place the bytes are read.
fn read_at(alloc: Global, kind: &str, bytes: &mut [u8], place: usize) -> Result<u32, NoOutcome> {
    let mut count = 0u32;
    for step in 0..=255u8 {
        if let Some(byte) = bytes.get_mut(place) {
            *byte = byte.wrapping_add(1);
        }
        if step != 255 && is_read(alloc, kind, bytes)? {
            count = count.wrapping_add(1);
        }
    }
    Ok(count)
}

/// With how many other bytes at one place the bytes are read.
fn push_changed(
    alloc: Global,
    kind: &str,
    bytes: &mut [u8],
    text: &mut String,
) -> Result<(), NoOutcome> {
    let mut count = 0u32;
    for place in 0..bytes.len() {
        count = count.wrapping_add(read_at(alloc, kind, bytes, place)?);
    }
    push_word(text, &count)?;
    push_word(text, &"read")
}

/// With how many other bytes at one place the bytes of these words are read.
pub fn changed(alloc: Global, words: &str, text: &mut String) -> Result<(), NoOutcome> {
    let (kind, words) = parted(words);
    let mut bytes = bytes_of(alloc, words)?;
    push_changed(alloc, kind, bytes.as_mut_slice(), text)
}

/// Whether both are requests and the same one.
pub fn are_same(alloc: Global, words: &str, text: &mut String) -> Result<(), NoOutcome> {
    let (kind, words) = parted(words);
    let (one, other) = words.split_once(" /").unwrap_or((words, ""));
    let one = bytes_of(alloc, one)?;
    let other = bytes_of(alloc, other)?;
    push_same(kind, one.as_slice(), other.as_slice(), text)
}

fn push_same(kind: &str, one: &[u8], other: &[u8], text: &mut String) -> Result<(), NoOutcome> {
    let same = match kind {
        "ipmb" => are_same_frames(one, other),
        "pldm" => are_same_messages(one, other),
        _ => return Err(NoOutcome::Unread),
    };
    let word = match same {
        Some(true) => "yes",
        Some(false) => "no",
        None => "no requests",
    };
    push_word(text, &word)
}
