//! What makes a line of words a bad one, whatever its words are.
ghost use Rattle.std.specs.Prelude.{◌≡◌, ◌+◌, IfSome, slice_index};
ghost use Rattle.file_words.specs.Slips.{begins_with_mark, last, HasSlip};

use std::fmt;
use toml_parser::bytes::byte_at;

/// What no line has between or around its words.
#[derive(Clone, Copy, Debug, PartialEq, Eq)]
pub enum Slip {
    CarriageReturn,
    ByteOrderMark,
    SpaceAtFront,
    SpaceAtEnd,
    /// Two spaces, of which the first has this offset.
    TwoSpaces(usize),
    /// A tab at this offset.
    Tab(usize),
}

/// The line's last byte, or 0.
fn last(line: &[u8]) -> u8
    ensures { result ≡ last line.now }
{
    byte_at(line, line.len().saturating_sub(1))
}

/// Whether the line begins with a byte order mark.
fn begins_with_mark(line: &[u8]) -> bool
    ensures { result ≡ begins_with_mark line.now }
{
    byte_at(line, 0) == 0xEF && byte_at(line, 1) == 0xBB && byte_at(line, 2) == 0xBF
}

/// The offset of the first space that another follows.
fn two_spaces(line: &[u8]) -> Option<usize>
    ensures { IfSome result (λ place. (slice_index line.now place ≡ 32)
        × (slice_index line.now (place + 1) ≡ 32)) }
{
    for place in 0..line.len() {
        if byte_at(line, place) == b' ' && byte_at(line, place + 1) == b' ' {
            return Some(place);
        }
    }
    None
}

/// The offset of the line's first tab.
fn tab(line: &[u8]) -> Option<usize>
    ensures { IfSome result (λ place. slice_index line.now place ≡ 9) }
{
    for place in 0..line.len() {
        if byte_at(line, place) == b'\t' {
            return Some(place);
        }
    }
    None
}

/// The first slip between or around the words of a line, in the order of `Slip`.
pub fn slip_of(line: &str) -> Option<Slip>
    ensures { IfSome result (HasSlip line.now) }
{
    let bytes = line.as_bytes();
    if last(bytes) == b'\r' {
        return Some(Slip::CarriageReturn);
    }
    if begins_with_mark(bytes) {
        return Some(Slip::ByteOrderMark);
    }
    if byte_at(bytes, 0) == b' ' {
        return Some(Slip::SpaceAtFront);
    }
    if last(bytes) == b' ' {
        return Some(Slip::SpaceAtEnd);
    }
    if let Some(place) = two_spaces(bytes) {
        return Some(Slip::TwoSpaces(place));
    }
    match tab(bytes) {
        Some(place) => Some(Slip::Tab(place)),
        None => None,
    }
}

impl fmt::Display for Slip {
    fn fmt<W: fmt::Write>(&self, f: &mut fmt::Formatter<W>) -> fmt::Result {
        match self {
            Slip::CarriageReturn => f.write_str("it ends with a carriage return"),
            Slip::ByteOrderMark => f.write_str("it begins with a byte order mark"),
            Slip::SpaceAtFront => f.write_str("it begins with a space"),
            Slip::SpaceAtEnd => f.write_str("it ends with a space"),
            Slip::TwoSpaces(place) => {
                write!(
                    f,
                    "two spaces between words, at column {}",
                    place.saturating_add(1)
                )
            }
            Slip::Tab(place) => write!(f, "a tab, at column {}", place.saturating_add(1)),
        }
    }
}
