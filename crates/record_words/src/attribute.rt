//! The value of a BIOS attribute in words.
ghost use Rattle.std.specs.Prelude.{◌≡◌, Some};
ghost use Rattle.record_words.specs.AttributeWords as words;

use crate::digits::Spaced;
use crate::parts::Way;
use crate::quoted::Quoted;
use record_base::attribute_value::value_in;
use record_base::{AttributeValue, SetBiosAttribute};
use std::fmt;

/// The bytes of an attribute's value, and its type (DSP0247).
#[derive(Clone, Copy)]
pub struct Valued<'a> {
    pub type_code: u8,
    pub bytes: &'a [u8],
}

/// Bytes, each shown as a space and a number.
#[derive(Clone, Copy)]
struct Numbered<'a>(&'a [u8]);

/// An attribute, what it was where that is known, and what it becomes.
#[derive(Clone, Copy)]
pub struct AttributeLine<'a> {
    pub attribute: u16,
    pub way: Way,
    pub old: Option<Valued<'a>>,
    pub new: Valued<'a>,
}

impl<'a> Valued<'a> {
    /// That which an operation gives.
    pub fn given(set: &SetBiosAttribute<'a>) -> Self
        ensures { words.meant result ≡ words.given set.now }
    {
        Valued {
            type_code: set.attribute_type,
            bytes: set.value.as_slice(),
        }
    }

    /// Whether both are the same.
    fn is(&self, other: &Valued<'_>) -> bool
        ensures { result ≡ words.same_value (words.meant self.now) (words.meant other.now) }
    {
        self.type_code == other.type_code && self.bytes == other.bytes
    }
}

impl fmt::Display for Numbered<'_> {
    ghost output = { λ it. Some (words.numbers_of it.0.now) };

    fn fmt<W: fmt::Write>(&self, f: &mut fmt::Formatter<W>) -> fmt::Result {
        for byte in self.0 {
            write!(f, " {byte}")?;
        }
        Ok(())
    }
}

impl fmt::Display for Valued<'_> {
    ghost output = { λ it. Some (words.value_words it.type_code it.bytes.now) };

    fn fmt<W: fmt::Write>(&self, f: &mut fmt::Formatter<W>) -> fmt::Result {
        match value_in(self.type_code, self.bytes) {
            Some(AttributeValue::Number(number)) => write!(f, "{number}"),
            Some(AttributeValue::Text(text)) => {
                let quoted = Quoted(text.as_slice());
                write!(f, "{quoted}")
            }
            Some(AttributeValue::Indexes(indexes)) => {
                let numbers = Numbered(indexes.as_slice());
                write!(f, "indexes{numbers}")
            }
            None => {
                let code = self.type_code;
                let digits = Spaced(self.bytes);
                write!(f, "type {code} bytes{digits}")
            }
        }
    }
}

impl fmt::Display for AttributeLine<'_> {
    ghost output = { λ it. Some (words.line_of it) };

    fn fmt<W: fmt::Write>(&self, f: &mut fmt::Formatter<W>) -> fmt::Result {
        let handle = self.attribute;
        let new = self.new;
        if self.way == Way::Back {
            return write!(f, "attribute {handle} <- {new}");
        }
        let Some(old) = self.old else {
            return write!(f, "attribute {handle}: {new}");
        };
        if old.is(&new) {
            return write!(f, "attribute {handle}: no change");
        }
        write!(f, "attribute {handle}: {old} -> {new}")
    }
}
