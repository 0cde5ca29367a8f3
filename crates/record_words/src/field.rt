//! The fields of records: how each is named, and what it is.
ghost use Rattle.std.specs.Prelude.{◌≡◌, ◌≤◌, length, Some};
ghost use Rattle.record_words.specs.FieldWords.{field, label_words, numbered, whole};

use crate::shown::Shown;
use crate::term::Term;
use arrayvec::ArrayVec;
use std::fmt;
use std::marker::Model;

/// How many fields a record has at most: those of a state effecter's request.
pub const MOST_FIELDS: usize = 9;

/// How a field is named.
#[derive(Clone, Copy, PartialEq)]
pub enum Label {
    /// The field is the whole record, and has no name.
    Whole,
    /// By a term.
    Of(Term),
    /// By its number, from 1: a field of a state effecter.
    Field(u8),
}

/// A field of a record.
#[derive(Clone, Copy)]
pub struct Field {
    pub label: Label,
    pub shown: Shown,
}

impl Default for Field {
    fn default() -> Self {
        Field {
            label: Label::Whole,
            shown: Shown::Kept,
        }
    }
}

/// At most `MOST_FIELDS` fields of a record. They lie in the value itself.
#[derive(Drop)]
pub struct Fields {
    items: ArrayVec<Field, { MOST_FIELDS }>,
}

impl Model for Fields {
    ghost use Rattle.std.specs.Prelude.{List};
    ghost use Rattle.record_words.specs.declared.field.Field.{Field};

    ghost Value = { List Field };

    ghost view = { λ c. c.items.items };

    ghost inverse = { λ xs. record { items = record { items = xs } } };
}

impl Field {
    ghost use Rattle.std.specs.Prelude.{◌≡◌};
    ghost use Rattle.record_words.specs.FieldWords.{field, numbered, whole};

    /// The field of a term.
    pub fn of(term: Term, shown: Shown) -> Self
        ensures { result ≡ field term shown }
    {
        Field {
            label: Label::Of(term),
            shown,
        }
    }

    /// The field that is the whole record.
    pub fn whole(shown: Shown) -> Self
        ensures { result ≡ whole shown }
    {
        Field {
            label: Label::Whole,
            shown,
        }
    }

    /// The field of this number.
    pub fn numbered(number: u8, shown: Shown) -> Self
        ensures { result ≡ numbered number shown }
    {
        Field {
            label: Label::Field(number),
            shown,
        }
    }
}

impl Fields {
    /// These fields.
    pub fn of(fields: &[Field]) -> Self
        requires { length fields.now ≤ 9 }
        ensures { result ≡ fields.now }
    {
        let mut items = ArrayVec::new();
        items.try_extend_from_slice(fields).unwrap();
        Fields { items }
    }

    /// The fields.
    pub fn as_slice(&self) -> &[Field]
        ensures value { result.now ≡ self.now }
        ensures fits { length result.now ≤ 9 }
    {
        self.items.as_slice()
    }
}

impl fmt::Display for Label {
    ghost output = { λ it. Some (label_words it) };

    fn fmt<W: fmt::Write>(&self, f: &mut fmt::Formatter<W>) -> fmt::Result {
        match self {
            Label::Whole => Ok(()),
            Label::Of(term) => write!(f, "{term}"),
            Label::Field(number) => write!(f, "field {number}"),
        }
    }
}
