//! The tables of a file, and how a line that is told of one begins.
ghost use Rattle.std.specs.Prelude.{◌≡◌, IfOk, IfSome};
ghost use Rattle.file_faults.specs.Lines.{array_of, IsLineIn, IsLineOf};

use crate::group::Group;
use crate::place::{Found, Wanted};
use crate::search::place_of;
use file_words::push_line;
use std::alloc::{AllocError, Global};
use text_fields::tree::in_field;
use text_fields::{Field, LanField};
use toml::Table;

/// A file: its name, as it is shown, and its text.
#[derive(Clone, Copy)]
pub struct Source<'a> {
    /// The name.
    pub name: &'a str,
    /// The text.
    pub file: &'a str,
}

/// A table of a file.
#[derive(Clone, Copy)]
pub struct Spot<'a> {
    pub source: Source<'a>,
    /// The sort of table that it is.
    pub group: Group,
    /// The item's place among those of the group, from 0.
    pub place: usize,
    pub table: &'a Table,
}

impl Group {
    /// The key that has the group's table or array; none of a file's own table.
    pub(crate) fn array(self) -> Option<Field>
        ensures { result ≡ array_of self }
    {
        match self {
            Group::Top | Group::Plan => None,
            Group::Device => Some(Field::Device),
            Group::Sensor => Some(Field::Sensor),
            Group::Channel => Some(Field::Channel),
            Group::Lan => Some(Field::Lan(LanField::Lan)),
            Group::Attribute => Some(Field::Attribute),
            Group::State => Some(Field::State),
            Group::Numeric => Some(Field::Numeric),
            Group::Step => Some(Field::Step),
        }
    }
}

/// Adds the kind that a step names, where it is a text.
fn push_kind(text: &mut String, step: &Table) -> Result<(), AllocError> {
    let Some(value) = in_field(step, Field::Kind) else {
        return Ok(());
    };
    let Some(kind) = value.as_str() else {
        return Ok(());
    };
    text.push_str(" (")?;
    push_line(text, kind)?;
    text.push_str(")")
}

impl Spot<'_> {
    /// The line in which the key stands, or else the key of this table or array, if there is one.
    fn line_in(
        &self,
        alloc: Global,
        table: Option<&str>,
        key: &str,
    ) -> Result<Option<usize>, AllocError>
        ensures { IfOk result (λ found. IfSome found
            (IsLineIn self.now.source.file.now table.entry key.now)) }
    {
        let wanted = Wanted {
            table,
            place: self.place,
            key,
        };
        match place_of(alloc, self.source.file, wanted)? {
            Some(Found::Key(line)) => Ok(Some(line)),
            Some(Found::Head(line)) => Ok(Some(line)),
            None => Ok(None),
        }
    }

    /// The line in which the key stands, or else the table's head.
    fn line_of(&self, alloc: Global, key: &str) -> Result<Option<usize>, AllocError>
        ensures { IfOk result (λ found. IfSome found
            (IsLineOf self.now.source.file.now self.now.group key.now)) }
    {
        match self.group.array() {
            None => self.line_in(alloc, None, key),
            Some(array) => self.line_in(alloc, Some(array.word()), key),
        }
    }

    /// Adds what the table is called: the group's word and, of an item of an array, its place, and of a step its kind.
    fn push_item(&self, text: &mut String) -> Result<(), AllocError> {
        match (self.group.array(), self.group) {
            (None, _) => text.push_str("top"),
            (Some(table), Group::Device) => write!(text, "{table}"),
            (Some(array), Group::Step) => {
                write!(text, "{array} {}", self.place)?;
                push_kind(text, self.table)
            }
            (Some(array), _) => write!(text, "{array} {}", self.place),
        }
    }

    /// Adds the head of a line that says something of the key: the file's name, the line of the key or of the table's head where there is
    /// one, and the table.
    pub fn push_at(&self, alloc: Global, text: &mut String, key: &str) -> Result<(), AllocError> {
        text.push_str(self.source.name)?;
        if let Some(line) = self.line_of(alloc, key)? {
            write!(text, ":{line}")?;
        }
        text.push_str(": ")?;
        self.push_item(text)?;
        text.push_str(": ")
    }
}
