//! The search of a text for a key of an item.
ghost use Rattle.std.specs.Prelude.{◌≡◌, IfOk, IfSome, IsTrue, true};
ghost use Rattle.toml_parser.specs.Reading.{key_view};
ghost use Rattle.file_faults.specs.Places.{names, IsFound, IsHeadIn, IsTurn};

use crate::expression::{Expression, begins_with, behind, ends_with, next_expression};
use crate::place::{Found, Wanted, line_at};
use std::alloc::{AllocError, Global};

/// Where the search is.
#[derive(Clone, Copy)]
struct Walk {
    /// How many heads of the wanted table came.
    heads: usize,
    /// Whether the pairs that follow are the wanted item's.
    is_inside: bool,
    /// Whether a head came.
    is_behind_head: bool,
}

/// What an expression is to the search.
#[derive(Clone, Copy, PartialEq, Eq)]
enum Turn {
    /// It has the wanted key.
    Key,
    /// It is the head of the wanted item, or it has the array of that.
    Head,
    Other,
}

impl Wanted<'_> {
    /// Whether the head is one of the wanted table or array.
    fn is_head_of(&self, found: &Expression) -> bool {
        match self.table {
            Some(table) => found.key.path.is_empty() && ends_with(&found.key, table),
            None => false,
        }
    }

    /// Whether the head is one of a table in the wanted item, under the wanted key.
    fn is_below(&self, walk: Walk, found: &Expression) -> bool
        ensures { IsTrue result → names self.now.key.now (key_view found.now.key) ≡ true }
    {
        match self.table {
            None => begins_with(&found.key, self.key),
            Some(table) => {
                walk.heads == self.place.saturating_add(1)
                    && begins_with(&found.key, table)
                    && found.key.path.len() == 1
                    && ends_with(&found.key, self.key)
            }
        }
    }

    /// Whether the pair has the array or the table that is wanted.
    fn has_table(&self, found: &Expression) -> bool
        ensures { IsTrue result → IsHeadIn self.now.table (key_view found.now.key) }
    {
        match self.table {
            Some(table) => begins_with(&found.key, table),
            None => false,
        }
    }
}

impl Walk {
    /// At the text's start, where the own table's pairs stand.
    fn at_start(wanted: Wanted<'_>) -> Walk {
        Walk {
            heads: 0,
            is_inside: wanted.table.is_none(),
            is_behind_head: false,
        }
    }

    /// Goes past a head, and whether it is the wanted item's.
    fn pass_head(&mut self, wanted: Wanted<'_>, found: &Expression) -> bool
        ensures { IsTrue result → IsHeadIn wanted.entry.table (key_view found.now.key) }
    {
        self.is_behind_head = true;
        self.is_inside = wanted.has_table(found)
            && wanted.is_head_of(found)
            && self.heads == wanted.place;
        if wanted.is_head_of(found) {
            self.heads = self.heads.saturating_add(1);
        }
        self.is_inside
    }

    /// What the head is to the search.
    fn head(&mut self, wanted: Wanted<'_>, found: &Expression) -> Turn
        ensures { IsTurn wanted.entry (key_view found.now.key) result }
    {
        if wanted.is_below(*self, found) {
            return Turn::Key;
        }
        if self.pass_head(wanted, found) {
            Turn::Head
        } else {
            Turn::Other
        }
    }

    /// What the pair is to the search.
    fn pair(&self, wanted: Wanted<'_>, found: &Expression) -> Turn
        ensures { IsTurn wanted.entry (key_view found.now.key) result }
    {
        if self.is_inside && begins_with(&found.key, wanted.key) {
            return Turn::Key;
        }
        if self.is_behind_head || !wanted.has_table(found) {
            return Turn::Other;
        }
        if ends_with(&found.key, wanted.key) {
            Turn::Key
        } else {
            Turn::Head
        }
    }

    /// What the expression is to the search.
    fn turn(&mut self, wanted: Wanted<'_>, found: &Expression) -> Turn
        ensures { IsTurn wanted.entry (key_view found.now.key) result }
    {
        if found.is_head {
            self.head(wanted, found)
        } else {
            self.pair(wanted, found)
        }
    }
}

/// Where the wanted key stands in a TOML text: the line of its key, or else that of the item's head or of its array's key. Nothing is found
/// of a text that has neither. Of a text that is no TOML it looks at what stands before that.
pub fn place_of(alloc: Global, text: &str, wanted: Wanted<'_>) -> Result<Option<Found>, AllocError>
    ensures { IfOk result (λ found. IfSome found (IsFound text.now wanted.entry)) }
{
    let mut walk = Walk::at_start(wanted);
    let mut head = None;
    let mut from = 0;
    for _expression in 0..text.len() {
        let Some(found) = next_expression(alloc, text, from)? else {
            return Ok(head);
        };
        match walk.turn(wanted, &found) {
            Turn::Key => return Ok(Some(Found::Key(line_at(text, found.place)))),
            Turn::Head => head = Some(Found::Head(line_at(text, found.place))),
            Turn::Other => {}
        }
        let Some(next) = behind(alloc, text, &found)? else {
            return Ok(head);
        };
        from = next;
    }
    Ok(head)
}
