//! What is looked for in a text, and where it stands.
ghost use Rattle.std.specs.Prelude.{◌≡◌, ◌≤◌, length};
ghost use Rattle.file_faults.specs.Places.{feeds, line_at};

/// A key of an item: of one of the tables of an array, of a table that is in none, or of the text's own table.
#[derive(Clone, Copy)]
pub struct Wanted<'a> {
    /// The key of the table or of the array; none of the text's own table.
    pub table: Option<&'a str>,
    /// The item's place in the array, from 0. It is 0 where there is no array.
    pub place: usize,
    /// The key in the item.
    pub key: &'a str,
}

/// Where it stands, by a line from 1.
#[derive(Clone, Copy, Debug, PartialEq, Eq)]
pub enum Found {
    /// The key stands in this line.
    Key(usize),
    /// The item lacks the key, and its head stands in this line, or the key of the array that has it.
    Head(usize),
}

/// How many line feeds there are.
fn feeds(text: &[u8]) -> usize
    ensures value { result ≡ feeds text.now }
    ensures bound { result ≤ length text.now }
{
    text.iter().filter(|byte| **byte == b'\n').count()
}

/// The line of a place in the text, from 1.
pub(crate) fn line_at(text: &str, place: usize) -> usize
    requires { place ≤ length text.now }
    ensures { result ≡ line_at text.now place }
{
    let before = &text.as_bytes()[..place];
    feeds(before) + 1
}
