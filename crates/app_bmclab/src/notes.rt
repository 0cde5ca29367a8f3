//! Where what explains a run is written.
ghost use Rattle.std.specs.Prelude.{◌≡◌, ◌||◌};

use std::io::{IsTerminal, Write};

/// A writer for what explains a run.
#[derive(Drop)]
pub struct Notes<N> {
    pub writer: N,
    /// Whether the writer is a terminal: somebody reads what it gets, so a play is explained unasked.
    pub is_terminal: bool,
}

impl<N> Notes<N> {
    /// Whether a play is explained, where its words ask for that or don't.
    pub(crate) fn explain(&self, asked: bool) -> bool
        ensures { result ≡ asked || self.now.is_terminal }
    {
        asked || self.is_terminal
    }
}

/// The notes on this writer, which is a terminal now or isn't.
pub fn notes_on<N: Write + IsTerminal>(writer: N) -> Notes<N>
    ensures { result.writer ≡ writer }
{
    let is_terminal = writer.is_terminal();
    Notes {
        writer,
        is_terminal,
    }
}
