//! Whether standard error is a terminal.
ghost use Rattle.std.specs.Prelude.{◌≡◌, None};

use app_run::Progress;
use std::io::{IsTerminal, Write};

/// The line that tells how far a run is, on this writer: it is written exactly where that is a terminal now.
pub fn line_on<P: Write + IsTerminal>(writer: P) -> Progress<P>
    ensures writer { result.writer ≡ writer }
    ensures said { result.said ≡ None }
{
    let is_terminal = writer.is_terminal();
    Progress::new(writer, is_terminal)
}
