//! Standard output and standard error.
ghost use Rattle.std.specs.Prelude.{◌≡◌, OnOk};
ghost use Rattle.app_base.specs.Console.{HasFailed, IsWrittenTo, NotesFailure};

use std::io;

/// One of the two.
#[derive(Clone, Copy)]
pub enum Stream {
    /// Standard output.
    Output,
    /// Standard error.
    Error,
}

/// The writers of standard output and standard error, and a note of whether a write to one of them failed. Only a failed write sets
/// that note.
#[derive(Drop)]
pub struct Console<W, E> {
    pub out: W,
    pub err: E,
    failed: bool,
}

impl<W: io::Write, E: io::Write> Console<W, E> {
    /// Nothing was written yet.
    pub fn new(out: W, err: E) -> Console<W, E>
        ensures out { result.out ≡ out }
        ensures err { result.err ≡ err }
        ensures failed { ¬ HasFailed result }
    {
        Console {
            out,
            err,
            failed: false,
        }
    }

    /// Whether a write failed.
    pub fn has_failed(&self) -> bool
        ensures { result ≡ self.now.failed }
    {
        self.failed
    }

    /// Writes the text to the stream. Where that fails, the console has failed.
    pub fn write(&mut self, stream: Stream, text: &[u8]) -> io::Result<()>
        ensures written { OnOk result
            (IsWrittenTo stream text.now (W.contents self.old.out) (W.contents self.new.out)
            (E.contents self.old.err) (E.contents self.new.err)) }
        ensures noted { NotesFailure self.old.failed result self.new.failed }
    {
        let written = match stream {
            Stream::Output => self.out.write_all(text),
            Stream::Error => self.err.write_all(text),
        };
        match written {
            Ok(()) => Ok(()),
            Err(why) => {
                self.failed = true;
                Err(why)
            }
        }
    }
}
