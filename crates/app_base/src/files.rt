//! The files that a run reads, by the words that name them.
ghost use Rattle.std.specs.Prelude.{◌≡◌, ℕ, List, Result, Ok, Err, IfOk, IfErr, string_bytes};
ghost use Rattle.app_base.specs.Ending.{RunEnds};
ghost use Rattle.app_base.specs.Files.{PrintsRefusal};

use crate::console::Console;
use crate::ending::Ending;
use crate::report::Report;
use crate::status::Status;
use std::alloc::Global;
use std::io;

/// Why a file isn't read.
#[derive(Clone, Copy, Debug, PartialEq, Eq)]
pub enum UnreadFile {
    /// The file can't be opened or read, or it isn't UTF-8.
    NoText,
    /// Memory was refused.
    Memory,
}

/// Files that hold texts, by the words that name them.
pub trait TextFiles {
    ghost use Rattle.app_base.specs.declared.files.UnreadFile.{UnreadFile};

    /// What a reading of the file that this word names may give.
    ghost gives: { Self → List ℕ → Result (List ℕ) UnreadFile → Type 0 };

    /// The text of the file that the word names.
    fn text(&self, word: &str) -> Result<String, UnreadFile>
        ensures text { IfOk result (λ text. gives self.now word.now (Ok (string_bytes text))) }
        ensures unread { IfErr result (λ why. gives self.now word.now (Err why)) };
}

/// A file that isn't read.
#[derive(Debug, Drop)]
pub struct ReadFault<'a> {
    /// The word that names it.
    pub word: &'a str,
    /// Why it isn't read.
    pub why: UnreadFile,
}

/// The text of the file that the word names.
pub fn text_of<'a, F: TextFiles>(files: &F, word: &'a str) -> Result<String, ReadFault<'a>>
    ensures text { IfOk result (λ text. F.gives files.now word.now (Ok (string_bytes text))) }
    ensures word { IfErr result (λ unread. unread.word.now ≡ word.now) }
    ensures unread { IfErr result (λ unread. F.gives files.now word.now (Err unread.why)) }
{
    match files.text(word) {
        Ok(text) => Ok(text),
        Err(why) => Err(ReadFault { word, why }),
    }
}

/// Says on standard error that a file isn't read, or that memory was refused, and gives the status.
pub fn refuse<W: io::Write, E: io::Write>(
    alloc: Global,
    unread: &ReadFault,
    console: &mut Console<W, E>,
) -> u8
    ensures { RunEnds W.contents E.contents (PrintsRefusal unread.now.why unread.now.word.now)
        console.old console.new result }
{
    match unread.why {
        UnreadFile::NoText => {
            let report = Report::of_file(alloc, unread.word);
            u8::from(Ending::of(&report).write(console))
        }
        UnreadFile::Memory => u8::from(Ending::without_report(Status::Memory).write(console)),
    }
}
