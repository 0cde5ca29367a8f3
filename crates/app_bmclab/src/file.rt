//! The files of the host, and why one gives no text.
use crate::check::{Cause, TellsCause};
use app_base::{TextFiles, UnreadFile};
use std::cell::Cell;
use std::rt::Files;
use std::{fs, io};

/// The files of the host, by their paths, which tell why the last that gave no text did so. Each is read once.
#[derive(Drop)]
pub struct ToldFiles<'a, R: Files + AllocGlobal> {
    /// What gives them.
    pub rt: &'a R,
    /// Why the last file that gave no text gave none.
    pub last: Cell<Cause>,
}

/// Why a file gives no text where its reading ends so.
fn cause_of(kind: io::ErrorKind) -> Cause {
    match kind {
        io::ErrorKind::NotFound | io::ErrorKind::NotADirectory => Cause::Missing,
        io::ErrorKind::IsADirectory => Cause::Folder,
        io::ErrorKind::PermissionDenied => Cause::Forbidden,
        io::ErrorKind::InvalidData => Cause::NotUtf8,
        _ => Cause::Other,
    }
}

impl<R: Files + AllocGlobal> TextFiles for ToldFiles<'_, R> {
    // Nothing is promised of what the host's files hold.
    ghost gives = { λ files word given. Unit {0} };

    fn text(&self, word: &str) -> Result<String, UnreadFile> {
        match fs::read_to_string(self.rt, word) {
            Ok(text) => Ok(text),
            Err(error) if error.kind() == io::ErrorKind::OutOfMemory => Err(UnreadFile::Memory),
            Err(error) => {
                self.last.set(cause_of(error.kind()));
                Err(UnreadFile::NoText)
            }
        }
    }
}

impl<R: Files + AllocGlobal> TellsCause for ToldFiles<'_, R> {
    fn cause(&self, _word: &str) -> Cause {
        self.last.get()
    }
}
