//! The files of the host.
use crate::files::{TextFiles, UnreadFile};
use std::rt::Files;
use std::{fs, io};

/// The files of the host, by their paths.
#[derive(Drop)]
pub struct HostFiles<'a, R: Files + AllocGlobal> {
    /// What gives them.
    pub rt: &'a R,
}

impl<R: Files + AllocGlobal> TextFiles for HostFiles<'_, R> {
    // Nothing is promised of what the host's files hold.
    ghost gives = { λ files word given. Unit {0} };

    fn text(&self, word: &str) -> Result<String, UnreadFile> {
        match fs::read_to_string(self.rt, word) {
            Ok(text) => Ok(text),
            Err(error) if error.kind() == io::ErrorKind::OutOfMemory => Err(UnreadFile::Memory),
            Err(_) => Err(UnreadFile::NoText),
        }
    }
}
