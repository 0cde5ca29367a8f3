//! What `bmcnet` writes and how it ends.
mod claims;
mod files;
mod pairs;
mod refusals;
mod reverted;
mod terminals;
mod texts;

use app_base::Console;
use app_run::Progress;
use std::alloc::Global;
use std::process::Abort;

/// Writers in memory.
pub(crate) type Paper = Console<Vec<u8>, Vec<u8>>;

/// Writers that hold nothing yet.
pub(crate) fn new_paper(alloc: Global) -> Paper {
    Console::new(Vec::new(alloc), Vec::new(alloc))
}

/// How a call ends: its status, and what is then on standard output and on standard error.
#[derive(Clone, Copy)]
pub(crate) struct End<'a> {
    pub status: u8,
    pub out: &'a [u8],
    pub err: &'a [u8],
}

/// The call that gave this status, and wrote this, ended so.
pub(crate) fn expect_end(rt: &impl Abort, status: u8, paper: Paper, end: End) {
    assert_eq!(rt; status, end.status);
    assert_eq!(rt; paper.out.as_slice(), end.out);
    assert_eq!(rt; paper.err.as_slice(), end.err);
    drop(paper);
}

/// The line of a run's progress has these bytes.
pub(crate) fn expect_line(rt: &impl Abort, line: Progress<Vec<u8>>, told: &[u8]) {
    assert_eq!(rt; line.writer.as_slice(), told);
    drop(line);
}

/// The line of a run's progress, in memory.
pub(crate) fn new_line(alloc: Global, is_terminal: bool) -> Progress<Vec<u8>> {
    Progress::new(Vec::new(alloc), is_terminal)
}
