//! What a run says.
ghost use Rattle.std.specs.Prelude.{◌≡◌, IfOk, string_bytes};
ghost use Rattle.app_base.specs.Report.{file_line, board_line};

use crate::console::Stream;
use crate::status::Status;
use std::alloc::{AllocError, Global};
use text_board::FileFault;

/// The lines that a run writes, where it writes them, and how it ends.
pub struct Report {
    pub stream: Stream,
    pub text: String,
    pub status: Status,
}

// Written out: the crates above would prove a derived one anew.
impl Drop for Report {
    fn drop(self) {
        let Report {
            stream: _,
            text,
            status: _,
        } = self;
        drop(text);
    }
}

impl Report {
    /// What a run writes to standard output, and how it ends.
    pub fn output(text: String, status: Status) -> Report
        ensures stream { result.stream ≡ Stream.Output }
        ensures text { result.text ≡ text }
        ensures status { result.status ≡ status }
    {
        Report {
            stream: Stream::Output,
            text,
            status,
        }
    }

    /// What a run writes to standard error, and how it ends.
    pub fn complaint(text: String, status: Status) -> Report
        ensures stream { result.stream ≡ Stream.Error }
        ensures text { result.text ≡ text }
        ensures status { result.status ≡ status }
    {
        Report {
            stream: Stream::Error,
            text,
            status,
        }
    }

    /// What is said of a file that can't be read: `file` and the word that names it.
    pub fn of_file(alloc: Global, word: &str) -> Result<Report, AllocError>
        ensures stream { IfOk result (λ report. report.stream ≡ Stream.Error) }
        ensures text { IfOk result (λ report. string_bytes report.text ≡ file_line word.now) }
        ensures status { IfOk result (λ report. report.status ≡ Status.RefusedFile) }
    {
        let mut text = String::new(alloc);
        writeln!(text, "file {word}")?;
        Ok(Report::complaint(text, Status::RefusedFile))
    }

    /// What is said of a board file that is refused: `board` and the fault.
    pub fn of_board(alloc: Global, why: FileFault) -> Result<Report, AllocError>
        ensures stream { IfOk result (λ report. report.stream ≡ Stream.Error) }
        ensures text { IfOk result (λ report. string_bytes report.text ≡ board_line why) }
        ensures status { IfOk result (λ report. report.status ≡ Status.RefusedFile) }
    {
        let mut text = String::new(alloc);
        writeln!(text, "board {why}")?;
        Ok(Report::complaint(text, Status::RefusedFile))
    }
}
