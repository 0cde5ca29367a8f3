//! What a run writes, where it writes it, and how it ends.
ghost use Rattle.std.specs.Prelude.{◌≡◌, ◌⊎◌, string_bytes};
ghost use Rattle.app_base.specs.Console.{HasFailed, IsWrittenTo};
ghost use Rattle.app_base.specs.Ending.{ReportEnds, RunEnds, SaysReport, complaint_of};

use crate::console::{Console, Stream};
use crate::report::Report;
use crate::status::Status;
use std::alloc::AllocError;
use std::io;

/// What a run writes, where it writes it, and the status that it ends with where all of that was written.
#[derive(Drop)]
pub struct Ending<'a> {
    pub stream: Stream,
    pub text: &'a [u8],
    pub status: Status,
}

/// What standard error says of a run that ends so without a report.
fn complaint(status: Status) -> &'static [u8]
    ensures { result.now ≡ complaint_of status }
{
    match status {
        Status::Memory => b"memory\n",
        _ => &[],
    }
}

impl<'a> Ending<'a> {
    /// The ending of a run that made this report, or was refused memory for it.
    pub fn of(report: &'a Result<Report, AllocError>) -> Ending<'a>
        ensures { ReportEnds report.now result.stream result.text.now result.status }
    {
        match report {
            Ok(report) => Ending::of_report(report),
            Err(_) => Ending::without_report(Status::Memory),
        }
    }

    /// The ending of a run that made this report.
    pub fn of_report(report: &'a Report) -> Ending<'a>
        ensures stream { result.stream ≡ report.now.stream }
        ensures text { result.text.now ≡ string_bytes report.now.text }
        ensures status { result.status ≡ report.now.status }
    {
        Ending {
            stream: report.stream,
            text: report.text.as_bytes(),
            status: report.status,
        }
    }

    /// The ending of a run that makes no report.
    pub fn without_report(status: Status) -> Ending<'a>
        ensures stream { result.stream ≡ Stream.Error }
        ensures text { result.text.now ≡ complaint_of status }
        ensures status { result.status ≡ status }
    {
        Ending {
            stream: Stream::Error,
            text: complaint(status),
            status,
        }
    }

    /// Writes the text once, and gives the status, or `Output` where a write failed.
    pub fn write<W: io::Write, E: io::Write>(&self, console: &mut Console<W, E>) -> Status
        ensures { ((result ≡ Status.Output) × HasFailed console.new)
            ⊎ ((result ≡ self.now.status)
            × IsWrittenTo self.now.stream self.now.text.now
            (W.contents console.old.out) (W.contents console.new.out)
            (E.contents console.old.err) (E.contents console.new.err)) }
    {
        match console.write(self.stream, self.text) {
            Ok(()) if !console.has_failed() => self.status,
            _ => Status::Output,
        }
    }
}

/// Why nothing is said of what a run did.
#[derive(Clone, Copy, Debug, PartialEq, Eq)]
pub enum ReportFault {
    /// Memory was refused.
    Memory,
    /// The run came to no end: a link or a thread couldn't be had, or a board wasn't closed.
    Stopped,
}

impl From<ReportFault> for Status {
    ghost use Rattle.std.specs.Prelude.{◌≡◌};
    ghost use Rattle.app_base.specs.Ending.{untold_status};

    ghost from_gives = { λ why status. status ≡ untold_status why };

    fn from(why: ReportFault) -> Status {
        match why {
            ReportFault::Memory => Status::Memory,
            ReportFault::Stopped => Status::Stopped,
        }
    }
}

impl From<AllocError> for ReportFault {
    ghost use Rattle.std.specs.Prelude.{◌≡◌};
    ghost use Rattle.app_base.specs.declared.ending.ReportFault.TheVariants.{Memory};

    ghost from_gives = { λ refused why. why ≡ Memory };

    fn from(_refused: AllocError) -> ReportFault {
        ReportFault::Memory
    }
}

/// Writes the report of a run, and gives its status. Where there is none, nothing is said but that memory was refused.
pub fn end_run<W: io::Write, E: io::Write>(
    report: &Result<Report, ReportFault>,
    console: &mut Console<W, E>,
) -> u8
    ensures { RunEnds W.contents E.contents (SaysReport report.now) console.old console.new result }
{
    let ending = match report {
        Ok(report) => Ending::of_report(report),
        Err(why) => Ending::without_report(Status::from(*why)),
    };
    u8::from(ending.write(console))
}
