//! How a call is refused: with an object in a line of standard output, or else on standard error.
ghost use Rattle.std.specs.Prelude.{true};
ghost use Rattle.app_base.specs.Ending.{RunEnds};
ghost use Rattle.app_apply.specs.Ends.{SaysOn, TellsUnread, stream_for};

use crate::applying::{say, say_on};
use crate::objects::refusal_json;
use app_base::files::{ReadFault, UnreadFile, refuse};
use app_base::{Console, Report, ReportFault, Status, Stream, end_run};
use std::alloc::{AllocError, Global};
use std::io;

/// The object of a call that is refused for this.
fn refusal_of(alloc: Global, why: Result<String, AllocError>) -> Result<String, AllocError> {
    let why = why?;
    refusal_json(alloc, why.as_str())
}

/// Says why a call is refused, and gives this status.
pub fn say_refused<W: io::Write, E: io::Write>(
    alloc: Global,
    json: bool,
    why: Result<String, AllocError>,
    status: Status,
    console: &mut Console<W, E>,
) -> u8
    ensures { RunEnds W.contents E.contents (SaysOn (stream_for json) status)
        console.old console.new result }
{
    if json {
        say_on(refusal_of(alloc, why), Stream::Output, status, console)
    } else {
        say(why, status, console)
    }
}

/// The line of a file that isn't read.
fn unread_line(alloc: Global, word: &str) -> Result<String, AllocError> {
    let report = Report::of_file(alloc, word)?;
    String::from_str(alloc, report.text.as_str())
}

/// Says with an object that a file isn't read, or else that memory was refused, and gives the status.
fn say_unread_object<W: io::Write, E: io::Write>(
    alloc: Global,
    unread: &ReadFault,
    console: &mut Console<W, E>,
) -> u8
    ensures { RunEnds W.contents E.contents
        (TellsUnread true unread.now.why unread.now.word.now) console.old console.new result }
{
    match unread.why {
        UnreadFile::NoText => {
            let why = unread_line(alloc, unread.word);
            say_on(
                refusal_of(alloc, why),
                Stream::Output,
                Status::RefusedFile,
                console,
            )
        }
        UnreadFile::Memory => end_run(&Err(ReportFault::Memory), console),
    }
}

/// Says that a file isn't read, or that memory was refused, and gives the status.
pub fn say_unread<W: io::Write, E: io::Write>(
    alloc: Global,
    json: bool,
    unread: &ReadFault,
    console: &mut Console<W, E>,
) -> u8
    ensures { RunEnds W.contents E.contents
        (TellsUnread json unread.now.why unread.now.word.now) console.old console.new result }
{
    if json {
        say_unread_object(alloc, unread, console)
    } else {
        refuse(alloc, unread, console)
    }
}
