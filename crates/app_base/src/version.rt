//! The word `version`, which both programs have.
ghost use Rattle.std.specs.Prelude.{IfOk};
ghost use Rattle.app_base.specs.Ending.{RunEnds};
ghost use Rattle.app_base.specs.Line.{IsCommand};
ghost use Rattle.app_base.specs.Version.{SaysVersion, version_app};

use crate::build::new_command;
use crate::console::{Console, Stream};
use crate::ending::Ending;
use crate::status::Status;
use clap::Command;
use std::alloc::{AllocError, Global};
use std::io;

/// The line of the version, which the first heading of `CHANGELOG.md` names, too.
pub const VERSION_LINE: &[u8] = b"version 0.3.0\n";

const VERSION_ABOUT: &str = "Prints the version";

/// `version`, with what its help says at its end.
pub fn version_command<'a>(alloc: Global, end: &'a str) -> Result<Command<'a>, AllocError>
    ensures { IfOk result (IsCommand version_app) }
{
    new_command(alloc, "version", VERSION_ABOUT, end, &[])
}

/// Prints the version, and gives the status.
pub fn tell_version<W: io::Write, E: io::Write>(console: &mut Console<W, E>) -> u8
    ensures { RunEnds W.contents E.contents SaysVersion console.old console.new result }
{
    let ending = Ending {
        stream: Stream::Output,
        text: VERSION_LINE,
        status: Status::Success,
    };
    u8::from(ending.write(console))
}
