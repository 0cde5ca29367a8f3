//! Why words are refused.
ghost use Rattle.std.specs.Prelude.{◌≡◌};
ghost use Rattle.clap.specs.Words.{kind_of};
ghost use Rattle.clap.specs.declared.error.kind.ErrorKind.TheVariants.{OutOfMemory};
ghost use Rattle.app_base.specs.Ending.{RunEnds};
ghost use Rattle.app_base.specs.Asked.{SaysWhy};

use crate::console::{Console, Stream};
use crate::ending::Ending;
use crate::status::Status;
use clap::Command;
use clap::error::{Error, ErrorKind};
use std::alloc::{AllocError, Global};
use std::io;

/// Why the words of a command line aren't read.
#[derive(Debug, Drop)]
pub enum Refusal {
    /// Memory was refused.
    Memory,
    /// The words ask for nothing; the text is for the user.
    Words(String),
}

/// What clap says of the words. A request for help is refused like any other words that ask for nothing: its text is the help.
pub fn refusal_of(alloc: Global, error: &Error) -> Refusal
    ensures { kind_of error.now ≡ OutOfMemory → result ≡ Refusal.Memory }
{
    if error.kind() == ErrorKind::OutOfMemory {
        return Refusal::Memory;
    }
    match format!(in alloc; "{error}") {
        Ok(text) => Refusal::Words(text),
        Err(_) => Refusal::Memory,
    }
}

/// What clap would say so of words for the command, in whose usage it has this name.
fn error_of(
    command: Command<'_>,
    name: &str,
    kind: ErrorKind,
    message: &str,
) -> Result<Error, AllocError> {
    let mut command = command.bin_name(name)?;
    let error = command.error(kind, message);
    drop(command);
    error
}

/// The refusal of words that clap takes for the command and this program doesn't: the message, and the usage of the command of this name.
pub fn refusal_by(
    alloc: Global,
    command: Result<Command<'_>, AllocError>,
    name: &str,
    kind: ErrorKind,
    message: &str,
) -> Refusal {
    let Ok(command) = command else {
        return Refusal::Memory;
    };
    match error_of(command, name, kind, message) {
        Ok(error) => refusal_of(alloc, &error),
        Err(_) => Refusal::Memory,
    }
}

/// Says on standard error why words aren't read, or that memory was refused, and gives the status: 2, or 5.
pub fn refuse<W: io::Write, E: io::Write>(refusal: &Refusal, console: &mut Console<W, E>) -> u8
    ensures { RunEnds W.contents E.contents (SaysWhy refusal.now) console.old console.new result }
{
    let ending = match refusal {
        Refusal::Memory => Ending::without_report(Status::Memory),
        Refusal::Words(text) => Ending {
            stream: Stream::Error,
            text: text.as_bytes(),
            status: Status::RefusedWords,
        },
    };
    u8::from(ending.write(console))
}
