//! A request for a part of a table, and what it came to.
ghost use Rattle.std.specs.Prelude.{◌≡◌, Some, take};
ghost use Rattle.app_look.specs.Asking.{AsksTables, PartTells, TellsSeen, most_reply};

use crate::session::Session;
use two_wire::Bytes;
use undo_look::{Seen, TablePart};

/// How many bytes of a reply are kept: no reply on IPMB has more.
const MOST_REPLY: usize = 24;

/// The data of a reply.
pub(crate) type Reply = Bytes<{ MOST_REPLY }>;

/// What a request came to.
#[derive(Drop)]
pub(crate) enum Told {
    /// The reply has these data.
    Shown(Reply),
    /// It was refused with this code.
    Refused(u8),
    /// It wasn't answered.
    Silent,
}

/// The first bytes of a reply's data.
fn beginning(bytes: &[u8]) -> Reply
    ensures { result ≡ take most_reply bytes.now }
{
    let count = bytes.len().min(MOST_REPLY);
    Reply::from_slice(&bytes[..count])
}

/// What is told of this.
fn told_of(seen: Seen<'_>) -> Told
    ensures { TellsSeen (Some seen.entry) result }
{
    match seen {
        Seen::Shown(bytes) => Told::Shown(beginning(bytes)),
        Seen::Refused(code) => Told::Refused(code.value()),
    }
}

/// Asks for a part of a table.
pub(crate) fn ask_once(session: &mut Session, part: &TablePart) -> Told
    ensures tables { AsksTables session.old session.new }
    ensures told { PartTells part.now session.old result session.new }
{
    session.ask(part);
    match session.seen() {
        Some(seen) => told_of(seen),
        None => Told::Silent,
    }
}
