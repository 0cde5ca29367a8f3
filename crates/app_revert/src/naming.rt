//! The names of the sensors and attributes of records that aren't as before.
ghost use Rattle.std.specs.Prelude.{◌≡◌, IfOk};
ghost use Rattle.app_look.specs.Asking.{AsksTables};
ghost use Rattle.app_look.specs.Reading.{ReadsNames};
ghost use Rattle.app_revert.specs.Names.{ReadsBehind, ReadsOver, asks_names, keys_of};

use crate::looking::{Eye, Looked};
use app_look::{KnownNames, Session, read_names};
use record_base::{AtOnce, Key};
use report_words::Names;
use std::alloc::{AllocError, Global};

/// Whether names are read: a record isn't as before, and each look was answered.
fn asks_names(looked: &Looked) -> bool
    ensures { result ≡ asks_names looked.now }
{
    looked.differs && !looked.unseen
}

/// The records that the looks named.
fn keys_of(alloc: Global, looked: &Looked) -> Result<AtOnce<Key>, AllocError>
    ensures { IfOk result (λ keys. keys.items.items ≡ keys_of looked.now) }
{
    let sightings = looked.sightings.as_slice();
    sightings.iter().map(|sighting| sighting.key).collect(alloc)
}

/// Reads the names of the sensors and attributes of the records that the looks named.
fn read_named(alloc: Global, session: &mut Session, looked: &Looked) -> KnownNames
    ensures tables { AsksTables session.old session.new }
    ensures names { IfOk result (λ names.
        ReadsNames (keys_of looked.now) session.old session.new names) }
{
    let keys = keys_of(alloc, looked)?;
    read_names(alloc, session, keys.items.as_slice())
}

/// Reads these names by a looker that is there, and over its links: the requests go on with its next numbers, and no greeting comes before them.
fn read_over(alloc: Global, eye: Eye, agains: u32, looked: &Looked) -> KnownNames
    ensures { ReadsOver agains (keys_of looked.now) eye result }
{
    let Eye { looker, ends } = eye;
    let mut session = Session::over(looker, ends, agains);
    read_named(alloc, &mut session, looked)
}

/// Reads the names of the sensors and attributes of the records that aren't as before, by the looker that looked at them. Where each is as before, or a
/// look wasn't answered, nothing is asked for.
pub(crate) fn names_behind(alloc: Global, eye: Eye, agains: u32, looked: &Looked) -> KnownNames
    ensures { ReadsBehind agains looked.now eye result }
{
    if asks_names(looked) {
        read_over(alloc, eye, agains, looked)
    } else {
        drop(eye);
        Ok(Names::new(alloc))
    }
}
