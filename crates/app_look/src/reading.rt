//! The names of records, read behind a look at them.
ghost use Rattle.std.specs.Prelude.{IfErr, IfOk};
ghost use Rattle.app_look.specs.Findings.{FailsOver};
ghost use Rattle.app_look.specs.Asking.{AsksTables};
ghost use Rattle.app_look.specs.Reading.{FindsWithNames, ReadsNames};

use crate::attributes::read_attributes;
use crate::records::{Found, LookFault, Looked, look_and_stay};
use crate::sensors::read_sensors;
use crate::session::{Session, Way};
use record_base::Key;
use report_words::Names;
use std::alloc::{AllocError, Global};
use std::net::Net;

/// Names that were read, unless memory for them was refused.
pub type KnownNames = Result<Names, AllocError>;

/// What was found of records, and the names of their sensors and attributes.
#[derive(Drop)]
pub struct NamedRecords {
    pub found: Vec<Found>,
    pub names: KnownNames,
}

/// Reads the names of the sensors and attributes of these records, until a request isn't answered.
pub fn read_names(alloc: Global, session: &mut Session, keys: &[Key]) -> KnownNames
    ensures tables { AsksTables session.old session.new }
    ensures names { IfOk result (λ names. ReadsNames keys.now session.old session.new names) }
{
    let mut names = Names::wanted(alloc, keys)?;
    read_sensors(session, &mut names);
    read_attributes(alloc, session, &mut names)?;
    Ok(names)
}

/// Greets a controller on the buses on which the Gets of these records go, looks at each of them, and reads the names of their sensors and
/// attributes behind that. Where there are none, or memory for them is refused, that is no fault.
pub fn look_and_name<R: Net>(
    rt: &R,
    alloc: Global,
    way: &Way,
    keys: &[Key],
) -> Result<NamedRecords, LookFault>
    ensures found { IfOk result (λ named.
        FindsWithNames way.now keys.now named.found.items named.names) }
    ensures fault { IfErr result (FailsOver way.now keys.now) }
{
    let Looked { found, mut session } = look_and_stay(rt, alloc, way, keys)?;
    let names = read_names(alloc, &mut session, keys);
    Ok(NamedRecords { found, names })
}
