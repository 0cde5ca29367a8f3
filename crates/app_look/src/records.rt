//! Looks at records, one after another.
ghost use Rattle.std.specs.Prelude.{IfErr, IfOk};
ghost use Rattle.app_look.specs.declared.look_driver.LookEnd.{LookEnd as AnyEnd};
ghost use Rattle.app_look.specs.Findings.{FailsOver, Finds, FindsEach, IsKeptOf};
ghost use Rattle.app_look.specs.Findings.{StaysOver, StopsAt};
ghost use Rattle.app_look.specs.Looking.{LooksAt};

use crate::buses::looks_use;
use crate::session::{OpenFault, Session, Way};
use record_base::Key;
use std::alloc::{AllocError, Global};
use std::net::Net;
use two_wire::{Bus, Code};
use undo_look::Seen;

/// What the Get of a record came to.
#[derive(Drop)]
pub enum Came {
    /// These are the data that it shows.
    Shown(Vec<u8>),
    /// It was refused with this code.
    Refused(Code),
}

/// What was found of a record.
#[derive(Drop)]
pub struct Found {
    pub key: Key,
    pub came: Came,
}

/// Why not each record was looked at.
#[derive(Clone, Copy, Debug)]
pub enum StopFault {
    /// Memory was refused.
    Memory,
    /// The Get of the record at this place wasn't answered.
    Silent(usize),
}

/// Why it isn't known of each record what its Get shows.
#[derive(Clone, Copy, Debug)]
pub enum LookFault {
    /// No look was made.
    Unopened(OpenFault),
    /// Looks were made, and not all.
    Stopped(StopFault),
}

/// What a look came to, with the data in memory of their own.
fn came_of(alloc: Global, seen: Seen<'_>) -> Result<Came, AllocError>
    ensures { IfOk result (IsKeptOf seen.entry) }
{
    match seen {
        Seen::Shown(bytes) => Ok(Came::Shown(Vec::from_slice(alloc, bytes)?)),
        Seen::Refused(code) => Ok(Came::Refused(code)),
    }
}

/// Looks at a record, and gives what was found, or nothing where its Get wasn't answered.
fn look_once(alloc: Global, session: &mut Session, key: &Key) -> Result<Option<Found>, AllocError>
    ensures found { IfOk result (λ told. Finds session.old key.now told session.new) }
    ensures looked { (end : AnyEnd) × LooksAt session.old key.now end session.new }
{
    session.look(key);
    let Some(seen) = session.seen() else {
        return Ok(None);
    };
    let came = came_of(alloc, seen)?;
    Ok(Some(Found { key: *key, came }))
}

/// Looks at each of these records, one after another. The first whose Get isn't answered ends that.
pub fn look_at_each(
    alloc: Global,
    session: &mut Session,
    keys: &[Key],
) -> Result<Vec<Found>, StopFault>
    ensures found { IfOk result (λ found.
        FindsEach keys.now found.items session.old session.new) }
    ensures stopped { IfErr result (λ why. StopsAt keys.now why session.old session.new) }
{
    let Ok(mut found) = Vec::with_capacity(alloc, keys.len()) else {
        return Err(StopFault::Memory);
    };
    for place in 0..keys.len() {
        match look_once(alloc, session, &keys[place]) {
            Ok(Some(one)) => found.push_reserved(one),
            Ok(None) => return Err(StopFault::Silent(place)),
            Err(AllocError) => return Err(StopFault::Memory),
        }
    }
    Ok(found)
}

/// What was found of records, and the session that looked at them.
#[derive(Drop)]
pub struct Looked {
    pub found: Vec<Found>,
    pub session: Session,
}

/// Greets a controller on the buses on which the Gets of these records go, and looks at each of them. The session can go on.
pub fn look_and_stay<R: Net>(
    rt: &R,
    alloc: Global,
    way: &Way,
    keys: &[Key],
) -> Result<Looked, LookFault>
    ensures found { IfOk result (λ looked.
        StaysOver way.now keys.now looked.found.items looked.session) }
    ensures fault { IfErr result (FailsOver way.now keys.now) }
{
    let ipmb = looks_use(keys, Bus::Ipmb);
    let smbus = looks_use(keys, Bus::Smbus);
    let mut session = match Session::open(rt, alloc, way, ipmb, smbus) {
        Ok(session) => session,
        Err(why) => return Err(LookFault::Unopened(why)),
    };
    match look_at_each(alloc, &mut session, keys) {
        Ok(found) => Ok(Looked { found, session }),
        Err(why) => Err(LookFault::Stopped(why)),
    }
}
