//! The look behind a revert: the record of each request that took back is read once more, and nothing is set.
ghost use Rattle.std.specs.Prelude.{◌≡◌, ◌≤◌, ◌↔◌, ◌++◌, IfOk, None, OnOk};
ghost use Rattle.std.specs.Prelude.{Some, [], false, length, slice_get, take, true};
ghost use Rattle.wire_links.specs.Counted.{none_counted};
ghost use Rattle.record_base.specs.Keys.{same_key};
ghost use Rattle.undo_plans.specs.Requests.{meant};
ghost use Rattle.app_revert.specs.Looks.{IsAmong, IsBroughtBackBy, IsLeft, IsNewEye, IsOf};
ghost use Rattle.app_revert.specs.Looks.{IsOfSome, IsSight, EyeLooksAt, LooksBehind, LooksBy};
ghost use Rattle.app_revert.specs.Looks.{LooksEach, LooksOnce, LooksOnceAt, LooksOver};
ghost use Rattle.app_revert.specs.Looks.{ShowsSo, Tells, TellsNoAnswer, TellsNothing, begun_at, doubts, goes_on_at};
ghost use Rattle.app_revert.specs.Looks.{leaves_alone, selects_none};

use crate::naming::names_behind;
use app_apply::{MOST_TURNS, Reach};
use app_look::{KnownNames, LookEnd, drive_again, drive_look};
use app_run::{BusLinks, open_ends};
use model_lab::lab_names;
use record_base::{EventChange, EventMasks, Key, Op, RecordKind, SetEventEnable};
use record_kinds::Limits;
use record_words::undone_op;
use report_words::Names;
use std::alloc::{AllocError, Global};
use std::net::Net;
use two_wire::Retries;
use undo_core::Manager;
use undo_look::{Looker, Seen, Target};
use undo_plans::{Requests, UndoList, UndoRequest};

/// How often a look sends a request again.
const LOOK_RETRIES: u8 = 3;

/// What a look at a record showed.
#[derive(Clone, Copy, Debug, PartialEq, Eq)]
pub enum Sight {
    /// The record is as the request leaves it that took back.
    AsBefore,
    /// It isn't, or its Get is refused.
    Differs,
    /// The controller didn't answer.
    Unseen,
}

/// A record that isn't as before, or that couldn't be looked at.
#[derive(Clone, Copy)]
pub struct Sighting {
    pub key: Key,
    pub sight: Sight,
}

/// What the looks at records told.
#[derive(Drop)]
pub struct Looked {
    /// The records that aren't as before, and behind them the one that couldn't be looked at.
    pub sightings: Vec<Sighting>,
    /// One isn't as before.
    pub differs: bool,
    /// One couldn't be looked at, and none behind it was. Where none is named here, none at all could be.
    pub unseen: bool,
}

impl Looked {
    /// Of no look.
    pub(crate) fn none(alloc: Global) -> Looked
        ensures { TellsNothing result }
    {
        Looked {
            sightings: Vec::new(alloc),
            differs: false,
            unseen: false,
        }
    }

    /// Of looks that no answer to a greeting, or no link, came before.
    fn unanswered(alloc: Global) -> Looked
        ensures { TellsNoAnswer result }
    {
        Looked {
            sightings: Vec::new(alloc),
            differs: false,
            unseen: true,
        }
    }

    /// Adds what a look at this record showed.
    fn add(&mut self, key: Key, sight: Sight) -> Result<(), AllocError>
        ensures { OnOk result (Tells key sight self.old self.new) }
    {
        match sight {
            Sight::AsBefore => return Ok(()),
            Sight::Differs => self.differs = true,
            Sight::Unseen => self.unseen = true,
        }
        self.sightings.push(Sighting { key, sight })?;
        Ok(())
    }
}

/// A looker, and its links to the controller.
#[derive(Drop)]
pub(crate) struct Eye {
    pub looker: Looker,
    pub ends: BusLinks,
}

// ---- what is shown

/// Whether these are no events.
fn are_none(masks: &EventMasks) -> bool
    ensures { result ≡ selects_none masks.now }
{
    masks.assertions == 0 && masks.deassertions == 0
}

/// Whether the change leaves the enabled events as they are.
fn leaves_events(change: &EventChange) -> bool
    ensures { result ≡ leaves_alone change.now }
{
    match change {
        EventChange::Leave => true,
        EventChange::Enable(masks) | EventChange::Disable(masks) => are_none(masks),
        EventChange::Reserved => false,
    }
}

/// Whether both leave a sensor alike that has no event to change.
fn is_same_sensor(left: &SetEventEnable, back: &SetEventEnable) -> bool
    ensures { (result ≡ true) ↔ ((left.now.messages ≡ back.now.messages)
        × (left.now.scanning ≡ back.now.scanning) × (leaves_alone back.now.change ≡ true)) }
{
    left.messages == back.messages && left.scanning == back.scanning && leaves_events(&back.change)
}

/// Whether what brings the shown value of a record back is the operation: it has the operation's own data; or it enables and disables no event.
fn is_brought_back(op: &Op<'_>, back: &Op<'_>) -> bool
    ensures { (result ≡ true) ↔ IsBroughtBackBy op.now (Some back.now) }
{
    match (op, back) {
        (Op::EventEnable(left), Op::EventEnable(back)) => is_same_sensor(left, back),
        _ => Limits::set_data(back).is(Limits::set_data(op).as_slice()),
    }
}

/// Whether a record that shows this is as the operation leaves it.
fn is_left(op: &Op<'_>, shown: &[u8]) -> bool
    ensures { (result ≡ true) ↔ IsLeft op.now shown.now }
{
    match Limits::inverse(op, shown) {
        Some(back) => is_brought_back(op, &back),
        None => false,
    }
}

/// What a look came to whose Get showed this.
fn sight_by(op: &Op<'_>, shown: &[u8]) -> Sight
    ensures { ShowsSo op.now shown.now result }
{
    if is_left(op, shown) {
        Sight::AsBefore
    } else {
        Sight::Differs
    }
}

/// What a looker saw that looked at the record of this operation.
fn sight_of(op: &Op<'_>, looker: &Looker) -> Sight
    ensures { IsSight op.now looker.now result }
{
    match looker.seen() {
        Some(Seen::Shown(shown)) => sight_by(op, shown),
        Some(Seen::Refused(_)) => Sight::Differs,
        None => Sight::Unseen,
    }
}

// ---- one record

/// Has a looker begin the Get of this record.
fn begin_look(eye: &mut Eye, key: &Key) -> LookEnd
    ensures { LooksBy (begun_at key.now eye.old) eye.old result eye.new }
{
    let ends = &mut eye.ends;
    drive_look(
        &mut eye.looker,
        &Target::Record(*key),
        &mut ends.ipmb,
        &mut ends.smbus,
        MOST_TURNS,
    )
}

/// Has a looker go on whose request isn't heeded.
fn go_on_looking(eye: &mut Eye) -> LookEnd
    ensures { LooksBy (goes_on_at eye.old) eye.old result eye.new }
{
    let ends = &mut eye.ends;
    drive_again(&mut eye.looker, &mut ends.ipmb, &mut ends.smbus, MOST_TURNS)
}

/// Has a looker look at this record. Where a request of that isn't heeded, it goes on, up to so many times.
fn look_at(eye: &mut Eye, key: &Key, agains: u32)
    ensures { EyeLooksAt agains key.now eye.old eye.new }
{
    let mut end = begin_look(eye, key);
    for _ in 0..agains {
        let LookEnd::Silent = end else {
            return;
        };
        end = go_on_looking(eye);
    }
}

/// Whether both are names of one record.
fn is_same_key(one: &Key, other: &Key) -> bool
    ensures { result ≡ same_key one.now other.now }
{
    one.cmp(other).is_eq()
}

/// Whether the request is of this record.
fn is_of(request: &UndoRequest<'_>, key: Key) -> bool
    ensures { (result ≡ true) ↔ IsOf key (meant request.now) }
{
    match undone_op(request) {
        Some(op) => is_same_key(&Limits::key(&op), &key),
        None => false,
    }
}

/// Whether the request of this place is of the record.
fn is_at(requests: &Requests, place: usize, key: Key) -> bool
    ensures { (result ≡ true) ↔ IsOfSome key (slice_get requests.now.members place) }
{
    match requests.get(place) {
        Some(request) => is_of(&request, key),
        None => false,
    }
}

/// Whether one of the first requests, so many, is of this record.
fn has_record(requests: &Requests, count: usize, key: Key) -> bool
    ensures { (result ≡ true) ↔ IsAmong key (take count requests.now.members) }
{
    for place in 0..count {
        if is_at(requests, place, key) {
            return true;
        }
    }
    false
}

/// Looks at the record of a request, unless one of the first of the list, so many, is of that record.
fn look_once(
    eye: &mut Eye,
    list: &Requests,
    count: usize,
    request: &UndoRequest<'_>,
    agains: u32,
    looked: &mut Looked,
) -> Result<(), AllocError>
    ensures { OnOk result (LooksOnce agains (take count list.now.members)
        (meant request.now) eye.old looked.old eye.new looked.new) }
{
    if looked.unseen {
        return Ok(());
    }
    let Some(op) = undone_op(request) else {
        return Ok(());
    };
    let key = Limits::key(&op);
    if has_record(list, count, key) {
        return Ok(());
    }
    look_at(eye, &key, agains);
    let sight = sight_of(&op, &eye.looker);
    looked.add(key, sight)
}

// ---- each record

/// Looks at the record of the request of this place, if there is one, unless one before it is of that record.
fn look_place(
    eye: &mut Eye,
    list: &Requests,
    place: usize,
    agains: u32,
    looked: &mut Looked,
) -> Result<(), AllocError>
    ensures { OnOk result (LooksOnceAt agains (take place list.now.members)
        (slice_get list.now.members place) eye.old looked.old eye.new looked.new) }
{
    match list.get(place) {
        Some(request) => look_once(eye, list, place, &request, agains, looked),
        None => Ok(()),
    }
}

/// Looks at the record of each of the list's requests: at each once, and what the first request leaves of it is what it was before all.
fn look_each(
    eye: &mut Eye,
    list: &Requests,
    agains: u32,
    looked: &mut Looked,
) -> Result<(), AllocError>
    ensures { OnOk result (LooksEach agains [] list.now.members
        eye.old looked.old eye.new looked.new) }
{
    for place in 0..list.len() {
        look_place(eye, list, place, agains, looked)?;
    }
    Ok(())
}

/// Looks behind them at the record of the step in doubt, if there is one.
fn look_doubt(
    eye: &mut Eye,
    list: &Requests,
    doubt: &Requests,
    agains: u32,
    looked: &mut Looked,
) -> Result<(), AllocError>
    requires { length doubt.now.members ≤ 1 }
    ensures { OnOk result (LooksEach agains list.now.members doubt.now.members
        eye.old looked.old eye.new looked.new) }
{
    match doubt.get(0) {
        Some(request) => look_once(eye, list, list.len(), &request, agains, looked),
        None => Ok(()),
    }
}

/// Looks at the record of each of the list's requests, and behind them at that of the step in doubt.
fn look_all(
    eye: &mut Eye,
    list: &Requests,
    doubt: &Requests,
    agains: u32,
    looked: &mut Looked,
) -> Result<(), AllocError>
    requires { length doubt.now.members ≤ 1 }
    ensures { OnOk result (LooksEach agains [] (list.now.members ++ doubt.now.members)
        eye.old looked.old eye.new looked.new) }
{
    look_each(eye, list, agains, looked)?;
    look_doubt(eye, list, doubt, agains, looked)
}

/// A looker that goes on from a list, and these links.
fn new_eye(alloc: Global, list: &UndoList, ends: BusLinks) -> Result<Eye, AllocError>
    requires ipmb { ends.ipmb.counts ≡ none_counted }
    requires smbus { ends.smbus.counts ≡ none_counted }
    ensures { IfOk result (IsNewEye list.now) }
{
    let retries = Retries::new(LOOK_RETRIES);
    let looker = Looker::new(alloc, lab_names(), list.next, retries)?;
    Ok(Eye { looker, ends })
}

/// Looks over these links at the record of each request that took back, and at that of the step that was in doubt. Behind that it reads the names of
/// those that aren't as before.
fn look_over(
    alloc: Global,
    list: &UndoList,
    doubt: &Requests,
    ends: BusLinks,
    agains: u32,
) -> Result<(Looked, KnownNames), AllocError>
    requires ipmb { ends.ipmb.counts ≡ none_counted }
    requires smbus { ends.smbus.counts ≡ none_counted }
    requires doubt { length doubt.now.members ≤ 1 }
    ensures { IfOk result (λ told.
        LooksOver agains list.now doubt.now.members told.0 told.1) }
{
    let mut eye = new_eye(alloc, list, ends)?;
    let mut looked = Looked::none(alloc);
    look_all(&mut eye, &list.requests, doubt, agains, &mut looked)?;
    let names = names_behind(alloc, eye, agains, &looked);
    Ok((looked, names))
}

/// The request that takes back the step that is in doubt, since its Set is open; or none.
pub(crate) fn doubt_of(alloc: Global, manager: &Manager) -> Result<Requests, AllocError>
    ensures { IfOk result (λ doubt. doubt.members ≡ doubts manager.now) }
{
    let mut doubt = Requests::open(alloc, 0, 0)?;
    if let Some(request) = manager.journal().waiting() {
        doubt.add(&request)?;
    }
    Ok(doubt)
}

/// Looks over links of its own at the record of each request that took back, and at that of the step that was in doubt, and reads the names of those
/// that aren't as before. The Gets go on with the list's next numbers, the requests for names go on behind them, and no greeting comes before either:
/// a controller that is greeted forgets what it answered, and carries out a late copy of that.
pub(crate) fn look_behind<R: Net>(
    rt: &R,
    alloc: Global,
    list: &UndoList,
    doubt: &Requests,
    reach: &Reach,
) -> Result<(Looked, KnownNames), AllocError>
    requires { length doubt.now.members ≤ 1 }
    ensures { IfOk result (λ told.
        LooksBehind reach.now.again list.now doubt.now.members told.0 told.1) }
{
    let ends = open_ends(rt, reach.ipmb_port, reach.smbus_or_none(), reach.wait_ms);
    match ends {
        Some(ends) => look_over(alloc, list, doubt, ends, reach.again),
        None => Ok((Looked::unanswered(alloc), Ok(Names::new(alloc)))),
    }
}
