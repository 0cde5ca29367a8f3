//! Lists of events and of calls, whose bytes lie one behind another.
//!
//! What is added is written at the end, and takes no memory: so the list grows from one line of the processor's cache to the next. All of the
//! room is written once at the opening: the system finds the memory of a page when it's first written, and a call that holds a board's lock
//! would wait for that. The bytes are there from then on, and what is added is copied over them.
ghost use Rattle.std.specs.Prelude.{◌≡◌, ◌+◌, ◌<◌, ◌≤◌, ◌++◌, [], IfOk, length, take, slice_get};
ghost use Rattle.two_wire.specs.Sizes.{most_pldm_reply_data};
ghost use Rattle.bmc_shared.specs.Calls.{GainsEvent, GainsCall};
ghost use Rattle.bmc_shared.specs.Entries.{IsBlank, call_of, exchanged, most_request};
ghost use Rattle.bmc_shared.specs.declared.event.Call.TheVariants.{Benched};

use crate::entry::{Head, Mark};
use crate::event::{Call, Event};
use bmc_board::{AskedRef, Bench, NoSensor};
use std::alloc::{AllocError, Global};
use std::marker::Model;
use two_wire::size::{MOST_PLDM_REPLY_DATA, MOST_PLDM_REQUEST_DATA};

/// The most bytes that an event has.
const MOST_BYTES: usize = MOST_PLDM_REQUEST_DATA + MOST_PLDM_REPLY_DATA;

/// Events in order.
pub struct Events {
    marks: Vec<Mark>,
    /// How many of the bytes are those of events. The others have no meaning.
    written: usize,
    bytes: Vec<u8>,
    room: usize,
}

// Written out: the crates above would prove a derived one anew.
impl Drop for Events {
    fn drop(self) {
        let Events {
            marks,
            written: _,
            bytes,
            room: _,
        } = self;
        drop(marks);
        drop(bytes);
    }
}

impl Model for Events {
    ghost use Rattle.std.specs.Prelude.{All, map, take, length, vec_len, vec_capacity};
    ghost use Rattle.bmc_shared.specs.Entries.{EventList, HasRoom, EntryLies, event_of};

    ghost Value = { EventList };

    ghost view = { λ e. record {
      items = map (event_of (take e.written e.bytes.items)) e.marks.items;
      room = e.room;
    } };

    ghost invariant = { λ e. All (EntryLies e.written) e.marks.items
        × HasRoom e.room (vec_len e.marks) (vec_capacity e.marks)
        e.written (length e.bytes.items) };
}

/// Puts these bytes behind the first so many, over those that are there.
fn put(bytes: &mut [u8], at: usize, more: &[u8])
    requires { at + length more.now ≤ length bytes.old }
    ensures put { take (at + length more.now) bytes.new ≡ take at bytes.old ++ more.now }
    ensures length { length bytes.new ≡ length bytes.old }
{
    bytes[at..at + more.len()].copy_from_slice(more);
}

impl Events {
    /// No events, with room for so many.
    pub(crate) fn open(alloc: Global, room: usize) -> Result<Self, AllocError>
        ensures items { IfOk result (λ events. events.items ≡ []) }
        ensures room { IfOk result (λ events. events.room ≡ room) }
    {
        let Some(most) = room.checked_mul(MOST_BYTES) else {
            return Err(AllocError);
        };
        let mut marks = Vec::with_capacity(alloc, room)?;
        marks.resize(room, Mark::blank())?;
        marks.clear();
        let mut bytes = Vec::with_capacity(alloc, most)?;
        bytes.resize(most, 0)?;
        Ok(Events {
            marks,
            written: 0,
            bytes,
            room,
        })
    }

    /// How many events there are.
    pub fn len(&self) -> usize
        ensures { result ≡ length self.now.items }
    {
        self.marks.len()
    }

    /// The event at a place, if there is one.
    pub fn get(&self, place: usize) -> Option<Event>
        ensures { result ≡ slice_get self.now.items place }
    {
        match self.marks.get(place) {
            Some(mark) => Some(mark.event(&self.bytes[..self.written])),
            None => None,
        }
    }

    /// Adds a seat's call of this head, and of these bytes.
    fn gain(&mut self, seat: u8, head: Head, request: &[u8], reply: &[u8])
        requires room { length self.old.items < self.old.room }
        requires request { length request.now ≤ most_request head }
        requires reply { length reply.now ≤ most_pldm_reply_data }
        ensures items { GainsEvent self.old.items self.new.items
            seat (call_of head request.now reply.now) }
        ensures room { self.new.room ≡ self.old.room }
    {
        let start = self.written;
        let middle = start + request.len();
        let end = middle + reply.len();
        let mark = Mark {
            seat,
            head,
            request: start,
            reply: middle,
            end,
        };
        let bytes = self.bytes.as_mut_slice();
        put(bytes, start, request);
        put(bytes, middle, reply);
        self.written = end;
        self.marks.push_reserved(mark);
    }

    /// Adds a seat's call of this request, and of the reply of this code and data.
    pub(crate) fn gain_exchange(&mut self, seat: u8, asked: &AskedRef<'_>, code: u8, body: &[u8])
        requires room { length self.old.items < self.old.room }
        requires fits { length body.now ≤ most_pldm_reply_data }
        ensures items { GainsEvent self.old.items self.new.items
            seat (exchanged asked.now code body.now) }
        ensures room { self.new.room ≡ self.old.room }
    {
        let (head, request) = Head::of(asked, code);
        self.gain(seat, head, request, body);
    }

    /// Adds a seat's call of this that happened, and this answer.
    pub(crate) fn gain_bench(&mut self, seat: u8, bench: &Bench, answered: Result<(), NoSensor>)
        requires { length self.old.items < self.old.room }
        ensures items { GainsEvent self.old.items self.new.items seat (Benched bench.now answered) }
        ensures room { self.new.room ≡ self.old.room }
    {
        let head = Head::Happened {
            bench: *bench,
            answered,
        };
        self.gain(seat, head, &[], &[]);
    }
}

/// Calls in order: the events of a seat, which keeps its number itself.
pub struct Calls {
    events: Events,
}

// Written out: the crates above would prove a derived one anew.
impl Drop for Calls {
    fn drop(self) {
        let Calls { events } = self;
        drop(events);
    }
}

/// The number that the events of a list of calls have. It says nothing.
const ANY_SEAT: u8 = 0;

impl Model for Calls {
    ghost use Rattle.bmc_shared.specs.Entries.{CallList, calls_in};

    ghost Value = { CallList };

    ghost view = { λ c. record { items = calls_in c.events.items; room = c.events.room } };
}

impl Calls {
    /// No calls, with room for so many.
    pub fn open(alloc: Global, room: usize) -> Result<Self, AllocError>
        ensures { IfOk result (IsBlank room) }
    {
        match Events::open(alloc, room) {
            Ok(events) => Ok(Calls { events }),
            Err(refused) => Err(refused),
        }
    }

    /// How many calls there are.
    pub fn len(&self) -> usize
        ensures { result ≡ length self.now.items }
    {
        self.events.len()
    }

    /// The call at a place, if there is one.
    pub fn get(&self, place: usize) -> Option<Call>
        ensures { result ≡ slice_get self.now.items place }
    {
        match self.events.get(place) {
            Some(event) => Some(event.call),
            None => None,
        }
    }

    /// Adds the call of this request, and of the reply of this code and data.
    pub fn gain_exchange(&mut self, asked: &AskedRef<'_>, code: u8, body: &[u8])
        requires room { length self.old.items < self.old.room }
        requires fits { length body.now ≤ most_pldm_reply_data }
        ensures items { GainsCall self.old.items self.new.items
            (exchanged asked.now code body.now) }
        ensures room { self.new.room ≡ self.old.room }
    {
        self.events.gain_exchange(ANY_SEAT, asked, code, body);
    }

    /// Adds the call of this that happened, and this answer.
    pub fn gain_bench(&mut self, bench: &Bench, answered: Result<(), NoSensor>)
        requires { length self.old.items < self.old.room }
        ensures items { GainsCall self.old.items self.new.items (Benched bench.now answered) }
        ensures room { self.new.room ≡ self.old.room }
    {
        self.events.gain_bench(ANY_SEAT, bench, answered);
    }
}
