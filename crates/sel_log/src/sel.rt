//! The log.
ghost use Rattle.std.specs.Prelude.{◌≡◌, ℕ, ◌<◌, ◌≤◌, ◌↔◌, List, length, slice_get, IfOk, IfSome, IfNone};
ghost use Rattle.two_wire.specs.LogSize.{most_log_records};
ghost use Rattle.sel_log.specs.Clock.{clock_at, ticked};
ghost use Rattle.sel_log.specs.Reservations.{next_number, is_present};
ghost use Rattle.sel_log.specs.LogRecord.{id_of};
ghost use Rattle.sel_log.specs.Sound.{CountFrom};
ghost use Rattle.sel_log.specs.Log.{IsCapacity, new_log, add_answer, after_add, asked_for, id_behind, clear_answer, after_clear, info_of};

use crate::clock::Clock;
use crate::info::Info;
use crate::log_record::{LogRecord, RECORD_SIZE};
use crate::reservations::Reservations;
use std::alloc::Global;
use std::marker::Model;
use two_wire::Code;
use two_wire::code::{OUT_OF_SPACE, RESERVATION_CANCELED};
use two_wire::log_size::{LEAST_LOG_RECORDS, MOST_LOG_RECORDS};

/// The number that stands for the first record.
pub const FIRST_RECORD: u16 = 0x0000;

/// The number that stands for the last record, and for no record behind it.
pub const LAST_RECORD: u16 = 0xFFFF;

/// Why no log is made.
#[derive(Clone, Copy, Debug, PartialEq, Eq)]
pub enum SelFault {
    /// Memory was refused.
    Memory,
    /// A log can't have so few records, or so many.
    Capacity,
}

/// A record, and the id of the one behind it.
#[derive(Drop)]
pub struct Entry<'a> {
    pub kept: &'a LogRecord,
    /// FFFFh where no record is behind it.
    pub next: u16,
}

/// The log. It is seen as its list of records, with what else it keeps. All its memory is taken when it is made.
pub struct Sel {
    records: Vec<LogRecord>,
    capacity: u16,
    overflow: bool,
    last_add: u32,
    last_clear: u32,
    reservations: Reservations,
    clock: Clock,
}

// Written out: the crates above would prove a derived one anew.
impl Drop for Sel {
    fn drop(self) {
        let Sel {
            records,
            capacity: _,
            overflow: _,
            last_add: _,
            last_clear: _,
            reservations: _,
            clock: _,
        } = self;
        drop(records);
    }
}

impl Model for Sel {
    ghost use Rattle.std.specs.Vec.{vec_capacity};
    ghost use Rattle.sel_log.specs.Log.{Log};
    ghost use Rattle.sel_log.specs.Sound.{IsSoundLog};

    ghost Value = { Log };

    ghost view = { λ s. record {
      capacity = s.capacity;
      records = s.records.items;
      overflow = s.overflow;
      last_add = s.last_add;
      last_clear = s.last_clear;
      reservations = s.reservations;
      clock = s.clock;
    } };

    ghost invariant = { λ s. IsSoundLog s.capacity (vec_capacity s.records) s.records.items };
}

impl Sel {
    /// A log without records, whose clock shows 0. It can have so many records, from `LEAST_LOG_RECORDS` to `MOST_LOG_RECORDS`.
    pub fn new(alloc: Global, capacity: u16) -> Result<Self, SelFault>
        ensures made { IfOk result (λ s. s ≡ new_log capacity) }
        ensures within { IfOk result (λ _. IsCapacity capacity) }
        ensures capacity { (result ≡ Err SelFault.Capacity) ↔ ¬ IsCapacity capacity }
    {
        if capacity < LEAST_LOG_RECORDS || capacity > MOST_LOG_RECORDS {
            return Err(SelFault::Capacity);
        }
        let Ok(records) = Vec::with_capacity(alloc, usize::from(capacity)) else {
            return Err(SelFault::Memory);
        };
        Ok(Sel {
            records,
            capacity,
            overflow: false,
            last_add: 0,
            last_clear: 0,
            reservations: Reservations::new(),
            clock: Clock::at(0),
        })
    }

    /// Adds a record behind the others, under the next id, which is told. A full log refuses it and says from then on that it
    /// overflowed.
    pub fn add(&mut self, given: &LogRecord) -> Result<u16, Code>
        ensures answer { result ≡ add_answer self.old }
        ensures after { self.new ≡ after_add self.old given.now }
    {
        let count = self.records.len() as u16;
        if count >= self.capacity {
            self.overflow = true;
            return Err(OUT_OF_SPACE);
        }
        let id = count + 1;
        let time = self.clock.seconds();
        self.records.push_reserved(given.kept(id, time));
        self.last_add = time;
        Ok(id)
    }

    /// The record with this id. `FIRST_RECORD` asks for the first, and `LAST_RECORD` for the last.
    pub fn entry(&self, number: u16) -> Option<Entry<'_>>
        ensures kept { IfSome result (λ e. asked_for self.now.records number ≡ Some e.kept.now) }
        ensures next { IfSome result (λ e. e.next ≡ id_behind self.now.records (id_of e.kept.now)) }
        ensures missing { IfNone result (asked_for self.now.records number ≡ None) }
    {
        let place = place_of(self.records.as_slice(), number);
        let Some(kept) = self.records.get(place) else {
            return None;
        };
        let next = id_behind(self.records.as_slice(), place);
        Some(Entry { kept, next })
    }

    /// Gives the next reservation.
    pub fn reserve(&mut self) -> u16
        ensures number { result ≡ next_number self.old.reservations.last }
        ensures after { self.new
            ≡ record self.old { reservations = record { present = result; last = result } } }
    {
        self.reservations.reserve()
    }

    /// Whether the number is the present reservation. 0000h never is.
    pub fn is_reserved(&self, number: u16) -> bool
        ensures { result ≡ is_present self.now.reservations number }
    {
        self.reservations.is_present(number)
    }

    /// Lets go of all records and of the reservation, which must be the present one. Nothing changes where it isn't.
    pub fn clear(&mut self, reservation: u16) -> Result<(), Code>
        ensures answer { result ≡ clear_answer self.old reservation }
        ensures after { self.new ≡ after_clear self.old reservation }
    {
        if !self.reservations.is_present(reservation) {
            return Err(RESERVATION_CANCELED);
        }
        self.records.clear();
        self.overflow = false;
        self.last_clear = self.clock.seconds();
        self.reservations.end();
        Ok(())
    }

    /// What is told of the log.
    pub fn info(&self) -> Info
        ensures { result ≡ info_of self.now }
    {
        let count = self.records.len() as u16;
        Info {
            count,
            free_bytes: RECORD_SIZE as u16 * (self.capacity - count),
            last_add: self.last_add,
            last_clear: self.last_clear,
            overflow: self.overflow,
        }
    }

    /// The seconds that the log's clock shows.
    pub fn time(&self) -> u32
        ensures { result ≡ self.now.clock.seconds }
    {
        self.clock.seconds()
    }

    /// Sets the clock.
    pub fn set_time(&mut self, seconds: u32)
        ensures { self.new ≡ record self.old { clock = clock_at seconds } }
    {
        self.clock = Clock::at(seconds);
    }

    /// A tenth of a second has passed.
    pub fn tick(&mut self)
        ensures { self.new ≡ record self.old { clock = ticked self.old.clock } }
    {
        self.clock.tick();
    }
}

/// Where the record stands that the number asks for.
fn place_of(records: &[LogRecord], number: u16) -> usize
    requires { CountFrom 1 records.now }
    ensures { asked_for records.now number ≡ slice_get records.now result }
{
    match number {
        FIRST_RECORD => 0,
        LAST_RECORD => records.len().saturating_sub(1),
        id => usize::from(id) - 1,
    }
}

/// The id of the record behind the one at this place.
fn id_behind(records: &[LogRecord], place: usize) -> u16
    requires counted { CountFrom 1 records.now }
    requires few { length records.now ≤ most_log_records }
    requires within { place < length records.now }
    ensures { (r : List ℕ) → slice_get records.now place ≡ Some r
        → result ≡ id_behind records.now (id_of r) }
{
    if place + 1 == records.len() {
        LAST_RECORD
    } else {
        place as u16 + 2
    }
}
