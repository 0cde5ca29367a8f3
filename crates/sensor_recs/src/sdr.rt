//! The repository of sensor data records.
ghost use Rattle.std.specs.Prelude.{◌≡◌, ◌==◌, length, slice_get, IfOk, IfSome, IfNone};
ghost use Rattle.std.specs.List.{position_or_len};
ghost use Rattle.sel_log.specs.Reservations.{next_number, is_present};
ghost use Rattle.record_base.specs.Sdr.{sdr_id};
ghost use Rattle.sensor_recs.specs.Sdr.{repository_of, place_for, asked_for, id_or_none, id_behind};

use record_base::{AtOnce, Numbered, SdrRecord, SdrRecords};
use sel_log::{FIRST_RECORD, LAST_RECORD, Reservations};
use std::alloc::{AllocError, Global};
use std::marker::Model;

/// A record, and the id of the next record.
#[derive(Drop)]
pub struct SdrEntry<'a> {
    pub kept: &'a SdrRecord,
    /// FFFFh behind the last record.
    pub next: u16,
}

/// The repository of sensor data records. Contracts see it as its list of records and its reservations. It takes all its memory when
/// it is made.
pub struct Sdr {
    records: Vec<SdrRecord>,
    reservations: Reservations,
}

// Written out: the crates above would prove a derived one anew.
impl Drop for Sdr {
    fn drop(self) {
        let Sdr {
            records,
            reservations: _,
        } = self;
        drop(records);
    }
}

impl Model for Sdr {
    ghost use Rattle.std.specs.Prelude.{◌≤◌, length};
    ghost use Rattle.sensor_recs.specs.Sdr.{Repository};

    ghost Value = { Repository };

    ghost view = { λ s. record { records = s.records.items; reservations = s.reservations } };

    ghost invariant = { λ s. length s.records.items ≤ 64 };
}

/// The place of the record with this id, or the number of records where no record has it.
fn place_of_id(records: &[SdrRecord], id: u16) -> usize
    ensures { result ≡ position_or_len (λ bytes. sdr_id bytes == id) records.now }
{
    for (place, kept) in records.iter().enumerate() {
        if kept.number() == id {
            return place;
        }
    }
    records.len()
}

/// The place of the record that the number asks for.
fn place_for(records: &[SdrRecord], number: u16) -> usize
    ensures { result ≡ place_for records.now number }
{
    match number {
        FIRST_RECORD => 0,
        LAST_RECORD => records.len().saturating_sub(1),
        id => place_of_id(records, id),
    }
}

/// The id of the record at the place, FFFFh behind the last record.
fn id_at(records: &[SdrRecord], place: usize) -> u16
    ensures { result ≡ id_or_none (slice_get records.now place) }
{
    match records.get(place) {
        Some(kept) => kept.number(),
        None => LAST_RECORD,
    }
}

impl Sdr {
    /// A repository of these records, of which nobody has a reservation yet.
    pub fn new(alloc: Global, records: &SdrRecords) -> Result<Self, AllocError>
        ensures { IfOk result (λ s. s ≡ repository_of records.now.items) }
    {
        let records = records.items.as_slice().iter();
        let kept: AtOnce<SdrRecord> = records.map(|kept| kept.copy()).collect(alloc)?;
        Ok(Sdr {
            records: kept.items,
            reservations: Reservations::new(),
        })
    }

    /// How many records the repository has.
    pub fn count(&self) -> u16
        ensures { result ≡ length self.now.records }
    {
        self.records.len() as u16
    }

    /// The record with this id. `FIRST_RECORD` asks for the first, and `LAST_RECORD` for the last.
    pub fn entry(&self, number: u16) -> Option<SdrEntry<'_>>
        ensures kept { IfSome result (λ e. asked_for self.now.records number ≡ Some e.kept.now) }
        ensures next { IfSome result (λ e. e.next ≡ id_behind self.now.records number) }
        ensures missing { IfNone result (asked_for self.now.records number ≡ None) }
    {
        let records = self.records.as_slice();
        let place = place_for(records, number);
        let Some(kept) = records.get(place) else {
            return None;
        };
        let next = id_at(records, place + 1);
        Some(SdrEntry { kept, next })
    }

    /// Gives the next reservation.
    pub fn reserve(&mut self) -> u16
        ensures number { result ≡ next_number self.old.reservations.last }
        ensures after { self.new
            ≡ record self.old { reservations = record { present = result; last = result } } }
    {
        self.reservations.reserve()
    }

    /// Whether the number is the present reservation. 0000h is no reservation.
    pub fn is_reserved(&self, number: u16) -> bool
        ensures { result ≡ is_present self.now.reservations number }
    {
        self.reservations.is_present(number)
    }
}
