//! Records in a list, found by their keys.
ghost use Rattle.std.specs.Prelude.{◌≡◌, ◌↔◌, IfOk, OnOk, IfSome, IsSome, Err, IsTrue};
ghost use Rattle.record_base.specs.declared.key.Key.{Key as AnyKey};
ghost use Rattle.cfg_records.specs.Boards.{pairs_of};
ghost use Rattle.cfg_records.specs.Index.{place_of};
ghost use Rattle.cfg_records.specs.Places.{value_at, ArePlaced};
ghost use Rattle.cfg_records.specs.PlacesLaws.{ArePlaced-prop};
ghost use Rattle.cfg_records.specs.Records.{records_of, KeysDiffer, LengthsFit};

use crate::board_file::BoardFile;
use crate::index::Index;
use crate::kept_record::KeptRecord;
use crate::store::Store;
use record_base::{Key, StartValue};
use std::alloc::{AllocError, Global};

/// Why no store is made: the first that holds.
#[derive(Clone, Copy, Debug, PartialEq, Eq)]
pub enum StoreFault {
    /// Memory was refused.
    Memory,
    /// Two pairs have one key.
    TwiceTheSameKey,
    /// A value has a length that its key's kind hasn't.
    BadValue,
}

/// Records in a list, and for each key its record's place there.
pub struct PlainStore {
    records: Vec<KeptRecord>,
    places: Index,
    ghost placed: { ArePlaced records.items (place_of places) } by { ArePlaced-prop records.items (place_of places) },
}

// Written out: the crates above would prove a derived one anew.
impl Drop for PlainStore {
    fn drop(self) {
        let PlainStore { records, places } = self;
        drop(records);
        drop(places);
    }
}

impl PlainStore {
    /// A store of these pairs.
    pub fn new(alloc: Global, pairs: &[(Key, StartValue)]) -> Result<Self, StoreFault>
        ensures records { IfOk result
            (λ s. ⟦<PlainStore as Store>⟧.records s ≡ records_of pairs.now) }
        ensures differ { OnOk result (KeysDiffer pairs.now) }
        ensures fit { OnOk result (LengthsFit pairs.now) }

        ensures twice { result ≡ Err StoreFault.TwiceTheSameKey → ¬ KeysDiffer pairs.now }
        // Keys are looked at before values.
        ensures bad_keys { result ≡ Err StoreFault.BadValue → KeysDiffer pairs.now }
        ensures bad { result ≡ Err StoreFault.BadValue → ¬ LengthsFit pairs.now }
    {
        let places = match places_in(alloc, pairs) {
            Ok(Some(places)) => places,
            Ok(None) => return Err(StoreFault::TwiceTheSameKey),
            Err(_) => return Err(StoreFault::Memory),
        };
        let Ok(records) = kept_records(alloc, pairs) else {
            return Err(StoreFault::Memory);
        };
        if !lengths_fit(pairs) {
            return Err(StoreFault::BadValue);
        }
        Ok(PlainStore { records, places })
    }

    /// A store of the records that a board begins with.
    pub fn of_file(alloc: Global, file: &BoardFile) -> Result<Self, AllocError>
        ensures { IfOk result
            (λ s. ⟦<PlainStore as Store>⟧.records s ≡ records_of (pairs_of file.now)) }
    {
        let pairs = file.records(alloc)?;
        match PlainStore::new(alloc, pairs.as_slice()) {
            Ok(store) => Ok(store),
            Err(StoreFault::Memory) => Err(AllocError),
            Err(StoreFault::TwiceTheSameKey | StoreFault::BadValue) => unreachable!(),
        }
    }
}

/// The place of each pair, found by its key, or nothing where two pairs have one key.
fn places_in(alloc: Global, pairs: &[(Key, StartValue)]) -> Result<Option<Index>, AllocError>
    ensures placed { IfOk result (λ made. IfSome made
        (λ places. ArePlaced pairs.now (place_of places))) }
    ensures written { IfOk result (λ made. IfSome made (λ places. (key : AnyKey) →
        value_at pairs.now (place_of places key) ≡ records_of pairs.now key)) }
    ensures differ { IfOk result (λ made. IsSome made ↔ KeysDiffer pairs.now) }
{
    let mut places = Index::new(alloc)?;
    for (place, (key, _)) in pairs.iter().enumerate() {
        if places.insert(*key, place)?.is_some() {
            return Ok(None);
        }
    }
    Ok(Some(places))
}

/// A record of each pair, in the pairs' order.
fn kept_records(alloc: Global, pairs: &[(Key, StartValue)]) -> Result<Vec<KeptRecord>, AllocError>
    ensures { IfOk result (λ records. records.items ≡ pairs.now) }
{
    let mut records = Vec::new(alloc);
    for (key, value) in pairs {
        records.push(KeptRecord::new(alloc, *key, value.as_slice())?)?;
    }
    Ok(records)
}

/// Whether each value has a length of its key's kind.
fn lengths_fit(pairs: &[(Key, StartValue)]) -> bool
    ensures { IsTrue result ↔ LengthsFit pairs.now }
{
    pairs.iter().all(|p| p.0.is_length(p.1.len()))
}

impl Store for PlainStore {
    ghost use Rattle.cfg_records.specs.Index.{place_of};
    ghost use Rattle.cfg_records.specs.Places.{value_at};

    type Place = usize;

    ghost records = { λ s key. value_at s.records.items (place_of s.places key) };

    ghost places = { λ s. place_of s.places };

    fn find(&self, key: &Key) -> Option<usize> {
        self.places.place_of(key)
    }

    fn value(&self, place: usize) -> &[u8] {
        self.records[place].value()
    }

    fn write(&mut self, place: usize, value: &[u8]) {
        self.records[place].write(value);
    }
}
