//! Records in one byte image, found by their keys.
ghost use Rattle.std.specs.Prelude.{◌≡◌, ◌↔◌, IfOk, OnOk, Err, IsTrue};
ghost use Rattle.std.specs.List.{list_any};
ghost use Rattle.record_base.specs.Keys.{same_key};
ghost use Rattle.cfg_records.specs.Boards.{pairs_of};
ghost use Rattle.cfg_records.specs.Records.{records_of, KeysDiffer, LengthsFit};
ghost use Rattle.cfg_records.specs.Image.{IsImage, records_in};
ghost use Rattle.cfg_records.specs.ImageLaws.{IsImage-prop};
ghost use Rattle.cfg_records.specs.ImagePlaces.{offset_of};

use crate::board_file::BoardFile;
use crate::image::{add, value_at, write_at};
use crate::image_places::Places;
use crate::plain_store::StoreFault;
use crate::store::Store;
use record_base::{Key, StartValue};
use std::alloc::{AllocError, Global};

/// Records in one byte image, and where each of them lies there.
pub struct PackedStore {
    bytes: Vec<u8>,
    places: Places,
    ghost image: { IsImage bytes.items (offset_of places) } by { IsImage-prop bytes.items (offset_of places) },
}

// Written out: the crates above would prove a derived one anew.
impl Drop for PackedStore {
    fn drop(self) {
        let PackedStore { bytes, places } = self;
        drop(bytes);
        drop(places);
    }
}

/// Whether one of the pairs has the key.
fn has_key(pairs: &[(Key, StartValue)], key: &Key) -> bool
    ensures { result ≡ list_any (λ pair. same_key pair.0 key.now) pairs.now }
{
    pairs.iter().any(|pair| pair.0.cmp(key).is_eq())
}

/// Whether no two of the pairs have the same key.
fn keys_differ(pairs: &[(Key, StartValue)]) -> bool
    ensures { IsTrue result ↔ KeysDiffer pairs.now }
{
    for (place, pair) in pairs.iter().enumerate() {
        if has_key(&pairs[..place], &pair.0) {
            return false;
        }
    }
    true
}

fn lengths_fit(pairs: &[(Key, StartValue)]) -> bool
    ensures { IsTrue result ↔ LengthsFit pairs.now }
{
    pairs.iter().all(|p| p.0.is_length(p.1.len()))
}

impl PackedStore {
    /// An image of these pairs.
    fn pack(alloc: Global, pairs: &[(Key, StartValue)]) -> Result<Self, AllocError>
        requires differ { KeysDiffer pairs.now }
        requires fit { LengthsFit pairs.now }
        ensures { IfOk result
            (λ s. records_in s.bytes.items (offset_of s.places) ≡ records_of pairs.now) }
    {
        let mut places = Places::new(alloc)?;
        let mut bytes = Vec::new(alloc);
        for (key, value) in pairs {
            places.insert(*key, bytes.len())?;
            add(&mut bytes, key.longest(), value.as_slice())?;
        }
        places.note_rows();
        Ok(PackedStore { bytes, places })
    }

    /// A store of these pairs.
    pub fn new(alloc: Global, pairs: &[(Key, StartValue)]) -> Result<Self, StoreFault>
        ensures records { IfOk result
            (λ s. ⟦<PackedStore as Store>⟧.records s ≡ records_of pairs.now) }
        ensures differ { OnOk result (KeysDiffer pairs.now) }
        ensures fit { OnOk result (LengthsFit pairs.now) }

        ensures twice { result ≡ Err StoreFault.TwiceTheSameKey → ¬ KeysDiffer pairs.now }
        // Keys are looked at before values.
        ensures bad_keys { result ≡ Err StoreFault.BadValue → KeysDiffer pairs.now }
        ensures bad { result ≡ Err StoreFault.BadValue → ¬ LengthsFit pairs.now }
    {
        if !keys_differ(pairs) {
            return Err(StoreFault::TwiceTheSameKey);
        }
        if !lengths_fit(pairs) {
            return Err(StoreFault::BadValue);
        }
        match PackedStore::pack(alloc, pairs) {
            Ok(store) => Ok(store),
            Err(AllocError) => Err(StoreFault::Memory),
        }
    }

    /// A store of the records that a board begins with.
    pub fn of_file(alloc: Global, file: &BoardFile) -> Result<Self, AllocError>
        ensures { IfOk result
            (λ s. ⟦<PackedStore as Store>⟧.records s ≡ records_of (pairs_of file.now)) }
    {
        let pairs = file.records(alloc)?;
        PackedStore::pack(alloc, pairs.as_slice())
    }
}

impl Store for PackedStore {
    ghost use Rattle.cfg_records.specs.Image.{records_in as in_image};
    ghost use Rattle.cfg_records.specs.ImagePlaces.{offset_of};

    type Place = usize;

    ghost records = { λ s. in_image s.bytes.items (offset_of s.places) };

    ghost places = { λ s. offset_of s.places };

    fn find(&self, key: &Key) -> Option<usize> {
        self.places.find(key)
    }

    fn value(&self, place: usize) -> &[u8] {
        value_at(self.bytes.as_slice(), place)
    }

    fn write(&mut self, place: usize, value: &[u8]) {
        write_at(self.bytes.as_mut_slice(), place, value);
    }
}
