//! Where each key's record lies in an image.
ghost use Rattle.std.specs.Prelude.{◌≡◌, None, Some, IfOk, OnOk, if◌then◌else◌};
ghost use Rattle.record_base.specs.declared.key.Key.{Key as AnyKey};
ghost use Rattle.record_base.specs.Keys.{same_key};
ghost use Rattle.cfg_records.specs.ImagePlaces.{offset_of};

use crate::index::Index;
use crate::sorted_keys::SortedKeys;
use record_base::Key;
use std::alloc::{AllocError, Global};

/// The offset of each key's record. A sensor's is found by the sensor's number, in one step, and any other's in the sorted list.
pub(crate) struct Places {
    sensors: Index,
    others: SortedKeys,
}

// Written out: the crates above would prove a derived one anew.
impl Drop for Places {
    fn drop(self) {
        let Places { sensors, others } = self;
        drop(sensors);
        drop(others);
    }
}

impl Places {
    /// No key has an offset.
    pub fn new(alloc: Global) -> Result<Places, AllocError>
        ensures { IfOk result (λ places. (key : AnyKey) → offset_of places key ≡ None) }
    {
        let sensors = Index::new(alloc)?;
        Ok(Places {
            sensors,
            others: SortedKeys::new(alloc),
        })
    }

    /// The offset of the key's record.
    pub fn find(&self, key: &Key) -> Option<usize>
        ensures { result ≡ offset_of self.now key.now }
    {
        match self.sensors.place_of(key) {
            Some(offset) => Some(offset),
            None => self.others.find(key),
        }
    }

    /// Adds a key that has no offset.
    pub fn insert(&mut self, key: Key, offset: usize) -> Result<(), AllocError>
        requires { offset_of self.old key ≡ None }
        ensures { OnOk result ((k : AnyKey) → offset_of self.new k
            ≡ (if same_key key k then Some offset else offset_of self.old k)) }
    {
        match key.slot() {
            Some(_) => {
                self.sensors.insert(key, offset)?;
                Ok(())
            }
            None => {
                self.others.insert(key, offset)?;
                Ok(())
            }
        }
    }

    /// Notes where keys are looked for first, once all keys are there.
    pub fn note_rows(&mut self)
        ensures { offset_of self.new ≡ offset_of self.old }
    {
        self.others.note_rows();
    }
}
