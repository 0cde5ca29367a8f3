//! The place of each record, found by its key.
ghost use Rattle.std.specs.Prelude.{◌≡◌, ℕ, Some, None, IfOk, slice_index_or, slice_set, if◌then◌else◌};
ghost use Rattle.record_base.specs.declared.key.Key.{Key as AnyKey};
ghost use Rattle.record_base.specs.Keys.{same_key};
ghost use Rattle.cfg_records.specs.Index.{place_at, place_of};

use record_base::Key;
use record_base::key::SENSOR_KINDS;
use std::alloc::{AllocError, Global};
use std::collections::BTreeMap;

/// For each kind of record that a sensor has, and each number of a sensor, the place of its record.
#[derive(Drop)]
struct SensorPlaces {
    tables: [[Option<usize>; 256]; SENSOR_KINDS],
}

/// For each key, the place of its record in a list. A sensor's records are found by its number, in one step. Their tables lie in
/// memory of their own, so that a board is moved without them.
pub struct Index {
    sensors: Box<SensorPlaces>,
    others: BTreeMap<Key, usize>,
}

// Written out: the crates above would prove a derived one anew.
impl Drop for Index {
    fn drop(self) {
        let Index { sensors, others } = self;
        drop(sensors);
        drop(others);
    }
}

impl SensorPlaces {
    /// No record has a place.
    fn new() -> SensorPlaces
        ensures { (table number : ℕ) → place_at result (table, number) ≡ None }
    {
        SensorPlaces {
            tables: [[None; 256]; SENSOR_KINDS],
        }
    }
}

/// Puts the sensor's record at this place, and gives the place that it had.
fn put(table: &mut [Option<usize>; 256], sensor: u8, place: usize) -> Option<usize>
    ensures old { result ≡ slice_index_or table.old sensor None }
    ensures new { table.new ≡ slice_set table.old sensor (Some place) }
{
    let entry = &mut table[usize::from(sensor)];
    let old = *entry;
    *entry = Some(place);
    old
}

impl Index {
    /// No key has a place.
    pub fn new(alloc: Global) -> Result<Index, AllocError>
        ensures { IfOk result (λ index. (key : AnyKey) → place_of index key ≡ None) }
    {
        match Box::new(alloc, SensorPlaces::new()) {
            Ok(sensors) => Ok(Index {
                sensors,
                others: BTreeMap::new(alloc),
            }),
            Err(_) => Err(AllocError),
        }
    }

    /// The place of the key's record.
    pub fn place_of(&self, key: &Key) -> Option<usize>
        ensures { result ≡ place_of self.now key.now }
    {
        match key.slot() {
            Some((table, sensor)) => self.sensors.tables[table][usize::from(sensor)],
            None => self.others.get(key).copied(),
        }
    }

    /// Puts the key's record at this place, and gives the place that it had.
    pub fn insert(&mut self, key: Key, place: usize) -> Result<Option<usize>, AllocError>
        ensures old { IfOk result (λ found. found ≡ place_of self.old key) }
        ensures updates { IfOk result (λ found. (k : AnyKey) → place_of self.new k
            ≡ (if same_key key k then Some place else place_of self.old k)) }
    {
        if let Some((table, sensor)) = key.slot() {
            return Ok(put(&mut self.sensors.tables[table], sensor, place));
        }
        match self.others.insert(key, place) {
            Ok(old) => Ok(old),
            Err(_) => Err(AllocError),
        }
    }
}
