//! Keys in their order, each with the offset of its record.
ghost use Rattle.std.specs.Prelude.{◌≡◌, ◌<◌, [], None, Some, IfSome, IfOk, IfErr, OnOk, if◌then◌else◌};
ghost use Rattle.record_base.specs.declared.key.Key.{Key as AnyKey};
ghost use Rattle.record_base.specs.Keys.{same_key};
ghost use Rattle.cfg_records.specs.SortedKeys.{offset_in, AreRising, IsAt, IsGapFor};
ghost use Rattle.cfg_records.specs.SortedKeysLaws.{AreRising-prop};

use record_base::Key;
use std::alloc::{AllocError, Global};

/// How many kinds of key stand in rows.
const ROWS: usize = 4;

/// Keys in their order, each once, with the offset of its record. Where the numbers of a kind's keys have no gaps, its keys stand in a row
/// of places, and one is found in one step.
pub(crate) struct SortedKeys {
    entries: Vec<(Key, usize)>,
    /// For each row, the place less the number of a key that stands there. It only says where to look first.
    starts: [usize; ROWS],
    ghost rising: { AreRising entries.items } by { AreRising-prop entries.items },
}

// Written out: the crates above would prove a derived one anew.
impl Drop for SortedKeys {
    fn drop(self) {
        let SortedKeys { entries, starts: _ } = self;
        drop(entries);
    }
}

/// The row of the key's kind, and the key's number, for the kinds that mostly have numbers without gaps.
fn row_of(key: &Key) -> Option<(usize, usize)>
    ensures { IfSome result (λ at. at.0 < 4) }
{
    match key {
        Key::NumericEffecter(id) => Some((0, usize::from(*id))),
        Key::StateEffecter(id) => Some((1, usize::from(*id))),
        Key::UserName(user) => Some((2, usize::from(user.number))),
        Key::BiosAttribute(handle) => Some((3, usize::from(*handle))),
        _ => None,
    }
}

/// Where the rows of these keys start.
fn starts_of(entries: &[(Key, usize)]) -> [usize; ROWS] {
    let mut starts = [0; ROWS];
    for (place, entry) in entries.iter().enumerate() {
        if let Some((row, number)) = row_of(&entry.0) {
            starts[row] = place.wrapping_sub(number);
        }
    }
    starts
}

impl SortedKeys {
    /// No keys.
    pub fn new(alloc: Global) -> SortedKeys
        ensures { result.entries.items ≡ [] }
    {
        SortedKeys {
            entries: Vec::new(alloc),
            starts: [0; ROWS],
        }
    }

    /// Where the key is, or where it would go.
    fn search(&self, key: &Key) -> Result<usize, usize>
        ensures found { IfOk result (IsAt self.now.entries.items key.now) }
        ensures absent { IfErr result (IsGapFor self.now.entries.items key.now) }
    {
        self.entries.binary_search_by_key(key, |entry| entry.0)
    }

    /// Where the key is, if its row has it there.
    fn guess(&self, key: &Key) -> Option<usize>
        ensures { IfSome result (IsAt self.now.entries.items key.now) }
    {
        let (row, number) = match row_of(key) {
            Some(at) => at,
            None => return None,
        };
        let place = self.starts[row].wrapping_add(number);
        if place < self.entries.len() && self.entries[place].0.cmp(key).is_eq() {
            Some(place)
        } else {
            None
        }
    }

    /// The offset of the key's record. It isn't compiled into its callers, so that they find a sensor's record by few steps.
    #[inline(never)]
    pub fn find(&self, key: &Key) -> Option<usize>
        ensures { result ≡ offset_in self.now.entries.items key.now }
    {
        match self.guess(key) {
            Some(place) => Some(self.entries[place].1),
            None => match self.search(key) {
                Ok(place) => Some(self.entries[place].1),
                Err(_) => None,
            },
        }
    }

    /// Adds a key that isn't there.
    pub fn insert(&mut self, key: Key, offset: usize) -> Result<(), AllocError>
        requires { offset_in self.old.entries.items key ≡ None }
        ensures { OnOk result ((k : AnyKey) → offset_in self.new.entries.items k
            ≡ (if same_key key k then Some offset else offset_in self.old.entries.items k)) }
    {
        match self.search(&key) {
            Ok(_) => unreachable!(),
            Err(place) => Ok(self.entries.insert(place, (key, offset))?),
        }
    }

    /// Notes where the rows start, once all keys are there.
    pub fn note_rows(&mut self)
        ensures { self.new.entries.items ≡ self.old.entries.items }
    {
        self.starts = starts_of(self.entries.as_slice());
    }
}
