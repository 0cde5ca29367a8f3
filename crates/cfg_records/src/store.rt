//! Where records are kept.
ghost use Rattle.std.specs.Prelude.{◌≡◌, ◌↔◌, Some, Option, IsNone, IsErr, OnOk, OnErr, IsTrue, length};
ghost use Rattle.std.specs.Option.{option_copied};
ghost use Rattle.record_base.specs.Keys.{is_length};
ghost use Rattle.cfg_records.specs.Places.{IsPlace};
ghost use Rattle.cfg_records.specs.Records.{Records, with_record};

use record_base::Key;

/// No record has the key.
#[derive(Clone, Copy, Debug, PartialEq, Eq)]
pub struct NoKey;

/// Records by their keys. The keys never change, nor does the place of a key's record.
pub trait Store: Drop {
    ghost use Rattle.record_base.specs.declared.key.Key.{Key};

    /// Where a record lies.
    type Place: Copy;

    /// The records.
    ghost records: { Self → Records };

    /// Where each key's record lies.
    ghost places: { Self → Key → Option Self.Place };

    /// Where the key's record lies.
    fn find(&self, key: &Key) -> Option<Self::Place>
        ensures place { result ≡ places self.now key.now }
        ensures absent { IsNone result ↔ IsNone (records self.now key.now) };

    /// The value that lies there.
    fn value(&self, place: Self::Place) -> &[u8]
        requires { IsPlace (places self.now) place }
        ensures { (key : Key) → places self.now key ≡ Some place
            → records self.now key ≡ Some result.now };

    /// Writes the value that lies there.
    fn write(&mut self, place: Self::Place, value: &[u8])
        requires { (key : Key) × (places self.old key ≡ Some place)
            × IsTrue (is_length key (length value.now)) }
        ensures records { (key : Key) → places self.old key ≡ Some place
            → records self.new ≡ with_record (records self.old) key value.now }
        ensures places { places self.new ≡ places self.old };

    /// The key's value, where it lies.
    fn get(&self, key: &Key) -> Option<&[u8]>
        ensures { option_copied result ≡ records self.now key.now }
    {
        match self.find(key) {
            Some(place) => Some(self.value(place)),
            None => None,
        }
    }

    /// Sets the key's value.
    fn put(&mut self, key: &Key, value: &[u8]) -> Result<(), NoKey>
        requires { IsTrue (is_length key.now (length value.now)) }
        ensures absent { IsErr result ↔ IsNone (records self.old key.now) }
        ensures ok { OnOk result
            (records self.new ≡ with_record (records self.old) key.now value.now) }
        ensures err { OnErr result (records self.new ≡ records self.old) }
        ensures places { places self.new ≡ places self.old }
    {
        match self.find(key) {
            Some(place) => {
                self.write(place, value);
                Ok(())
            }
            None => Err(NoKey),
        }
    }
}
