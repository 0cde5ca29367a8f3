//! How many records are changed.
ghost use Rattle.std.specs.Prelude.{◌≡◌, not};
ghost use Rattle.cfg_records.specs.Changed.{changed_in, is_value};

use crate::store::Store;
use record_base::{Key, StartValue};

/// Whether the store has another value at the key of this record.
fn is_changed<S: Store>(store: &S, first: &(Key, StartValue)) -> bool
    ensures { result ≡ not (is_value first.now.1 (S.records store.now first.now.0)) }
{
    match store.get(&first.0) {
        Some(value) => value != first.1.as_slice(),
        None => true,
    }
}

/// How many of these records have another value in the store.
pub fn changed_count<S: Store>(store: &S, start: &[(Key, StartValue)]) -> usize
    ensures { result ≡ changed_in (S.records store.now) start.now }
{
    start.iter().filter(|r| is_changed(store, r)).count()
}
