//! What an operation makes of the data that a Get of its record shows.
ghost use Rattle.std.specs.Prelude.{◌≡◌};
ghost use Rattle.shown_records.specs.After.{after_of};
ghost use Rattle.shown_records.specs.Meaning.{Means};

use record_base::{Op, RecordKind};
use record_kinds::Limits;

/// What an operation makes of a record, as its Get shows it.
#[derive(Clone, Copy, Debug, PartialEq, Eq)]
pub enum Meaning {
    /// No operation brings back what the Get shows.
    NotRestorable,
    /// The record stays what it is.
    Same,
    /// The record changes.
    Changes,
}

/// What the operation makes of what a Get shows, and shows behind it.
pub fn meaning_of<'a>(op: &Op<'a>, shown: &'a [u8], after: &[u8]) -> Meaning
    requires { after.now ≡ after_of op.now shown.now }
    ensures { Means op.now shown.now result }
{
    match Limits::inverse(op, shown) {
        None => Meaning::NotRestorable,
        Some(_) if after == shown => Meaning::Same,
        Some(_) => Meaning::Changes,
    }
}
