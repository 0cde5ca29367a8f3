//! The operation that sets a record to what its Get shows.
ghost use Rattle.std.specs.Prelude.{◌≡◌};
ghost use Rattle.shown_records.specs.AsItIs.{as_it_is, unsaid_of};

use crate::probes::probe;
use record_base::{Key, Op, RecordKind, byte_at};
use record_kinds::Limits;

/// The user who has no name.
const FIRST_USER: u8 = 1;

/// The place of an attribute's type in the data of its Get, and the bit of one that can only be read.
const TYPE_PLACE: usize = 7;

const READ_ONLY_BIT: u8 = 0x80;

/// Why no operation sets a record to what its Get shows.
#[derive(Clone, Copy, Debug, PartialEq, Eq)]
pub enum Unsaid {
    /// The sensor has no threshold that can be read.
    NoThreshold,
    /// The first user's name can't be set.
    FirstUser,
    /// The attribute can only be read.
    ReadOnly,
    /// No request brings back what the Get shows.
    NotRestorable,
}

/// Why no request sets the record, by what its Get shows.
fn unsaid_of(key: &Key, shown: &[u8]) -> Option<Unsaid>
    ensures { result ≡ unsaid_of key.now shown.now }
{
    match key {
        Key::Thresholds(_) if byte_at(shown, 0) == 0 => Some(Unsaid::NoThreshold),
        Key::UserName(user) if user.number == FIRST_USER => Some(Unsaid::FirstUser),
        Key::BiosAttribute(_) if byte_at(shown, TYPE_PLACE) >= READ_ONLY_BIT => {
            Some(Unsaid::ReadOnly)
        }
        _ => None,
    }
}

/// The operation that sets the record to what these data of its Get show, or why there is none. Of a sensor's events it enables those that are
/// enabled, and leaves the others: no Get shows which others the sensor supports.
pub fn op_as_it_is<'a>(key: &Key, shown: &'a [u8]) -> Result<Op<'a>, Unsaid>
    ensures { result ≡ as_it_is key.now shown.now }
{
    if let Some(why) = unsaid_of(key, shown) {
        return Err(why);
    }
    let probe = probe(key, shown);
    match Limits::inverse(&probe, shown) {
        Some(op) => Ok(op),
        None => Err(Unsaid::NotRestorable),
    }
}
