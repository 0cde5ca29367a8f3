//! A record of the log.
ghost use Rattle.std.specs.Prelude.{◌≡◌, ◌<◌, length};
ghost use Rattle.sel_log.specs.LogRecord.{record_size, id_of, kept};

use std::marker::Model;
use two_wire::Bytes;

/// Records of these types and above have no time.
const FIRST_TYPE_WITHOUT_TIME: u8 = 0xE0;

/// How many bytes a record has (IPMI 2.0).
pub const RECORD_SIZE: usize = 16;

/// The constant is the definition.
pub fn record_size_is_the_definition()
    ensures { RECORD_SIZE ≡ record_size }
{}

/// The bytes of a record: its id in two bytes, its type, and 13 bytes whose first four are its time where its type has one.
/// Numbers have their lowest byte first.
#[derive(Drop)]
pub struct LogRecord {
    bytes: Bytes<{ RECORD_SIZE }>,
}

impl Model for LogRecord {
    ghost use Rattle.std.specs.Prelude.{List, ℕ, ◌≡◌, length};
    ghost use Rattle.sel_log.specs.LogRecord.{record_size};

    ghost Value = { List ℕ };

    ghost view = { λ r. r.bytes };

    ghost invariant = { λ r. length r.bytes ≡ record_size };
}

impl LogRecord {
    /// The record that has these bytes.
    pub fn from_slice(bytes: &[u8]) -> Self
        requires { length bytes.now ≡ record_size }
        ensures { result ≡ bytes.now }
    {
        LogRecord {
            bytes: Bytes::from_slice(bytes),
        }
    }

    /// The record's bytes.
    pub fn as_slice(&self) -> &[u8]
        ensures value { result.now ≡ self.now }
        ensures sized { length result.now ≡ record_size }
    {
        self.bytes.as_slice()
    }

    /// What a log keeps of it, under this id and at this time.
    pub(crate) fn kept(&self, id: u16, time: u32) -> LogRecord
        ensures value { result ≡ kept id time self.now }
        ensures id { id_of result ≡ id }
    {
        let given = self.as_slice();
        let mut bytes = Bytes::new();
        bytes.extend_from_slice(&id.to_le_bytes());
        bytes.push(given[2]);
        if given[2] < FIRST_TYPE_WITHOUT_TIME {
            bytes.extend_from_slice(&time.to_le_bytes());
            bytes.extend_from_slice(&given[7..]);
        } else {
            bytes.extend_from_slice(&given[3..]);
        }
        LogRecord { bytes }
    }
}
