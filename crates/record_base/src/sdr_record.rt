//! The sensor data records of a board file.
ghost use Rattle.std.specs.Prelude.{◌≡◌, ◌≤◌, length};
ghost use Rattle.record_base.specs.BoardSizes.{most_sdr_bytes};
ghost use Rattle.record_base.specs.Sdr.{sdr_id};

use crate::board_sizes::{MOST_SDR_BYTES, MOST_SDRS};
use crate::distinct::{Distinct, Numbered};
use std::marker::Model;
use two_wire::Bytes;

/// How many bytes of a record stand before the bytes that its length counts.
const HEADER_SIZE: usize = 5;

/// The bytes of a sensor data record (IPMI 2.0): its id in two bytes, the low byte first, the version, the type, the
/// number of bytes that follow, and these bytes.
#[derive(Debug, Drop)]
pub struct SdrRecord {
    bytes: Bytes<{ MOST_SDR_BYTES }>,
}

impl Model for SdrRecord {
    ghost use Rattle.std.specs.Prelude.{List, ℕ};
    ghost use Rattle.record_base.specs.Sdr.{IsSdrRecord};

    ghost Value = { List ℕ };

    ghost view = { λ r. r.bytes };

    ghost invariant = { λ r. IsSdrRecord r.bytes };
}

/// The records of a board's repository, each under an id of its own.
pub type SdrRecords = Distinct<SdrRecord, { MOST_SDRS }>;

/// The id in the first two bytes.
fn id_in(bytes: &[u8]) -> u16
    requires { 2 ≤ length bytes.now }
    ensures { result ≡ sdr_id bytes.now }
{
    u16::from_le_bytes([bytes[0], bytes[1]])
}

impl SdrRecord {
    ghost use Rattle.std.specs.Prelude.{◌≡◌, ◌≤◌, ◌↔◌, IsSome, IfSome, length};
    ghost use Rattle.record_base.specs.BoardSizes.{most_sdr_bytes};
    ghost use Rattle.record_base.specs.Sdr.{IsSdrRecord};

    /// The record with these bytes, or nothing where they are no record.
    pub fn new(bytes: &[u8]) -> Option<SdrRecord>
        ensures made { IsSome result
            ↔ (IsSdrRecord bytes.now × (length bytes.now ≤ most_sdr_bytes)) }
        ensures bytes { IfSome result (λ made. made ≡ bytes.now) }
    {
        if bytes.len() < HEADER_SIZE || bytes.len() > MOST_SDR_BYTES {
            return None;
        }
        if bytes.len() != HEADER_SIZE + bytes[4] as usize || matches!(id_in(bytes), 0 | 0xFFFF) {
            return None;
        }
        Some(SdrRecord {
            bytes: Bytes::from_slice(bytes),
        })
    }

    /// The record's bytes.
    pub fn as_slice(&self) -> &[u8]
        ensures value { result.now ≡ self.now }
        ensures sound { IsSdrRecord result.now }
        ensures few { length result.now ≤ most_sdr_bytes }
    {
        self.bytes.as_slice()
    }

    /// A copy of the record.
    pub fn copy(&self) -> Self
        ensures { result ≡ self.now }
    {
        SdrRecord {
            bytes: self.bytes.copy(),
        }
    }
}

impl Numbered for SdrRecord {
    ghost number_of = { λ bytes. sdr_id bytes };

    fn number(&self) -> u16 {
        id_in(self.as_slice())
    }
}
