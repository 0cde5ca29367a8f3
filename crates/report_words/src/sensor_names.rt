//! The names of sensors.
ghost use Rattle.std.specs.Prelude.{◌≡◌, ◌≤◌, ◌<◌};
ghost use Rattle.report_words.specs.SensorNames.{bits_before, id_place, id_string, id_text, packed_at, packed_text, sensor_head};

use record_base::byte_at;
use two_wire::Bytes;

/// The most characters of a sensor's id string: its length has five bits.
const MOST_CHARACTERS: usize = 31;

/// The controller's own address, which owns its sensors.
const OWNER: u8 = 0x20;

/// The types of the records of sensors (IPMI 2.0, "Sensor Data Record Formats").
const FULL_SENSOR: u8 = 0x01;

const COMPACT_SENSOR: u8 = 0x02;

const EVENT_ONLY: u8 = 0x03;

/// How the id string is written: in characters of six bits, and in bytes.
const PACKED: u8 = 2;

const IN_BYTES: u8 = 3;

/// What six bits count to.
const SIX_BITS: u16 = 64;

/// The first character that six bits say, a space.
const FIRST_PACKED: u8 = 0x20;

/// A sensor's id string.
pub type IdString = Bytes<{ MOST_CHARACTERS }>;

/// Which sensor a record tells of, and where its id string begins.
#[derive(Clone, Copy, Debug, PartialEq, Eq)]
pub struct SensorHead {
    pub number: u8,
    /// The offset of the type and the length of the id string.
    pub id_place: u8,
}

/// Where the id string begins in a record of this type, if it is a sensor's.
fn id_place(kind: u8) -> Option<u8>
    ensures { result ≡ id_place kind }
{
    match kind {
        FULL_SENSOR => Some(47),
        COMPACT_SENSOR => Some(31),
        EVENT_ONLY => Some(17),
        _ => None,
    }
}

/// What the first eight bytes of a record tell, where it is of one of the controller's own sensors behind logical unit 0.
pub fn sensor_head(told: &[u8]) -> Option<SensorHead>
    ensures { result ≡ sensor_head told.now }
{
    let [_, _, _, kind, _, owner, lun, number, ..] = told else {
        return None;
    };
    if *owner != OWNER || *lun % 4 != 0 {
        return None;
    }
    match id_place(*kind) {
        Some(id_place) => Some(SensorHead {
            number: *number,
            id_place,
        }),
        None => None,
    }
}

/// How many bits of its first byte stand before a character of six bits, as the number that they count to.
fn bits_before(place: usize) -> u16
    ensures value { result ≡ bits_before place }
    ensures some { 0 < result }
{
    match place % 4 {
        0 => 1,
        1 => SIX_BITS,
        2 => 16,
        _ => 4,
    }
}

/// The character of six bits at this place. The lowest bits of a byte are its first.
fn packed_at(bytes: &[u8], place: usize) -> u8
    requires { place < MOST_CHARACTERS }
    ensures { result ≡ packed_at bytes.now place }
{
    let first = 3 * place / 4;
    let pair = u16::from(byte_at(bytes, first)) + 256 * u16::from(byte_at(bytes, first + 1));
    (pair / bits_before(place) % SIX_BITS) as u8 + FIRST_PACKED
}

/// So many characters of six bits.
fn packed_text(bytes: &[u8], count: usize) -> IdString
    requires { count ≤ MOST_CHARACTERS }
    ensures { result ≡ packed_text bytes.now count }
{
    let mut text = IdString::new();
    for place in 0..count {
        text.push(packed_at(bytes, place));
    }
    text
}

/// The text of this many characters that is written so.
fn id_text(kind: u8, count: usize, bytes: &[u8]) -> Option<IdString>
    requires { count ≤ MOST_CHARACTERS }
    ensures { result ≡ id_text kind count bytes.now }
{
    match kind {
        IN_BYTES if count <= bytes.len() => Some(IdString::from_slice(&bytes[..count])),
        PACKED if (3 * count + 3) / 4 <= bytes.len() => Some(packed_text(bytes, count)),
        _ => None,
    }
}

/// The id string that begins with these bytes, its type and length first. There is none where it is empty, cut off, or of a type that isn't
/// told: Unicode and BCD plus.
pub fn id_string(bytes: &[u8]) -> Option<IdString>
    ensures { result ≡ id_string bytes.now }
{
    let [code, text @ ..] = bytes else {
        return None;
    };
    let count = usize::from(*code % 32);
    if count == 0 {
        return None;
    }
    id_text(*code / 64, count, text)
}
