//! Names that sensor data records and tables of attributes give.
use super::expect;
use record_base::Key;
use report_words::{Names, SensorHead, attribute_name, id_string, sensor_head};
use std::alloc::Global;
use std::process::Abort;

/// The beginnings of records (IPMI 2.0): id 0001h, version 51h, the type, the size, the owner, its logical unit and the sensor.
const FULL: [u8; 8] = [0x01, 0x00, 0x51, 0x01, 0x33, 0x20, 0x00, 0x05];

const COMPACT: [u8; 8] = [0x02, 0x00, 0x51, 0x02, 0x20, 0x20, 0x00, 0x06];

const EVENT_ONLY: [u8; 8] = [0x03, 0x00, 0x51, 0x03, 0x12, 0x20, 0x00, 0x07];

const OEM: [u8; 8] = [0x04, 0x00, 0x51, 0xC0, 0x08, 0x20, 0x00, 0x05];

/// One of another controller, and one behind logical unit 1.
const OTHER_OWNER: [u8; 8] = [0x01, 0x00, 0x51, 0x01, 0x33, 0x82, 0x00, 0x05];

const OTHER_UNIT: [u8; 8] = [0x01, 0x00, 0x51, 0x01, 0x33, 0x20, 0x01, 0x05];

/// A string table: 0000h is `Boot`, and 0001h is `Mode`.
const STRINGS: &str = "00000400426F6F74010004004D6F6465FA374726";

/// The same without its last four bytes, the CRC-32.
const CUT_STRINGS: &str = "00000400426F6F74010004004D6F6465";

/// An attribute table: the integer 0002h has the name 0001h, from 0 to 300 by tens, at first 30. The same with the name 0007h.
const ATTRIBUTES: &str =
    "020003010000000000000000002C010000000000000A0000001E000000000000000000002166F54E";

const UNNAMED: &str =
    "020003070000000000000000002C010000000000000A0000001E000000000000000000000B04DAF8";

/// The record tells of this sensor, with the id string at this place.
fn is_of(record: &[u8], number: u8, id_place: u8) -> bool {
    sensor_head(record) == Some(SensorHead { number, id_place })
}

/// A record says which sensor it is of by its first eight bytes, where it is one of the controller's own behind logical unit 0.
#[test]
fn records_tell_their_sensors(rt: HostRuntime) {
    expect(&rt, is_of(&FULL, 5, 47), "full");
    expect(&rt, is_of(&COMPACT, 6, 31), "compact");
    expect(&rt, is_of(&EVENT_ONLY, 7, 17), "event-only");
    expect(&rt, sensor_head(&OEM).is_none(), "OEM");
    expect(&rt, sensor_head(&OTHER_OWNER).is_none(), "owner");
    expect(&rt, sensor_head(&OTHER_UNIT).is_none(), "unit");
    expect(&rt, sensor_head(&FULL[..7]).is_none(), "short");
}

/// The bytes say this id string.
fn says(bytes: &[u8], wanted: &[u8]) -> bool {
    match id_string(bytes) {
        Some(text) => text.as_slice() == wanted,
        None => false,
    }
}

/// An id string is told that is written in bytes, or in six bits a character, as the standard's example is: 29h DCh A6h are `IPMI`.
#[test]
fn id_strings_are_told(rt: HostRuntime) {
    expect(&rt, says(&[0xC3, 0x43, 0x50, 0x55], b"CPU"), "bytes");
    expect(&rt, says(&[0xC3, 0x43, 0x50, 0x55, 0x09], b"CPU"), "more");
    expect(&rt, says(&[0x84, 0x29, 0xDC, 0xA6], b"IPMI"), "packed");
    expect(&rt, says(&[0x83, 0x29, 0xDC, 0xA6], b"IPM"), "three");
    expect(&rt, id_string(&[]).is_none(), "nothing");
    expect(&rt, id_string(&[0xC0, 0x43]).is_none(), "empty");
    expect(
        &rt,
        id_string(&[0xC4, 0x43, 0x50, 0x55]).is_none(),
        "cut off",
    );
    expect(
        &rt,
        id_string(&[0x84, 0x29, 0xDC]).is_none(),
        "packed, cut off",
    );
    expect(&rt, id_string(&[0x02, 0x43, 0x00]).is_none(), "Unicode");
    expect(&rt, id_string(&[0x42, 0x12]).is_none(), "BCD plus");
}

/// The bytes of a table.
fn table(rt: &impl Abort, alloc: Global, digits: &str) -> Vec<u8> {
    hex::decode(alloc, digits).expect(rt, "digits")
}

/// An attribute has the name that its entry's handle has in the table of strings. A table whose CRC-32 is another's gives none.
#[test]
fn attributes_are_named(rt: HostRuntime) {
    let alloc = rt.alloc();
    let strings = table(&rt, alloc, STRINGS);
    let attributes = table(&rt, alloc, ATTRIBUTES);
    let unnamed = table(&rt, alloc, UNNAMED);
    let named = attribute_name(attributes.as_slice(), strings.as_slice(), 2);
    expect(&rt, named == Some(b"Mode".as_slice()), "named");
    let other = attribute_name(attributes.as_slice(), strings.as_slice(), 1);
    expect(&rt, other.is_none(), "no such attribute");
    let missing = attribute_name(unnamed.as_slice(), strings.as_slice(), 2);
    expect(&rt, missing.is_none(), "no such string");
    let short = table(&rt, alloc, CUT_STRINGS);
    let cut = attribute_name(attributes.as_slice(), short.as_slice(), 2);
    expect(&rt, cut.is_none(), "no whole table");
    let turned = attribute_name(strings.as_slice(), attributes.as_slice(), 2);
    expect(&rt, turned.is_none(), "the tables change places");
}

/// Whether the record has this name.
fn is_named(names: &Names, key: &Key, name: &[u8]) -> bool {
    match names.of(key) {
        Some(told) => told == name,
        None => false,
    }
}

/// The records of sensor 5 have its name, and that of an attribute has the attribute's. No other record has a name.
#[test]
fn records_are_named(rt: HostRuntime) {
    let alloc = rt.alloc();
    let keys = [
        Key::Thresholds(5),
        Key::BiosAttribute(2),
        Key::Hysteresis(5),
        Key::PowerPolicy,
        Key::Hysteresis(6),
    ];
    let mut names = Names::wanted(alloc, &keys).expect(&rt, "memory");
    expect(&rt, names.wants_attributes(), "attributes are wanted");
    expect(&rt, !names.wants_sensor(7), "no record is of sensor 7");
    names.name_sensor(5, id_string(&[0xC3, 0x43, 0x50, 0x55]));
    expect(&rt, !names.wants_sensor(5), "sensor 5 was read");
    expect(&rt, names.wants_sensors(), "sensor 6 wasn't");
    names.name_sensor(6, None);
    expect(&rt, !names.wants_sensors(), "each was read");
    let strings = table(&rt, alloc, STRINGS);
    let attributes = table(&rt, alloc, ATTRIBUTES);
    let done = names.name_attributes(alloc, attributes.as_slice(), strings.as_slice());
    done.expect(&rt, "memory");
    expect(
        &rt,
        is_named(&names, &Key::EventEnable(5), b"CPU"),
        "sensor 5",
    );
    let mode = is_named(&names, &Key::BiosAttribute(2), b"Mode");
    expect(&rt, mode, "attribute 2");
    expect(&rt, names.of(&Key::Thresholds(6)).is_none(), "sensor 6");
    expect(&rt, names.of(&Key::PowerPolicy).is_none(), "policy");
}
