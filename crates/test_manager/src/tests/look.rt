//! A looker against the frames of a controller.
use super::scene::names;
use bios_attr::BiosTable;
use record_base::Key;
use std::alloc::Global;
use std::process::Abort;
use two_wire::{Below, Bus, Frame};
use undo_look::{Looker, Seen, TablePart, Target, WrongPhase};
use undo_plans::NextNumbers;

/// Get Sensor Thresholds of sensor 5, under sequence number 0.
const THRESHOLDS: [u8; 8] = [0x20, 0x10, 0xD0, 0x2C, 0x00, 0x27, 0x05, 0xA8];

/// Its reply: which can be read, and the six.
const THRESHOLDS_SHOWN: [u8; 15] = [
    0x2C, 0x14, 0xC0, 0x20, 0x00, 0x27, 0x00, 0x3F, 0x14, 0x0A, 0x05, 0x50, 0x5F, 0x6E, 0x3A,
];

/// The same under sequence number 1, and of a busy controller.
const OTHER_NUMBER: [u8; 15] = [
    0x2C, 0x14, 0xC0, 0x20, 0x04, 0x27, 0x00, 0x3F, 0x14, 0x0A, 0x05, 0x50, 0x5F, 0x6E, 0x36,
];

const BUSY: [u8; 8] = [0x2C, 0x14, 0xC0, 0x20, 0x00, 0x27, 0xC0, 0xF9];

/// Get Sensor Hysteresis of sensor 5, under sequence numbers 1 and 2, and the reply that refuses the second: no such record.
const HYSTERESIS: [u8; 9] = [0x20, 0x10, 0xD0, 0x2C, 0x04, 0x25, 0x05, 0xFF, 0xA7];

const HYSTERESIS_AGAIN: [u8; 9] = [0x20, 0x10, 0xD0, 0x2C, 0x08, 0x25, 0x05, 0xFF, 0xA3];

const HYSTERESIS_REFUSED: [u8; 8] = [0x2C, 0x14, 0xC0, 0x20, 0x08, 0x25, 0xCB, 0xE8];

/// GetBIOSAttributeCurrentValueByHandle of attribute 1, under instance 0, and for the parts behind 192 and 384 bytes, under instances 1 and 2.
const ATTRIBUTE: [u8; 20] = [
    0x20, 0x0F, 0x10, 0x2D, 0x01, 0x0A, 0x0B, 0xC8, 0x01, 0x80, 0x03, 0x08, 0x00, 0x00, 0x00, 0x00,
    0x01, 0x01, 0x00, 0x88,
];

const SECOND_PART: [u8; 20] = [
    0x20, 0x0F, 0x10, 0x2D, 0x01, 0x0A, 0x0B, 0xC9, 0x01, 0x81, 0x03, 0x08, 0xC0, 0x00, 0x00, 0x00,
    0x00, 0x01, 0x00, 0x19,
];

const THIRD_PART: [u8; 20] = [
    0x20, 0x0F, 0x10, 0x2D, 0x01, 0x0A, 0x0B, 0xCA, 0x01, 0x82, 0x03, 0x08, 0x80, 0x01, 0x00, 0x00,
    0x00, 0x01, 0x00, 0x2A,
];

/// The packets of the replies to them: 192 bytes of the entry, 192 and 21.
const FIRST_REPLY: [&str; 4] = [
    "2C0F4521010B0A800100030800C000000001010001900161616161616161616161616161616161616161616161616161616161616161616161616161616161616161616161616161ED",
    "2C0F4521010B0A1061616161616161616161616161616161616161616161616161616161616161616161616161616161616161616161616161616161616161616161616161616161A1",
    "2C0F4521010B0A20616161616161616161616161616161616161616161616161616161616161616161616161616161616161616161616161616161616161616161616161616161619E",
    "2C0F0F21010B0A70616161616161616161619C",
];

const SECOND_REPLY: [&str; 4] = [
    "2C0F4521010B0A8101010308008001000002616161616161616161616161616161616161616161616161616161616161616161616161616161616161616161616161616161616161C3",
    "2C0F4521010B0A1161616161616161616161616161616161616161616161616161616161616161616161616161616161616161616161616161616161616161616161616161616161D1",
    "2C0F4521010B0A2161616161616161616161616161616161616161616161616161616161616161616161616161616161616161616161616161616161616161616161616161616161EE",
    "2C0F0F21010B0A716161616161616161616183",
];

const THIRD_REPLY: [&str; 1] = [
    "2C0F2421010B0AC20102030800000000000461616161616161616161616161616161616161616173",
];

/// Reserve SDR Repository under sequence number 0, and its reply: the reservation 0001h.
const RESERVE: [u8; 7] = [0x20, 0x28, 0xB8, 0x2C, 0x00, 0x22, 0xB2];

const RESERVED: [u8; 10] = [0x2C, 0x2C, 0xA8, 0x20, 0x00, 0x22, 0x00, 0x01, 0x00, 0xBD];

/// Get SDR under sequence number 1, for eight bytes of the first record. Its replies: they, behind the id 0002h of the record that follows; and
/// that the reservation was canceled.
const GET_RECORD: [u8; 13] = [
    0x20, 0x28, 0xB8, 0x2C, 0x04, 0x23, 0x01, 0x00, 0x00, 0x00, 0x00, 0x08, 0xA4,
];

const RECORD_SHOWN: [u8; 18] = [
    0x2C, 0x2C, 0xA8, 0x20, 0x04, 0x23, 0x00, 0x02, 0x00, 0x01, 0x00, 0x51, 0x01, 0x2C, 0x20, 0x00,
    0x05, 0x13,
];

const CANCELED: [u8; 8] = [0x2C, 0x2C, 0xA8, 0x20, 0x04, 0x23, 0xC5, 0xF4];

/// GetBIOSTable of the table of attributes, under instance 0, and for the part behind 192 bytes, under instance 1.
const FIRST_OF_TABLE: [u8; 19] = [
    0x20, 0x0F, 0x0F, 0x2D, 0x01, 0x0A, 0x0B, 0xC8, 0x01, 0x80, 0x03, 0x01, 0x00, 0x00, 0x00, 0x00,
    0x01, 0x01, 0x52,
];

const NEXT_OF_TABLE: [u8; 19] = [
    0x20, 0x0F, 0x0F, 0x2D, 0x01, 0x0A, 0x0B, 0xC9, 0x01, 0x81, 0x03, 0x01, 0xC0, 0x00, 0x00, 0x00,
    0x00, 0x01, 0xBB,
];

/// The packet of a reply to the first: a part of eight bytes, the last.
const TABLE_REPLY: [&str; 1] = ["2C0F1721010B0AC00100030100000000000509000203004142438F"];

/// What an attribute's entry has before its text: the attribute, the type of a string, and its length, 400.
const ENTRY_HEAD: [u8; 5] = [0x01, 0x00, 0x01, 0x90, 0x01];

/// The letters of the text.
const LETTER: u8 = 0x61;

/// The entry of 405 bytes.
fn entry() -> [u8; 405] {
    let mut entry = [LETTER; 405];
    entry[..5].copy_from_slice(&ENTRY_HEAD);
    entry
}

/// A looker whose requests go on with number 0 on each bus, with one retry.
fn looker(rt: &impl Abort, alloc: Global) -> Looker {
    let next = NextNumbers {
        ipmb: Below::new(0),
        smbus: Below::new(0),
    };
    Looker::new(alloc, names(), next, Below::new(1)).expect(rt, "memory")
}

/// It holds.
fn expect(rt: &impl Abort, holds: bool) {
    assert!(rt; holds);
}

/// The frame is sent.
fn is_sent(sent: Result<Option<Frame>, WrongPhase>, frame: &[u8]) -> bool {
    match sent {
        Ok(Some(sent)) => sent.as_slice() == frame,
        _ => false,
    }
}

/// The look came to these bytes.
fn is_shown(look: &Looker, wanted: &[u8]) -> bool {
    let Some(seen) = look.seen() else {
        return false;
    };
    match seen {
        Seen::Shown(bytes) => bytes == wanted,
        Seen::Refused(_) => false,
    }
}

/// The look was refused with this code.
fn is_refused(look: &Looker, wanted: u8) -> bool {
    let Some(seen) = look.seen() else {
        return false;
    };
    match seen {
        Seen::Shown(_) => false,
        Seen::Refused(code) => code.value() == wanted,
    }
}

/// A record is looked at by one request. A busy controller's reply is none, nor is one of another number or on the other bus.
#[test]
fn thresholds_are_looked_at(rt: HostRuntime) {
    let mut look = looker(&rt, rt.alloc());
    expect(&rt, look.open_bus().is_none());
    expect(&rt, look.seen().is_none());
    let asked = look.begin(&Target::Record(Key::Thresholds(5)));
    expect(&rt, is_sent(asked, THRESHOLDS.as_slice()));
    expect(&rt, look.awaits() == Some(Bus::Ipmb));
    expect(
        &rt,
        look.begin(&Target::Record(Key::Hysteresis(5))).is_err(),
    );
    expect(&rt, look.on_frame(Bus::Ipmb, &BUSY).is_none());
    expect(&rt, look.on_frame(Bus::Ipmb, &OTHER_NUMBER).is_none());
    expect(&rt, look.on_frame(Bus::Smbus, &THRESHOLDS_SHOWN).is_none());
    expect(&rt, look.seen().is_none());
    expect(&rt, look.on_frame(Bus::Ipmb, &THRESHOLDS_SHOWN).is_none());
    expect(&rt, look.open_bus().is_none());
    expect(
        &rt,
        is_shown(&look, &[0x3F, 0x14, 0x0A, 0x05, 0x50, 0x5F, 0x6E]),
    );
}

/// A request that isn't answered is sent again as often as it may be, and then once more where it is heeded again. Where it is given up, the
/// next look has the number behind it.
#[test]
fn silent_record_is_given_up(rt: HostRuntime) {
    let mut look = looker(&rt, rt.alloc());
    expect(&rt, look.quiet().is_err());
    expect(&rt, look.begin(&Target::Record(Key::Thresholds(5))).is_ok());
    expect(&rt, look.again().is_err());
    expect(&rt, is_sent(look.quiet(), THRESHOLDS.as_slice()));
    expect(&rt, matches!(look.quiet(), Ok(None)));
    expect(&rt, look.awaits().is_none());
    expect(&rt, look.open_bus() == Some(Bus::Ipmb));
    expect(&rt, look.on_frame(Bus::Ipmb, &THRESHOLDS_SHOWN).is_none());
    expect(&rt, is_sent(look.again(), THRESHOLDS.as_slice()));
    expect(&rt, is_sent(look.quiet(), THRESHOLDS.as_slice()));
    expect(&rt, matches!(look.quiet(), Ok(None)));
    let asked = look.begin(&Target::Record(Key::Hysteresis(5)));
    expect(&rt, is_sent(asked, HYSTERESIS.as_slice()));
}

/// A refusal ends a look, and its code is told. Each answer takes a number.
#[test]
fn refusal_is_told(rt: HostRuntime) {
    let mut look = looker(&rt, rt.alloc());
    expect(&rt, look.begin(&Target::Record(Key::Thresholds(5))).is_ok());
    expect(&rt, look.on_frame(Bus::Ipmb, &THRESHOLDS_SHOWN).is_none());
    expect(&rt, look.begin(&Target::Record(Key::Thresholds(5))).is_ok());
    expect(&rt, look.on_frame(Bus::Ipmb, &OTHER_NUMBER).is_none());
    let asked = look.begin(&Target::Record(Key::Hysteresis(5)));
    expect(&rt, is_sent(asked, HYSTERESIS_AGAIN.as_slice()));
    expect(&rt, look.on_frame(Bus::Ipmb, &HYSTERESIS_REFUSED).is_none());
    expect(&rt, is_refused(&look, 0xCB));
}

/// The looker hears these packets, and this is what it gives for the last. It gives nothing for the others.
fn heard(rt: &impl Abort, alloc: Global, look: &mut Looker, packets: &[&str]) -> Option<Frame> {
    let mut given = None;
    for digits in packets {
        expect(rt, given.is_none());
        let packet = hex::decode(alloc, *digits).expect(rt, "digits");
        given = look.on_frame(Bus::Smbus, packet.as_slice());
    }
    given
}

/// A long entry is asked for in parts, each behind the one before it, and is shown whole.
#[test]
fn long_entry_is_looked_at_in_parts(rt: HostRuntime) {
    let alloc = rt.alloc();
    let mut look = looker(&rt, alloc);
    let asked = look.begin(&Target::Record(Key::BiosAttribute(1)));
    expect(&rt, is_sent(asked, ATTRIBUTE.as_slice()));
    expect(&rt, look.open_bus() == Some(Bus::Smbus));
    let second = heard(&rt, alloc, &mut look, &FIRST_REPLY);
    expect(&rt, is_sent(Ok(second), SECOND_PART.as_slice()));
    let third = heard(&rt, alloc, &mut look, &SECOND_REPLY);
    expect(&rt, is_sent(Ok(third), THIRD_PART.as_slice()));
    expect(&rt, heard(&rt, alloc, &mut look, &THIRD_REPLY).is_none());
    let mut whole = [0; 410];
    whole[4] = 0x05;
    whole[5..].copy_from_slice(&entry());
    expect(&rt, is_shown(&look, &whole));
}

/// The repository of sensor data records is reserved, and a part of a record is asked for under that: a look shows what the reply has, and tells
/// a reservation that was canceled.
#[test]
fn part_of_a_sensor_data_record_is_asked_for(rt: HostRuntime) {
    let mut look = looker(&rt, rt.alloc());
    let asked = look.begin(&Target::Table(TablePart::Reservation));
    expect(&rt, is_sent(asked, RESERVE.as_slice()));
    expect(&rt, look.awaits() == Some(Bus::Ipmb));
    expect(&rt, look.on_frame(Bus::Ipmb, &RESERVED).is_none());
    expect(&rt, is_shown(&look, &[0x01, 0x00]));
    let part = TablePart::SensorRecord {
        reservation: 1,
        id: 0,
        offset: 0,
        count: 8,
    };
    let asked = look.begin(&Target::Table(part));
    expect(&rt, is_sent(asked, GET_RECORD.as_slice()));
    expect(&rt, look.on_frame(Bus::Ipmb, &RECORD_SHOWN).is_none());
    expect(
        &rt,
        is_shown(
            &look,
            &[0x02, 0x00, 0x01, 0x00, 0x51, 0x01, 0x2C, 0x20, 0x00, 0x05],
        ),
    );
}

/// That a reservation was canceled is told by its code.
#[test]
fn canceled_reservation_is_told(rt: HostRuntime) {
    let mut look = looker(&rt, rt.alloc());
    expect(
        &rt,
        look.begin(&Target::Table(TablePart::Reservation)).is_ok(),
    );
    expect(&rt, look.on_frame(Bus::Ipmb, &RESERVED).is_none());
    let part = TablePart::SensorRecord {
        reservation: 1,
        id: 0,
        offset: 0,
        count: 8,
    };
    expect(&rt, look.begin(&Target::Table(part)).is_ok());
    expect(&rt, look.on_frame(Bus::Ipmb, &CANCELED).is_none());
    expect(&rt, is_refused(&look, 0xC5));
}

/// The first part of a table of attributes is asked for by the handle 0, and a later one by its own. A look shows the whole of a reply's data.
#[test]
fn parts_of_a_table_are_asked_for(rt: HostRuntime) {
    let alloc = rt.alloc();
    let mut look = looker(&rt, alloc);
    let first = TablePart::Bios {
        table: BiosTable::Attributes,
        transfer: 0,
    };
    let asked = look.begin(&Target::Table(first));
    expect(&rt, is_sent(asked, FIRST_OF_TABLE.as_slice()));
    expect(&rt, look.open_bus() == Some(Bus::Smbus));
    expect(&rt, heard(&rt, alloc, &mut look, &TABLE_REPLY).is_none());
    expect(
        &rt,
        is_shown(&look, &[0, 0, 0, 0, 0x05, 9, 0, 2, 3, 0, 0x41, 0x42, 0x43]),
    );
    let later = TablePart::Bios {
        table: BiosTable::Attributes,
        transfer: 192,
    };
    let asked = look.begin(&Target::Table(later));
    expect(&rt, is_sent(asked, NEXT_OF_TABLE.as_slice()));
}
