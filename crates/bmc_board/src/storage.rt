//! What the commands of the repository of sensor data records and of the System Event Log do.
ghost use Rattle.std.specs.Prelude.{◌≡◌, ◌+◌, ◌≤◌, length};
ghost use Rattle.two_wire.specs.Sizes.{most_ipmi_reply_data};
ghost use Rattle.bmc_board.specs.Gives.{AppendsReply};
ghost use Rattle.bmc_board.specs.Storage.{word_at, sdr_info, sel_info, part_in, part_length, part_of, sdr_part, sel_part, record_in, added, says_clear, cleared, time_in};

use record_base::{byte_at, bytes_at};
use sel_log::{Info, LogRecord, RECORD_SIZE, Sel};
use sensor_recs::Sdr;
use two_wire::{Buffer, Code, code};

/// The version of IPMI's commands for records, the low digit first.
const STORAGE_VERSION: u8 = 0x51;

/// What says that records can be reserved.
const CAN_BE_RESERVED: u8 = 0x02;

/// What says so, and that a record was refused.
const OVERFLOWED: u8 = 0x82;

/// The most bytes of a record that a reply has.
const MOST_SHOWN: usize = 22;

/// The count that asks for all bytes that are left.
const ALL_LEFT: u8 = 0xFF;

/// What asks for the log to be cleared.
const CLEAR: u8 = 0xAA;

/// What asks whether the log is cleared.
const STATUS: u8 = 0x00;

/// What Clear SEL replies: all is erased.
const ERASED: u8 = 0x01;

/// The part of a record that is asked for.
#[derive(Clone, Copy)]
pub struct PartAsked {
    pub reservation: u16,
    /// 0000h asks for the first record, and FFFFh for the last.
    pub id: u16,
    /// Where it begins.
    pub offset: u8,
    /// How many bytes; FFh asks for all that are left.
    pub count: u8,
}

/// Two bytes of a request's data, the low one first.
fn word_at(body: &[u8], place: usize) -> u16
    requires { place + 1 ≤ 255 }
    ensures { result ≡ word_at body.now place }
{
    u16::from_le_bytes(bytes_at(body, place))
}

/// The part that the data of Get SDR and of Get SEL Entry asks for.
pub fn part_in(body: &[u8]) -> PartAsked
    ensures { result ≡ part_in body.now }
{
    PartAsked {
        reservation: word_at(body, 0),
        id: word_at(body, 2),
        offset: byte_at(body, 4),
        count: byte_at(body, 5),
    }
}

impl PartAsked {
    /// How many of the bytes that are left are asked for.
    fn length(&self, left: usize) -> usize
        ensures value { result ≡ part_length self.now left }
        ensures within { result ≤ left }
    {
        if self.count == ALL_LEFT {
            return left;
        }
        left.min(self.count as usize)
    }

    /// Appends the part of a record of these bytes, behind the id of the record that follows.
    fn show<B: Buffer>(
        &self,
        reserved: bool,
        bytes: &[u8],
        next: u16,
        to: &mut B,
    ) -> Result<(), Code>
        requires { length (B.bytes to.old) + most_ipmi_reply_data ≤ B.capacity }
        ensures { AppendsReply B.bytes result to.old to.new
            (part_of self.now reserved bytes.now next) }
    {
        let offset = self.offset as usize;
        if offset != 0 && !reserved {
            return Err(code::RESERVATION_CANCELED);
        }
        if bytes.len() < offset {
            return Err(code::OUT_OF_RANGE);
        }
        let length = self.length(bytes.len() - offset);
        if length > MOST_SHOWN {
            return Err(code::TOO_MANY_BYTES);
        }
        to.extend_from_slice(&next.to_le_bytes());
        to.extend_from_slice(&bytes[offset..offset + length]);
        Ok(())
    }
}

/// What Get SDR Repository Info replies.
pub fn sdr_info(sdr: &Sdr) -> [u8; 14]
    ensures { result ≡ sdr_info sdr.now }
{
    let [low, high] = sdr.count().to_le_bytes();
    [
        STORAGE_VERSION,
        low,
        high,
        0,
        0,
        0,
        0,
        0,
        0,
        0,
        0,
        0,
        0,
        CAN_BE_RESERVED,
    ]
}

/// What Get SEL Info replies.
pub fn sel_info(info: &Info) -> [u8; 14]
    ensures { result ≡ sel_info info.now }
{
    let [count, count_high] = info.count.to_le_bytes();
    let [free, free_high] = info.free_bytes.to_le_bytes();
    let [add_0, add_1, add_2, add_3] = info.last_add.to_le_bytes();
    let [clear_0, clear_1, clear_2, clear_3] = info.last_clear.to_le_bytes();
    [
        STORAGE_VERSION,
        count,
        count_high,
        free,
        free_high,
        add_0,
        add_1,
        add_2,
        add_3,
        clear_0,
        clear_1,
        clear_2,
        clear_3,
        if info.overflow {
            OVERFLOWED
        } else {
            CAN_BE_RESERVED
        },
    ]
}

/// Get SDR.
pub fn show_sdr<B: Buffer>(sdr: &Sdr, asked: &PartAsked, to: &mut B) -> Result<(), Code>
    requires { length (B.bytes to.old) + most_ipmi_reply_data ≤ B.capacity }
    ensures { AppendsReply B.bytes result to.old to.new (sdr_part sdr.now asked.now) }
{
    let reserved = sdr.is_reserved(asked.reservation);
    match sdr.entry(asked.id) {
        Some(entry) => asked.show(reserved, entry.kept.as_slice(), entry.next, to),
        None => Err(code::NOT_PRESENT),
    }
}

/// Get SEL Entry.
pub fn show_entry<B: Buffer>(log: &Sel, asked: &PartAsked, to: &mut B) -> Result<(), Code>
    requires { length (B.bytes to.old) + most_ipmi_reply_data ≤ B.capacity }
    ensures { AppendsReply B.bytes result to.old to.new (sel_part log.now asked.now) }
{
    let reserved = log.is_reserved(asked.reservation);
    match log.entry(asked.id) {
        Some(entry) => asked.show(reserved, entry.kept.as_slice(), entry.next, to),
        None => Err(code::NOT_PRESENT),
    }
}

/// The record that the data of Add SEL Entry says.
fn record_in(body: &[u8]) -> LogRecord
    ensures { result ≡ record_in body.now }
{
    LogRecord::from_slice(&bytes_at::<RECORD_SIZE>(body, 0))
}

/// Add SEL Entry.
pub fn add_entry<B: Buffer>(log: &mut Sel, body: &[u8], to: &mut B) -> Result<(), Code>
    requires { length (B.bytes to.old) + most_ipmi_reply_data ≤ B.capacity }
    ensures answer { AppendsReply B.bytes result to.old to.new (added log.old body.now).0 }
    ensures left { log.new ≡ (added log.old body.now).1 }
{
    match log.add(&record_in(body)) {
        Ok(id) => {
            to.extend_from_slice(&id.to_le_bytes());
            Ok(())
        }
        Err(code) => Err(code),
    }
}

/// Whether the data of Clear SEL has the bytes 'C', 'L', 'R'.
fn says_clear(body: &[u8]) -> bool
    ensures { result ≡ says_clear body.now }
{
    byte_at(body, 2) == b'C' && byte_at(body, 3) == b'L' && byte_at(body, 4) == b'R'
}

/// Clear SEL.
pub fn clear<B: Buffer>(log: &mut Sel, body: &[u8], to: &mut B) -> Result<(), Code>
    requires { length (B.bytes to.old) + most_ipmi_reply_data ≤ B.capacity }
    ensures answer { AppendsReply B.bytes result to.old to.new (cleared log.old body.now).0 }
    ensures left { log.new ≡ (cleared log.old body.now).1 }
{
    let reservation = word_at(body, 0);
    if !log.is_reserved(reservation) {
        return Err(code::RESERVATION_CANCELED);
    }
    if !says_clear(body) {
        return Err(code::INVALID_DATA_FIELD);
    }
    match byte_at(body, 5) {
        CLEAR => {
            let _ = log.clear(reservation);
        }
        STATUS => {}
        _ => return Err(code::INVALID_DATA_FIELD),
    }
    to.push(ERASED);
    Ok(())
}

/// The seconds that the data of Set SEL Time says.
pub fn time_in(body: &[u8]) -> u32
    ensures { result ≡ time_in body.now }
{
    u32::from_le_bytes(bytes_at(body, 0))
}
