//! The names of sensors, by the repository of sensor data records.
ghost use Rattle.std.specs.Prelude.{◌≡◌, ◌≤◌, IfErr, IfOk, None, Some};
ghost use Rattle.app_look.specs.Asking.{AsksTables, name_count, word_at};
ghost use Rattle.app_look.specs.SensorRecords.{EndsPart, EndsRecord, ReadsIdString, ReadsRecord};
ghost use Rattle.app_look.specs.SensorRecords.{ReadsSensors, Reserves, ShowsPart, cursor_at};
ghost use Rattle.app_look.specs.SensorRecords.{record_in};

use crate::asking::{Reply, Told, ask_once};
use crate::session::Session;
use record_base::byte_at;
use report_words::{IdString, Names, SensorHead, id_string, sensor_head};
use two_wire::code;
use undo_look::TablePart;

/// How many bytes of a record tell which sensor it is of.
const HEAD: u8 = 8;

/// How many bytes of a record its size doesn't count.
const BEFORE_SIZE: u8 = 5;

/// How many bytes an id string has at most, with its type and length (IPMI 2.0).
const MOST_NAME: u8 = 17;

/// How many bytes of a reply stand before those of a record.
const BEFORE_RECORD: usize = 2;

/// The id that stands for no further record.
const NO_RECORD: u16 = 0xFFFF;

/// How many records are read at most.
const MOST_RECORDS: u16 = 1024;

/// How often a part is asked for at most, each time under another reservation.
const MOST_RESERVED: u8 = 4;

/// A request was refused, or wasn't answered: no further one is sent.
#[derive(Clone, Copy)]
struct Ended;

/// Where the reading is: its reservation, and the record that is read.
#[derive(Clone, Copy)]
struct Walk {
    reservation: u16,
    id: u16,
}

/// The number of two bytes, the low byte first.
fn word_at(bytes: &[u8], place: usize) -> u16
    requires { place ≤ 254 }
    ensures { result ≡ word_at bytes.now place }
{
    u16::from_le_bytes([byte_at(bytes, place), byte_at(bytes, place + 1)])
}

/// The bytes of a record in a reply.
fn record_in(reply: &Reply) -> &[u8]
    ensures { result.now ≡ record_in reply.now }
{
    match reply.as_slice() {
        [_, _, record @ ..] => record,
        _ => &[],
    }
}

/// Reserves the repository. A controller that can't reserve it takes the number 0 (IPMI 2.0).
fn reserve(session: &mut Session) -> Result<u16, Ended>
    ensures tables { AsksTables session.old session.new }
    ensures reserved { IfOk result (λ number. Reserves session.old (Some number) session.new) }
    ensures ended { IfErr result (λ _. Reserves session.old None session.new) }
{
    match ask_once(session, &TablePart::Reservation) {
        Told::Shown(reply) => Ok(word_at(reply.as_slice(), 0)),
        Told::Refused(_) => Ok(0),
        Told::Silent => Err(Ended),
    }
}

/// So many bytes of the record that is read, from an offset on, behind the id of the next. Where the reservation was canceled, another is made, up
/// to so many times.
fn part_of_record(
    session: &mut Session,
    walk: &mut Walk,
    offset: u8,
    count: u8,
) -> Result<Reply, Ended>
    ensures tables { AsksTables session.old session.new }
    ensures shown { IfOk result (λ reply. ShowsPart offset count (cursor_at session.old walk.old)
        reply (cursor_at session.new walk.new)) }
    ensures ended { IfErr result (λ _.
        EndsPart offset count (cursor_at session.old walk.old) session.new) }
{
    for _ in 0..MOST_RESERVED {
        let part = TablePart::SensorRecord {
            reservation: walk.reservation,
            id: walk.id,
            offset,
            count,
        };
        match ask_once(session, &part) {
            Told::Shown(reply) => return Ok(reply),
            Told::Refused(why) if why == code::RESERVATION_CANCELED.value() => {
                walk.reservation = reserve(session)?;
            }
            Told::Refused(_) => return Err(Ended),
            Told::Silent => return Err(Ended),
        }
    }
    Err(Ended)
}

/// How many bytes an id string has at most from this offset on, in a record of this size.
fn name_count(size: u8, place: u8) -> u8
    ensures { result ≡ name_count size place }
{
    let left = size.saturating_sub(place.saturating_sub(BEFORE_SIZE));
    left.min(MOST_NAME)
}

/// The name of the sensor whose record is read and begins so.
fn name_of(
    session: &mut Session,
    walk: &mut Walk,
    head: &SensorHead,
    size: u8,
) -> Result<Option<IdString>, Ended>
    ensures tables { AsksTables session.old session.new }
    ensures named { IfOk result (λ name. ReadsIdString head.now size
        (cursor_at session.old walk.old) name (cursor_at session.new walk.new)) }
    ensures ended { IfErr result (λ _. EndsPart head.now.id_place
        (name_count size head.now.id_place) (cursor_at session.old walk.old) session.new) }
{
    let count = name_count(size, head.id_place);
    let reply = part_of_record(session, walk, head.id_place, count)?;
    Ok(id_string(record_in(&reply)))
}

/// Reads the beginning of a record, and its name where that is wanted. It gives the id of the next.
fn visit(session: &mut Session, walk: &mut Walk, names: &mut Names) -> Result<u16, Ended>
    ensures tables { AsksTables session.old session.new }
    ensures read { IfOk result (λ next. ReadsRecord (cursor_at session.old walk.old) names.old next
        (cursor_at session.new walk.new) names.new) }
    ensures ended { IfErr result (λ _.
        EndsRecord (cursor_at session.old walk.old) names.old session.new) }
    ensures same_names { IfErr result (λ _. names.new ≡ names.old) }
{
    let reply = part_of_record(session, walk, 0, HEAD)?;
    let record = record_in(&reply);
    if let Some(head) = sensor_head(record) {
        if names.wants_sensor(head.number) {
            let found = name_of(session, walk, &head, byte_at(record, 4))?;
            names.name_sensor(head.number, found);
        }
    }
    Ok(word_at(reply.as_slice(), 0))
}

/// Reads the names of the sensors that are wanted, until each was found, or the last record was read, or a request ends that.
pub(crate) fn read_sensors(session: &mut Session, names: &mut Names)
    ensures tables { AsksTables session.old session.new }
    ensures names { ReadsSensors session.old names.old session.new names.new }
{
    if !names.wants_sensors() {
        return;
    }
    let Ok(reservation) = reserve(session) else {
        return;
    };
    let mut walk = Walk { reservation, id: 0 };
    for _ in 0..MOST_RECORDS {
        match visit(session, &mut walk, names) {
            Ok(next) if next != NO_RECORD && names.wants_sensors() => walk.id = next,
            _ => return,
        }
    }
}
