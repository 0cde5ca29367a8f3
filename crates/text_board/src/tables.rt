//! The fields of each item of a board file: their names, types and ranges, and when they are needed.
//! `docs/BOARD_FILES.md` says what each means.
ghost use Rattle.std.specs.Prelude.{◌≡◌};
ghost use Rattle.toml.specs.View.{table_view};
ghost use Rattle.text_board.specs.Faults.{attribute_rows, session_rows};

use record_base::attribute_sizes::{MOST_ATTRIBUTES, MOST_TEXT};
use record_base::board_sizes::{MOST_CHANNELS, MOST_EFFECTERS, MOST_SDRS, MOST_SENSORS};
use text_fields::tree::has_text;
use text_fields::{BYTE, Field, LanField, Need, Row, Shape};
use toml::Table;
use two_wire::log_size::{LEAST_LOG_RECORDS, MOST_LOG_RECORDS};

/// A board file's own fields.
pub const TOP: [Row; 18] = [
    Row(Field::Tid, BYTE, Need::Always),
    Row(Field::Clock, Shape::Number(0, 0xFFFF_FFFF), Need::Always),
    Row(
        Field::Log,
        Shape::Number(LEAST_LOG_RECORDS as u32, MOST_LOG_RECORDS as u32),
        Need::Always,
    ),
    Row(Field::Enables, Shape::Enables, Need::Always),
    Row(Field::Policy, Shape::Number(0, 3), Need::Always),
    Row(Field::Users, Shape::Names, Need::Always),
    Row(Field::Watchdog, Shape::Watchdog, Need::Always),
    Row(Field::Boot3, Shape::Number(0, 31), Need::Always),
    Row(Field::Boot4, BYTE, Need::Always),
    Row(Field::Boot5, Shape::BootFlags, Need::Always),
    Row(Field::Sdr, Shape::Records(MOST_SDRS), Need::Always),
    Row(Field::Device, Shape::Table, Need::Always),
    Row(Field::Sensor, Shape::Tables(MOST_SENSORS), Need::Never),
    Row(Field::Channel, Shape::Tables(MOST_CHANNELS), Need::Never),
    Row(
        Field::Lan(LanField::Lan),
        Shape::Tables(MOST_CHANNELS),
        Need::Never,
    ),
    Row(
        Field::Attribute,
        Shape::Tables(MOST_ATTRIBUTES),
        Need::Never,
    ),
    Row(Field::State, Shape::Tables(MOST_EFFECTERS), Need::Never),
    Row(Field::Numeric, Shape::Tables(MOST_EFFECTERS), Need::Never),
];

/// The fields of `[device]`.
pub const DEVICE: [Row; 7] = [
    Row(Field::Id, BYTE, Need::Always),
    Row(Field::Revision, BYTE, Need::Always),
    Row(Field::Major, BYTE, Need::Always),
    Row(Field::Minor, Shape::Digits, Need::Always),
    Row(Field::Support, BYTE, Need::Always),
    Row(
        Field::Manufacturer,
        Shape::Number(0, 0xFF_FFFF),
        Need::Always,
    ),
    Row(Field::Product, Shape::Number(0, 0xFFFF), Need::Always),
];

/// The fields of a `[[sensor]]`.
pub const SENSOR: [Row; 10] = [
    Row(Field::Number, Shape::Number(0, 254), Need::Always),
    Row(Field::Type, BYTE, Need::Always),
    Row(Field::Readable, Shape::Number(0, 63), Need::Always),
    Row(Field::Settable, Shape::Number(0, 63), Need::Always),
    Row(Field::Thresholds, Shape::Thresholds, Need::Always),
    Row(Field::Hysteresis, Shape::Pair, Need::Always),
    Row(Field::Supported, Shape::Number(0, 4095), Need::Always),
    Row(Field::Flags, Shape::Flags, Need::Always),
    Row(Field::Assert, Shape::Events, Need::Always),
    Row(Field::Deassert, Shape::Events, Need::Always),
];

/// The fields of a `[[channel]]` without sessions.
pub const CHANNEL: [Row; 2] = [
    Row(Field::Number, Shape::ChannelNumber, Need::Always),
    Row(Field::Sessions, Shape::Flag, Need::Always),
];

/// The fields of a `[[channel]]` with sessions, but for the last: what the file's users may do on it.
pub const SESSIONS: [Row; 4] = [
    Row(Field::Number, Shape::ChannelNumber, Need::Always),
    Row(Field::Sessions, Shape::Flag, Need::Always),
    Row(Field::Access, Shape::Accesses, Need::Always),
    Row(Field::Limit, Shape::Limits, Need::Always),
];

/// The fields of a `[[channel]]` with sessions, in a file of so many users.
pub fn session_rows(users: usize) -> [Row; 5]
    ensures { result ≡ session_rows users }
{
    let [number, sessions, access, limit] = SESSIONS;
    let users = Row(Field::Users, Shape::UserBytes(users), Need::Always);
    [number, sessions, access, limit, users]
}

/// The fields of an `[[attribute]]` whose kind isn't known.
pub const ATTRIBUTE: [Row; 3] = [
    Row(Field::NameText, Shape::ShortText, Need::Always),
    Row(Field::Kind, Shape::AttributeKind, Need::Always),
    Row(Field::ReadOnly, Shape::Flag, Need::Always),
];

/// The fields of an `[[attribute]]` that is an enumeration.
pub const ENUMERATION: [Row; 6] = [
    Row(Field::NameText, Shape::ShortText, Need::Always),
    Row(Field::Kind, Shape::AttributeKind, Need::Always),
    Row(Field::Values, Shape::Values, Need::Always),
    Row(Field::Default, Shape::Indexes, Need::Always),
    Row(Field::Current, Shape::Indexes, Need::Always),
    Row(Field::ReadOnly, Shape::Flag, Need::Always),
];

/// The fields of an `[[attribute]]` that is a string.
pub const STRING: [Row; 8] = [
    Row(Field::NameText, Shape::ShortText, Need::Always),
    Row(Field::Kind, Shape::AttributeKind, Need::Always),
    Row(Field::StringType, BYTE, Need::Always),
    Row(
        Field::Least,
        Shape::Number(0, MOST_TEXT as u32),
        Need::Always,
    ),
    Row(Field::Most, Shape::MostLength, Need::Always),
    Row(Field::Default, Shape::SizedText, Need::Always),
    Row(Field::Current, Shape::SizedText, Need::Always),
    Row(Field::ReadOnly, Shape::Flag, Need::Always),
];

/// The fields of an `[[attribute]]` that is an integer.
pub const INTEGER: [Row; 8] = [
    Row(Field::NameText, Shape::ShortText, Need::Always),
    Row(Field::Kind, Shape::AttributeKind, Need::Always),
    Row(Field::Lower, Shape::Natural, Need::Always),
    Row(Field::Upper, Shape::UpperNatural, Need::Always),
    Row(
        Field::Increment,
        Shape::Number(0, 0xFFFF_FFFF),
        Need::Always,
    ),
    Row(Field::Default, Shape::Stepped, Need::Always),
    Row(Field::Current, Shape::Stepped, Need::Always),
    Row(Field::ReadOnly, Shape::Flag, Need::Always),
];

/// The fields of the attribute that the table is: those of the kind that it names.
pub fn attribute_rows(table: &Table) -> &'static [Row]
    ensures { result.now ≡ attribute_rows (table_view table.now) }
{
    if has_text(table, Field::Kind, "enumeration") {
        return &ENUMERATION;
    }
    if has_text(table, Field::Kind, "string") {
        return &STRING;
    }
    if has_text(table, Field::Kind, "integer") {
        return &INTEGER;
    }
    &ATTRIBUTE
}

/// The fields of a `[[state]]`.
pub const STATE: [Row; 4] = [
    Row(Field::Id, Shape::Number(0, 0xFFFF), Need::Always),
    Row(Field::Operational, Shape::Number(1, 2), Need::Always),
    Row(Field::States, Shape::StateLists, Need::Always),
    Row(Field::Current, Shape::States, Need::Always),
];

/// The fields of a `[[numeric]]`.
pub const NUMERIC: [Row; 6] = [
    Row(Field::Id, Shape::Number(0, 0xFFFF), Need::Always),
    Row(Field::Size, Shape::Number(0, 5), Need::Always),
    Row(Field::Operational, Shape::Number(1, 2), Need::Always),
    Row(Field::Lower, Shape::Sized, Need::Always),
    Row(Field::Upper, Shape::Upper, Need::Always),
    Row(Field::Current, Shape::Current, Need::Always),
];
