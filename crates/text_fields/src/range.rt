//! Which values a field can have: of which type, and in which range.
ghost use Rattle.std.specs.Prelude.{◌≡◌, ◌∷◌, [], ℕ, ◌&&◌, None, Some, IfSome, is_some, nat_le, length};
ghost use Rattle.std.specs.List.{list_all};
ghost use Rattle.hex.specs.Hex.{decode_of};
ghost use Rattle.record_base.specs.BootParam.{flag_bytes, parameter_of, change_bytes};
ghost use Rattle.toml.specs.Data.{as_str};
ghost use Rattle.toml.specs.View.{view, table_view};
ghost use Rattle.text_fields.specs.Trees.{members, or_none, natural, naturals_in, bytes_in, number_in};
ghost use Rattle.text_fields.specs.Ranges.{passes, is_integer, is_table, is_array_of, has_type, is_between, are_digits, is_enables_byte, are_masks, are_flags, is_text, record_of, record_in, are_settings, is_selection, is_offset, are_five_bits, are_boot_data, parameter_in, is_in_range, settings};

use crate::attributes::{
    are_only_indexes, are_own_indexes, are_values, is_kind, is_most, is_only_text, is_sized_text,
    is_step, is_upper_natural, text,
};
use crate::channels::{accesses, are_user_bytes, is_access, is_channel, limits, store};
use crate::field::Field;
use crate::numeric::{in_order, size_in, sized, sized_in};
use crate::row::Shape;
use crate::states::{are_changes, are_present, are_state_lists};
use crate::tree::{bytes, members, natural, naturals, number};
use crate::users::{are_names, is_user_limit, name};
use record_base::board_sizes::MOST_SDR_BYTES;
use record_base::event_enable::are_within;
use record_base::{
    Bcd, BootChange, BootFlags, BootParameter, GlobalEnables, MaskedBits, SdrRecord,
    ThresholdMasks, Thresholds, Watchdog,
};
use toml::{Table, Value};

/// Whether each of the values is an integer.
fn all_integers(values: &[Value]) -> bool
    ensures { result ≡ list_all (λ value. is_integer (view value)) values.now }
{
    values.iter().all(|value| value.is_integer())
}

/// Whether each of the values is a table.
fn all_tables(values: &[Value]) -> bool
    ensures { result ≡ list_all (λ value. is_table (view value)) values.now }
{
    values.iter().all(|value| value.is_table())
}

/// Whether each of the values is a text.
fn all_texts(values: &[Value]) -> bool
    ensures { result ≡ list_all (λ value. is_text (view value)) values.now }
{
    values.iter().all(|value| value.is_str())
}

/// Whether the value is an array of texts.
fn are_texts(value: &Value) -> bool
    ensures { result ≡ is_array_of is_text (view value.now) }
{
    match members(value) {
        Some(values) => all_texts(values),
        None => false,
    }
}

/// Whether the value is an array of integers.
fn are_integers(value: &Value) -> bool
    ensures { result ≡ is_array_of is_integer (view value.now) }
{
    match members(value) {
        Some(values) => all_integers(values),
        None => false,
    }
}

/// Whether each of the values is an array of integers.
fn all_lists(values: &[Value]) -> bool
    ensures { result ≡ list_all (λ value. is_array_of is_integer (view value)) values.now }
{
    values.iter().all(|value| are_integers(value))
}

/// Whether the value is an array of arrays of integers.
fn are_lists(value: &Value) -> bool
    ensures { result ≡ is_array_of (is_array_of is_integer) (view value.now) }
{
    match members(value) {
        Some(values) => all_lists(values),
        None => false,
    }
}

/// Whether the value is an array of tables.
fn are_tables(value: &Value) -> bool
    ensures { result ≡ is_array_of is_table (view value.now) }
{
    match members(value) {
        Some(values) => all_tables(values),
        None => false,
    }
}

/// Whether the value is a number from the least to the most.
pub fn is_between(value: &Value, least: u32, most: u32) -> bool
    ensures { result ≡ passes (is_between least most) (natural (view value.now)) }
{
    match natural(value) {
        Some(number) => u64::from(least) <= number && number <= u64::from(most),
        None => false,
    }
}

/// Whether the array that the value is has at most so many members.
fn are_at_most(value: &Value, most: usize) -> bool
    ensures { result ≡ nat_le (length (or_none (members (view value.now)))) most }
{
    match members(value) {
        Some(values) => values.len() <= most,
        None => true,
    }
}

/// The decimal digits that the value is.
pub fn digits(value: &Value) -> Option<Bcd>
    ensures made { is_some result ≡ passes are_digits (natural (view value.now)) }
    ensures held { IfSome result (λ digits. natural (view value.now) ≡ Some digits.byte) }
{
    match natural(value) {
        Some(number) => match u8::try_from(number) {
            Ok(byte) => Bcd::new(byte),
            Err(_) => None,
        },
        None => None,
    }
}

/// The global enables that the value is.
pub fn enables(value: &Value) -> Option<GlobalEnables>
    ensures made { is_some result ≡ passes is_enables_byte (natural (view value.now)) }
    ensures held { IfSome result (λ enables. natural (view value.now) ≡ Some enables.byte) }
{
    match natural(value) {
        Some(number) => match u8::try_from(number) {
            Ok(byte) => GlobalEnables::new(byte),
            Err(_) => None,
        },
        None => None,
    }
}

/// The boot flags that the value is.
pub fn boot_flags(value: &Value) -> Option<BootFlags>
    ensures made { is_some result ≡ is_some (bytes_in 5 (view value.now)) }
    ensures held { IfSome result (λ flags. bytes_in 5 (view value.now) ≡ Some (flag_bytes flags)) }
{
    let Some(bytes) = bytes::<5>(value) else {
        return None;
    };
    let [validity, device, console, overrides, instance] = bytes;
    Some(BootFlags {
        validity,
        device,
        console,
        overrides,
        instance,
    })
}

/// The masks of the sensor that the table is.
fn masks(item: &Table) -> Option<ThresholdMasks>
    ensures made { is_some result ≡ are_masks
        (number_in Field.Readable (table_view item.now))
        (number_in Field.Settable (table_view item.now)) }
    ensures readable { IfSome result
        (λ masks. number_in Field.Readable (table_view item.now) ≡ Some masks.readable) }
    ensures settable { IfSome result
        (λ masks. number_in Field.Settable (table_view item.now) ≡ Some masks.settable) }
{
    let (Some(readable), Some(settable)) = (
        number(item, Field::Readable),
        number(item, Field::Settable),
    ) else {
        return None;
    };
    let (Ok(readable), Ok(settable)) = (u8::try_from(readable), u8::try_from(settable)) else {
        return None;
    };
    ThresholdMasks::new(readable, settable)
}

/// The thresholds that the value is, of the sensor that the table is.
pub fn thresholds(item: &Table, value: &Value) -> Option<Thresholds>
    ensures made { is_some result
        ≡ is_in_range (table_view item.now) Shape.Thresholds (view value.now) }
    ensures readable { IfSome result
        (λ t. number_in Field.Readable (table_view item.now) ≡ Some t.masks.readable) }
    ensures settable { IfSome result
        (λ t. number_in Field.Settable (table_view item.now) ≡ Some t.masks.settable) }
    ensures values { IfSome result (λ t. bytes_in 6 (view value.now) ≡ Some t.values) }
{
    let Some(masks) = masks(item) else {
        return None;
    };
    match bytes::<6>(value) {
        Some(values) => Thresholds::new(masks, values),
        None => None,
    }
}

/// Whether the value is a byte with no bits but bits 7 and 6.
fn are_flags(value: &Value) -> bool
    ensures { result ≡ passes are_flags (natural (view value.now)) }
{
    match natural(value) {
        Some(number) => number < 256 && number % 64 == 0,
        None => false,
    }
}

/// Whether the value is a mask of events that the sensor that the table is supports.
fn are_supported(item: &Table, value: &Value) -> bool
    ensures { result ≡ is_in_range (table_view item.now) Shape.Events (view value.now) }
{
    let (Some(supported), Some(events)) = (number(item, Field::Supported), natural(value)) else {
        return false;
    };
    let (Ok(supported), Ok(events)) = (u16::try_from(supported), u16::try_from(events)) else {
        return false;
    };
    are_within(events, supported)
}

/// The sensor data record that the text says in hexadecimal digits.
fn record_in_text(text: &str) -> Option<SdrRecord>
    ensures { result ≡ record_of (decode_of text.now) }
{
    let size = text.len() / 2;
    if size > MOST_SDR_BYTES {
        return None;
    }
    let mut bytes = [0; MOST_SDR_BYTES];
    let bytes = &mut bytes[..size];
    match hex::decode_to_slice(text, bytes) {
        Ok(()) => SdrRecord::new(bytes),
        Err(_) => None,
    }
}

/// The sensor data record that the value is.
pub fn record(value: &Value) -> Option<SdrRecord>
    ensures { result ≡ record_in (view value.now) }
{
    match value.as_str() {
        Some(text) => record_in_text(text),
        None => None,
    }
}

/// Whether each of the values is a sensor data record.
fn all_records(values: &[Value]) -> bool
    ensures { result ≡ list_all (λ value. is_some (record_in (view value))) values.now }
{
    values.iter().all(|value| record(value).is_some())
}

/// Whether the array that the value is has at most so many members, each of which is a sensor data record.
fn are_records(value: &Value, most: usize) -> bool
    ensures { result ≡ (nat_le (length (or_none (members (view value.now)))) most
        && list_all (λ text. is_some (record_in text)) (or_none (members (view value.now)))) }
{
    match members(value) {
        Some(values) => values.len() <= most && all_records(values),
        None => true,
    }
}

/// The settings of a watchdog timer that the value is.
pub fn watchdog(value: &Value) -> Option<Watchdog>
    ensures made { is_some result ≡ passes are_settings (naturals_in 4 (view value.now)) }
    ensures held { IfSome result
        (λ watchdog. naturals_in 4 (view value.now) ≡ Some (settings watchdog)) }
{
    let Some(numbers) = naturals::<4>(value) else {
        return None;
    };
    let [timer_use, actions, pre_timeout, initial] = numbers;
    let (Ok(timer_use), Ok(actions)) = (u8::try_from(timer_use), u8::try_from(actions)) else {
        return None;
    };
    let (Ok(pre_timeout), Ok(initial)) = (u8::try_from(pre_timeout), u16::try_from(initial)) else {
        return None;
    };
    Watchdog::new(timer_use, actions, pre_timeout, initial)
}

/// Whether the value says what becomes of events.
fn is_selection(value: &Value) -> bool
    ensures { result ≡ passes is_selection (as_str (view value.now)) }
{
    match value.as_str() {
        Some(word) => word == "leave" || word == "enable" || word == "disable",
        None => false,
    }
}

/// Whether each of the values is the offset of an event.
fn all_offsets(values: &[Value]) -> bool
    ensures { result ≡ list_all (λ value. is_offset (view value)) values.now }
{
    values.iter().all(|value| is_between(value, 0, 11))
}

/// Whether the value is an array of offsets of events.
fn are_offsets(value: &Value) -> bool
    ensures { result ≡ is_array_of is_offset (view value.now) }
{
    match members(value) {
        Some(values) => all_offsets(values),
        None => false,
    }
}

/// The change of parameter 3 that the value is.
fn valid_bit_clearing(value: &Value) -> Option<BootChange>
    ensures made { is_some result ≡ passes are_five_bits (bytes_in 1 (view value.now)) }
    ensures held { IfSome result (λ change. (byte : ℕ)
        × (change ≡ BootChange.ValidBitClearing byte)
        × (bytes_in 1 (view value.now) ≡ Some (byte ∷ []))) }
{
    let Some(bytes) = bytes::<1>(value) else {
        return None;
    };
    let [byte] = bytes;
    if byte >= 32 {
        return None;
    }
    Some(BootChange::ValidBitClearing(byte))
}

/// The change of parameter 4 that the value is: a mask, and the bits that are written.
fn info_acknowledge(value: &Value) -> Option<BootChange>
    ensures made { is_some result ≡ is_some (bytes_in 2 (view value.now)) }
    ensures held { IfSome result (λ change. (masked : MaskedBits)
        × (change ≡ BootChange.InfoAcknowledge masked)
        × (bytes_in 2 (view value.now) ≡ Some (masked.mask ∷ masked.bits ∷ []))) }
{
    let Some(bytes) = bytes::<2>(value) else {
        return None;
    };
    let [mask, bits] = bytes;
    Some(BootChange::InfoAcknowledge(MaskedBits { mask, bits }))
}

/// What becomes of the boot parameter by the data that the value is.
pub fn boot_change(parameter: BootParameter, value: &Value) -> Option<BootChange>
    ensures made { is_some result ≡ are_boot_data parameter (view value.now) }
    ensures changed { IfSome result (λ change. parameter_of change ≡ parameter) }
    ensures held { IfSome result (λ change.
        bytes_in (length (change_bytes change)) (view value.now) ≡ Some (change_bytes change)) }
{
    match parameter {
        BootParameter::ValidBitClearing => valid_bit_clearing(value),
        BootParameter::InfoAcknowledge => info_acknowledge(value),
        BootParameter::Flags => match boot_flags(value) {
            Some(flags) => Some(BootChange::Flags(flags)),
            None => None,
        },
    }
}

/// The boot parameter that the item names.
pub fn parameter_in(item: &Table) -> Option<BootParameter>
    ensures { result ≡ parameter_in (table_view item.now) }
{
    match number(item, Field::Param) {
        Some(number) => match u8::try_from(number) {
            Ok(byte) => BootParameter::at(byte),
            Err(_) => None,
        },
        None => None,
    }
}

/// Whether the value is data of the boot parameter that the item names.
fn are_boot_data(item: &Table, value: &Value) -> bool
    ensures { result ≡ is_in_range (table_view item.now) Shape.BootData (view value.now) }
{
    match parameter_in(item) {
        Some(parameter) => boot_change(parameter, value).is_some(),
        None => false,
    }
}

/// Whether the value is a number of the size that the item names.
fn is_sized(item: &Table, value: &Value) -> bool
    ensures { result ≡ is_in_range (table_view item.now) Shape.Sized (view value.now) }
{
    match size_in(item) {
        Some(size) => sized(size, value).is_some(),
        None => false,
    }
}

/// Whether the value is such a number, and not below the item's lower bound.
fn is_upper(item: &Table, value: &Value) -> bool
    ensures { result ≡ is_in_range (table_view item.now) Shape.Upper (view value.now) }
{
    match size_in(item) {
        Some(size) => in_order(size, sized_in(item, size, Field::Lower), sized(size, value)),
        None => false,
    }
}

/// Whether the value is such a number, within the item's bounds.
fn is_current(item: &Table, value: &Value) -> bool
    ensures { result ≡ is_in_range (table_view item.now) Shape.Current (view value.now) }
{
    let Some(size) = size_in(item) else {
        return false;
    };
    let lower = sized_in(item, size, Field::Lower);
    let upper = sized_in(item, size, Field::Upper);
    let number = sized(size, value);
    in_order(size, lower, number) && in_order(size, number, upper)
}

impl Shape {
    /// Whether the value is of its type.
    pub fn has_type(&self, value: &Value) -> bool
        ensures { result ≡ has_type self.now (view value.now) }
    {
        match self {
            Shape::Number(..) | Shape::Digits | Shape::Enables => value.is_integer(),
            Shape::Flags | Shape::Events => value.is_integer(),
            Shape::Pair | Shape::Thresholds | Shape::Watchdog | Shape::Offsets => {
                are_integers(value)
            }
            Shape::Records(_) | Shape::Names => are_texts(value),
            Shape::BootFlags | Shape::BootData | Shape::FewIndexes => are_integers(value),
            Shape::AttributeText => value.is_str(),
            Shape::Natural => value.is_integer(),
            Shape::Sized | Shape::Upper | Shape::Current => value.is_integer(),
            Shape::Table => value.is_table(),
            Shape::Tables(_) => are_tables(value),
            Shape::Flag => value.is_bool(),
            Shape::Text | Shape::Select => value.is_str(),
            Shape::Name | Shape::Store => value.is_str(),
            Shape::UserLimit | Shape::Access | Shape::ChannelNumber => value.is_integer(),
            Shape::Accesses | Shape::Limits | Shape::UserBytes(_) => are_integers(value),
            Shape::StateLists => are_lists(value),
            Shape::States | Shape::StateChanges => are_integers(value),
            Shape::ShortText | Shape::AttributeKind | Shape::SizedText => value.is_str(),
            Shape::Values => are_texts(value),
            Shape::Indexes => are_integers(value),
            Shape::MostLength => value.is_integer(),
            Shape::UpperNatural | Shape::Stepped => value.is_integer(),
            Shape::Lan(shape) if shape.is_number() => value.is_integer(),
            Shape::Lan(_) => are_integers(value),
        }
    }

    /// Whether the item can have the value in a field of this shape.
    pub fn is_in_range(&self, item: &Table, value: &Value) -> bool
        ensures { result ≡ is_in_range (table_view item.now) self.now (view value.now) }
    {
        match self {
            Shape::Number(least, most) => is_between(value, *least, *most),
            Shape::Digits => digits(value).is_some(),
            Shape::Enables => enables(value).is_some(),
            Shape::Pair => bytes::<2>(value).is_some(),
            Shape::BootFlags => boot_flags(value).is_some(),
            Shape::Thresholds => thresholds(item, value).is_some(),
            Shape::Flags => are_flags(value),
            Shape::Events => are_supported(item, value),
            Shape::Watchdog => watchdog(value).is_some(),
            Shape::Records(most) => are_records(value, *most),
            Shape::Table => true,
            Shape::Tables(most) => are_at_most(value, *most),
            Shape::Flag | Shape::Text => true,
            Shape::Select => is_selection(value),
            Shape::Offsets => are_offsets(value),
            Shape::BootData => are_boot_data(item, value),
            Shape::FewIndexes => are_only_indexes(item, value),
            Shape::AttributeText => is_only_text(item, value),
            Shape::Natural => natural(value).is_some(),
            Shape::Sized => is_sized(item, value),
            Shape::Upper => is_upper(item, value),
            Shape::Current => is_current(item, value),
            Shape::Name => name(value).is_some(),
            Shape::Names => are_names(value),
            Shape::UserLimit => is_user_limit(value),
            Shape::Store => store(value).is_some(),
            Shape::Access => is_access(value),
            Shape::Accesses => accesses(value).is_some(),
            Shape::Limits => limits(value).is_some(),
            Shape::UserBytes(users) => are_user_bytes(value, *users),
            Shape::ChannelNumber => is_channel(value),
            Shape::StateLists => are_state_lists(value),
            Shape::States => are_present(item, value),
            Shape::StateChanges => are_changes(value),
            Shape::ShortText => text(value).is_some(),
            Shape::AttributeKind => is_kind(value),
            Shape::Values => are_values(value),
            Shape::Indexes => are_own_indexes(item, value),
            Shape::MostLength => is_most(item, value),
            Shape::SizedText => is_sized_text(item, value),
            Shape::UpperNatural => is_upper_natural(item, value),
            Shape::Stepped => is_step(item, value),
            Shape::Lan(shape) => shape.is_in_range(item, value),
        }
    }
}
