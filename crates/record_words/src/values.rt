//! The fields that the value of a record has.
ghost use Rattle.std.specs.Prelude.{◌≡◌};
ghost use Rattle.record_words.specs.ValueFields as values;

use crate::controller::{acknowledge, boot_flags, clearing, global_enables, watchdog};
use crate::field::{Field, Fields};
use crate::meaning::Meaning;
use crate::sensors::{hysteresis, thresholds};
use crate::shown::Shown;
use crate::term::Term;
use crate::users::{channel_access, lan_param, user_access};
use record_base::mask::has;
use record_base::numeric_size::number_in;
use record_base::user_sizes::USER_NAME_SIZE;
use record_base::*;

/// The fields of a value of thresholds.
fn threshold_values(value: &[u8]) -> Fields
    ensures { result ≡ values.threshold_values value.now }
{
    thresholds(&SetThresholds {
        sensor: 0,
        mask: 63,
        values: bytes_at(value, 0),
    })
}

/// Of one of hysteresis.
fn hysteresis_values(value: &[u8]) -> Fields
    ensures { result ≡ values.hysteresis_values value.now }
{
    hysteresis(&SetHysteresis {
        sensor: 0,
        positive: byte_at(value, 0),
        negative: byte_at(value, 1),
    })
}

/// Of one of enabled events.
fn enabled_events(value: &[u8]) -> Fields
    ensures { result ≡ values.enabled_events value.now }
{
    let flags = byte_at(value, 0);
    let assertions = u16::from_le_bytes([byte_at(value, 1), byte_at(value, 2)]);
    let deassertions = u16::from_le_bytes([byte_at(value, 3), byte_at(value, 4)]);
    Fields::of(&[
        Field::of(Term::EventMessages, Shown::Switch(has(flags, 7))),
        Field::of(Term::Scanning, Shown::Switch(has(flags, 6))),
        Field::of(Term::AssertionEvents, Shown::Events(assertions)),
        Field::of(Term::DeassertionEvents, Shown::Events(deassertions)),
    ])
}

/// What a policy's number means.
fn policy_value(number: u8) -> Shown
    ensures { result ≡ values.policy_value number }
{
    match number {
        0 => Shown::Means(Meaning::AlwaysOff),
        1 => Shown::Means(Meaning::Previous),
        2 => Shown::Means(Meaning::AlwaysOn),
        3 => Shown::Means(Meaning::UnknownPolicy),
        _ => Shown::Bits(number),
    }
}

/// The fields of a watchdog timer's settings.
fn settings(value: &[u8]) -> Fields
    ensures { result ≡ values.settings value.now }
{
    watchdog(&SetWatchdog {
        timer_use: byte_at(value, 0),
        actions: byte_at(value, 1),
        pre_timeout: byte_at(value, 2),
        flags_to_clear: 0,
        initial: u16::from_le_bytes([byte_at(value, 3), byte_at(value, 4)]),
    })
}

/// Of a boot parameter's value: the mark, and the data.
fn boot_value(parameter: BootParameter, value: &[u8]) -> Fields
    ensures { result ≡ values.boot_value parameter value.now }
{
    let invalid = byte_at(value, 0) == 1;
    let bits = Shown::Bits(byte_at(value, 1));
    match parameter {
        BootParameter::ValidBitClearing => clearing(invalid, bits),
        BootParameter::InfoAcknowledge => acknowledge(invalid, bits),
        BootParameter::Flags => boot_flags(
            invalid,
            &BootFlags {
                validity: byte_at(value, 1),
                device: byte_at(value, 2),
                console: byte_at(value, 3),
                overrides: byte_at(value, 4),
                instance: byte_at(value, 5),
            },
        ),
    }
}

/// The state at a place.
fn state(value: &[u8], place: usize) -> Shown
    ensures { result ≡ values.state value.now place }
{
    match value.get(place) {
        Some(state) => Shown::Number(u32::from(*state)),
        None => Shown::Kept,
    }
}

/// The fields of the states of an effecter.
fn states(value: &[u8]) -> Fields
    ensures { result ≡ values.states value.now }
{
    Fields::of(&[
        Field::numbered(1, state(value, 0)),
        Field::numbered(2, state(value, 1)),
        Field::numbered(3, state(value, 2)),
        Field::numbered(4, state(value, 3)),
        Field::numbered(5, state(value, 4)),
        Field::numbered(6, state(value, 5)),
        Field::numbered(7, state(value, 6)),
        Field::numbered(8, state(value, 7)),
    ])
}

/// Of what a user may do on a channel.
fn access_value(byte: u8) -> Fields
    ensures { result ≡ values.access_value byte }
{
    user_access(&SetUserAccess {
        first: 128 + byte / 16 % 8 * 16,
        user: 0,
        limit: byte % 16,
        session_limit: None,
    })
}

/// Of a channel's access, and its limit of privileges.
fn channel_value(access: u8, limit: u8) -> Fields
    ensures { result ≡ values.channel_value access limit }
{
    channel_access(&SetChannelAccess {
        channel: ChannelNumber::of(0),
        store: AccessStore::Neither,
        change: ChannelChange::Both(SixBits::of(access), SixBits::of(limit)),
    })
}

/// The change that gives a LAN parameter this value.
fn lan_change(parameter: LanParameter, value: &[u8]) -> LanChange
    ensures { result ≡ values.lan_change parameter value.now }
{
    match parameter {
        LanParameter::Address(which) => LanChange::Address(
            which,
            Ipv4Address {
                first: byte_at(value, 0),
                second: byte_at(value, 1),
                third: byte_at(value, 2),
                fourth: byte_at(value, 3),
            },
        ),
        LanParameter::AddressSource => LanChange::AddressSource(byte_at(value, 0)),
        LanParameter::Vlan => LanChange::Vlan(VlanBytes {
            low: byte_at(value, 0),
            high: byte_at(value, 1),
        }),
    }
}

/// The fields of a LAN parameter's value.
fn lan_value(parameter: LanParameter, value: &[u8]) -> Fields
    ensures { result ≡ values.lan_value parameter value.now }
{
    lan_param(&SetLanParam {
        channel: ChannelNumber::of(0),
        change: lan_change(parameter, value),
    })
}

/// The field of a user's name.
fn name_value(value: &[u8]) -> Fields
    ensures { result ≡ values.name_value value.now }
{
    Fields::of(&[Field::of(
        Term::UserName,
        Shown::Name(bytes_at::<{ USER_NAME_SIZE }>(value, 0)),
    )])
}

/// The fields that the value of the key's record has. Of an attribute it has none.
pub(crate) fn value_fields(key: &Key, value: &[u8]) -> Fields
    ensures { result ≡ values.value_fields key.now value.now }
{
    match key {
        Key::Thresholds(_) => threshold_values(value),
        Key::Hysteresis(_) => hysteresis_values(value),
        Key::EventEnable(_) => enabled_events(value),
        Key::PowerPolicy => Fields::of(&[Field::whole(policy_value(byte_at(value, 0)))]),
        Key::Watchdog => settings(value),
        Key::GlobalEnables => global_enables(&SetGlobalEnables {
            byte: byte_at(value, 0),
        }),
        Key::BootParam(parameter) => boot_value(*parameter, value),
        Key::NumericEffecter(_) => { Fields::of(&[Field::whole(Shown::Number(number_in(value)))]) }
        Key::StateEffecter(_) => states(value),
        Key::UserName(_) => name_value(value),
        Key::UserAccess(_) => access_value(byte_at(value, 0)),
        Key::ChannelAccess(_) => channel_value(byte_at(value, 0), byte_at(value, 1)),
        Key::BiosAttribute(_) => Fields::of(&[]),
        Key::LanParam(on) => lan_value(on.parameter, value),
    }
}
