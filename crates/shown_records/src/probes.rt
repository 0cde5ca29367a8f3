//! Operations that change all that the Get of a record shows.
ghost use Rattle.std.specs.Prelude.{◌≡◌, min, slice_index};
ghost use Rattle.record_base.specs.BoardSizes.{most_state_fields};
ghost use Rattle.shown_records.specs.Probes.{probe, probe_access, probe_boot, probe_boot_change, probe_channel, probe_events, probe_hysteresis, probe_lan, probe_lan_change, probe_name, probe_numeric, probe_states, probe_thresholds, set_fields};

use record_base::board_sizes::MOST_STATE_FIELDS;
use record_base::user_sizes::USER_NAME_SIZE;
use record_base::{
    BootChange, BootFlags, BootParameter, ChannelChange, EventChange, EventMasks, FieldChange,
    FieldChanges, Ipv4Address, Key, LanChange, LanParameter, MaskedBits, NumericBytes, Op,
    ParameterOnChannel, SetBiosAttribute, SetBootParam, SetChannelAccess, SetEventEnable,
    SetGlobalEnables, SetHysteresis, SetLanParam, SetNumericEffecter, SetPowerPolicy,
    SetStateEffecter, SetThresholds, SetUserAccess, SetUserName, SetWatchdog, SixBits,
    StoredAccess, UserNumber, UserOnChannel, VlanBytes, byte_at,
};

/// All events.
const ALL_EVENTS: EventMasks = EventMasks {
    assertions: 0xFFFF,
    deassertions: 0xFFFF,
};

/// A change of all data of a boot parameter.
fn probe_boot_change(parameter: BootParameter) -> BootChange
    ensures { result ≡ probe_boot_change parameter }
{
    match parameter {
        BootParameter::ValidBitClearing => BootChange::ValidBitClearing(0),
        BootParameter::InfoAcknowledge => BootChange::InfoAcknowledge(MaskedBits {
            mask: 0xFF,
            bits: 0,
        }),
        BootParameter::Flags => BootChange::Flags(BootFlags {
            validity: 0,
            device: 0,
            console: 0,
            overrides: 0,
            instance: 0,
        }),
    }
}

/// A change of a LAN parameter.
fn probe_lan_change(parameter: LanParameter) -> LanChange
    ensures { result ≡ probe_lan_change parameter }
{
    match parameter {
        LanParameter::Address(which) => LanChange::Address(
            which,
            Ipv4Address {
                first: 0,
                second: 0,
                third: 0,
                fourth: 0,
            },
        ),
        LanParameter::AddressSource => LanChange::AddressSource(0),
        LanParameter::Vlan => LanChange::Vlan(VlanBytes { low: 0, high: 0 }),
    }
}

/// A change of each field of a state effecter that its Get shows.
fn probe_fields(shown: &[u8]) -> FieldChanges
    ensures { result ≡ set_fields (min (slice_index shown.now 0) most_state_fields) }
{
    let count = usize::from(byte_at(shown, 0)).min(MOST_STATE_FIELDS);
    let mut changes = FieldChanges::new();
    for _field in 0..count {
        changes.push(FieldChange {
            choice: 1,
            state: 0,
        });
    }
    changes
}

/// Each threshold that can be read.
fn probe_thresholds(sensor: u8, shown: &[u8]) -> SetThresholds
    ensures { result ≡ probe_thresholds sensor shown.now }
{
    SetThresholds {
        sensor,
        mask: byte_at(shown, 0),
        values: [0; 6],
    }
}

/// Both bytes.
fn probe_hysteresis(sensor: u8) -> SetHysteresis
    ensures { result ≡ probe_hysteresis sensor }
{
    SetHysteresis {
        sensor,
        positive: 0,
        negative: 0,
    }
}

/// It disables all events.
fn probe_events(sensor: u8) -> SetEventEnable
    ensures { result ≡ probe_events sensor }
{
    SetEventEnable {
        sensor,
        messages: false,
        scanning: false,
        change: EventChange::Disable(ALL_EVENTS),
    }
}

/// All settings.
const NO_SETTINGS: SetWatchdog = SetWatchdog {
    timer_use: 0,
    actions: 0,
    pre_timeout: 0,
    flags_to_clear: 0,
    initial: 0,
};

/// All data of a boot parameter, and its mark.
fn probe_boot(parameter: BootParameter) -> SetBootParam
    ensures { result ≡ probe_boot parameter }
{
    SetBootParam {
        invalid: false,
        change: probe_boot_change(parameter),
    }
}

/// The value.
fn probe_numeric(effecter: u16) -> SetNumericEffecter
    ensures { result ≡ probe_numeric effecter }
{
    SetNumericEffecter {
        effecter,
        size: 0,
        value: NumericBytes::One(0),
    }
}

/// Each field that the Get shows.
fn probe_states(effecter: u16, shown: &[u8]) -> SetStateEffecter
    ensures { result ≡ probe_states effecter shown.now }
{
    SetStateEffecter {
        effecter,
        changes: probe_fields(shown),
    }
}

/// The name.
fn probe_name(user: UserNumber) -> SetUserName
    ensures { result ≡ probe_name user }
{
    SetUserName {
        user: user.number,
        name: [0; USER_NAME_SIZE],
    }
}

/// Bits 6:4, as bit 7 says, and the limit.
fn probe_access(on: UserOnChannel) -> SetUserAccess
    ensures { result ≡ probe_access on }
{
    SetUserAccess {
        first: 128 + on.channel.number,
        user: on.user.number,
        limit: 0,
        session_limit: None,
    }
}

/// The access and the limit.
fn probe_channel(at: StoredAccess) -> SetChannelAccess
    ensures { result ≡ probe_channel at }
{
    SetChannelAccess {
        channel: at.channel,
        store: at.store,
        change: ChannelChange::Both(SixBits::of(0), SixBits::of(0)),
    }
}

/// The data of a LAN parameter.
fn probe_lan(on: ParameterOnChannel) -> SetLanParam
    ensures { result ≡ probe_lan on }
{
    SetLanParam {
        channel: on.channel,
        change: probe_lan_change(on.parameter),
    }
}

/// An operation on the record that changes all that its Get shows.
pub(crate) fn probe(key: &Key, shown: &[u8]) -> Op<'static>
    ensures { result ≡ probe key.now shown.now }
{
    match *key {
        Key::Thresholds(sensor) => Op::Thresholds(probe_thresholds(sensor, shown)),
        Key::Hysteresis(sensor) => Op::Hysteresis(probe_hysteresis(sensor)),
        Key::EventEnable(sensor) => Op::EventEnable(probe_events(sensor)),
        Key::PowerPolicy => Op::PowerPolicy(SetPowerPolicy { policy: 0 }),
        Key::Watchdog => Op::Watchdog(NO_SETTINGS),
        Key::GlobalEnables => Op::GlobalEnables(SetGlobalEnables { byte: 0 }),
        Key::BootParam(parameter) => Op::BootParam(probe_boot(parameter)),
        Key::NumericEffecter(effecter) => Op::NumericEffecter(probe_numeric(effecter)),
        Key::StateEffecter(effecter) => Op::StateEffecter(probe_states(effecter, shown)),
        Key::UserName(user) => Op::UserName(probe_name(user)),
        Key::UserAccess(on) => Op::UserAccess(probe_access(on)),
        Key::ChannelAccess(at) => Op::ChannelAccess(probe_channel(at)),
        Key::BiosAttribute(handle) => Op::BiosAttribute(SetBiosAttribute::of(handle, 0, &[])),
        Key::LanParam(on) => Op::LanParam(probe_lan(on)),
    }
}
