//! Which records a controller is asked for.
ghost use Rattle.std.specs.Prelude.{◌≡◌, ◌++◌, IfOk, OnOk};
ghost use Rattle.std.specs.List.{flat_map, range_with_len};
ghost use Rattle.app_show.specs.Keys.{access_key, channel_keys, effecter_keys, ids_keys};
ghost use Rattle.app_show.specs.Keys.{lan_key, later_access_keys, name_keys, numbered_keys};
ghost use Rattle.app_show.specs.Keys.{own_keys, sensor_count, sensor_keys, stored_key};

use record_base::{
    AccessStore, BootParameter, ChannelNumber, Key, LanAddress, LanParameter, ParameterOnChannel,
    StoredAccess, UserNumber, UserOnChannel,
};
use std::alloc::{AllocError, Global};

/// Ids of effecters: from the first on, up to the last.
#[derive(Clone, Copy, Debug, PartialEq, Eq)]
pub struct IdRange {
    pub first: u16,
    pub last: u16,
}

/// How many numbers a sensor may have: FFh is reserved.
const SENSOR_COUNT: u8 = 255;

/// The numbers of the channels that a controller may have, but for the one over which it is asked: the others are reserved.
pub(crate) const CHANNELS: [u8; 13] = [0, 1, 2, 3, 4, 5, 6, 7, 8, 9, 10, 11, 15];

/// Adds those of the controller itself.
fn push_own(keys: &mut Vec<Key>) -> Result<(), AllocError>
    ensures { OnOk result (keys.new.items ≡ keys.old.items ++ own_keys) }
{
    keys.extend_from_slice(&[
        Key::PowerPolicy,
        Key::Watchdog,
        Key::GlobalEnables,
        Key::BootParam(BootParameter::ValidBitClearing),
        Key::BootParam(BootParameter::InfoAcknowledge),
        Key::BootParam(BootParameter::Flags),
    ])
}

/// Adds those of each sensor.
fn push_sensors(keys: &mut Vec<Key>) -> Result<(), AllocError>
    ensures { OnOk result (keys.new.items
        ≡ keys.old.items ++ flat_map sensor_keys (range_with_len 0 sensor_count)) }
{
    for sensor in 0..SENSOR_COUNT {
        keys.extend_from_slice(&[
            Key::Thresholds(sensor),
            Key::Hysteresis(sensor),
            Key::EventEnable(sensor),
        ])?;
    }
    Ok(())
}

/// The access of a channel in one of its stores.
fn stored_key(channel: ChannelNumber, store: AccessStore) -> Key
    ensures { result ≡ stored_key channel store }
{
    Key::ChannelAccess(StoredAccess { channel, store })
}

/// A LAN parameter of a channel.
fn lan_key(channel: ChannelNumber, parameter: LanParameter) -> Key
    ensures { result ≡ lan_key channel parameter }
{
    Key::LanParam(ParameterOnChannel { channel, parameter })
}

/// Adds those of a channel: its access in each of its stores, and the LAN parameters that can be set.
fn push_channel(keys: &mut Vec<Key>, number: u8) -> Result<(), AllocError>
    ensures { OnOk result (keys.new.items ≡ keys.old.items ++ channel_keys number) }
{
    let channel = ChannelNumber::of(number);
    keys.extend_from_slice(&[
        stored_key(channel, AccessStore::NonVolatile),
        stored_key(channel, AccessStore::Volatile),
        lan_key(channel, LanParameter::Address(LanAddress::Ip)),
        lan_key(channel, LanParameter::AddressSource),
        lan_key(channel, LanParameter::Address(LanAddress::SubnetMask)),
        lan_key(channel, LanParameter::Address(LanAddress::DefaultGateway)),
        lan_key(channel, LanParameter::Vlan),
    ])
}

/// Adds those of each of these channels.
fn push_channels(keys: &mut Vec<Key>, numbers: &[u8]) -> Result<(), AllocError>
    ensures { OnOk result (keys.new.items
        ≡ keys.old.items ++ flat_map channel_keys numbers.now) }
{
    for place in 0..numbers.len() {
        push_channel(keys, numbers[place])?;
    }
    Ok(())
}

/// Those of the controller, of each sensor and of each channel.
pub(crate) fn numbered_keys(alloc: Global) -> Result<Vec<Key>, AllocError>
    ensures { IfOk result (λ keys. keys.items ≡ numbered_keys) }
{
    let mut keys = Vec::new(alloc);
    push_own(&mut keys)?;
    push_sensors(&mut keys)?;
    push_channels(&mut keys, &CHANNELS)?;
    Ok(keys)
}

/// What a user may do on a channel.
pub(crate) fn access_key(channel: u8, user: u8) -> Key
    ensures { result ≡ access_key channel user }
{
    Key::UserAccess(UserOnChannel::of(channel, user))
}

/// What each user but the first may do on a channel, where there are so many users at most.
pub(crate) fn later_access_keys(
    alloc: Global,
    channel: u8,
    users: u8,
) -> Result<Vec<Key>, AllocError>
    ensures { IfOk result (λ keys. keys.items ≡ later_access_keys channel users) }
{
    let mut keys = Vec::new(alloc);
    for before in 0..users.saturating_sub(1) {
        keys.push(access_key(channel, before + 2))?;
    }
    Ok(keys)
}

/// The names of so many users.
pub(crate) fn name_keys(alloc: Global, users: u8) -> Result<Vec<Key>, AllocError>
    ensures { IfOk result (λ keys. keys.items ≡ name_keys users) }
{
    let mut keys = Vec::new(alloc);
    for before in 0..users {
        keys.push(Key::UserName(UserNumber::of(before + 1)))?;
    }
    Ok(keys)
}

/// Adds those of the effecters of these ids, of which each may be a numeric one or a state effecter.
fn push_effecters(keys: &mut Vec<Key>, ids: IdRange) -> Result<(), AllocError>
    ensures { OnOk result (keys.new.items ≡ keys.old.items ++ ids_keys ids) }
{
    for id in ids.first..=ids.last {
        keys.extend_from_slice(&[Key::NumericEffecter(id), Key::StateEffecter(id)])?;
    }
    Ok(())
}

/// Those of the effecters of all these ids.
pub(crate) fn effecter_keys(alloc: Global, effecters: &[IdRange]) -> Result<Vec<Key>, AllocError>
    ensures { IfOk result (λ keys. keys.items ≡ effecter_keys effecters.now) }
{
    let mut keys = Vec::new(alloc);
    for place in 0..effecters.len() {
        push_effecters(&mut keys, effecters[place])?;
    }
    Ok(keys)
}
