//! The names of records, in words.
ghost use Rattle.std.specs.Prelude.{◌≡◌, Some};
ghost use Rattle.record_words.specs.NameWords.{boot_name, record_words, store_words, subject_words};

use record_base::{AccessStore, BootParameter, Key};
use std::fmt;

/// A record's name.
#[derive(Clone, Copy)]
pub struct RecordName(pub Key);

/// What the names of a record's fields stand behind: the record's sensor, user, channel, effecter or attribute, or the record itself.
#[derive(Clone, Copy)]
pub(crate) struct Subject(pub(crate) Key);

/// The name of a boot parameter.
fn boot_name(parameter: BootParameter) -> &'static str
    ensures { result.now ≡ boot_name parameter }
{
    match parameter {
        BootParameter::ValidBitClearing => "boot flag valid bit clearing",
        BootParameter::InfoAcknowledge => "boot info acknowledge",
        BootParameter::Flags => "boot flags",
    }
}

/// The word for a store.
fn store_words(store: AccessStore) -> &'static str
    ensures { result.now ≡ store_words store }
{
    match store {
        AccessStore::NonVolatile => "non-volatile",
        AccessStore::Volatile => "volatile",
        AccessStore::Neither => "unnamed",
    }
}

impl fmt::Display for RecordName {
    ghost output = { λ it. Some (record_words it.0) };

    fn fmt<W: fmt::Write>(&self, f: &mut fmt::Formatter<W>) -> fmt::Result {
        match self.0 {
            Key::Thresholds(sensor) => write!(f, "sensor {sensor} thresholds"),
            Key::Hysteresis(sensor) => write!(f, "sensor {sensor} hysteresis"),
            Key::EventEnable(sensor) => write!(f, "sensor {sensor} event enable"),
            Key::PowerPolicy => f.write_str("power restore policy"),
            Key::Watchdog => f.write_str("watchdog timer"),
            Key::GlobalEnables => f.write_str("BMC global enables"),
            Key::BootParam(parameter) => f.write_str(boot_name(parameter)),
            Key::NumericEffecter(effecter) => write!(f, "numeric effecter {effecter}"),
            Key::StateEffecter(effecter) => write!(f, "state effecter {effecter}"),
            Key::UserName(user) => {
                let number = user.number;
                write!(f, "user {number} name")
            }
            Key::UserAccess(on) => {
                let number = on.user.number;
                let channel = on.channel.number;
                write!(f, "user {number} access on channel {channel}")
            }
            Key::ChannelAccess(stored) => {
                let channel = stored.channel.number;
                let store = store_words(stored.store);
                write!(f, "channel {channel} {store} access")
            }
            Key::BiosAttribute(handle) => write!(f, "attribute {handle}"),
            Key::LanParam(on) => {
                let selector = on.parameter.selector();
                let channel = on.channel.number;
                write!(f, "LAN parameter {selector} of channel {channel}")
            }
        }
    }
}

impl fmt::Display for Subject {
    ghost output = { λ it. Some (subject_words it.0) };

    fn fmt<W: fmt::Write>(&self, f: &mut fmt::Formatter<W>) -> fmt::Result {
        match self.0 {
            Key::Thresholds(sensor) | Key::Hysteresis(sensor) | Key::EventEnable(sensor) => {
                write!(f, "sensor {sensor}")
            }
            Key::PowerPolicy => f.write_str("power restore policy"),
            Key::Watchdog => f.write_str("watchdog timer"),
            Key::GlobalEnables => f.write_str("BMC global enables"),
            Key::BootParam(_) => f.write_str("boot"),
            Key::NumericEffecter(effecter) => write!(f, "numeric effecter {effecter}"),
            Key::StateEffecter(effecter) => write!(f, "state effecter {effecter}"),
            Key::UserName(user) => {
                let number = user.number;
                write!(f, "user {number}")
            }
            Key::UserAccess(on) => {
                let number = on.user.number;
                let channel = on.channel.number;
                write!(f, "user {number} on channel {channel}")
            }
            Key::ChannelAccess(stored) => {
                let channel = stored.channel.number;
                let store = store_words(stored.store);
                write!(f, "channel {channel} {store}")
            }
            Key::BiosAttribute(handle) => write!(f, "attribute {handle}"),
            Key::LanParam(on) => {
                let channel = on.channel.number;
                write!(f, "channel {channel}")
            }
        }
    }
}
