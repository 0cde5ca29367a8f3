//! The names of records.
ghost use Rattle.std.specs.Prelude.{◌≡◌, ◌<◌, ◌≤◌, ℕ, IfSome, IsTrue};
ghost use Rattle.record_base.specs.Keys.{AreUpTo, has_length, in_map, in_table, is_length, slot, storage};

use crate::attribute_sizes::{LEAST_VALUE, MOST_VALUE};
use crate::board_sizes::MOST_STATE_FIELDS;
use crate::boot_param::BootParameter;
use crate::channel::StoredAccess;
use crate::lan_parameter::ParameterOnChannel;
use crate::user::{UserNumber, UserOnChannel};
use crate::user_sizes::USER_NAME_SIZE;
use crate::value::VALUE_CAPACITY;
use Lengths::*;

/// How many kinds of record a sensor has.
pub const SENSOR_KINDS: usize = 3;

/// The name of a record: its kind, and its name among the records of the kind. A sensor's records go by the sensor's number, an effecter's by
/// its id, and the value of a BIOS attribute by the attribute's handle.
#[derive(Clone, Copy, Debug, PartialEq, Eq, PartialOrd, Ord)]
pub enum Key {
    /// The thresholds of a sensor.
    Thresholds(u8),
    /// The margins around a sensor's thresholds.
    Hysteresis(u8),
    /// Which events of a sensor are enabled.
    EventEnable(u8),
    /// The power restore policy.
    PowerPolicy,
    /// The settings of the watchdog timer.
    Watchdog,
    /// The enables of the whole controller.
    GlobalEnables,
    /// A parameter of the system boot options.
    BootParam(BootParameter),
    /// The present value of a numeric effecter.
    NumericEffecter(u16),
    /// The present states of a state effecter.
    StateEffecter(u16),
    /// The name of a user.
    UserName(UserNumber),
    /// The access of a user on a channel.
    UserAccess(UserOnChannel),
    /// The access of a channel, in one of its stores.
    ChannelAccess(StoredAccess),
    /// The value of a BIOS attribute.
    BiosAttribute(u16),
    /// A LAN parameter of a channel.
    LanParam(ParameterOnChannel),
}

/// The lengths that a value may have, in bytes.
#[derive(Clone, Copy)]
enum Lengths {
    Exactly(usize),
    /// A number's: 1, 2 or 4.
    OfNumber,
    /// From the first to the second.
    Between(usize, usize),
}

impl Lengths {
    /// Whether this is one of them.
    fn has(&self, length: usize) -> bool
        ensures { result ≡ has_length self.now length }
    {
        match self {
            Exactly(only) => length == *only,
            OfNumber => length == 1 || length == 2 || length == 4,
            Between(least, most) => *least <= length && length <= *most,
        }
    }

    /// The longest of them.
    fn longest(&self) -> usize
        requires { AreUpTo VALUE_CAPACITY self.now }
        ensures is_one { IsTrue (has_length self.now result) }
        ensures bound { (n : ℕ) → IsTrue (has_length self.now n) → n ≤ result }
        ensures short { result ≤ VALUE_CAPACITY }
    {
        match self {
            Exactly(only) => *only,
            OfNumber => 4,
            Between(_, most) => *most,
        }
    }
}

/// What a store asks of a key: the lengths that a value of its kind may have, and where the key is a sensor's, the table of its kind, and the
/// sensor's number.
#[derive(Drop)]
struct Storage {
    lengths: Lengths,
    slot: Option<(usize, u8)>,
}

/// What a store asks of the key of a sensor's record.
#[inline(always)]
fn in_table(table: usize, sensor: u8, lengths: Lengths) -> Storage
    ensures { result ≡ in_table table sensor lengths }
{
    Storage {
        lengths,
        slot: Some((table, sensor)),
    }
}

/// The storage of another record's key.
#[inline(always)]
fn in_map(lengths: Lengths) -> Storage
    ensures { result ≡ in_map lengths }
{
    Storage {
        lengths,
        slot: None,
    }
}

impl Key {
    /// What a store asks of it: a line for each kind.
    #[inline(always)]
    fn storage(&self) -> Storage
        ensures is { result ≡ storage self.now }
        ensures longest { AreUpTo VALUE_CAPACITY result.lengths }
        ensures table { IfSome result.slot (λ at. at.0 < SENSOR_KINDS) }
    {
        match self {
            Key::Thresholds(sensor) => in_table(0, *sensor, Exactly(6)),
            Key::Hysteresis(sensor) => in_table(1, *sensor, Exactly(2)),
            Key::EventEnable(sensor) => in_table(2, *sensor, Exactly(5)),
            Key::PowerPolicy => in_map(Exactly(1)),
            Key::Watchdog => in_map(Exactly(5)),
            Key::GlobalEnables => in_map(Exactly(1)),
            Key::BootParam(parameter) => in_map(Exactly(parameter.length())),
            Key::NumericEffecter(_) => in_map(OfNumber),
            Key::StateEffecter(_) => in_map(Between(1, MOST_STATE_FIELDS)),
            Key::UserName(_) => in_map(Exactly(USER_NAME_SIZE)),
            Key::UserAccess(_) => in_map(Exactly(1)),
            Key::ChannelAccess(_) => in_map(Exactly(2)),
            Key::BiosAttribute(_) => in_map(Between(LEAST_VALUE, MOST_VALUE)),
            Key::LanParam(on) => in_map(Exactly(on.parameter.length())),
        }
    }
    /// Whether a value of the key's kind may have this length, in bytes.
    pub fn is_length(&self, length: usize) -> bool
        ensures { result ≡ is_length self.now length }
    {
        self.storage().lengths.has(length)
    }
    /// The length of the longest value of the key's kind.
    pub fn longest(&self) -> usize
        ensures is_one { IsTrue (is_length self.now result) }
        ensures bound { (n : ℕ) → IsTrue (is_length self.now n) → n ≤ result }
        ensures short { result ≤ VALUE_CAPACITY }
    {
        self.storage().lengths.longest()
    }
    /// The table that has a sensor's record, and the sensor's number.
    #[inline(always)]
    pub fn slot(&self) -> Option<(usize, u8)>
        ensures is { result ≡ slot self.now }
        ensures table { IfSome result (λ at. at.0 < SENSOR_KINDS) }
    {
        self.storage().slot
    }
}
