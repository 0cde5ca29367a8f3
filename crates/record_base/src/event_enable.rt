//! Which events of a sensor are enabled: in a board file, and as it is set.
ghost use Rattle.std.specs.Prelude.{◌≡◌, ◌<◌, ◌≤◌, ◌↔◌, IsTrue};
ghost use Rattle.record_base.specs.Sensor.EventEnable.{IsEventEnable, AreWithin, CanEnable, are_within, event_value, flags_byte};
ghost use Rattle.record_base.specs.PartLaws.{IsEventEnable-prop};

use crate::key::Key;
use crate::start_value::StartValue;

/// The bit of the flags that says whether the sensor makes event messages.
pub const MESSAGES_PLACE: usize = 7;

/// The bit of the flags that says whether readings are taken.
pub const SCANNING_PLACE: usize = 6;

/// Two sets of a sensor's events: bit i of a mask stands for the event of offset i.
#[derive(Clone, Copy, Debug)]
pub struct EventMasks {
    /// Events that are asserted.
    pub assertions: u16,
    /// Events that are deasserted.
    pub deassertions: u16,
}

/// Which events a sensor supports, and which of them are enabled.
#[derive(Clone, Copy, Debug)]
pub struct EventEnable {
    /// The events that can be enabled, asserted or deasserted: two for each threshold.
    pub supported: u16,
    /// Whether the sensor makes event messages.
    pub messages: bool,
    /// Whether readings are taken.
    pub scanning: bool,
    pub enabled: EventMasks,
    ghost twelve: { supported < 4096 },
    ghost valid: { IsEventEnable supported (event_value messages scanning enabled) } by { IsEventEnable-prop supported (event_value messages scanning enabled) },
}

/// A change of the enabled events, by the selection of the request.
#[derive(Clone, Copy)]
pub enum EventChange {
    /// The enabled events stay.
    Leave,
    /// Enables these events, and leaves the others.
    Enable(EventMasks),
    /// Disables these events, and leaves the others.
    Disable(EventMasks),
    /// Every sensor refuses the reserved selection.
    Reserved,
}

/// Sets whether the sensor makes event messages and whether readings are taken, and enables or disables events.
#[derive(Clone, Copy)]
pub struct SetEventEnable {
    pub sensor: u8,
    pub messages: bool,
    pub scanning: bool,
    pub change: EventChange,
}

/// Whether each event of the mask is one of the others.
pub fn are_within(events: u16, others: u16) -> bool
    ensures test { result ≡ are_within events others }
    ensures means { IsTrue result ↔ AreWithin events others }
{
    events & !others == 0
}

/// Whether each supported event belongs to a threshold, and each enabled event is supported.
fn are_supported(enabled: &EventMasks, supported: u16) -> bool
    ensures { IsTrue result ↔ CanEnable supported enabled.now }
{
    supported < 4096
        && are_within(enabled.assertions, supported)
        && are_within(enabled.deassertions, supported)
}

/// The flags: bit 7 event messages, bit 6 scanning.
pub fn flags_byte(messages: bool, scanning: bool) -> u8
    ensures value { result ≡ flags_byte messages scanning }
    ensures small { result ≤ 192 }
{
    let messages = if messages { 1 << MESSAGES_PLACE } else { 0 };
    let scanning = if scanning { 1 << SCANNING_PLACE } else { 0 };
    messages + scanning
}

/// The value of these flags and enabled events.
pub fn event_value(messages: bool, scanning: bool, enabled: &EventMasks) -> [u8; 5]
    ensures { result ≡ event_value messages scanning enabled.now }
{
    let [low, high] = enabled.assertions.to_le_bytes();
    let [low_deasserted, high_deasserted] = enabled.deassertions.to_le_bytes();
    let flags = flags_byte(messages, scanning);
    [flags, low, high, low_deasserted, high_deasserted]
}

impl EventEnable {
    ghost use Rattle.std.specs.Prelude.{◌≡◌, ◌↔◌, IsSome, IfSome};
    ghost use Rattle.record_base.specs.Sensor.EventEnable.{CanEnable, event_value};

    /// A sensor's events, or nothing where a supported event belongs to no threshold, or an enabled event isn't supported.
    pub fn new(
        supported: u16,
        messages: bool,
        scanning: bool,
        enabled: EventMasks,
    ) -> Option<EventEnable>
        ensures made { IsSome result ↔ CanEnable supported enabled }
        ensures flags { IfSome result (λ made.
            (made.messages ≡ messages) × (made.scanning ≡ scanning)) }
        ensures masks { IfSome result (λ made.
            (made.supported ≡ supported) × (made.enabled ≡ enabled)) }
    {
        if !are_supported(&enabled, supported) {
            return None;
        }
        Some(EventEnable {
            supported,
            messages,
            scanning,
            enabled,
        })
    }

    /// The record of the sensor of this number.
    pub fn pair(&self, sensor: u8) -> (Key, StartValue)
        ensures { result ≡ (
          Key.EventEnable sensor,
          event_value self.now.messages self.now.scanning self.now.enabled,
        ) }
    {
        let value = event_value(self.messages, self.scanning, &self.enabled);
        (Key::EventEnable(sensor), StartValue::few(&value))
    }
}
