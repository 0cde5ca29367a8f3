//! Which events of a sensor are enabled, as a kind of record.
ghost use Rattle.std.specs.Prelude.{◌≡◌, ◌≤◌, ◌/◌, ◌%◌, ◌&&◌, [], ◌∷◌, length};
ghost use Rattle.record_base.specs.Sensor.EventEnable.{are_within, enabled_in};
ghost use Rattle.sensor_recs.specs.EventEnable.{difference, both_masks, events_after, is_accepted, selection, mask_bytes, event_enable_body, event_masks_in, event_change_in, event_enable_in, undo_change};

use crate::request::sensor_request;
use record_base::event_enable::{
    MESSAGES_PLACE, SCANNING_PLACE, are_within, event_value, flags_byte,
};
use record_base::mask::has;
use record_base::{
    Asked, CommandReader, EventChange, EventMasks, Key, Live, Op, RecordData, RecordKind, Sensor,
    SetEventEnable, Value, byte_at, bytes_at,
};
use two_wire::code::INVALID_DATA_FIELD;
use two_wire::{Buffer, Code};

/// The number of the Set command.
const SET_SENSOR_EVENT_ENABLE: u8 = 0x28;

/// The number of the Get command.
const GET_SENSOR_EVENT_ENABLE: u8 = 0x29;

/// The events that the sensor supports. A Set can enable and disable these events alone.
#[derive(Clone, Copy)]
pub struct EventEnableLimits {
    pub supported: u16,
}

/// The events that a value of these bytes enables.
fn enabled_in(value: &[u8]) -> EventMasks
    requires { length value.now ≡ 5 }
    ensures { result ≡ enabled_in value.now }
{
    EventMasks {
        assertions: u16::from_le_bytes([value[1], value[2]]),
        deassertions: u16::from_le_bytes([value[3], value[4]]),
    }
}

/// The events of the first set that the second set hasn't.
fn difference(events: u16, others: u16) -> u16
    ensures { result ≡ difference events others }
{
    events & !others
}

/// The events of both masks of the first pair that the masks of the second pair haven't.
fn without(masks: EventMasks, others: EventMasks) -> EventMasks
    ensures { result ≡ both_masks difference masks others }
{
    EventMasks {
        assertions: difference(masks.assertions, others.assertions),
        deassertions: difference(masks.deassertions, others.deassertions),
    }
}

/// The enabled events after a change.
fn events_after(change: &EventChange, old: EventMasks) -> EventMasks
    ensures { result ≡ events_after change.now old }
{
    match change {
        EventChange::Enable(more) => EventMasks {
            assertions: old.assertions | more.assertions,
            deassertions: old.deassertions | more.deassertions,
        },
        EventChange::Disable(less) => without(old, *less),
        EventChange::Leave | EventChange::Reserved => old,
    }
}

/// The inverse of the change, where these events were enabled before it.
fn undo_change(change: &EventChange, old: EventMasks) -> EventChange
    ensures { result ≡ undo_change change.now old }
{
    match change {
        EventChange::Enable(more) => EventChange::Disable(without(*more, old)),
        EventChange::Disable(less) => EventChange::Enable(EventMasks {
            assertions: less.assertions & old.assertions,
            deassertions: less.deassertions & old.deassertions,
        }),
        EventChange::Leave | EventChange::Reserved => EventChange::Leave,
    }
}

/// The selection, in bits 5:4 of the second byte of a request.
fn selection(change: &EventChange) -> u8
    ensures value { result ≡ selection change.now }
    ensures small { result ≤ 48 }
{
    match change {
        EventChange::Leave => 0x00,
        EventChange::Enable(_) => 0x10,
        EventChange::Disable(_) => 0x20,
        EventChange::Reserved => 0x30,
    }
}

/// The bytes of a mask, the low one first.
fn word_bytes(mask: u16) -> [u8; 2]
    ensures { result ≡ mask % 256 ∷ mask / 256 ∷ [] }
{
    mask.to_le_bytes()
}

/// The bytes of two masks, each the low one first.
fn mask_bytes(masks: &EventMasks) -> [u8; 4]
    ensures { result ≡ mask_bytes masks.now }
{
    let [low, high] = word_bytes(masks.assertions);
    let [low_deasserted, high_deasserted] = word_bytes(masks.deassertions);
    [low, high, low_deasserted, high_deasserted]
}

/// The data of the request that carries out the operation.
fn body(op: &SetEventEnable) -> RecordData
    ensures value { result ≡ event_enable_body op.now }
    ensures short { length result ≤ 6 }
{
    let flags = flags_byte(op.messages, op.scanning);
    let mut body = RecordData::from_slice(&[op.sensor, flags + selection(&op.change)]);
    match &op.change {
        EventChange::Enable(masks) | EventChange::Disable(masks) => {
            body.extend_from_slice(&mask_bytes(masks));
        }
        EventChange::Leave | EventChange::Reserved => {}
    }
    body
}

/// The assertion and the deassertion mask of a request's data.
fn event_masks_in(body: &[u8]) -> EventMasks
    ensures { result ≡ event_masks_in body.now }
{
    EventMasks {
        assertions: u16::from_le_bytes(bytes_at(body, 2)),
        deassertions: u16::from_le_bytes(bytes_at(body, 4)),
    }
}

/// The change of the enabled events that bits 5:4 of the second byte select.
fn event_change_in(body: &[u8]) -> EventChange
    ensures { result ≡ event_change_in body.now }
{
    match byte_at(body, 1) / 16 % 4 {
        0 => EventChange::Leave,
        1 => EventChange::Enable(event_masks_in(body)),
        2 => EventChange::Disable(event_masks_in(body)),
        _ => EventChange::Reserved,
    }
}

/// The operation with these data. Missing masks are empty.
fn event_enable_in(body: &[u8]) -> SetEventEnable
    ensures { result ≡ event_enable_in body.now }
{
    let flags = byte_at(body, 1);
    SetEventEnable {
        sensor: byte_at(body, 0),
        messages: has(flags, MESSAGES_PLACE),
        scanning: has(flags, SCANNING_PLACE),
        change: event_change_in(body),
    }
}

impl EventEnableLimits {
    /// The limits that a sensor gives.
    pub fn of(sensor: &Sensor) -> Self
        ensures { result ≡ record { supported = sensor.now.events.supported } }
    {
        EventEnableLimits {
            supported: sensor.events.supported,
        }
    }

    /// Whether the sensor supports each of these events.
    fn support(&self, masks: &EventMasks) -> bool
        ensures { result
            ≡ (are_within masks.now.assertions self.now.supported
            && are_within masks.now.deassertions self.now.supported) }
    {
        are_within(masks.assertions, self.supported)
            && are_within(masks.deassertions, self.supported)
    }

    /// Whether the sensor takes the change.
    fn takes(&self, change: &EventChange) -> bool
        ensures { result ≡ is_accepted self.now.supported change.now }
    {
        match change {
            EventChange::Leave => true,
            EventChange::Enable(masks) | EventChange::Disable(masks) => self.support(masks),
            EventChange::Reserved => false,
        }
    }
}

impl CommandReader for EventEnableLimits {
    ghost use Rattle.sensor_recs.specs.EventEnableKind as events;

    ghost reader = { events.reader };

    #[inline(always)]
    fn key_in(body: &[u8]) -> Key {
        Key::EventEnable(byte_at(body, 0))
    }

    #[inline(always)]
    fn op_in(body: &[u8]) -> Op<'_> {
        Op::EventEnable(event_enable_in(body))
    }
}

impl<'a> RecordKind<'a> for EventEnableLimits {
    ghost use Rattle.sensor_recs.specs.EventEnableKind as events;

    type Key = u8;

    type Op = SetEventEnable;

    ghost kind = { events.kind };

    fn key(op: &SetEventEnable) -> Key {
        Key::EventEnable(op.sensor)
    }

    #[inline(always)]
    fn apply(&self, op: &SetEventEnable, value: &[u8], new: &mut Value) -> Result<(), Code> {
        if !self.takes(&op.change) {
            return Err(INVALID_DATA_FIELD);
        }
        let enabled = events_after(&op.change, enabled_in(value));
        new.replace(&event_value(op.messages, op.scanning, &enabled));
        Ok(())
    }

    fn set_reply<B: Buffer>(_op: &SetEventEnable, _reply: &mut B) {}

    fn next_live(_op: &SetEventEnable, _live: &mut Live) {}

    fn get_data<B: Buffer>(&self, value: &[u8], _live: &Live, reply: &mut B) {
        reply.extend_from_slice(value);
    }

    fn get_asked(sensor: &u8) -> Asked {
        sensor_request(GET_SENSOR_EVENT_ENABLE, &[*sensor])
    }

    fn set_data(op: &SetEventEnable) -> RecordData {
        body(op)
    }

    fn set_asked(op: &SetEventEnable) -> Asked {
        sensor_request(SET_SENSOR_EVENT_ENABLE, body(op).as_slice())
    }

    fn inverse(op: &SetEventEnable, get_data: &'a [u8]) -> Option<SetEventEnable> {
        if get_data.len() != 5 {
            return None;
        }
        Some(SetEventEnable {
            sensor: op.sensor,
            messages: has(get_data[0], MESSAGES_PLACE),
            scanning: has(get_data[0], SCANNING_PLACE),
            change: undo_change(&op.change, enabled_in(get_data)),
        })
    }
}
