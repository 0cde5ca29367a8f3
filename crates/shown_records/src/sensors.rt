//! What the Gets of a sensor's records show behind an operation.
ghost use Rattle.std.specs.Prelude.{◌≡◌, ◌<◌, slice_index, if◌then◌else◌, IfOk};
ghost use Rattle.record_base.specs.Masks.{has};
ghost use Rattle.record_base.specs.Sensor.EventEnable.{enabled_in};
ghost use Rattle.sensor_recs.specs.EventEnable.{difference, events_after};
ghost use Rattle.sensor_recs.specs.Hysteresis.{both_bytes};
ghost use Rattle.shown_records.specs.Sensors.{after_event_enable, after_thresholds};

use record_base::event_enable::{event_value, flags_byte};
use record_base::mask::has;
use record_base::{EventChange, EventMasks, SetEventEnable, SetHysteresis, SetThresholds, byte_at};
use std::alloc::{AllocError, Global};

/// What the bits of a byte weigh that lie behind the flags.
const BEHIND_FLAGS: u8 = 64;

/// The threshold at a place, where it was this one: the operation's, where its mask has the place, or 00h where it can't be read.
fn threshold_after(op: &SetThresholds, readable: u8, place: usize, old: u8) -> u8
    requires { place < 6 }
    ensures { result ≡ (if has op.now.mask place
        then (if has readable place then slice_index op.now.values place else 0) else old) }
{
    match (has(op.mask, place), has(readable, place)) {
        (true, true) => op.values[place],
        (true, false) => 0,
        (false, _) => old,
    }
}

/// The thresholds of the operation's mask are the operation's, where the first byte says that they can be read.
pub(crate) fn thresholds(
    alloc: Global,
    op: &SetThresholds,
    shown: &[u8],
) -> Result<Vec<u8>, AllocError>
    ensures { IfOk result (λ after. after.items ≡ after_thresholds op.now shown.now) }
{
    let readable = byte_at(shown, 0);
    let after = [
        readable,
        threshold_after(op, readable, 0, byte_at(shown, 1)),
        threshold_after(op, readable, 1, byte_at(shown, 2)),
        threshold_after(op, readable, 2, byte_at(shown, 3)),
        threshold_after(op, readable, 3, byte_at(shown, 4)),
        threshold_after(op, readable, 4, byte_at(shown, 5)),
        threshold_after(op, readable, 5, byte_at(shown, 6)),
    ];
    Vec::from_slice(alloc, &after)
}

/// Both bytes are the operation's.
pub(crate) fn hysteresis(alloc: Global, op: &SetHysteresis) -> Result<Vec<u8>, AllocError>
    ensures { IfOk result (λ after. after.items ≡ both_bytes op.now) }
{
    Vec::from_slice(alloc, &[op.positive, op.negative])
}

/// The events that the data enable.
fn enabled_in(shown: &[u8]) -> EventMasks
    ensures { result ≡ enabled_in shown.now }
{
    EventMasks {
        assertions: u16::from_le_bytes([byte_at(shown, 1), byte_at(shown, 2)]),
        deassertions: u16::from_le_bytes([byte_at(shown, 3), byte_at(shown, 4)]),
    }
}

/// The events of the first set that the second set hasn't.
fn difference(events: u16, others: u16) -> u16
    ensures { result ≡ difference events others }
{
    events ^ (events & others)
}

/// The enabled events behind a change.
fn events_after(change: &EventChange, old: EventMasks) -> EventMasks
    ensures { result ≡ events_after change.now old }
{
    match change {
        EventChange::Enable(more) => EventMasks {
            assertions: old.assertions | more.assertions,
            deassertions: old.deassertions | more.deassertions,
        },
        EventChange::Disable(less) => EventMasks {
            assertions: difference(old.assertions, less.assertions),
            deassertions: difference(old.deassertions, less.deassertions),
        },
        EventChange::Leave | EventChange::Reserved => old,
    }
}

/// The flags are the operation's, in front of the low six bits of their byte, and the enabled events change as it says.
pub(crate) fn event_enable(
    alloc: Global,
    op: &SetEventEnable,
    shown: &[u8],
) -> Result<Vec<u8>, AllocError>
    ensures { IfOk result (λ after. after.items ≡ after_event_enable op.now shown.now) }
{
    let enabled = events_after(&op.change, enabled_in(shown));
    let flags = flags_byte(op.messages, op.scanning) + byte_at(shown, 0) % BEHIND_FLAGS;
    let [_, low, high, low_deasserted, high_deasserted] = event_value(
        op.messages,
        op.scanning,
        &enabled,
    );
    Vec::from_slice(alloc, &[flags, low, high, low_deasserted, high_deasserted])
}
