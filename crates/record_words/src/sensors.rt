//! The fields of a sensor's records.
ghost use Rattle.std.specs.Prelude.{◌≡◌, ◌<◌};
ghost use Rattle.record_words.specs.SensorFields as sensors;

use crate::field::{Field, Fields};
use crate::meaning::Meaning;
use crate::shown::Shown;
use crate::term::Term;
use record_base::mask::has;
use record_base::{EventChange, EventMasks, SetEventEnable, SetHysteresis, SetThresholds};

/// The threshold at a place, which the operation leaves where its mask hasn't the place.
fn threshold(set: &SetThresholds, place: usize) -> Shown
    requires { place < 6 }
    ensures { result ≡ sensors.threshold set.now place }
{
    if has(set.mask, place) {
        Shown::Raw(set.values[place])
    } else {
        Shown::Kept
    }
}

/// The fields of an operation on thresholds.
pub(crate) fn thresholds(set: &SetThresholds) -> Fields
    ensures { result ≡ sensors.thresholds set.now }
{
    Fields::of(&[
        Field::of(Term::LowerNonCritical, threshold(set, 0)),
        Field::of(Term::LowerCritical, threshold(set, 1)),
        Field::of(Term::LowerNonRecoverable, threshold(set, 2)),
        Field::of(Term::UpperNonCritical, threshold(set, 3)),
        Field::of(Term::UpperCritical, threshold(set, 4)),
        Field::of(Term::UpperNonRecoverable, threshold(set, 5)),
    ])
}

/// Those of an operation on hysteresis.
pub(crate) fn hysteresis(set: &SetHysteresis) -> Fields
    ensures { result ≡ sensors.hysteresis set.now }
{
    Fields::of(&[
        Field::of(Term::PositiveHysteresis, Shown::Raw(set.positive)),
        Field::of(Term::NegativeHysteresis, Shown::Raw(set.negative)),
    ])
}

/// Events that an operation enables or disables; none are left as they are.
fn events(mask: u16) -> Shown
    ensures { result ≡ sensors.events mask }
{
    if mask == 0 {
        Shown::Kept
    } else {
        Shown::Events(mask)
    }
}

/// The events that the change enables, and those that it disables.
fn changed(change: &EventChange) -> (EventMasks, EventMasks)
    ensures { result ≡ sensors.changed change.now }
{
    let none = EventMasks {
        assertions: 0,
        deassertions: 0,
    };
    match change {
        EventChange::Enable(more) => (*more, none),
        EventChange::Disable(less) => (none, *less),
        EventChange::Leave | EventChange::Reserved => (none, none),
    }
}

/// The selection, where it is the reserved one.
fn selection(change: &EventChange) -> Shown
    ensures { result ≡ sensors.selection change.now }
{
    match change {
        EventChange::Reserved => Shown::Means(Meaning::ReservedSelection),
        _ => Shown::Kept,
    }
}

/// The fields of an operation on enabled events.
pub(crate) fn event_enable(set: &SetEventEnable) -> Fields
    ensures { result ≡ sensors.event_enable set.now }
{
    let (more, less) = changed(&set.change);
    Fields::of(&[
        Field::of(Term::EventMessages, Shown::Switch(set.messages)),
        Field::of(Term::Scanning, Shown::Switch(set.scanning)),
        Field::of(Term::EnableAssertions, events(more.assertions)),
        Field::of(Term::EnableDeassertions, events(more.deassertions)),
        Field::of(Term::DisableAssertions, events(less.assertions)),
        Field::of(Term::DisableDeassertions, events(less.deassertions)),
        Field::of(Term::Selection, selection(&set.change)),
    ])
}
