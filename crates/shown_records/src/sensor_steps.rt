//! Steps on sensors.
use crate::plan_texts::{push_byte, push_flag, push_list, push_number, push_word};
use record_base::mask::has;
use record_base::{EventChange, EventMasks, SetEventEnable, SetHysteresis, SetThresholds};
use std::alloc::{AllocError, Global};

/// The keys of the thresholds, each at its place in a mask.
const LIMITS: [&str; 6] = ["lnc", "lc", "lnr", "unc", "uc", "unr"];

/// How many events a mask has.
const EVENTS: u8 = 16;

/// Adds the fields of a step that sets thresholds.
pub(crate) fn push_thresholds(text: &mut String, set: &SetThresholds) -> Result<(), AllocError> {
    push_number(text, "sensor", u64::from(set.sensor))?;
    for place in 0..6 {
        if has(set.mask, place) {
            push_byte(text, LIMITS[place], set.values[place])?;
        }
    }
    Ok(())
}

/// Adds the fields of a step that sets hysteresis.
pub(crate) fn push_hysteresis(text: &mut String, set: &SetHysteresis) -> Result<(), AllocError> {
    push_number(text, "sensor", u64::from(set.sensor))?;
    push_number(text, "positive", u64::from(set.positive))?;
    push_number(text, "negative", u64::from(set.negative))
}

/// The offsets of the events of a mask.
fn offsets(alloc: Global, events: u16) -> Result<Vec<u8>, AllocError> {
    let mut offsets = Vec::new(alloc);
    for offset in 0..EVENTS {
        if (events >> offset) & 1 == 1 {
            offsets.push(offset)?;
        }
    }
    Ok(offsets)
}

/// Adds the lists of the events of both masks.
fn push_events(
    alloc: Global,
    text: &mut String,
    select: &str,
    masks: &EventMasks,
) -> Result<(), AllocError> {
    push_word(text, "select", select)?;
    let assertions = offsets(alloc, masks.assertions)?;
    push_list(text, "assert", assertions.as_slice())?;
    let deassertions = offsets(alloc, masks.deassertions)?;
    push_list(text, "deassert", deassertions.as_slice())
}

/// Adds the fields of a step that sets which events are enabled.
pub(crate) fn push_event_enable(
    alloc: Global,
    text: &mut String,
    set: &SetEventEnable,
) -> Result<(), AllocError> {
    push_number(text, "sensor", u64::from(set.sensor))?;
    push_flag(text, "messages", set.messages)?;
    push_flag(text, "scanning", set.scanning)?;
    match &set.change {
        EventChange::Enable(more) => push_events(alloc, text, "enable", more),
        EventChange::Disable(less) => push_events(alloc, text, "disable", less),
        EventChange::Leave | EventChange::Reserved => push_word(text, "select", "leave"),
    }
}
