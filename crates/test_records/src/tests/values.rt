//! Values that a board's records can have.
use super::{expect_bytes, expect_each};
use cfg_records::{Bcd, ManufacturerId};
use record_base::{
    EventEnable, EventMasks, GlobalEnables, PowerPolicy, ThresholdMasks, Thresholds, Watchdog,
};

/// Whether a sensor can have these thresholds, where it has masks of these bytes for those that are read and set.
fn are_thresholds(readable: u8, settable: u8, values: [u8; 6]) -> Option<bool> {
    let masks = ThresholdMasks::new(readable, settable)?;
    Some(Thresholds::new(masks, values).is_some())
}

#[test]
fn a_sensor_has_its_thresholds_in_order(rt: HostRuntime) {
    let hold = [
        are_thresholds(0x3F, 0x3F, [0x14, 0x0A, 0x05, 0x50, 0x5F, 0x6E]) == Some(true),
        are_thresholds(0x3F, 0x3F, [0x14, 0x0A, 0x0B, 0x50, 0x5F, 0x6E]) == Some(false),
        are_thresholds(0x18, 0x38, [0, 0, 0, 0x90, 0xA0, 0xB0]) == Some(true),
        are_thresholds(0x18, 0x38, [0, 0, 0, 0x90, 0xB0, 0xA0]) == Some(false),
        are_thresholds(0x18, 0x38, [1, 0, 0, 0x90, 0xA0, 0xB0]) == Some(false),
        are_thresholds(0x40, 0, [0; 6]).is_none(),
    ];
    expect_each(
        &rt,
        &hold,
        "in order, lower non-recoverable above lower critical, in order where some are not readable, \
upper critical above non-recoverable, a lower one that there isn't, a seventh threshold",
    );
}

#[test]
fn events_are_two_for_each_threshold_and_enabled_ones_are_supported(rt: HostRuntime) {
    let two = EventMasks {
        assertions: 0x200,
        deassertions: 0x001,
    };
    let none = EventMasks {
        assertions: 0,
        deassertions: 0,
    };
    let events = EventEnable::new(0xFFF, true, false, two).expect(&rt, "events");
    let (_, value) = events.pair(5);
    expect_bytes(&rt, value.as_slice(), &[0x80, 0x00, 0x02, 0x01, 0x00]);
    let hold = [
        EventEnable::new(0x201, false, true, two).is_some(),
        EventEnable::new(0x200, true, true, two).is_none(),
        EventEnable::new(0x1000, true, true, none).is_none(),
    ];
    expect_each(
        &rt,
        &hold,
        "both are supported, one isn't supported, a thirteenth event",
    );
}

#[test]
fn a_device_a_policy_and_enables_have_their_bounds(rt: HostRuntime) {
    let hold = [
        matches!(Bcd::new(0x19), Some(minor) if minor.byte == 0x19),
        Bcd::new(0x1A).is_none(),
        matches!(ManufacturerId::new(0xFF_FFFF), Some(made) if made.number == 0xFF_FFFF),
        ManufacturerId::new(1 << 24).is_none(),
        matches!(PowerPolicy::new(3), Some(policy) if policy.number == 3),
        PowerPolicy::new(4).is_none(),
        matches!(GlobalEnables::new(0xEF), Some(enables) if enables.byte == 0xEF),
        GlobalEnables::new(0x10).is_none(),
    ];
    expect_each(
        &rt,
        &hold,
        "decimal digits, no decimal digit, 24 bits, 25 bits, policy 3, policy 4, all enables that there are, a reserved bit",
    );
}

/// Whether a watchdog can have this use and this action.
fn is_watchdog(timer_use: u8, actions: u8) -> bool {
    Watchdog::new(timer_use, actions, 0xFF, 0xFFFF).is_some()
}

#[test]
fn a_watchdog_has_a_use_and_an_action_that_there_are(rt: HostRuntime) {
    let hold = [
        is_watchdog(0x85, 0x33),
        !is_watchdog(0x06, 0),
        !is_watchdog(0x41, 0),
        !is_watchdog(1, 0x40),
        !is_watchdog(1, 0x08),
    ];
    expect_each(
        &rt,
        &hold,
        "the last use, no use, a reserved bit of the use, no interrupt, a reserved bit of the action",
    );
}
