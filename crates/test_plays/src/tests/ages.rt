//! How long frames are live, worked by hand from the rule.

use super::expect_equal;
use lab_run::{BusAge, FrameAge};
use two_wire::Bus;

/// Whether the frame of request 3 and the reply to it are live once so many requests are begun.
fn is_live(on: Bus, begun: usize) -> (bool, bool) {
    let frame = FrameAge {
        on,
        request: 3,
        idles: 0,
    };
    let now = BusAge { begun, idles: 0 };
    (frame.is_live(now), frame.reply(0).is_live(now))
}

#[test]
fn a_frame_is_live_for_eight_requests_on_smbus_and_thirty_two_on_ipmb(rt: HostRuntime) {
    expect_equal(&rt, is_live(Bus::Smbus, 11), (true, true));
    expect_equal(&rt, is_live(Bus::Smbus, 12), (false, false));
    expect_equal(&rt, is_live(Bus::Ipmb, 35), (true, true));
    expect_equal(&rt, is_live(Bus::Ipmb, 36), (false, false));
}

#[test]
fn no_frame_outlives_the_window(rt: HostRuntime) {
    let frame = FrameAge {
        on: Bus::Ipmb,
        request: 0,
        idles: 0,
    };
    let again = FrameAge { idles: 1, ..frame };
    let forgotten = BusAge { begun: 1, idles: 1 };
    let old = (frame.is_live(forgotten), frame.reply(0).is_live(forgotten));
    expect_equal(&rt, old, (false, false));
    let new = (again.is_live(forgotten), again.reply(1).is_live(forgotten));
    expect_equal(&rt, new, (true, true));
}
