//! Calls of the power restore policy and of the watchdog.
ghost use Rattle.std.specs.Prelude.{◌≤◌};

use super::{expect, expect_bytes, expect_each, expect_equal};
use cfg_records::{Asked, Live, RecordData, RecordKind, Value, there_and_back};
use record_base::{SetPowerPolicy, SetWatchdog};
use std::process::Abort;
use two_wire::{Below, NetFn};
use watch_boot::watchdog::live_after_reset;
use watch_boot::{PowerPolicyLimits, WatchdogLimits};

/// Settings of a watchdog: for the operating system, a reset after 3000 times 100 ms.
const SETTINGS: [u8; 5] = [0x04, 0x01, 0x0A, 0xB8, 0x0B];

/// A Set of the watchdog that lets it run on.
const LATER: SetWatchdog = SetWatchdog {
    timer_use: 0xC4,
    actions: 0x11,
    pre_timeout: 5,
    flags_to_clear: 0x10,
    initial: 6000,
};

/// A watchdog that runs, with two flags set.
fn running() -> Live {
    Live {
        chassis: Below::new(0),
        countdown: 12345,
        expired: 0x18,
        running: true,
        enabled_users: 0,
    }
}

/// A Set of this policy is carried out or not, and leaves these bytes, where the record is 1.
fn expect_policy(rt: &impl Abort, policy: u8, is_done: bool, kept: &[u8]) {
    let mut new = Value::from_slice(&[9, 9]);
    let done = PowerPolicyLimits.apply(&SetPowerPolicy { policy }, &[1], &mut new);
    expect_equal(rt, done.is_ok(), is_done);
    expect_bytes(rt, new.as_slice(), kept);
}

#[test]
fn a_policy_of_3_changes_nothing_and_one_of_4_is_refused(rt: HostRuntime) {
    expect_policy(&rt, 3, true, &[1]);
    expect_policy(&rt, 4, false, &[9, 9]);
}

/// A Set that stops the watchdog, of this use.
fn stop(timer_use: u8) -> SetWatchdog {
    SetWatchdog {
        timer_use,
        actions: 0,
        pre_timeout: 0,
        flags_to_clear: 0,
        initial: 1,
    }
}

/// A Set of the watchdog is carried out or not, and leaves these bytes.
fn expect_set(rt: &impl Abort, op: &SetWatchdog, is_done: bool, kept: &[u8]) {
    let mut new = Value::from_slice(&[9, 9]);
    let done = WatchdogLimits.apply(op, &SETTINGS, &mut new);
    expect_equal(rt, done.is_ok(), is_done);
    expect_bytes(rt, new.as_slice(), kept);
}

#[test]
fn a_set_is_kept_and_one_without_a_use_is_refused(rt: HostRuntime) {
    expect_set(&rt, &LATER, true, &[0x84, 0x11, 0x05, 0x70, 0x17]);
    expect_set(&rt, &stop(0), false, &[9, 9]);
}

#[test]
fn replies_have_policies_chassis_bits_and_a_timer_that_runs(rt: HostRuntime) {
    let mut reply = RecordData::from_slice(&[0x2C]);
    PowerPolicyLimits::set_reply(&SetPowerPolicy { policy: 3 }, &mut reply);
    let mut live = Live::opening();
    PowerPolicyLimits.get_data(&[1], &live, &mut reply);
    live.chassis = Below::new(0x1F);
    PowerPolicyLimits.get_data(&[1], &live, &mut reply);
    WatchdogLimits.get_data(&SETTINGS, &running(), &mut reply);
    let shown = [
        0x2C, 0x07, 0x20, 0, 0, 0x3F, 0, 0, 0x44, 0x01, 0x0A, 0x18, 0xB8, 0x0B, 0x39, 0x30,
    ];
    expect_bytes(&rt, reply.as_slice(), &shown);
    let asked = WatchdogLimits::get_asked(&());
    let get = Asked::ipmi(NetFn::new(0x06), 0x25, &[]);
    expect(&rt, asked.is(&get), "the Get");
}

/// Whether a reset has the timer run from its initial value, and leaves these flags.
fn runs_anew(live: &Live, flags: u8) -> bool {
    match live_after_reset(&SETTINGS, live) {
        Some(live) => live.running && live.countdown == 3000 && live.expired == flags,
        None => false,
    }
}

#[test]
fn a_set_and_a_reset_begin_the_countdown_anew(rt: HostRuntime) {
    let mut live = running();
    WatchdogLimits::next_live(&LATER, &mut live);
    let anew = live;
    WatchdogLimits::next_live(&stop(0x04), &mut live);
    let hold = [
        anew.running && anew.countdown == 6000,
        anew.expired == 0x08,
        !live.running,
        runs_anew(&running(), 0x18),
        runs_anew(&Live::opening(), 0),
        live_after_reset(&[0; 5], &Live::opening()).is_none(),
    ];
    expect_each(
        &rt,
        &hold,
        "anew, one flag is cleared, stopped, a reset leaves the flags, a reset starts it, never set",
    );
}

/// Whether the settings come back where a Get shows them with this timer.
fn come_back(live: &Live) -> bool {
    let mut shown = RecordData::new();
    WatchdogLimits.get_data(&SETTINGS, live, &mut shown);
    match there_and_back(&WatchdogLimits, &LATER, &SETTINGS, shown.as_slice()) {
        Some(back) => back.is(&SETTINGS),
        None => false,
    }
}

/// Whether this policy comes back.
fn policy_comes_back(policy: u8) -> bool
    requires { policy ≤ 3 }
{
    let op = SetPowerPolicy { policy: 0 };
    let mut shown = RecordData::new();
    PowerPolicyLimits.get_data(&[policy], &Live::opening(), &mut shown);
    match there_and_back(&PowerPolicyLimits, &op, &[policy], shown.as_slice()) {
        Some(back) => back.is(&[policy]),
        None => false,
    }
}

#[test]
fn settings_and_policies_come_back_where_they_can(rt: HostRuntime) {
    let hold = [
        come_back(&Live::opening()),
        !come_back(&running()),
        policy_comes_back(2),
        !policy_comes_back(3),
    ];
    expect_each(
        &rt,
        &hold,
        "it is stopped, it runs, the policy is known, it is unknown",
    );
}
