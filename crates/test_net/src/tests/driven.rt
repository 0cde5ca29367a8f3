//! A manager that is driven over links that fail.
use super::shared::expect_equal;
use super::wired::{Faulty, Wired};
use bmc_ports::drive;
use cfg_records::{Key, StartValue, changed_count, sample_board};
use record_base::{Op, SetBiosAttribute, SetThresholds};
use std::alloc::Global;
use std::process::Abort;
use two_wire::{Address, Bus, Retries};
use undo_core::{Manager, Phase, Sent};
use undo_plans::{Names, Plan, Steps};
use wire_links::{Link, MemLink};

/// The most calls of a link that are tried to fail.
const MOST_CALLS: u32 = 1_000;

pub(crate) const TURNS: u32 = 100;

fn names() -> Names {
    Names {
        own_address: Address::new(0x2C).unwrap(),
        peer_address: Address::new(0x20).unwrap(),
        own_wire: Address::new(0x30).unwrap(),
        peer_wire: Address::new(0x20).unwrap(),
        own_eid: 0x08,
        peer_eid: 0x0A,
    }
}

/// Some thresholds of sensor 5.
fn set_thresholds(mask: u8, values: [u8; 6]) -> Op<'static> {
    Op::Thresholds(SetThresholds {
        sensor: 5,
        mask,
        values,
    })
}

/// The value of a string, with a text of 200 bytes.
fn text_value() -> [u8; 202] {
    let mut value = [b'a'; 202];
    value[0] = 200;
    value[1] = 0;
    value
}

/// On IPMB thresholds in two steps: upper non-critical 4Bh and critical 5Ah, then upper critical 5Ch and non-recoverable 64h. On SMBus the
/// text for attribute 1, which is a string.
fn steps_on(rt: &impl Abort, alloc: Global, bus: Bus) -> Steps {
    let mut steps = Steps::none(alloc);
    match bus {
        Bus::Ipmb => {
            let first = set_thresholds(0x18, [0, 0, 0, 0x4B, 0x5A, 0]);
            let second = set_thresholds(0x30, [0, 0, 0, 0, 0x5C, 0x64]);
            steps.push(&first).expect(rt, "memory");
            steps.push(&second).expect(rt, "memory");
        }
        Bus::Smbus => {
            let value = text_value();
            let set = Op::BiosAttribute(SetBiosAttribute::of(1, 0x01, &value));
            steps.push(&set).expect(rt, "memory");
        }
    }
    steps
}

/// A manager of the steps on this bus, with three retries.
pub(crate) fn manager_on(rt: &impl Abort, alloc: Global, bus: Bus) -> Manager {
    let plan = Plan {
        steps: steps_on(rt, alloc, bus),
        retries: Retries::new(3),
    };
    Manager::open(alloc, plan, names(), 3)
        .ok()
        .expect(rt, "a manager")
}

/// The records of the sample board.
pub(crate) fn sample_records(rt: &impl Abort, alloc: Global) -> Vec<(Key, StartValue)> {
    let file = sample_board(alloc).expect(rt, "memory");
    let records = file.records(alloc).expect(rt, "memory");
    drop(file);
    records
}

/// The manager sends this, and is driven over the link to its port, and over one that hears nothing. It comes to the phase, and so many of the
/// board's records are changed then.
fn expect_driven(
    rt: &impl Abort,
    bus: Bus,
    manager: &mut Manager,
    sent: Option<Sent>,
    link: &mut Faulty<Wired>,
    other: &mut MemLink,
    records: &[(Key, StartValue)],
    wanted: (Phase, usize),
) {
    let phase = match bus {
        Bus::Ipmb => drive(manager, sent, link, other, TURNS),
        Bus::Smbus => drive(manager, sent, other, link, TURNS),
    };
    let changed = changed_count(link.link.board.store(), records);
    expect_equal(rt, "phase and records", (phase, changed), wanted);
}

/// A manager's plan is run over the link, which changes a record, and undone.
fn expect_back(
    rt: &impl Abort,
    alloc: Global,
    bus: Bus,
    link: &mut Faulty<Wired>,
    records: &[(Key, StartValue)],
) {
    let mut other = MemLink::new(alloc, &[]).ok().expect(rt, "memory");
    let mut manager = manager_on(rt, alloc, bus);
    let sent = manager.start().ok().expect(rt, "a plan to be run");
    let done = (Phase::Done, 1);
    expect_driven(rt, bus, &mut manager, sent, link, &mut other, records, done);
    let sent = manager.undo().ok().expect(rt, "a plan to be undone");
    let undone = (Phase::Undone, 0);
    expect_driven(
        rt,
        bus,
        &mut manager,
        sent,
        link,
        &mut other,
        records,
        undone,
    );
    drop(manager);
    drop(other);
}

/// The same over a link whose call of this number fails. How many of its calls failed.
fn failures_at(
    rt: &impl Abort,
    alloc: Global,
    bus: Bus,
    failing_call: u32,
    records: &[(Key, StartValue)],
) -> u64 {
    let mut link = Faulty::new(Wired::new(rt, alloc, bus), failing_call);
    expect_back(rt, alloc, bus, &mut link, records);
    let failures = link.counts().failures;
    drop(link);
    failures
}

/// Each call of the link fails once. How many there are.
fn calls_that_fail(rt: &impl Abort, alloc: Global, bus: Bus) -> u32 {
    let records = sample_records(rt, alloc);
    let mut met = 0;
    for call in 1..MOST_CALLS {
        if failures_at(rt, alloc, bus, call, records.as_slice()) == 0 {
            break;
        }
        met = call;
    }
    met
}

#[test]
fn whichever_call_fails_a_plan_is_run_and_undone(rt: HostRuntime) {
    // Six requests of one frame each, and a reply to each.
    let ipmb = calls_that_fail(&rt, rt.alloc(), Bus::Ipmb);
    expect_equal(&rt, "thresholds on IPMB", ipmb, 12);
    // A Get of one frame, a Set of four and one that undoes of one, and replies of one frame each.
    let smbus = calls_that_fail(&rt, rt.alloc(), Bus::Smbus);
    expect_equal(&rt, "a text on SMBus", smbus, 9);
}
