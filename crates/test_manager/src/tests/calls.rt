//! Each call in each phase, and what phases are called.
use super::expect_equal;
use super::player::expect_told;
use super::scene::{names, plan};
use std::alloc::Global;
use std::process::Abort;
use two_wire::{Bus, Code};
use undo_core::{Manager, Phase, Sent, Why, WrongPhase};

const CALLS: &str = "
story calls of a fresh manager
plan 0 -> Fresh
quiet -> refused Fresh
stop -> refused Fresh
again -> refused Fresh
undo -> refused Fresh
start -> 2010D02C002705A8 Getting 0

story calls in a Get
plan 0 -> Fresh
start -> 2010D02C002705A8 Getting 0
start -> refused Getting 0
again -> refused Getting 0
undo -> refused Getting 0
stop -> Getting 0

story a Get is quiet
plan 0 -> Fresh
start -> 2010D02C002705A8 Getting 0
quiet -> Unsettled 0

story calls in a Set
plan 0 -> Fresh
start -> 2010D02C002705A8 Getting 0
ipmb 2C14C0200027003F140A05505F6E3A -> 2010D02C042605180000004B5A00E8 Setting 0
start -> refused Setting 0
again -> refused Setting 0
undo -> refused Setting 0
stop -> Setting 0

story a Set is quiet
plan 0 -> Fresh
start -> 2010D02C002705A8 Getting 0
ipmb 2C14C0200027003F140A05505F6E3A -> 2010D02C042605180000004B5A00E8 Setting 0
quiet -> Unsettled 0

story calls of a manager that is done
plan 0 -> Fresh
start -> 2010D02C002705A8 Getting 0
ipmb 2C14C0200027003F140A05505F6E3A -> 2010D02C042605180000004B5A00E8 Setting 0
ipmb 2C14C020042600B6 -> 2010D02C082705A0 Getting 1
ipmb 2C14C0200827003F140A054B5A6E3C -> 2010D02C0C260530000000005C64AD Setting 1
ipmb 2C14C0200C2600AE -> Done
start -> refused Done
quiet -> refused Done
stop -> refused Done
again -> refused Done
undo -> 2010D02C10260530000000005A6EA1 Undoing 1

story calls in an undo
plan 0 -> Fresh
start -> 2010D02C002705A8 Getting 0
ipmb 2C14C0200027003F140A05505F6E3A -> 2010D02C042605180000004B5A00E8 Setting 0
ipmb 2C14C020042600B6 -> 2010D02C082705A0 Getting 1
ipmb 2C14C0200827003F140A054B5A6E3C -> 2010D02C0C260530000000005C64AD Setting 1
ipmb 2C14C0200C2600AE -> Done
undo -> 2010D02C10260530000000005A6EA1 Undoing 1
start -> refused Undoing 1
stop -> refused Undoing 1
again -> refused Undoing 1
undo -> refused Undoing 1
quiet -> Unsettled 1

story calls of a manager that has undone all
plan 0 -> Fresh
start -> 2010D02C002705A8 Getting 0
ipmb 2C14C0200027003F140A05505F6E3A -> 2010D02C042605180000004B5A00E8 Setting 0
ipmb 2C14C020042600B6 -> 2010D02C082705A0 Getting 1
ipmb 2C14C0200827003F140A054B5A6E3C -> 2010D02C0C260530000000005C64AD Setting 1
ipmb 2C14C0200C2600AE -> Done
undo -> 2010D02C10260530000000005A6EA1 Undoing 1
ipmb 2C14C020102600AA -> 2010D02C14260518000000505F00CE Undoing 0
ipmb 2C14C020142600A6 -> Undone
start -> refused Undone
quiet -> refused Undone
stop -> refused Undone
again -> refused Undone
undo -> refused Undone

story calls of a halted manager
plan 0 -> Fresh
start -> 2010D02C002705A8 Getting 0
stop -> Getting 0
ipmb 2C14C0200027003F140A05505F6E3A -> Halted 0 Stop
start -> refused Halted 0 Stop
quiet -> refused Halted 0 Stop
stop -> refused Halted 0 Stop
again -> refused Halted 0 Stop
undo -> Undone

story calls of an unsettled manager
plan 0 -> Fresh
start -> 2010D02C002705A8 Getting 0
quiet -> Unsettled 0
start -> refused Unsettled 0
quiet -> refused Unsettled 0
stop -> refused Unsettled 0
undo -> refused Unsettled 0
again -> 2010D02C002705A8 Getting 0

story a Get that was stopped is sent once more
plan 1 -> Fresh
undo -> refused Fresh
start -> 2010D02C002705A8 Getting 0
stop -> Getting 0
shows -> open Ipmb undo 0 next 0 0
quiet -> 2010D02C002705A8 Getting 0
quiet -> Unsettled 0
again -> 2010D02C002705A8 Getting 0

story calls of a manager whose undo was refused
plan 0 -> Fresh
start -> 2010D02C002705A8 Getting 0
ipmb 2C14C0200027003F140A05505F6E3A -> 2010D02C042605180000004B5A00E8 Setting 0
ipmb 2C14C020042600B6 -> 2010D02C082705A0 Getting 1
ipmb 2C14C0200827003F140A054B5A6E3C -> 2010D02C0C260530000000005C64AD Setting 1
ipmb 2C14C0200C2600AE -> Done
undo -> 2010D02C10260530000000005A6EA1 Undoing 1
ipmb 2C14C0201026C1E9 -> UndoRefused 1 C1
start -> refused UndoRefused 1 C1
quiet -> refused UndoRefused 1 C1
stop -> refused UndoRefused 1 C1
again -> refused UndoRefused 1 C1
undo -> refused UndoRefused 1 C1

story sixteen retries are refused
plan 0 -> Fresh
plan 15 -> Fresh
plan 16 -> Retries
plan 255 -> Retries
list 16 -> Retries

story a list with other names is refused, once the retries are few
list 0 -> Halted 2 Stop
named 15 -> Halted 2 Stop
named 16 -> Retries
others 15 -> OtherNames
others 0 -> OtherNames
others 16 -> Retries
";

#[test]
fn calls_lead_from_phase_to_phase(rt: HostRuntime) {
    expect_told(&rt, rt.alloc(), CALLS);
}

/// A manager of the plan.
fn manager(rt: &impl Abort, alloc: Global) -> Manager {
    let plan = plan(alloc).expect(rt, "memory");
    Manager::open(alloc, plan, names(), 1).expect(rt, "a manager")
}

/// What is sent is the request of this number, on IPMB, and the manager began so many there.
fn expect_request(rt: &impl Abort, manager: &Manager, sent: Option<Sent>, request: u16) {
    let sent = sent.expect(rt, "a request");
    expect_equal(rt, sent.bus, Bus::Ipmb);
    expect_equal(rt, sent.request, request);
    expect_equal(rt, manager.begun(Bus::Ipmb), usize::from(request) + 1);
}

/// The reply to the Get of sensor 5's thresholds.
const SHOWN: [u8; 15] = [
    0x2C, 0x14, 0xC0, 0x20, 0x00, 0x27, 0x00, 0x3F, 0x14, 0x0A, 0x05, 0x50, 0x5F, 0x6E, 0x3A,
];

#[test]
fn a_manager_has_its_names_and_counts_its_requests(rt: HostRuntime) {
    let mut manager = manager(&rt, rt.alloc());
    expect_equal(&rt, manager.undo_list().names, Some(names()));
    let get = manager.start().expect(&rt, "the phase of a start");
    expect_request(&rt, &manager, get, 0);
    let set = manager.on_frame(Bus::Ipmb, &SHOWN);
    expect_request(&rt, &manager, set, 1);
}

/// The call gave something, or nothing.
fn expect_sent(rt: &impl Abort, given: Result<Option<Sent>, WrongPhase>, is_sent: bool) {
    let sent = given.expect(rt, "the phase of the call");
    expect_equal(rt, sent.is_some(), is_sent);
}

#[test]
fn a_manager_is_opened_and_called(rt: HostRuntime) {
    let mut manager = manager(&rt, rt.alloc());
    expect_equal(&rt, manager.phase(), Phase::Fresh);
    assert!(rt; manager.undo().is_err());
    expect_sent(&rt, manager.start(), true);
    expect_equal(&rt, manager.phase(), Phase::Getting(0));
    expect_sent(&rt, manager.stop(), false);
    expect_equal(&rt, manager.open_bus(), Some(Bus::Ipmb));
    expect_sent(&rt, manager.quiet(), true);
    expect_sent(&rt, manager.quiet(), false);
    expect_sent(&rt, manager.again(), true);
}

#[test]
fn a_manager_counts_how_often_it_sent_a_request_again(rt: HostRuntime) {
    let mut manager = manager(&rt, rt.alloc());
    expect_sent(&rt, manager.start(), true);
    expect_equal(&rt, manager.resent(), 0);
    expect_sent(&rt, manager.quiet(), true);
    expect_equal(&rt, manager.resent(), 1);
}

/// The phase is called so.
fn expect_name(rt: &impl Abort, alloc: Global, phase: Phase, name: &str) {
    let text = format!(in alloc; "{phase}").expect(rt, "memory");
    expect_equal(rt, text.as_str(), name);
}

#[test]
fn phases_are_named(rt: HostRuntime) {
    let alloc = rt.alloc();
    expect_name(&rt, alloc, Phase::Fresh, "Fresh");
    expect_name(&rt, alloc, Phase::Getting(20), "Getting 20");
    expect_name(&rt, alloc, Phase::Setting(255), "Setting 255");
    expect_name(&rt, alloc, Phase::Done, "Done");
    expect_name(&rt, alloc, Phase::Unsettled(0), "Unsettled 0");
    expect_name(&rt, alloc, Phase::Undoing(10), "Undoing 10");
    expect_name(&rt, alloc, Phase::Undone, "Undone");
}

#[test]
fn phases_of_halted_and_refused_plans_are_named(rt: HostRuntime) {
    let alloc = rt.alloc();
    let code = Code::new(0xCC).unwrap();
    let low = Code::new(0x05).unwrap();
    expect_name(&rt, alloc, Phase::Halted(2, Why::Stop), "Halted 2 Stop");
    let refused = Phase::Halted(1, Why::Refused(code));
    expect_name(&rt, alloc, refused, "Halted 1 Refused CC");
    let unrestorable = Phase::Halted(0, Why::NotRestorable);
    expect_name(&rt, alloc, unrestorable, "Halted 0 NotRestorable");
    let get_refused = Phase::Halted(3, Why::GetRefused(low));
    expect_name(&rt, alloc, get_refused, "Halted 3 GetRefused 05");
    let undo_refused = Phase::UndoRefused(7, code);
    expect_name(&rt, alloc, undo_refused, "UndoRefused 7 CC");
}
