//! A plan of two steps on the sample board, over IPMB.
use super::text::push_lines;
use super::{expect_equal, expect_told};
use model_lab::lab_names;
use plan_file::read_plan;
use std::alloc::Global;
use std::process::Abort;
use text_lines::{read_undo, write_undo};
use two_wire::Bus;
use undo_core::{Manager, OpenFault, Phase, ResumeFault, Sent, Why};

/// Upper non-critical 4Bh and upper critical 5Ah of sensor 5; then upper critical 5Ch and upper non-recoverable 64h.
const PLAN: &str = "[[step]]
kind = \"thresholds\"
sensor = 5
unc = 0x4B
uc = 0x5A
[[step]]
kind = \"thresholds\"
sensor = 5
uc = 0x5C
unr = 0x64
";

/// What undoes both steps, the second first.
const UNDO: &str = "undo 2
next ipmb 4 smbus 0
names ipmb 2C 20 smbus 30 20 eid 08 0A
ipmb 10260530000000005A6E
ipmb 10260518000000505F00
";

/// The same in a text of version 1, which names nobody.
const NAMELESS: &str = "undo 1
next ipmb 4 smbus 0
ipmb 10260530000000005A6E
ipmb 10260518000000505F00
";

/// The plan is carried out on the board, and undone: each record is as it was. Below stand the frames that go to and fro.
const PLAYED: &str = "story a plan of two steps is carried out and undone
board sample
plan
  [[step]] / kind = \"thresholds\" / sensor = 5 / unc = 0x4B / uc = 0x5A
  [[step]] / kind = \"thresholds\" / sensor = 5 / uc = 0x5C / unr = 0x64
lines -> 0 out: phase Fresh / frames 0 / undo 0 / records same
schedule
  start
  4 x to-bmc {0+2} / to-mgr {1+2}
lines -> 0 out
  phase Done
  frames 8
  undo 2
  ipmb 10260530000000005A6E
  ipmb 10260518000000505F00
  records changed 1
then
  undo
  2 x to-bmc {8+2} / to-mgr {9+2}
frames -> 0 out
  phase Undone
  frames 12
  undo 2
  ipmb 10260530000000005A6E
  ipmb 10260518000000505F00
  records same
  frame 0 mgr ipmb 2010D02C002705A8
  frame 1 bmc ipmb 2C14C0200027003F140A05505F6E3A
  frame 2 mgr ipmb 2010D02C042605180000004B5A00E8
  frame 3 bmc ipmb 2C14C020042600B6
  frame 4 mgr ipmb 2010D02C082705A0
  frame 5 bmc ipmb 2C14C0200827003F140A054B5A6E3C
  frame 6 mgr ipmb 2010D02C0C260530000000005C64AD
  frame 7 bmc ipmb 2C14C0200C2600AE
  frame 8 mgr ipmb 2010D02C10260530000000005A6EA1
  frame 9 bmc ipmb 2C14C020102600AA
  frame 10 mgr ipmb 2010D02C14260518000000505F00CE
  frame 11 bmc ipmb 2C14C020142600A6
";

/// A manager of the plan, with so many retries.
fn open(rt: &impl Abort, alloc: Global, retries: u8) -> Result<Manager, OpenFault> {
    let plan = read_plan(alloc, PLAN).expect(rt, "a plan");
    Manager::open(alloc, plan, lab_names(), retries)
}

/// A manager with this identifier that undoes what the undo list's text says.
fn resume(rt: &impl Abort, alloc: Global, text: &str, own_eid: u8) -> Result<Manager, ResumeFault> {
    let list = read_undo(alloc, text).expect(rt, "an undo list");
    let mut names = lab_names();
    names.own_eid = own_eid;
    Manager::resume(alloc, list, names, 3)
}

/// What is sent is this one frame on IPMB.
fn expect_sent(rt: &impl Abort, sent: &Option<Sent>, bytes: &[u8]) {
    let sent = sent.as_ref().expect(rt, "a frame");
    expect_equal(rt, sent.bus, Bus::Ipmb);
    let [frame] = sent.frames.as_slice() else {
        panic!(rt; "no single frame");
    };
    expect_equal(rt, frame.as_slice(), bytes);
}

/// The frame of a line goes to and fro: the manager sends it, or it comes to the manager. What is sent from then on.
fn pass(
    rt: &impl Abort,
    alloc: Global,
    manager: &mut Manager,
    sent: Option<Sent>,
    line: &str,
) -> Option<Sent> {
    let (who, digits) = line.split_once(" ipmb ").expect(rt, "a frame's line");
    let bytes = hex::decode(alloc, digits).ok().expect(rt, "a frame");
    let next = if who.ends_with("mgr") {
        expect_sent(rt, &sent, bytes.as_slice());
        sent
    } else {
        manager.on_frame(Bus::Ipmb, bytes.as_slice())
    };
    drop(bytes);
    next
}

/// The manager sends these frames to and fro, and then nothing.
fn follow(rt: &impl Abort, alloc: Global, manager: &mut Manager, first: Option<Sent>, lines: &str) {
    let mut sent = first;
    for line in lines.lines() {
        sent = pass(rt, alloc, manager, sent, line);
    }
    expect_equal(rt, sent.is_none(), true);
}

/// The manager is in the phase, and this is the text of its undo list.
fn expect_list(rt: &impl Abort, alloc: Global, manager: &Manager, phase: Phase, told: &str) {
    expect_equal(rt, manager.phase(), phase);
    let text = write_undo(alloc, manager.undo_list()).expect(rt, "memory");
    expect_equal(rt, text.as_str(), told);
    drop(text);
}

/// The manager undoes the plan by these frames.
fn undo(rt: &impl Abort, alloc: Global, manager: &mut Manager, frames: &str) {
    let first = manager.undo().expect(rt, "the phase of an undo");
    follow(rt, alloc, manager, first, frames);
    expect_equal(rt, manager.phase(), Phase::Undone);
}

/// A manager carries the plan out by the first of these frames, and undoes it by the others.
fn expect_undone(rt: &impl Abort, alloc: Global, run: &str, back: &str) {
    let mut manager = open(rt, alloc, 3).expect(rt, "a manager");
    let first = manager.start().expect(rt, "the phase of a start");
    follow(rt, alloc, &mut manager, first, run);
    expect_list(rt, alloc, &manager, Phase::Done, UNDO);
    undo(rt, alloc, &mut manager, back);
    drop(manager);
}

/// Another manager goes on from what the text of an undo list says, and undoes the plan by these frames.
fn expect_undone_by_another(rt: &impl Abort, alloc: Global, text: &str, back: &str) {
    let mut manager = resume(rt, alloc, text, 0x08).expect(rt, "a manager");
    expect_list(rt, alloc, &manager, Phase::Halted(2, Why::Stop), text);
    undo(rt, alloc, &mut manager, back);
    drop(manager);
}

#[test]
fn a_plan_is_carried_out_and_undone_by_its_manager_or_another(rt: HostRuntime) {
    expect_told(&rt, rt.alloc(), PLAYED);
    let (_, frames) = PLAYED
        .split_once("records same\n  frame")
        .expect(&rt, "the frames");
    let (run, back) = frames
        .split_once("\n  frame 8")
        .expect(&rt, "those of the undo");
    expect_undone(&rt, rt.alloc(), run, back);
    expect_undone_by_another(&rt, rt.alloc(), UNDO, back);
    expect_undone_by_another(&rt, rt.alloc(), NAMELESS, back);
}

#[test]
fn a_list_is_undone_under_its_own_names_alone(rt: HostRuntime) {
    let refused = resume(&rt, rt.alloc(), UNDO, 0x09).err();
    expect_equal(&rt, refused, Some(ResumeFault::OtherNames));
}

/// A manager takes over the requests of the text, and begins with the last.
fn expect_last_first(rt: &impl Abort, alloc: Global, text: &str) {
    let mut manager = resume(rt, alloc, text, 0x08).expect(rt, "a manager");
    expect_list(rt, alloc, &manager, Phase::Halted(256, Why::Stop), text);
    let first = manager.undo().expect(rt, "the phase of an undo");
    expect_equal(rt, first.is_some(), true);
    drop(first);
    expect_equal(rt, manager.phase(), Phase::Undoing(255));
    drop(manager);
}

#[test]
fn a_manager_takes_over_256_requests(rt: HostRuntime) {
    let mut text = String::new(rt.alloc());
    push_lines(&mut text, "undo 1 / next ipmb 4 smbus 0").expect(&rt, "memory");
    // Each sets the power restore policy.
    push_lines(&mut text, "256 x ipmb 000601").expect(&rt, "memory");
    expect_last_first(&rt, rt.alloc(), text.as_str());
    drop(text);
}

#[test]
fn a_manager_has_at_most_15_retries(rt: HostRuntime) {
    let refused = open(&rt, rt.alloc(), 16).err();
    expect_equal(&rt, refused, Some(OpenFault::Retries));
}
