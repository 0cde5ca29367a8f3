//! Calls of each reader and writer of texts, one by one.
use super::came::{Came, Form, came_of, shown};
use super::story::expect_equal;
use app_play::{Account, Stopped};
use cfg_records::{BoardFile, sample_board};
use lab_run::Fault;
use plan_file::read_plan;
use std::alloc::Global;
use std::process::Abort;
use stories::SAMPLE;
use text_lines::{read_schedule, read_undo, write_undo};
use two_wire::code::NODE_BUSY;
use undo_core::{Phase, Why};

/// The sample board, as Rust writes it.
fn sample(rt: &impl Abort, alloc: Global) -> Came {
    let board = sample_board(alloc).expect(rt, "memory");
    let read: Result<BoardFile, &str> = Ok(board);
    shown(rt, alloc, read)
}

#[test]
fn the_sample_file_holds_the_sample_board(rt: HostRuntime) {
    let read = came_of(&rt, rt.alloc(), Form::Board, SAMPLE);
    let known = sample(&rt, rt.alloc());
    expect_equal(&rt, read.text.as_str(), known.text.as_str());
    drop(read);
    drop(known);
}

/// A plan of one step.
const PLAN: &str = r#"retries = 2
[[step]]
kind = "power-policy"
policy = 2
"#;

#[test]
fn a_plan_is_read(rt: HostRuntime) {
    let plan = read_plan(rt.alloc(), PLAN).expect(&rt, "a plan");
    assert!(rt; plan.steps.len() == 1 && plan.retries.number() == 2);
}

#[test]
fn a_schedule_is_read(rt: HostRuntime) {
    let schedule = read_schedule(rt.alloc(), "start\n\nto-bmc 7\n");
    let schedule = schedule.expect(&rt, "a schedule");
    expect_equal(&rt, schedule.as_slice().len(), 2);
}

/// The undo text of a plan that sets upper thresholds of sensor 5 twice.
const UNDO: &str = r#"undo 1
next ipmb 4 smbus 0
ipmb 10260530000000005A6E
ipmb 10260518000000505F00
"#;

/// That text where it names the machines.
const NAMED: &str = r#"undo 2
next ipmb 4 smbus 0
names ipmb 2C 20 smbus 30 20 eid 08 0A
ipmb 10260530000000005A6E
ipmb 10260518000000505F00
"#;

/// The undo text of two requests is read and written.
fn expect_written(rt: &impl Abort, alloc: Global, text: &str) {
    let list = read_undo(alloc, text).expect(rt, "an undo list");
    expect_equal(rt, list.requests.len(), 2);
    let written = write_undo(alloc, &list).expect(rt, "memory");
    expect_equal(rt, written.as_str(), text);
}

#[test]
fn an_undo_text_is_read_and_written(rt: HostRuntime) {
    expect_written(&rt, rt.alloc(), UNDO);
    expect_written(&rt, rt.alloc(), NAMED);
}

/// What is told of that plan where it halted before a third step, as the lab came to an event that it doesn't take.
const TOLD: &str = r#"phase Halted 2 Refused C0
frames 0
undo 2
ipmb 10260530000000005A6E
ipmb 10260518000000505F00
records changed 13
premise broken 35
fault 83 NoFrame
"#;

#[test]
fn an_account_is_written(rt: HostRuntime) {
    let undo = read_undo(rt.alloc(), UNDO).expect(&rt, "an undo list");
    let account = Account {
        phase: Phase::Halted(2, Why::Refused(NODE_BUSY)),
        frames: &[],
        undo: &undo.requests,
        changed: 13,
        broken: Some(35),
        stopped: Some(Stopped {
            place: 83,
            fault: Fault::NoFrame,
        }),
    };
    let text = account.text(rt.alloc(), true, true).expect(&rt, "memory");
    expect_equal(&rt, text.as_str(), TOLD);
}
