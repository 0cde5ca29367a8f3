//! The sentences and the objects of steps that are left out, and of looks that failed.
use app_apply::Reach;
use app_change::{
    left_out_json, left_out_text, unchanged_json, unchanged_text, unlooked_json, unlooked_text,
};
use app_look::{LookFault, OpenFault, StopFault};
use app_run::Unanswered;
use record_base::{Op, SetGlobalEnables, SetPowerPolicy};
use std::alloc::Global;
use std::process::Abort;
use two_wire::{Bus, Retries};
use undo_plans::{Plan, Steps};

/// The steps of these places are left out: the sentence and the object of that.
fn expect_left_out(rt: &impl Abort, alloc: Global, left: &[usize], sentence: &str, object: &str) {
    let said = left_out_text(alloc, left).expect(rt, "memory");
    let line = left_out_json(alloc, left).expect(rt, "memory");
    assert_eq!(rt; said.as_str(), sentence);
    assert_eq!(rt; line.as_str(), object);
}

/// None of so many steps is kept: the sentence and the object of that.
fn expect_unchanged(rt: &impl Abort, alloc: Global, steps: usize, sentence: &str, object: &str) {
    let said = unchanged_text(alloc, steps).expect(rt, "memory");
    let line = unchanged_json(alloc, steps).expect(rt, "memory");
    assert_eq!(rt; said.as_str(), sentence);
    assert_eq!(rt; line.as_str(), object);
}

/// A plan of the power restore policy and the global enables.
fn plan_of(rt: &impl Abort, alloc: Global) -> Plan {
    let mut steps = Steps::none(alloc);
    let policy = Op::PowerPolicy(SetPowerPolicy { policy: 2 });
    let enables = Op::GlobalEnables(SetGlobalEnables { byte: 8 });
    steps.push(&policy).expect(rt, "memory");
    assert!(rt; steps.len() < 2);
    steps.push(&enables).expect(rt, "memory");
    Plan {
        steps,
        retries: Retries::new(3),
    }
}

/// The look at that plan's records failed for this, at the ports 9620 and 9621: the sentence and the object of that.
fn expect_unlooked(rt: &impl Abort, alloc: Global, why: LookFault, sentence: &str, object: &str) {
    let plan = plan_of(rt, alloc);
    let reach = Reach {
        ipmb_port: 9620,
        smbus_port: Some(9621),
        wait_ms: 200,
        again: 3,
    };
    let said = unlooked_text(alloc, &plan, &reach, &why).expect(rt, "memory");
    let line = unlooked_json(alloc, &plan, &why).expect(rt, "memory");
    assert_eq!(rt; said.as_str(), sentence);
    assert_eq!(rt; line.as_str(), object);
}

#[test]
fn steps_that_are_left_out_are_counted_from_one(rt: HostRuntime) {
    let alloc = rt.alloc();
    expect_left_out(
        &rt,
        alloc,
        &[1],
        "step 2 changes nothing and is left out: the others are counted without it\n",
        "{\"outcome\":\"left out\",\"left_out\":[2]}\n",
    );
    expect_left_out(
        &rt,
        alloc,
        &[0, 2],
        "steps 1 and 3 change nothing and are left out: the others are counted without them\n",
        "{\"outcome\":\"left out\",\"left_out\":[1,3]}\n",
    );
    expect_left_out(
        &rt,
        alloc,
        &[1, 2, 4],
        "steps 2, 3 and 5 change nothing and are left out: the others are counted without them\n",
        "{\"outcome\":\"left out\",\"left_out\":[2,3,5]}\n",
    );
}

#[test]
fn a_plan_that_changes_nothing_says_how_many_steps_it_has(rt: HostRuntime) {
    let alloc = rt.alloc();
    expect_unchanged(
        &rt,
        alloc,
        1,
        "nothing to change: 1 step, and it leaves its record as it is\n",
        "{\"outcome\":\"nothing to change\",\"steps\":1}\n",
    );
    expect_unchanged(
        &rt,
        alloc,
        256,
        "nothing to change: 256 steps, and each leaves its record as it is\n",
        "{\"outcome\":\"nothing to change\",\"steps\":256}\n",
    );
}

#[test]
fn a_greeting_without_an_answer_names_its_bus(rt: HostRuntime) {
    let alloc = rt.alloc();
    let silent = Unanswered {
        bus: Bus::Ipmb,
        busy: false,
    };
    expect_unlooked(
        &rt,
        alloc,
        LookFault::Unopened(OpenFault::Ungreeted(silent)),
        "no answer on ipmb, port 9620; nothing was set\n",
        "{\"outcome\":\"no answer\",\"bus\":\"ipmb\",\"steps\":2}\n",
    );
    let busy = Unanswered {
        bus: Bus::Smbus,
        busy: true,
    };
    expect_unlooked(
        &rt,
        alloc,
        LookFault::Unopened(OpenFault::Ungreeted(busy)),
        "busy on smbus, port 9621: eight others are being served there; nothing was set\n",
        "{\"outcome\":\"busy\",\"bus\":\"smbus\",\"steps\":2}\n",
    );
}

#[test]
fn a_get_without_an_answer_names_its_record(rt: HostRuntime) {
    let alloc = rt.alloc();
    expect_unlooked(
        &rt,
        alloc,
        LookFault::Stopped(StopFault::Silent(1)),
        "no answer to the Get of step 2, BMC global enables; nothing was set\n",
        "{\"outcome\":\"get unanswered\",\"steps\":2,\"step\":2,\"record\":\"BMC global enables\"}\n",
    );
    expect_unlooked(
        &rt,
        alloc,
        LookFault::Unopened(OpenFault::NoLink),
        "no socket could be had; nothing was set\n",
        "{\"outcome\":\"no socket\",\"steps\":2}\n",
    );
}
