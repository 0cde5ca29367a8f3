//! The sentences and the objects of plans that came to an end. The managers are made of the texts of journals.
use app_apply::{Applied, ApplyWords, Outcome, Reach, apply_json, apply_text};
use app_journal::{Standing, WriteFault, revive_text};
use app_run::Unanswered;
use record_base::Key;
use report_words::{Names, id_string};
use std::alloc::Global;
use std::process::Abort;
use two_wire::Bus;
use undo_core::Manager;

/// The journal of a plan of two steps, up to what is done of them.
const HEAD: &str = "journal 1
retries 3
names 2C203020080A
unlisted
steps 2
ipmb 10260510000000005A00
ipmb 10260610000000005B00
";

/// The first step was done: the upper critical threshold of sensor 5 was 95.
const FIRST_DONE: &str = "undo 1
ipmb 10260510000000005F00
waiting 0
";

/// The manager of a journal that ends so.
fn manager_of(rt: &impl Abort, alloc: Global, done: &str, stage: &str) -> Manager {
    let text = format!(in alloc; "{HEAD}{done}{stage}no replies\n").expect(rt, "memory");
    revive_text(alloc, text.as_str()).expect(rt, "a journal")
}

/// The words `apply PLAN 9620 9621`, whose FILE is `plan.undo`.
fn words_of(rt: &impl Abort, alloc: Global) -> ApplyWords {
    ApplyWords {
        plan: String::from_str(alloc, "plan.toml").expect(rt, "memory"),
        file: String::from_str(alloc, "plan.undo").expect(rt, "memory"),
        replace: false,
        reach: Reach {
            ipmb_port: 9620,
            smbus_port: Some(9621),
            wait_ms: 200,
            again: 3,
        },
        json: false,
    }
}

/// The id string of sensor 6, its type and length first: eight bytes of ASCII and Latin 1 are `CPU "1"`.
const ID_STRING: [u8; 9] = [0xC8, b'C', b'P', b'U', b' ', b'"', b'1', b'"', 0xB0];

/// The name of sensor 6 is known.
fn one_name(rt: &impl Abort, alloc: Global) -> Names {
    let keys = [Key::Thresholds(6)];
    let mut names = Names::wanted(alloc, &keys).expect(rt, "memory");
    names.name_sensor(6, id_string(&ID_STRING));
    names
}

/// This is said of a plan that came to this, as far as these names are known.
fn expect_named(
    rt: &impl Abort,
    alloc: Global,
    applied: Applied,
    names: Names,
    sentence: &str,
    object: &str,
) {
    let words = words_of(rt, alloc);
    let said = apply_text(alloc, &words, &applied, &names).expect(rt, "memory");
    let line = apply_json(alloc, &words, &applied, &names).expect(rt, "memory");
    assert_eq!(rt; said.as_str(), sentence);
    assert_eq!(rt; line.as_str(), object);
}

/// This is said of a plan that came to this.
fn expect_said(rt: &impl Abort, alloc: Global, applied: Applied, sentence: &str, object: &str) {
    expect_named(rt, alloc, applied, Names::new(alloc), sentence, object);
}

/// The same of one whose manager ended as its journal says.
fn expect_ended(
    rt: &impl Abort,
    alloc: Global,
    done: &str,
    stage: &str,
    kept: Result<(), WriteFault>,
    sentence: &str,
    object: &str,
) {
    let manager = manager_of(rt, alloc, done, stage);
    let outcome = Outcome::Ended(manager.phase(), kept);
    let applied = Applied {
        manager,
        outcome,
        aside: None,
    };
    expect_said(rt, alloc, applied, sentence, object);
}

/// The same of one that wasn't begun.
fn expect_unbegun(rt: &impl Abort, alloc: Global, outcome: Outcome, sentence: &str, object: &str) {
    let manager = manager_of(
        rt,
        alloc,
        "undo 0\nwaiting 0\n",
        "stage fresh 0 0\ngo\ncounts 0 0\n",
    );
    let applied = Applied {
        manager,
        outcome,
        aside: None,
    };
    expect_said(rt, alloc, applied, sentence, object);
}

#[test]
fn a_plan_that_is_done_names_the_call_that_takes_it_back(rt: HostRuntime) {
    expect_ended(
        &rt,
        rt.alloc(),
        "undo 2\nipmb 10260510000000005F00\nipmb 10260610000000006000\nwaiting 0\n",
        "stage done 0 0\ngo\ncounts 4 0\n",
        Ok(()),
        "step 1: sensor 5 upper critical: 95 (5Fh) -> 90 (5Ah)
step 2: sensor 6 upper critical: 96 (60h) -> 91 (5Bh)
done: 2 steps; to take them back: bmcnet revert plan.undo 9620 9621
",
        "{\"outcome\":\"done\",\"steps\":2,\"stands\":2,\"did\":[\"sensor 5 upper critical: 95 (5Fh) -> 90 (5Ah)\",\"sensor 6 upper critical: 96 (60h) -> 91 (5Bh)\"],\"file\":\"plan.undo\",\"kept\":true,\"next\":\"bmcnet revert plan.undo 9620 9621\"}\n",
    );
}

#[test]
fn a_plan_that_halted_says_where_and_what_stands(rt: HostRuntime) {
    expect_ended(
        &rt,
        rt.alloc(),
        FIRST_DONE,
        "stage set-refused 1 204\ngo\ncounts 4 0\n",
        Ok(()),
        "step 1: sensor 5 upper critical: 95 (5Fh) -> 90 (5Ah)
halted at step 2 of 2: sensor 6 thresholds refused (CCh, invalid data field): nothing of it was set; step 1 stands: bmcnet revert plan.undo 9620 9621
",
        "{\"outcome\":\"halted\",\"steps\":2,\"stands\":1,\"did\":[\"sensor 5 upper critical: 95 (5Fh) -> 90 (5Ah)\"],\"stop\":{\"step\":2,\"record\":\"sensor 6 thresholds\",\"why\":\"set refused\",\"code\":204,\"meaning\":\"invalid data field\"},\"file\":\"plan.undo\",\"kept\":true,\"next\":\"bmcnet revert plan.undo 9620 9621\"}\n",
    );
}

/// A sentence is printable ASCII: a quote of a name and each other byte is `\x` and its two digits, and B0h is a degree sign. In an object that is
/// a character of its text.
#[test]
fn a_plan_that_halted_names_the_sensor(rt: HostRuntime) {
    let alloc = rt.alloc();
    let stage = "stage set-refused 1 204\ngo\ncounts 4 0\n";
    let manager = manager_of(&rt, alloc, FIRST_DONE, stage);
    let outcome = Outcome::Ended(manager.phase(), Ok(()));
    let applied = Applied {
        manager,
        outcome,
        aside: None,
    };
    expect_named(
        &rt,
        alloc,
        applied,
        one_name(&rt, alloc),
        "step 1: sensor 5 upper critical: 95 (5Fh) -> 90 (5Ah)
halted at step 2 of 2: sensor 6 (\"CPU \\x221\\x22\\xB0\") thresholds refused (CCh, invalid data field): nothing of it was set; step 1 stands: bmcnet revert plan.undo 9620 9621
",
        "{\"outcome\":\"halted\",\"steps\":2,\"stands\":1,\"did\":[\"sensor 5 upper critical: 95 (5Fh) -> 90 (5Ah)\"],\"stop\":{\"step\":2,\"record\":\"sensor 6 thresholds\",\"name\":\"CPU \\\"1\\\"\u{B0}\",\"why\":\"set refused\",\"code\":204,\"meaning\":\"invalid data field\"},\"file\":\"plan.undo\",\"kept\":true,\"next\":\"bmcnet revert plan.undo 9620 9621\"}\n",
    );
}

#[test]
fn a_plan_whose_journal_is_not_kept_says_so(rt: HostRuntime) {
    expect_ended(
        &rt,
        rt.alloc(),
        "undo 0\nwaiting 0\n",
        "stage halted 0 0\ngo\ncounts 0 0\n",
        Err(WriteFault),
        "plan.undo couldn't be written
halted at step 1 of 2: nothing of sensor 5 thresholds was set; no step was done
",
        "{\"outcome\":\"halted\",\"steps\":2,\"stands\":0,\"did\":[],\"stop\":{\"step\":1,\"record\":\"sensor 5 thresholds\",\"why\":\"stopped\"},\"file\":\"plan.undo\",\"kept\":false}\n",
    );
}

#[test]
fn a_request_without_an_answer_leaves_its_step_in_doubt(rt: HostRuntime) {
    expect_ended(
        &rt,
        rt.alloc(),
        "undo 1\nipmb 10260510000000005F00\nwaiting 1\nipmb 10260610000000006000\n",
        "stage set 1 0\nstop\ncounts 3 0\n",
        Ok(()),
        "step 1: sensor 5 upper critical: 95 (5Fh) -> 90 (5Ah)
no answer to the Set of step 2, sensor 6 thresholds: whether it was set isn't known; to settle it and take back what was done: bmcnet revert plan.undo 9620 9621
",
        "{\"outcome\":\"unsettled\",\"steps\":2,\"stands\":1,\"did\":[\"sensor 5 upper critical: 95 (5Fh) -> 90 (5Ah)\"],\"stop\":{\"step\":2,\"record\":\"sensor 6 thresholds\",\"why\":\"set unanswered\"},\"file\":\"plan.undo\",\"kept\":true,\"next\":\"bmcnet revert plan.undo 9620 9621\"}\n",
    );
}

#[test]
fn a_plan_that_is_not_begun_says_why(rt: HostRuntime) {
    let alloc = rt.alloc();
    expect_unbegun(
        &rt,
        alloc,
        Outcome::Held,
        "plan.undo is held by another process, or can't be held; nothing was sent\n",
        "{\"outcome\":\"held\",\"steps\":2,\"stands\":0,\"did\":[],\"file\":\"plan.undo\",\"kept\":true}\n",
    );
    let busy = Unanswered {
        bus: Bus::Smbus,
        busy: true,
    };
    expect_unbegun(
        &rt,
        alloc,
        Outcome::Ungreeted(busy),
        "busy on smbus, port 9621: eight others are being served there; nothing was set\n",
        "{\"outcome\":\"busy\",\"bus\":\"smbus\",\"steps\":2,\"stands\":0,\"did\":[],\"file\":\"plan.undo\",\"kept\":true}\n",
    );
    expect_unbegun(
        &rt,
        alloc,
        Outcome::Occupied(Standing::Something),
        "plan.undo has something to take back, and isn't written over: bmcnet revert plan.undo 9620 9621, or --replace puts it aside\n",
        "{\"outcome\":\"occupied\",\"steps\":2,\"stands\":0,\"did\":[],\"file\":\"plan.undo\",\"kept\":true,\"next\":\"bmcnet revert plan.undo 9620 9621\"}\n",
    );
}
