//! The lines and the objects of what a revert would take back. The managers are made of the texts of journals.
use app_change::{foretell_json, foretell_text};
use app_journal::revive_text;
use std::alloc::Global;
use std::process::Abort;
use undo_core::Manager;

/// The journal of a plan of two steps, up to what is done of them: they set the upper critical thresholds of sensors 5 and 6 to 90 and 91.
const HEAD: &str = "journal 1
retries 3
names 2C203020080A
unlisted
steps 2
ipmb 10260510000000005A00
ipmb 10260610000000005B00
";

/// Nothing was done.
const NONE_DONE: &str = "undo 0
waiting 0
";

/// The first step was done: the threshold was 95.
const FIRST_DONE: &str = "undo 1
ipmb 10260510000000005F00
waiting 0
";

/// The second one, too: the threshold was 96.
const BOTH_DONE: &str = "undo 2
ipmb 10260510000000005F00
ipmb 10260610000000006000
waiting 0
";

/// The first step was done, and the Set of the second one waits for its answer.
const SECOND_IN_DOUBT: &str = "undo 1
ipmb 10260510000000005F00
waiting 1
ipmb 10260610000000006000
";

/// The manager of a journal that ends so.
fn manager_of(rt: &impl Abort, alloc: Global, done: &str, stage: &str) -> Manager {
    let text = format!(in alloc; "{HEAD}{done}{stage}no replies\n").expect(rt, "memory");
    revive_text(alloc, text.as_str()).expect(rt, "a journal")
}

/// Of such a journal in `plan.undo` this is told.
fn expect_foretold(
    rt: &impl Abort,
    alloc: Global,
    done: &str,
    stage: &str,
    lines: &str,
    objects: &str,
) {
    let manager = manager_of(rt, alloc, done, stage);
    let told = foretell_text(alloc, "plan.undo", &manager).expect(rt, "memory");
    let json = foretell_json(alloc, "plan.undo", &manager).expect(rt, "memory");
    assert_eq!(rt; told.as_str(), lines);
    assert_eq!(rt; json.as_str(), objects);
}

#[test]
fn the_last_step_is_taken_back_first(rt: HostRuntime) {
    expect_foretold(
        &rt,
        rt.alloc(),
        BOTH_DONE,
        "stage done 0 0\ngo\ncounts 4 0\n",
        "step 2: sensor 6 upper critical <- 96 (60h)
step 1: sensor 5 upper critical <- 95 (5Fh)
to be taken back: 2 steps; nothing was sent
",
        "{\"step\":2,\"undo\":\"sensor 6 upper critical <- 96 (60h)\",\"sure\":true}
{\"step\":1,\"undo\":\"sensor 5 upper critical <- 95 (5Fh)\",\"sure\":true}
{\"outcome\":\"to take back\",\"steps\":2,\"file\":\"plan.undo\"}
",
    );
}

#[test]
fn a_plan_that_halted_is_taken_back_as_far_as_it_came(rt: HostRuntime) {
    expect_foretold(
        &rt,
        rt.alloc(),
        FIRST_DONE,
        "stage set-refused 1 204\ngo\ncounts 4 0\n",
        "step 1: sensor 5 upper critical <- 95 (5Fh)
to be taken back: 1 step; nothing was sent
",
        "{\"step\":1,\"undo\":\"sensor 5 upper critical <- 95 (5Fh)\",\"sure\":true}
{\"outcome\":\"to take back\",\"steps\":1,\"file\":\"plan.undo\"}
",
    );
}

#[test]
fn a_step_in_doubt_is_told_as_such(rt: HostRuntime) {
    expect_foretold(
        &rt,
        rt.alloc(),
        SECOND_IN_DOUBT,
        "stage set 1 0\nstop\ncounts 3 0\n",
        "no answer to the Set of step 2, sensor 6 thresholds: whether it was set isn't known
step 2, if it was set: sensor 6 upper critical <- 96 (60h)
step 1: sensor 5 upper critical <- 95 (5Fh)
to be taken back: 1 step, and step 2 if it was set; nothing was sent
",
        "{\"step\":2,\"open\":\"set\"}
{\"step\":2,\"undo\":\"sensor 6 upper critical <- 96 (60h)\",\"sure\":false}
{\"step\":1,\"undo\":\"sensor 5 upper critical <- 95 (5Fh)\",\"sure\":true}
{\"outcome\":\"to take back\",\"steps\":1,\"file\":\"plan.undo\"}
",
    );
}

#[test]
fn a_get_without_an_answer_leaves_nothing_in_doubt(rt: HostRuntime) {
    expect_foretold(
        &rt,
        rt.alloc(),
        FIRST_DONE,
        "stage get 1 0\nstop\ncounts 3 0\n",
        "no answer to the Get of step 2, sensor 6 thresholds: nothing of it was set
step 1: sensor 5 upper critical <- 95 (5Fh)
to be taken back: 1 step; nothing was sent
",
        "{\"step\":2,\"open\":\"get\"}
{\"step\":1,\"undo\":\"sensor 5 upper critical <- 95 (5Fh)\",\"sure\":true}
{\"outcome\":\"to take back\",\"steps\":1,\"file\":\"plan.undo\"}
",
    );
}

#[test]
fn an_undo_without_an_answer_is_sent_again(rt: HostRuntime) {
    expect_foretold(
        &rt,
        rt.alloc(),
        BOTH_DONE,
        "stage undo 0 0\ngo\ncounts 5 0\n",
        "no answer to what takes step 1 back, sensor 5 upper critical <- 95 (5Fh): whether it was taken back isn't known
step 1: sensor 5 upper critical <- 95 (5Fh)
to be taken back: 1 step; nothing was sent
",
        "{\"step\":1,\"open\":\"undo\"}
{\"step\":1,\"undo\":\"sensor 5 upper critical <- 95 (5Fh)\",\"sure\":true}
{\"outcome\":\"to take back\",\"steps\":1,\"file\":\"plan.undo\"}
",
    );
}

#[test]
fn a_refused_undo_is_the_next_request(rt: HostRuntime) {
    expect_foretold(
        &rt,
        rt.alloc(),
        BOTH_DONE,
        "stage undo-refused 0 204\ngo\ncounts 6 0\n",
        "step 1: sensor 5 upper critical <- 95 (5Fh)
to be taken back: 1 step; nothing was sent
",
        "{\"step\":1,\"undo\":\"sensor 5 upper critical <- 95 (5Fh)\",\"sure\":true}
{\"outcome\":\"to take back\",\"steps\":1,\"file\":\"plan.undo\"}
",
    );
}

#[test]
fn nothing_is_left_of_what_was_taken_back(rt: HostRuntime) {
    let alloc = rt.alloc();
    let none = "plan.undo has nothing to take back; nothing was sent\n";
    let empty = "{\"outcome\":\"empty\",\"steps\":0,\"file\":\"plan.undo\"}\n";
    expect_foretold(
        &rt,
        alloc,
        BOTH_DONE,
        "stage undone 0 0\ngo\ncounts 6 0\n",
        none,
        empty,
    );
    expect_foretold(
        &rt,
        alloc,
        NONE_DONE,
        "stage fresh 0 0\ngo\ncounts 0 0\n",
        none,
        empty,
    );
}
