//! Steps written as plans.
use plan_file::read_plan;
use record_base::{Op, SetPowerPolicy, SetWatchdog};
use shown_records::{is_sayable, write_plan};
use std::alloc::Global;
use std::process::Abort;
use undo_plans::Steps;

/// A step of each kind, by the tables of the page on plan files, each field in its table's order.
const STEPS: &str = r#"
[[step]]
kind = "thresholds"
sensor = 5
unc = 0x4B
uc = 0x5A

[[step]]
kind = "hysteresis"
sensor = 5
positive = 2
negative = 3

[[step]]
kind = "event-enable"
sensor = 5
messages = true
scanning = false
select = "enable"
assert = [7, 9]
deassert = []

[[step]]
kind = "watchdog"
use = 4
no_log = true
action = 1
interrupt = 2
pre = 10
initial = 6000

[[step]]
kind = "power-policy"
policy = 2

[[step]]
kind = "global-enables"
value = 0x09

[[step]]
kind = "boot-param"
param = 5
invalid = false
data = [128, 4, 0, 0, 0]

[[step]]
kind = "bios-attribute"
handle = 1
indexes = [0, 2]

[[step]]
kind = "bios-attribute"
handle = 2
text = "a \"rack\" \\ 1"

[[step]]
kind = "bios-attribute"
handle = 3
number = 40

[[step]]
kind = "state-effecter"
effecter = 300
states = [2, -1]

[[step]]
kind = "numeric-effecter"
effecter = 301
size = 3
value = -5

[[step]]
kind = "user-name"
user = 2
name = "ops"

[[step]]
kind = "user-access"
channel = 1
user = 2
limit = 4
callback = false
link = true
messaging = true

[[step]]
kind = "user-access"
channel = 1
user = 3
limit = 15

[[step]]
kind = "channel-access"
channel = 1
store = "volatile"
access = 58
limit = 3

[[step]]
kind = "lan-param"
channel = 1
param = 3
data = [10, 0, 0, 1]
"#;

/// It holds.
fn expect(rt: &impl Abort, holds: bool) {
    assert!(rt; holds);
}

/// The text of the plan of these steps.
fn written(rt: &impl Abort, alloc: Global, steps: &Steps) -> String {
    let told = write_plan(alloc, "# front\n", steps, "# behind\n").expect(rt, "memory");
    told.expect(rt, "a plan")
}

/// The lines of the text that are no remarks.
fn without_remarks(rt: &impl Abort, alloc: Global, text: &str) -> String {
    let mut lines = String::new(alloc);
    for line in text.lines() {
        if !line.starts_with("#") {
            lines.push_str(line).expect(rt, "memory");
            lines.push_str("\n").expect(rt, "memory");
        }
    }
    lines
}

/// A step of each kind is written as it was read, and each can be said alone. The remarks stand where they are put.
#[test]
fn steps_of_each_kind_are_written(rt: HostRuntime) {
    let alloc = rt.alloc();
    let plan = read_plan(alloc, STEPS).expect(&rt, "a plan");
    expect(&rt, plan.steps.len() == 17);
    let text = written(&rt, alloc, &plan.steps);
    expect(&rt, text.as_str().starts_with("# front\n"));
    expect(&rt, text.as_str().ends_with("# behind\n"));
    let steps = without_remarks(&rt, alloc, text.as_str());
    expect(&rt, steps.as_str() == STEPS);
}

/// What a plan can't say isn't sayable: the policy that nobody knows, and a watchdog without a use.
#[test]
fn unsayable_is_told(rt: HostRuntime) {
    let alloc = rt.alloc();
    let sayable = is_sayable(alloc, &Op::PowerPolicy(SetPowerPolicy { policy: 1 }));
    expect(&rt, sayable.expect(&rt, "memory"));
    let unknown = is_sayable(alloc, &Op::PowerPolicy(SetPowerPolicy { policy: 3 }));
    expect(&rt, !unknown.expect(&rt, "memory"));
    let unused = is_sayable(
        alloc,
        &Op::Watchdog(SetWatchdog {
            timer_use: 0,
            actions: 0,
            pre_timeout: 0,
            flags_to_clear: 0,
            initial: 0,
        }),
    );
    expect(&rt, !unused.expect(&rt, "memory"));
}

/// A remark that begins a step isn't read as these steps, and no text is given.
#[test]
fn text_with_another_step_is_not_given(rt: HostRuntime) {
    let alloc = rt.alloc();
    let steps = Steps::none(alloc);
    let told = write_plan(
        alloc,
        "",
        &steps,
        "[[step]]\nkind = \"power-policy\"\npolicy = 1\n",
    );
    expect(&rt, told.expect(&rt, "memory").is_none());
}
