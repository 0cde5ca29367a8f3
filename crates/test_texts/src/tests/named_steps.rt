//! What is told of steps on a sensor whose name is known.
use super::story::expect_equal;
use super::words::bytes_of;
use app_change::{Foreseen, Outlook, outlooks_json, outlooks_text};
use plan_file::read_plan;
use record_base::Key;
use report_words::{IdString, Names};
use shown_records::Meaning;
use std::alloc::Global;
use std::process::Abort;
use two_wire::code;
use undo_plans::Plan;

/// A plan of a step on sensor 5, and one on sensor 7.
const PLAN: &str = r#"retries = 2
[[step]]
kind = "thresholds"
sensor = 5
uc = 90
[[step]]
kind = "thresholds"
sensor = 7
uc = 90
"#;

/// What the Get of the thresholds of sensor 5 shows: upper critical is 5Fh.
const SHOWN: &str = "3F140A05505F6E";

/// The name of sensor 5, in Latin-1.
const NAME: &[u8] = b"Temp \"1\xE9";

/// The first step changes something, and the Get of the second is refused. A byte that isn't printable ASCII, or a quote, is told by its number.
const TOLD: &str = r#"step 1: sensor 5 ("Temp \x221\xE9") upper critical: 95 (5Fh) -> 90 (5Ah)
step 2: refused: sensor 7 thresholds can't be read (CBh, not present)
1 step would change something, 0 nothing, 1 can't be done; whether the controller takes a change isn't known before it is sent
"#;

/// The same as objects.
const OBJECTS: &str =
    r#"{"step":1,"record":"sensor 5 thresholds","name":"Temp \"1é","outlook":"changes","does":"sensor 5 upper critical: 95 (5Fh) -> 90 (5Ah)"}
{"step":2,"record":"sensor 7 thresholds","outlook":"get refused","code":203,"meaning":"not present"}
"#;

/// The outlooks of the steps.
fn outlooks(rt: &impl Abort, alloc: Global) -> Vec<Outlook> {
    let mut outlooks = Vec::new(alloc);
    let first = Outlook::Foreseen(Foreseen {
        before: bytes_of(rt, alloc, SHOWN),
        meaning: Meaning::Changes,
    });
    outlooks.push(first).expect(rt, "memory");
    let second = Outlook::Refused(code::NOT_PRESENT);
    outlooks.push(second).expect(rt, "memory");
    outlooks
}

/// The names of the sensors of which the first is known.
fn names(rt: &impl Abort, alloc: Global) -> Names {
    let keys = [Key::Thresholds(5), Key::Thresholds(7)];
    let mut names = Names::wanted(alloc, &keys).expect(rt, "memory");
    names.name_sensor(5, Some(IdString::from_slice(NAME)));
    names
}

/// The plan.
fn plan(rt: &impl Abort, alloc: Global) -> Plan {
    read_plan(alloc, PLAN).expect(rt, "a plan")
}

/// A sensor's name stands behind its number, and one that isn't known is left out.
#[test]
fn lines_have_names(rt: HostRuntime) {
    let alloc = rt.alloc();
    let plan = plan(&rt, alloc);
    let outlooks = outlooks(&rt, alloc);
    let names = names(&rt, alloc);
    let said = outlooks_text(alloc, &plan.steps, outlooks.as_slice(), &names);
    let said = said.expect(&rt, "memory");
    expect_equal(&rt, said.as_str(), TOLD);
}

/// An object has the name of its sensor, where that is known.
#[test]
fn objects_have_names(rt: HostRuntime) {
    let alloc = rt.alloc();
    let plan = plan(&rt, alloc);
    let outlooks = outlooks(&rt, alloc);
    let names = names(&rt, alloc);
    let said = outlooks_json(alloc, &plan.steps, outlooks.as_slice(), &names);
    let said = said.expect(&rt, "memory");
    expect_equal(&rt, said.as_str(), OBJECTS);
}
