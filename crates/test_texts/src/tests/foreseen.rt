//! What a Get shows behind an operation of each kind, and what the operation makes of it.
use super::story::expect_equal;
use super::words::{bytes_of, list_of};
use app_change::foresee;
use plan_file::read_plan;
use record_base::Op;
use record_words::undone_op;
use shown_records::{Meaning, meaning_of, shown_after};
use std::alloc::Global;
use std::process::Abort;

/// Requests, what a Get shows before them and behind them, and what they make of it.
const FORESEEN: &str = r#"
ipmb 102605380000004B5C64 3F140A05505F6E => 3F140A054B5C64 Changes
ipmb 102605380000004B5C64 3F140A054B5C64 => 3F140A054B5C64 Same
ipmb 102605380000004B5C64 07140A05000000 => 07140A05000000 NotRestorable
ipmb 102405FF0102 0303 => 0102 Changes
ipmb 102805D001000000 8002000400 => C003000400 Changes
ipmb 10280560FEFF0000 C003000400 => 4001000400 Changes
ipmb 000602 210000 => 410000 Changes
ipmb 000603 210000 => 210000 Same
ipmb 000602 610000 => 410000 NotRestorable
ipmb 182404310500B004 0431051000002C01 => 04310510B0042C01 Changes
ipmb 182404310500B004 44310510B0042C01 => 44310510B0042C01 NotRestorable
ipmb 182E08 01 => 08 Changes
ipmb 0008058004000000 01850000000000 => 01058004000000 Changes
ipmb 0008040301 010400FE => 010400FD Changes
ipmb 00088309 010309 => 018309 Changes
ipmb 000885 01058004000000 => 01858004000000 Changes
smbus 0231030000FA 00013232 => 0001FAFA Changes
smbus 0231030000FA 00023232 => 0002FAFA NotRestorable
smbus 023907000201030000 02010101010202 => 02010303010202 Changes
ipmb 1845026F707300000000000000000000000000 61646D696E0000000000000000000000 => 6F707300000000000000000000000000 Changes
ipmb 184391020F 0A430134 => 0A43011F Changes
ipmb 184301020F 0A430134 => 0A43013F Changes
ipmb 1840014200 3A04 => 0204 Changes
ipmb 30010103C0A80001 110A000001 => 11C0A80001 Changes
smbus 030700000000050200032800000000000000 00000000050200031E00000000000000 => 00000000050200032800000000000000 Changes
"#;

/// What a Get shows, and what an operation makes of it, in words.
fn said_of(rt: &impl Abort, alloc: Global, shown: &[u8], meaning: Meaning) -> String {
    let mut said = String::new(alloc);
    for byte in shown {
        let digits = format!(in alloc; "{byte:02X}").expect(rt, "memory");
        said.push_str(digits.as_str()).expect(rt, "memory");
        drop(digits);
    }
    let meant = format!(in alloc; " {meaning:?}").expect(rt, "memory");
    said.push_str(meant.as_str()).expect(rt, "memory");
    drop(meant);
    said
}

/// Behind the operation the Get shows these bytes, and this is what the operation makes of it.
fn expect_foreseen<'a>(rt: &impl Abort, alloc: Global, op: &Op<'a>, shown: &'a [u8], wanted: &str) {
    let after = shown_after(alloc, op, shown).expect(rt, "memory");
    let meaning = meaning_of(op, shown, after.as_slice());
    let said = said_of(rt, alloc, after.as_slice(), meaning);
    expect_equal(rt, said.as_str(), wanted);
    drop(said);
    drop(after);
}

/// The request of these words foresees what is wanted of the bytes behind it.
fn expect_of(rt: &impl Abort, alloc: Global, words: &str, wanted: &str) {
    let (bus, behind) = words.split_once(' ').expect(rt, "a bus");
    let (digits, rest) = behind.split_once(' ').expect(rt, "what is shown");
    let shown = bytes_of(rt, alloc, rest);
    let list = list_of(rt, alloc, bus, digits);
    let request = list.requests.get(0).expect(rt, "a request");
    let op = undone_op(&request).expect(rt, "an operation");
    expect_foreseen(rt, alloc, &op, shown.as_slice(), wanted);
    drop(op);
    drop(request);
    drop(list);
    drop(shown);
}

#[test]
fn gets_are_foreseen(rt: HostRuntime) {
    for line in FORESEEN.lines() {
        if let Some((words, wanted)) = line.split_once(" => ") {
            expect_of(&rt, rt.alloc(), words, wanted);
        }
    }
}

/// A plan of four steps on the power restore policy, and one on another record between them.
const PLAN: &str = r#"retries = 2
[[step]]
kind = "power-policy"
policy = 2
[[step]]
kind = "power-policy"
policy = 2
[[step]]
kind = "global-enables"
value = 8
[[step]]
kind = "power-policy"
policy = 0
[[step]]
kind = "power-policy"
policy = 1
"#;

/// The step of this place finds these bytes where the Get showed those before the first step, and makes this of them.
fn expect_step(rt: &impl Abort, alloc: Global, place: usize, shown: &str, wanted: &str) {
    let plan = read_plan(alloc, PLAN).expect(rt, "a plan");
    assert!(rt; place < plan.steps.len());
    let shown = bytes_of(rt, alloc, shown);
    let foreseen = foresee(alloc, &plan.steps, place, shown.as_slice());
    let foreseen = foreseen.expect(rt, "memory");
    let said = said_of(rt, alloc, foreseen.before.as_slice(), foreseen.meaning);
    expect_equal(rt, said.as_str(), wanted);
    drop(said);
    drop(foreseen);
    drop(shown);
    drop(plan);
}

#[test]
fn steps_are_foreseen_behind_those_before(rt: HostRuntime) {
    expect_step(&rt, rt.alloc(), 0, "210000", "210000 Changes");
    expect_step(&rt, rt.alloc(), 1, "210000", "410000 Same");
    expect_step(&rt, rt.alloc(), 2, "00", "00 Changes");
    expect_step(&rt, rt.alloc(), 3, "210000", "410000 Changes");
    expect_step(&rt, rt.alloc(), 4, "210000", "010000 Changes");
    expect_step(&rt, rt.alloc(), 4, "610000", "610000 NotRestorable");
}
