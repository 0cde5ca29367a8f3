//! Which steps are kept, by what was found of their records. What each step makes of that is worked out by hand: the policy is bits 6:5 of the
//! first byte that a Get of the chassis status shows.
use app_change::kept_steps;
use app_look::{Came, Found};
use record_base::{Op, RecordKind, SetGlobalEnables, SetPowerPolicy};
use record_kinds::Limits;
use std::alloc::Global;
use std::process::Abort;
use two_wire::Code;
use undo_plans::Steps;

/// What the Get shows where the policy is 1, and where it is 3, which no request sets.
const PREVIOUS: [u8; 3] = [0x21, 0, 0];

const UNKNOWN: [u8; 3] = [0x61, 0, 0];

fn policy(policy: u8) -> Op<'static> {
    Op::PowerPolicy(SetPowerPolicy { policy })
}

fn enables(byte: u8) -> Op<'static> {
    Op::GlobalEnables(SetGlobalEnables { byte })
}

/// The Get of the operation's record showed these bytes.
fn shown(rt: &impl Abort, alloc: Global, op: &Op<'_>, bytes: &[u8]) -> Found {
    let came = Came::Shown(Vec::from_slice(alloc, bytes).expect(rt, "memory"));
    Found {
        key: Limits::key(op),
        came,
    }
}

/// A plan, and what was found of the record of each of its steps.
#[derive(Drop)]
struct Looked {
    steps: Steps,
    found: Vec<Found>,
}

impl Looked {
    fn new(alloc: Global) -> Looked {
        Looked {
            steps: Steps::none(alloc),
            found: Vec::new(alloc),
        }
    }

    /// Adds a step, and what was found of its record.
    fn add(&mut self, rt: &impl Abort, op: &Op<'_>, found: Found) {
        assert!(rt; self.steps.len() < 8);
        self.steps.push(op).expect(rt, "memory");
        self.found.push(found).expect(rt, "memory");
    }

    /// Adds a step whose Get showed these bytes.
    fn add_shown(&mut self, rt: &impl Abort, alloc: Global, op: &Op<'_>, bytes: &[u8]) {
        let found = shown(rt, alloc, op, bytes);
        self.add(rt, op, found);
    }

    /// The steps of these places are left out, and the others are kept.
    fn expect_left_out(self, rt: &impl Abort, alloc: Global, wanted: &[usize]) {
        assert!(rt; self.found.len() == self.steps.len());
        let narrowed = kept_steps(alloc, &self.steps, self.found.as_slice());
        let narrowed = narrowed.expect(rt, "memory");
        assert!(rt; narrowed.left_out.as_slice() == wanted);
        assert!(rt; narrowed.kept.len() <= self.steps.len());
        assert_eq!(rt; self.steps.len() - narrowed.kept.len(), wanted.len());
        drop(narrowed);
        drop(self);
    }
}

#[test]
fn there_and_back_are_both_kept(rt: HostRuntime) {
    let mut plan = Looked::new(rt.alloc());
    plan.add_shown(&rt, rt.alloc(), &policy(2), &PREVIOUS);
    plan.add_shown(&rt, rt.alloc(), &policy(1), &PREVIOUS);
    plan.expect_left_out(&rt, rt.alloc(), &[]);
}

#[test]
fn a_step_that_changes_nothing_is_left_out(rt: HostRuntime) {
    let mut plan = Looked::new(rt.alloc());
    plan.add_shown(&rt, rt.alloc(), &policy(1), &PREVIOUS);
    plan.expect_left_out(&rt, rt.alloc(), &[0]);
}

#[test]
fn those_before_the_first_change_are_left_out(rt: HostRuntime) {
    let mut plan = Looked::new(rt.alloc());
    plan.add_shown(&rt, rt.alloc(), &policy(1), &PREVIOUS);
    plan.add_shown(&rt, rt.alloc(), &enables(8), &[1]);
    plan.add_shown(&rt, rt.alloc(), &policy(1), &PREVIOUS);
    plan.add_shown(&rt, rt.alloc(), &policy(2), &PREVIOUS);
    plan.add_shown(&rt, rt.alloc(), &policy(1), &PREVIOUS);
    plan.expect_left_out(&rt, rt.alloc(), &[0, 2]);
}

#[test]
fn what_is_refused_or_for_good_is_kept(rt: HostRuntime) {
    let mut plan = Looked::new(rt.alloc());
    let op = policy(1);
    let refused = Found {
        key: Limits::key(&op),
        came: Came::Refused(Code::new(0xCB).expect(&rt, "a code")),
    };
    plan.add(&rt, &op, refused);
    plan.add_shown(&rt, rt.alloc(), &enables(1), &[1]);
    plan.expect_left_out(&rt, rt.alloc(), &[1]);
    let mut plan = Looked::new(rt.alloc());
    plan.add_shown(&rt, rt.alloc(), &policy(2), &UNKNOWN);
    plan.expect_left_out(&rt, rt.alloc(), &[]);
}
