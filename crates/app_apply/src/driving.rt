//! A manager that is called, and driven until its work ends or a request has no answer.
ghost use Rattle.model_lab.specs.Meaning.{lab_names};
ghost use Rattle.undo_core.specs.Shown.{CallStep, Represents};
ghost use Rattle.bmc_ports.specs.Conversation.{frames_given, links};
ghost use Rattle.bmc_ports.specs.Driving.{both};
ghost use Rattle.bmc_ports.specs.Observing.{Observed, permit_at, permit_for};
ghost use Rattle.app_run.specs.Driven.{DrivenState};
ghost use Rattle.app_run.specs.Course.{RunCourse, SeenTries};
ghost use Rattle.app_apply.specs.Driven.{DrivesOut, EndsDrive, GoesOut, call_for};

use app_run::drive_heeded;
use bmc_ports::{DriveEnd, Observer};
use undo_core::{Manager, Sent, WrongPhase};
use wire_links::Link;

/// What a manager is called for.
#[derive(Clone, Copy)]
pub enum Calling {
    /// Its plan is begun.
    Start,
    /// Its open request is heeded again.
    Settle,
    /// What it did is taken back.
    Undo,
}

impl Calling {
    /// The call.
    fn call(self, manager: &mut Manager) -> Result<Option<Sent>, WrongPhase>
        ensures { CallStep (call_for self) manager.old manager.new result }
    {
        match self {
            Calling::Start => manager.start(),
            Calling::Settle => manager.again(),
            Calling::Undo => manager.undo(),
        }
    }
}

/// Drives a manager until no request of it is open, or a turn leaves it unsettled, for at most so many turns.
fn drive_last<A: Link, B: Link, T: Observer>(
    manager: &mut Manager,
    first: Option<Sent>,
    ipmb: &mut A,
    smbus: &mut B,
    turns: u32,
    watch: &mut T,
) -> DriveEnd
    ensures drives { (s : DrivenState) → Represents lab_names manager.old s
        → EndsDrive turns s manager.new result
        (both (A.counts_of ipmb.old) (B.counts_of smbus.old))
        (both (A.counts_of ipmb.new) (B.counts_of smbus.new)) }
    ensures observed { Observed T.sees A.Link B.Link (permit_for (frames_given first)) first
        manager.old manager.new (links ipmb.old smbus.old) (links ipmb.new smbus.new)
        (permit_at result) watch.old watch.new }
{
    match drive_heeded(manager, first, ipmb, smbus, turns, watch) {
        Ok(_left) => Ok(manager.phase()),
        Err(kept) => Err(kept),
    }
}

/// Drives a manager until no request of it is open, or a turn leaves it unsettled. Then it is called again, up to so many times, and driven
/// likewise, each time for at most so many turns.
fn drive_out<A: Link, B: Link, T: Observer>(
    manager: &mut Manager,
    first: Option<Sent>,
    ipmb: &mut A,
    smbus: &mut B,
    turns: u32,
    agains: u32,
    watch: &mut T,
) -> DriveEnd
    ensures drives { (s : DrivenState) → Represents lab_names manager.old s
        → DrivesOut agains turns s manager.new result
        (both (A.counts_of ipmb.old) (B.counts_of smbus.old))
        (both (A.counts_of ipmb.new) (B.counts_of smbus.new)) }
    ensures seen { SeenTries T.sees A.Link B.Link manager.old manager.new first
        (links ipmb.old smbus.old) (links ipmb.new smbus.new) (permit_at result)
        watch.old watch.new }
{
    let mut sent = first;
    for _ in 0..agains {
        match drive_heeded(manager, sent, ipmb, smbus, turns, watch) {
            Ok(Some(_left)) => {}
            Ok(None) => return Ok(manager.phase()),
            Err(kept) => return Err(kept),
        }
        let Ok(again) = manager.again() else {
            return Ok(manager.phase());
        };
        sent = again;
    }
    drive_last(manager, sent, ipmb, smbus, turns, watch)
}

/// Calls a manager so, and drives it likewise, while a watch looks at it.
pub(crate) fn call_out<A: Link, B: Link, T: Observer>(
    manager: &mut Manager,
    calling: Calling,
    ipmb: &mut A,
    smbus: &mut B,
    turns: u32,
    agains: u32,
    watch: &mut T,
) -> DriveEnd
    ensures goes { (before : DrivenState) → Represents lab_names manager.old before
        → GoesOut agains (call_for calling) turns before manager.new result
        (both (A.counts_of ipmb.old) (B.counts_of smbus.old))
        (both (A.counts_of ipmb.new) (B.counts_of smbus.new)) }
    ensures seen { RunCourse T.sees A.Link B.Link (call_for calling) manager.old manager.new
        (links ipmb.old smbus.old) (links ipmb.new smbus.new) (permit_at result)
        watch.old watch.new }
{
    match calling.call(manager) {
        Ok(first) => drive_out(manager, first, ipmb, smbus, turns, agains, watch),
        Err(WrongPhase) => Ok(manager.phase()),
    }
}
