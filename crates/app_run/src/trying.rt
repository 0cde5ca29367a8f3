//! A manager that is driven while something looks at it, and called again where it is unsettled.
ghost use Rattle.std.specs.Prelude.{◌≡◌};
ghost use Rattle.model_undo.specs.declared.call.Call.TheVariants.{Start, Again};
ghost use Rattle.model_lab.specs.Meaning.{lab_names as the_names};
ghost use Rattle.undo_core.specs.Shown.{Represents};
ghost use Rattle.bmc_ports.specs.Conversation.{frames_given, links};
ghost use Rattle.bmc_ports.specs.Driving.{both};
ghost use Rattle.bmc_ports.specs.Observing.{Observed, permit_at, permit_for};
ghost use Rattle.app_run.specs.Driven.{DrivenState, GoesAgain, is_unsettled};
ghost use Rattle.app_run.specs.Course.{RunCourse};
ghost use Rattle.app_run.specs.Stops.{StopsAfter};

use bmc_ports::{DriveEnd, KeptBack, Observer, drive_observed};
use undo_core::{Manager, Phase, Sent, WrongPhase};
use wire_links::Link;

/// Whether a request is open, and isn't heeded.
fn is_unsettled(phase: Phase) -> bool
    ensures { result ≡ is_unsettled phase }
{
    matches!(phase, Phase::Unsettled(_))
}

/// Drives a manager as `drive_observed` does, but no further than to a turn that leaves it unsettled while others are left. It gives how many,
/// if that came.
pub fn drive_heeded<A: Link, B: Link, T: Observer>(
    manager: &mut Manager,
    first: Option<Sent>,
    ipmb: &mut A,
    smbus: &mut B,
    turns: u32,
    watch: &mut T,
) -> Result<Option<u32>, KeptBack>
    ensures stops { (s : DrivenState) → Represents the_names manager.old s
        → StopsAfter turns s manager.new result
        (both (A.counts_of ipmb.old) (B.counts_of smbus.old))
        (both (A.counts_of ipmb.new) (B.counts_of smbus.new)) }
    ensures observed { Observed T.sees A.Link B.Link (permit_for (frames_given first)) first
        manager.old manager.new (links ipmb.old smbus.old) (links ipmb.new smbus.new)
        (permit_at result) watch.old watch.new }
{
    if let Err(kept) = drive_observed(manager, first, ipmb, smbus, 0, watch) {
        return Err(kept);
    }
    if turns == 0 {
        return Ok(None);
    }
    for made in 1..turns {
        match drive_observed(manager, None, ipmb, smbus, 1, watch) {
            Ok(phase) if is_unsettled(phase) => return Ok(Some(turns - made)),
            Ok(_) => {}
            Err(kept) => return Err(kept),
        }
        let Some(_) = manager.open_bus() else {
            return Ok(None);
        };
    }
    match drive_observed(manager, None, ipmb, smbus, 1, watch) {
        Ok(_) => Ok(None),
        Err(kept) => Err(kept),
    }
}

/// Begins a manager's plan, and drives it as `run_plan` does. Where a turn leaves it unsettled and others are left, it is called again, up to so
/// many times. The watch looks at it behind each call that gave something to send, and behind each turn, before what the manager gave goes out.
/// Where a look doesn't allow that, nothing is sent or called behind it.
pub fn try_plan<A: Link, B: Link, T: Observer>(
    manager: &mut Manager,
    ipmb: &mut A,
    smbus: &mut B,
    turns: u32,
    agains: u32,
    watch: &mut T,
) -> DriveEnd
    ensures goes { (before : DrivenState) → Represents the_names manager.old before
        → GoesAgain agains Start turns before manager.new result
        (both (A.counts_of ipmb.old) (B.counts_of smbus.old))
        (both (A.counts_of ipmb.new) (B.counts_of smbus.new)) }
    ensures seen { RunCourse T.sees A.Link B.Link Start manager.old manager.new
        (links ipmb.old smbus.old) (links ipmb.new smbus.new) (permit_at result)
        watch.old watch.new }
{
    let mut sent = match manager.start() {
        Ok(first) => first,
        Err(WrongPhase) => return Ok(manager.phase()),
    };
    let mut left = turns;
    for _ in 0..agains {
        left = match drive_heeded(manager, sent, ipmb, smbus, left, watch) {
            Ok(Some(rest)) => rest,
            Ok(None) => return Ok(manager.phase()),
            Err(kept) => return Err(kept),
        };
        let Ok(again) = manager.again() else {
            return Ok(manager.phase());
        };
        sent = again;
    }
    drive_observed(manager, sent, ipmb, smbus, left, watch)
}

/// Calls an unsettled manager again, and drives it likewise.
pub(crate) fn settle_watched<A: Link, B: Link, T: Observer>(
    manager: &mut Manager,
    ipmb: &mut A,
    smbus: &mut B,
    turns: u32,
    watch: &mut T,
) -> DriveEnd
    ensures goes { (before : DrivenState) → Represents the_names manager.old before
        → GoesAgain 0 Again turns before manager.new result
        (both (A.counts_of ipmb.old) (B.counts_of smbus.old))
        (both (A.counts_of ipmb.new) (B.counts_of smbus.new)) }
    ensures seen { RunCourse T.sees A.Link B.Link Again manager.old manager.new
        (links ipmb.old smbus.old) (links ipmb.new smbus.new) (permit_at result)
        watch.old watch.new }
{
    match manager.again() {
        Ok(first) => drive_observed(manager, first, ipmb, smbus, turns, watch),
        Err(WrongPhase) => Ok(manager.phase()),
    }
}
