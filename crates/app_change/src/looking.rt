//! How the records of a plan's steps are looked at, and how a call ends whose look failed.
ghost use Rattle.std.specs.Prelude.{◌≡◌};
ghost use Rattle.app_change.specs.Looks.{status_unlooked, way_of};

use app_apply::Reach;
use app_base::Status;
use app_look::{LookFault, OpenFault, StopFault, Way};
use undo_plans::Plan;

/// How the records of a plan are looked at.
pub(crate) fn way_of(plan: &Plan, reach: &Reach) -> Way
    ensures { result ≡ way_of plan.now reach.now }
{
    Way {
        ipmb_port: reach.ipmb_port,
        smbus_port: reach.smbus_port.unwrap_or(0),
        wait_ms: reach.wait_ms,
        retries: plan.retries,
        again: reach.again,
    }
}

/// How a call ends whose look failed, unless memory was refused.
pub(crate) fn status_unlooked(why: &LookFault) -> Option<Status>
    ensures { result ≡ status_unlooked why.now }
{
    match why {
        LookFault::Unopened(OpenFault::Memory) | LookFault::Stopped(StopFault::Memory) => None,
        LookFault::Unopened(OpenFault::NoLink) => Some(Status::Stopped),
        LookFault::Unopened(OpenFault::Ungreeted(_)) => Some(Status::Unsettled),
        LookFault::Stopped(StopFault::Silent(_)) => Some(Status::Unsettled),
    }
}
