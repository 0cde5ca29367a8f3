//! What a Get shows behind an operation of any kind.
ghost use Rattle.std.specs.Prelude.{◌≡◌, IfOk};
ghost use Rattle.shown_records.specs.After.{after_of};

use crate::effecters::{numeric, states};
use crate::sensors::{event_enable, hysteresis, thresholds};
use crate::settings::{attribute, boot_param, global_enables, power_policy, watchdog};
use crate::users::{channel_access, lan_param, user_access, user_name};
use record_base::Op;
use std::alloc::{AllocError, Global};

/// What a Get of the operation's record shows once the operation was carried out, by what it showed before. Bytes that aren't configuration
/// are as they were shown.
pub fn shown_after(alloc: Global, op: &Op<'_>, shown: &[u8]) -> Result<Vec<u8>, AllocError>
    ensures { IfOk result (λ after. after.items ≡ after_of op.now shown.now) }
{
    match op {
        Op::Thresholds(set) => thresholds(alloc, set, shown),
        Op::Hysteresis(set) => hysteresis(alloc, set),
        Op::EventEnable(set) => event_enable(alloc, set, shown),
        Op::PowerPolicy(set) => power_policy(alloc, set, shown),
        Op::Watchdog(set) => watchdog(alloc, set, shown),
        Op::GlobalEnables(set) => global_enables(alloc, set),
        Op::BootParam(set) => boot_param(alloc, set, shown),
        Op::NumericEffecter(set) => numeric(alloc, set, shown),
        Op::StateEffecter(set) => states(alloc, set, shown),
        Op::UserName(set) => user_name(alloc, set),
        Op::UserAccess(set) => user_access(alloc, set, shown),
        Op::ChannelAccess(set) => channel_access(alloc, set, shown),
        Op::BiosAttribute(set) => attribute(alloc, set, shown),
        Op::LanParam(set) => lan_param(alloc, set, shown),
    }
}
