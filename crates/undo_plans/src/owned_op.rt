//! Operations as a plan keeps them.
ghost use Rattle.std.specs.Prelude.{◌≡◌, ◌≤◌, [], length};
ghost use Rattle.record_base.specs.AttributeSizes.{most_sent};
ghost use Rattle.undo_plans.specs.Kept.{value_of, kept_op, IsAmong, KeepsOp};

use record_base::*;

/// The operation on an attribute, but for the value that it gives: that lies elsewhere, from a place on.
#[derive(Drop)]
pub struct KeptAttribute {
    pub attribute: u16,
    pub attribute_type: u8,
    pub from: usize,
    pub count: usize,
}

/// An operation as a plan keeps it. It borrows nothing.
#[derive(Drop)]
pub enum OwnedOp {
    Thresholds(SetThresholds),
    Hysteresis(SetHysteresis),
    EventEnable(SetEventEnable),
    PowerPolicy(SetPowerPolicy),
    Watchdog(SetWatchdog),
    GlobalEnables(SetGlobalEnables),
    BootParam(SetBootParam),
    NumericEffecter(SetNumericEffecter),
    StateEffecter(SetStateEffecter),
    UserName(SetUserName),
    UserAccess(SetUserAccess),
    ChannelAccess(SetChannelAccess),
    BiosAttribute(KeptAttribute),
    LanParam(SetLanParam),
}

/// The value that the operation gives to an attribute, or no bytes.
pub(crate) fn value_of<'v>(op: &Op<'v>) -> &'v [u8]
    ensures value { result.now ≡ value_of op.now }
    ensures few { length result.now ≤ most_sent }
{
    match op {
        Op::BiosAttribute(set) => set.value.as_slice(),
        _ => &[],
    }
}

/// A copy of the change of states.
fn same_states(set: &SetStateEffecter) -> SetStateEffecter
    ensures { result ≡ set.now }
{
    SetStateEffecter {
        effecter: set.effecter,
        changes: set.changes.copy(),
    }
}

/// The same change, of one type in place of the other: a line for each kind. The value of an attribute alone lies elsewhere, so its kind
/// has an expression of its own.
macro_rules! of_each_kind {
    ($any:expr, $from:ident to $to:ident, $attribute:ident => $made:expr) => {
        match $any {
            $from::Thresholds(set) => $to::Thresholds(*set),
            $from::Hysteresis(set) => $to::Hysteresis(*set),
            $from::EventEnable(set) => $to::EventEnable(*set),
            $from::PowerPolicy(set) => $to::PowerPolicy(*set),
            $from::Watchdog(set) => $to::Watchdog(*set),
            $from::GlobalEnables(set) => $to::GlobalEnables(*set),
            $from::BootParam(set) => $to::BootParam(*set),
            $from::NumericEffecter(set) => $to::NumericEffecter(*set),
            $from::StateEffecter(set) => $to::StateEffecter(same_states(set)),
            $from::UserName(set) => $to::UserName(*set),
            $from::UserAccess(set) => $to::UserAccess(*set),
            $from::ChannelAccess(set) => $to::ChannelAccess(*set),
            $from::BiosAttribute($attribute) => $made,
            $from::LanParam(set) => $to::LanParam(*set),
        }
    };
}

impl OwnedOp {
    /// How an operation is kept, where the value that it gives to an attribute lies from this place on.
    pub(crate) fn of(op: &Op<'_>, from: usize) -> Self
        ensures { KeepsOp from op.now result }
    {
        of_each_kind!(op, Op to OwnedOp, set => OwnedOp::BiosAttribute(KeptAttribute {
            attribute: set.attribute,
            attribute_type: set.attribute_type,
            from,
            count: set.value.as_slice().len(),
        }))
    }

    /// The operation. The value that it gives to an attribute lies among these bytes.
    pub(crate) fn op<'v>(&self, values: &'v [u8]) -> Op<'v>
        requires { IsAmong values.now self.now }
        ensures { result ≡ kept_op values.now self.now }
    {
        of_each_kind!(self, OwnedOp to Op, kept => {
            let value = &values[kept.from..kept.from + kept.count];
            Op::BiosAttribute(SetBiosAttribute::of(kept.attribute, kept.attribute_type, value))
        })
    }
}
