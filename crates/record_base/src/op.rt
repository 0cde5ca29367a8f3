//! Changes of one record.
use crate::*;

/// A change of one record, as a request asks for it: any bytes that the request may carry. The value of an attribute lies where it came.
#[derive(Drop)]
pub enum Op<'a> {
    Thresholds(SetThresholds),
    Hysteresis(SetHysteresis),
    EventEnable(SetEventEnable),
    PowerPolicy(SetPowerPolicy),
    Watchdog(SetWatchdog),
    GlobalEnables(SetGlobalEnables),
    BootParam(SetBootParam),
    NumericEffecter(SetNumericEffecter),
    StateEffecter(SetStateEffecter),
    UserName(SetUserName),
    UserAccess(SetUserAccess),
    ChannelAccess(SetChannelAccess),
    BiosAttribute(SetBiosAttribute<'a>),
    LanParam(SetLanParam),
}
