//! The power restore policy, the watchdog timer, the global enables and the boot parameters, as kinds of record.
#![tactic(auto)]

pub mod boot_param;
pub mod boot_request;
pub mod global_enables;
pub mod laws;
pub mod power_policy;
pub mod watchdog;

pub use boot_param::BootParamLimits;
pub use global_enables::GlobalEnablesLimits;
pub use power_policy::PowerPolicyLimits;
pub use watchdog::WatchdogLimits;
