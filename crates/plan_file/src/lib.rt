//! The text of a plan.
#![tactic(auto)]

mod kind;
mod laws;
mod plan;
mod plan_fault;
mod step;

pub use kind::{KIND, Kind, kind_in};
pub use laws::one_plan;
pub use plan::{PLAN, read_plan};
pub use plan_fault::{NoGet, OutsidePlan, PlanFault, StepFault};
