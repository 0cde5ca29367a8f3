//! Why a text is no plan.
use std::fmt;
use text_fields::FieldFault;

/// What no plan changes, since nothing can undo it.
#[derive(Clone, Copy, Debug)]
pub enum OutsidePlan {
    Password,
    Clock,
    Log,
}

/// What a step asks for that no Get shows, so that nothing can undo it.
#[derive(Clone, Copy, Debug)]
pub enum NoGet {
    /// A user's session limit.
    SessionLimit,
    /// The step clears expiration flags of the watchdog timer, which no Get shows.
    FlagsClear,
    /// Both stores of a channel's access at once.
    BothStores,
    /// The set-in-progress state of the boot options.
    SetInProgress,
}

/// Why a step is none.
#[derive(Clone, Copy, Debug)]
pub enum StepFault {
    OutsidePlan(OutsidePlan),
    NoGet(NoGet),
    /// The step's `kind` names no kind of step.
    UnknownKind,
    Field(FieldFault),
}

/// Why a text is no plan.
#[derive(Clone, Copy, Debug)]
pub enum PlanFault {
    /// Memory ran out.
    Memory,
    /// The text isn't TOML 1.1.
    Text,
    /// A field of the plan's own.
    Field(FieldFault),
    /// There are more steps than a plan can have.
    TooMany,
    /// The step of this place in the file, from 0.
    Step(usize, StepFault),
}

impl fmt::Display for OutsidePlan {
    ghost use Rattle.std.specs.Prelude.{Some};
    ghost use Rattle.plan_file.specs.PlanNames.{outside_name};

    ghost output = { λ outside. Some (outside_name outside) };

    fn fmt<W: fmt::Write>(&self, f: &mut fmt::Formatter<W>) -> fmt::Result {
        match self {
            OutsidePlan::Password => f.write_str("Password"),
            OutsidePlan::Clock => f.write_str("Clock"),
            OutsidePlan::Log => f.write_str("Log"),
        }
    }
}

impl fmt::Display for NoGet {
    ghost use Rattle.std.specs.Prelude.{Some};
    ghost use Rattle.plan_file.specs.PlanNames.{no_get_name};

    ghost output = { λ no_get. Some (no_get_name no_get) };

    fn fmt<W: fmt::Write>(&self, f: &mut fmt::Formatter<W>) -> fmt::Result {
        match self {
            NoGet::SessionLimit => f.write_str("SessionLimit"),
            NoGet::FlagsClear => f.write_str("FlagsClear"),
            NoGet::BothStores => f.write_str("BothStores"),
            NoGet::SetInProgress => f.write_str("SetInProgress"),
        }
    }
}

impl fmt::Display for StepFault {
    ghost use Rattle.std.specs.Prelude.{Some};
    ghost use Rattle.plan_file.specs.PlanNames.{step_fault_name};

    ghost output = { λ fault. Some (step_fault_name fault) };

    fn fmt<W: fmt::Write>(&self, f: &mut fmt::Formatter<W>) -> fmt::Result {
        match self {
            StepFault::OutsidePlan(outside) => write!(f, "OutsidePlan {outside}"),
            StepFault::NoGet(no_get) => write!(f, "NoGet {no_get}"),
            StepFault::UnknownKind => f.write_str("UnknownKind"),
            StepFault::Field(fault) => write!(f, "{fault}"),
        }
    }
}

impl fmt::Display for PlanFault {
    ghost use Rattle.std.specs.Prelude.{Some};
    ghost use Rattle.plan_file.specs.PlanNames.{plan_fault_name};

    ghost output = { λ fault. Some (plan_fault_name fault) };

    fn fmt<W: fmt::Write>(&self, f: &mut fmt::Formatter<W>) -> fmt::Result {
        match self {
            PlanFault::Memory => f.write_str("Memory"),
            PlanFault::Text => f.write_str("Text"),
            PlanFault::Field(fault) => write!(f, "{fault}"),
            PlanFault::TooMany => f.write_str("TooMany"),
            PlanFault::Step(place, fault) => write!(f, "{place} {fault}"),
        }
    }
}
