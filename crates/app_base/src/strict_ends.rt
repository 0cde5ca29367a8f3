//! How a run ends strictly.
ghost use Rattle.std.specs.Prelude.{◌≡◌};
ghost use Rattle.app_base.specs.Statuses.{end_status, halts, records_status, strict_status};

use crate::status::Status;
use model_undo::Phase;

/// How a run ends strictly whose manager was called to run its plan or to undo it, and is in this phase at its end. It is well where the manager
/// did so. A manager that is still at a step waits for a reply, and so does one that began nothing, since its greeting was not answered.
pub fn strict_status(phase: Phase) -> Status
    ensures { result ≡ strict_status phase }
{
    match phase {
        Phase::Done | Phase::Undone => Status::Success,
        Phase::Halted(_, _) => Status::Halted,
        Phase::UndoRefused(_, _) => Status::UndoRefused,
        Phase::Unsettled(_)
        | Phase::Getting(_)
        | Phase::Setting(_)
        | Phase::Undoing(_)
        | Phase::Fresh => Status::Unsettled,
    }
}

/// Whether a plan halted in this phase.
pub fn halts(phase: Phase) -> bool
    ensures { result ≡ halts phase }
{
    matches!(phase, Phase::Halted(_, _))
}

/// How a run ends strictly at whose end so many records have another value than they began with.
pub fn records_status(changed: usize) -> Status
    ensures { result ≡ records_status changed }
{
    match changed {
        0 => Status::Success,
        _ => Status::RecordsChanged,
    }
}

/// How a run ends strictly that tells in which phase its manager is, whether its plan halted before it was undone, and how many records have
/// another value than they began with: none has once all is undone, nor where no plan began.
pub fn end_status(phase: Phase, halted: bool, changed: usize) -> Status
    ensures { result ≡ end_status phase halted changed }
{
    match phase {
        Phase::Undone if halted && changed == 0 => Status::Halted,
        Phase::Undone | Phase::Fresh => records_status(changed),
        other => strict_status(other),
    }
}
