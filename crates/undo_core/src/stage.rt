//! How far a manager is.
ghost use Rattle.std.specs.Prelude.{◌≡◌, ◌⊎◌, ℕ, true, false, IfSome, IsSome};
ghost use Rattle.undo_core.specs.declared.stage.Stage.TheVariants.{AtEnd as IsAtEnd, AtHalt as IsAtHalt};
ghost use Rattle.model_undo.specs.declared.phase.Why.{Why as AnyWhy};
ghost use Rattle.model_undo.specs.Machine as machine;
ghost use Rattle.undo_core.specs.Shown.{words_of, ForTask, ForStage};
ghost use Rattle.undo_core.specs.Stages.{IsOpen, ForOpen, IsHeededOn, ForHeededOn, IsHalted, kept_task, kept_stage};

use crate::sending::bus_of;
use crate::{Phase, Why};
use cfg_records::Asked;
use two_wire::{Bus, Code};
use undo_plans::{KeptStage, KeptTask};

/// One step of the way there or back.
#[derive(Clone, Copy)]
pub enum Task {
    /// The manager gets the record that the step changes.
    Gets(usize),
    /// The manager carries the step out. The request that undoes it waits.
    Sets(usize),
    /// The manager undoes the step.
    Undoes(usize),
}

/// How far a manager is.
#[derive(Drop)]
pub enum Stage {
    AtStart,
    /// A task's request is open, after so many others of the task that were answered. Where it isn't heeded, no reply to it is taken.
    Opened {
        heeded: bool,
        task: Task,
        parts: u8,
        asked: Asked,
    },
    AtEnd,
    AtHalt(usize, Why),
    AtUndone,
    AtRefused(usize, Code),
}

impl Task {
    /// The step that it is about.
    fn step(&self) -> usize
        ensures { ForTask self.now (λ names of. result ≡ machine.task_step (words_of names) of) }
    {
        match self {
            Task::Gets(step) | Task::Sets(step) | Task::Undoes(step) => *step,
        }
    }

    /// The phase while its request is heeded.
    fn phase(&self) -> Phase
        ensures { ForTask self.now (λ names of.
            result ≡ machine.task_phase (words_of names) of) }
    {
        match self {
            Task::Gets(step) => Phase::Getting(*step),
            Task::Sets(step) => Phase::Setting(*step),
            Task::Undoes(step) => Phase::Undoing(*step),
        }
    }

    /// The task as a journal has it.
    fn kept(&self) -> KeptTask
        ensures { result ≡ kept_task self.now }
    {
        match self {
            Task::Gets(step) => KeptTask::Get(*step),
            Task::Sets(step) => KeptTask::Set(*step),
            Task::Undoes(step) => KeptTask::Undo(*step),
        }
    }
}

impl Stage {
    /// The phase.
    pub fn phase(&self) -> Phase
        ensures { ForStage self.now (λ names at. result ≡ machine.phase_at (words_of names) at) }
    {
        match self {
            Stage::AtStart => Phase::Fresh,
            Stage::Opened {
                heeded: true,
                task,
                ..
            } => task.phase(),
            Stage::Opened {
                heeded: false,
                task,
                ..
            } => Phase::Unsettled(task.step()),
            Stage::AtEnd => Phase::Done,
            Stage::AtHalt(step, why) => Phase::Halted(*step, *why),
            Stage::AtUndone => Phase::Undone,
            Stage::AtRefused(step, code) => Phase::UndoRefused(*step, *code),
        }
    }

    /// The stage as a journal has it.
    pub(crate) fn kept(&self) -> KeptStage
        ensures { result ≡ kept_stage self.now }
    {
        match self {
            Stage::AtStart => KeptStage::Fresh,
            Stage::Opened { task, parts, .. } => KeptStage::Open {
                task: task.kept(),
                part: *parts,
            },
            Stage::AtEnd => KeptStage::Done,
            Stage::AtHalt(step, why) => KeptStage::Halted(*step, *why),
            Stage::AtUndone => KeptStage::Undone,
            Stage::AtRefused(step, code) => KeptStage::UndoRefused(*step, *code),
        }
    }

    /// Whether the plan ended or halted, so that its undo may begin.
    pub fn is_over(&self) -> bool
        ensures over { result ≡ true → (self.now ≡ IsAtEnd)
            ⊎ IsHalted self.now }
        ensures no_end { result ≡ false → self.now ≡ IsAtEnd → ⊥ }
        ensures no_halt { result ≡ false → (k : ℕ) (why : AnyWhy)
            → self.now ≡ IsAtHalt k why → ⊥ }
    {
        match self {
            Stage::AtEnd | Stage::AtHalt(_, _) => true,
            _ => false,
        }
    }

    /// The open request.
    pub fn open(&self) -> Option<&Asked>
        ensures some { IfSome result (λ asked. IsOpen self.now asked.now) }
        ensures none { ForOpen self.now (λ _. IsSome result) }
    {
        match self {
            Stage::Opened { asked, .. } => Some(asked),
            _ => None,
        }
    }

    /// The open request, where it is heeded and goes on this bus.
    pub fn heeded_on(&self, bus: Bus) -> Option<&Asked>
        ensures some { IfSome result (λ asked. IsHeededOn bus self.now asked.now) }
        ensures none { ForHeededOn bus self.now (λ _. IsSome result) }
    {
        match self {
            Stage::Opened {
                heeded: true,
                asked,
                ..
            } if bus_of(asked) == bus => Some(asked),
            _ => None,
        }
    }
}
