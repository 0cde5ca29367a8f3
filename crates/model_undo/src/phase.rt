//! Phases of a manager.
use std::fmt::{Display, Error, Formatter, Write};
use two_wire::Code;

/// Why a plan halted.
#[derive(Clone, Copy, Debug, PartialEq, Eq)]
pub enum Why {
    /// The manager was told to stop.
    Stop,
    /// The controller refused the Set with this code.
    Refused(Code),
    /// The Get showed what can't be restored.
    NotRestorable,
    /// The controller refused the Get with this code.
    GetRefused(Code),
}

/// Where a manager is with its plan. Steps count from 0.
#[derive(Clone, Copy, Debug, PartialEq, Eq)]
pub enum Phase {
    Fresh,
    /// The manager gets the record that the step changes.
    Getting(usize),
    /// The manager carries the step out.
    Setting(usize),
    Done,
    /// The plan halted after so many acknowledged steps.
    Halted(usize, Why),
    /// The open request of the step, or of its undo, was sent as often as is allowed, and no reply is awaited.
    Unsettled(usize),
    /// The manager undoes the step.
    Undoing(usize),
    Undone,
    /// The controller refused the request that undoes the step with this code.
    UndoRefused(usize, Code),
}

impl Display for Why {
    ghost use Rattle.std.specs.Prelude.{Some};
    ghost use Rattle.model_undo.specs.PhaseNames.{why_name};

    ghost output = { λ why. Some (why_name why) };

    fn fmt<W: Write>(&self, f: &mut Formatter<W>) -> Result<(), Error> {
        match self {
            Why::Stop => f.write_str("Stop"),
            Why::Refused(code) => {
                let code = code.value();
                write!(f, "Refused {:X}{:X}", code / 16, code % 16)
            }
            Why::NotRestorable => f.write_str("NotRestorable"),
            Why::GetRefused(code) => {
                let code = code.value();
                write!(f, "GetRefused {:X}{:X}", code / 16, code % 16)
            }
        }
    }
}

impl Display for Phase {
    ghost use Rattle.std.specs.Prelude.{Some};
    ghost use Rattle.model_undo.specs.PhaseNames.{phase_name};

    ghost output = { λ phase. Some (phase_name phase) };

    fn fmt<W: Write>(&self, f: &mut Formatter<W>) -> Result<(), Error> {
        match self {
            Phase::Fresh => f.write_str("Fresh"),
            Phase::Getting(step) => write!(f, "Getting {step}"),
            Phase::Setting(step) => write!(f, "Setting {step}"),
            Phase::Done => f.write_str("Done"),
            Phase::Halted(step, why) => write!(f, "Halted {step} {why}"),
            Phase::Unsettled(step) => write!(f, "Unsettled {step}"),
            Phase::Undoing(step) => write!(f, "Undoing {step}"),
            Phase::Undone => f.write_str("Undone"),
            Phase::UndoRefused(step, code) => {
                let code = code.value();
                write!(f, "UndoRefused {step} {:X}{:X}", code / 16, code % 16)
            }
        }
    }
}
