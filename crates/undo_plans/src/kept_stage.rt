//! How far a manager is, as its journal says.
use model_undo::Why;
use two_wire::Code;

/// How many of a manager's requests were answered on each bus, from its first one on. Counted from 0, that is the number of the open
/// request, or of the next where none is open.
#[derive(Clone, Copy, Debug, PartialEq, Eq)]
pub struct Counts {
    pub ipmb: u16,
    pub smbus: u16,
}

/// A task of a manager. Steps count from 0.
#[derive(Clone, Copy, Debug, PartialEq, Eq)]
pub enum KeptTask {
    /// The manager gets the record that the step changes.
    Get(usize),
    /// The manager carries the step out. The request that undoes it waits.
    Set(usize),
    /// The manager undoes the step.
    Undo(usize),
}

/// How far a manager is. Nothing tells whether its open request is heeded: once it is made again, none is.
#[derive(Clone, Copy, Debug, PartialEq, Eq)]
pub enum KeptStage {
    /// The plan wasn't begun.
    Fresh,
    /// A task's request is open: the one of the place `part`, counted from 0, among the requests of the task. Those before it were answered.
    Open { task: KeptTask, part: u8 },
    Done,
    /// The plan halted after so many acknowledged steps.
    Halted(usize, Why),
    Undone,
    /// The controller refused the request that undoes the step with this code.
    UndoRefused(usize, Code),
}
