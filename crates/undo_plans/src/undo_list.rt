//! The list that undoes a plan.
use crate::names::Names;
use crate::requests::Requests;
use ipmb_frame::Sequence;
use pldm_base::Instance;

/// Under which numbers the next requests go.
#[derive(Clone, Copy, Debug, PartialEq, Eq)]
pub struct NextNumbers {
    /// The sequence number of the next request on IPMB.
    pub ipmb: Sequence,
    /// The instance of the next request on SMBus.
    pub smbus: Instance,
}

/// The requests that undo the steps that were done, the numbers of the next requests, and between whom they go.
#[derive(Drop)]
pub struct UndoList {
    /// The requests, which are sent from the last to the first.
    pub requests: Requests,
    pub next: NextNumbers,
    /// The names of the manager that did the steps, and of its controller, where the list tells them.
    pub names: Option<Names>,
}
