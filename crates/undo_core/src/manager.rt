//! A manager.
ghost use Rattle.std.specs.Prelude.{◌+◌, ◌≤◌, ◌<◌, length};
ghost use Rattle.undo_core.specs.Bounds.{steps_needed, undone_needed, most_backs, replies_left, most_replies, steps_ahead, parts_at, most_replied};
ghost use Rattle.undo_plans.specs.Fitting.{most_requests};
ghost use Rattle.undo_core.specs.Room.{HasRoom};
ghost use Rattle.undo_core.specs.Stages.{kept_stage};
ghost use Rattle.undo_core.specs.Placed.{IsPlaced, IsUnsent};
ghost use Rattle.undo_core.specs.PlacedLaws.{IsPlaced-prop, IsUnsent-prop};

use crate::joining::JoinedReplies;
use crate::sending::Counts;
use crate::stage::Stage;
use mctp_net::Assembler;
use two_wire::Retries;
use undo_plans::{Names, Steps, UndoList};

/// Why no manager of a plan is made.
#[derive(Clone, Copy, Debug, PartialEq, Eq)]
pub enum OpenFault {
    /// Memory was refused.
    Memory,
    /// The retries are above `MOST_RETRIES`.
    Retries,
}

/// Why no manager is made that goes on from a list.
#[derive(Clone, Copy, Debug, PartialEq, Eq)]
pub enum ResumeFault {
    /// Memory was refused.
    Memory,
    /// The retries are above `MOST_RETRIES`.
    Retries,
    /// The list has names, and they aren't those that were given.
    OtherNames,
}

/// A manager that runs a plan on the records of one controller, and takes it back. All its memory is taken when it is made.
pub struct Manager {
    pub(crate) steps: Steps,
    pub(crate) retries: Retries,
    pub(crate) names: Names,
    pub(crate) stage: Stage,
    /// The manager is to stop before the next step, or before the Set of this one.
    pub(crate) stopped: bool,
    /// How often the open request's frames were sent again, since it was opened or heeded again.
    pub(crate) resent: u8,
    pub(crate) undo: UndoList,
    pub(crate) counts: Counts,
    /// The packets that wait.
    pub(crate) joined: Assembler,
    /// What the replies to the open Get show so far, where it goes in parts.
    pub(crate) replies: JoinedReplies,
    ghost planned: { steps_needed stage ≤ length steps },
    ghost kept: { undone_needed stage ≤ length undo.requests.members },
    ghost few: { length undo.requests.members ≤ most_backs stage },
    ghost counted: { counts.ipmb + counts.smbus
        + replies_left (length steps) (length undo.requests.members) stage ≤ most_replies },
    ghost roomy: { HasRoom (steps_ahead steps stage) undo.requests },
    ghost parted: { parts_at stage < most_requests },
    ghost filled: { length replies ≤ most_replied stage },
    ghost placed: { IsPlaced steps undo.requests stage } by { IsPlaced-prop steps undo.requests stage },
    ghost unsent: { IsUnsent (kept_stage stage) resent } by { IsUnsent-prop (kept_stage stage) resent },
}

// Written out: the crates above would prove a derived one anew.
impl Drop for Manager {
    fn drop(self) {
        let Manager {
            steps,
            retries: _,
            names: _,
            stage: _,
            stopped: _,
            resent: _,
            undo,
            counts: _,
            joined,
            replies,
        } = self;
        drop(steps);
        drop(undo);
        drop(joined);
        drop(replies);
    }
}
