//! What a journal says of a manager at a stage.
ghost use Rattle.std.specs.Prelude.{◌≡◌};
ghost use Rattle.undo_plans.specs.KeptManager.{stopped_at, replies_at};

use crate::kept_stage::{KeptStage, KeptTask};

impl KeptStage {
    /// Whether the plan is to stop once the manager is made again, where it was or wasn't told to stop.
    pub fn stopped(&self, stopped: bool) -> bool
        ensures { result ≡ stopped_at self.now stopped }
    {
        match self {
            KeptStage::Open {
                task: KeptTask::Get(_) | KeptTask::Set(_),
                ..
            } => true,
            _ => stopped,
        }
    }

    /// What the replies to the open Get show so far, of which these are the data.
    pub fn replies<'a>(&self, replies: &'a [u8]) -> &'a [u8]
        ensures { result.now ≡ replies_at self.now replies.now }
    {
        match self {
            KeptStage::Open {
                task: KeptTask::Get(_),
                part,
            } if *part > 0 => replies,
            _ => &[],
        }
    }
}
