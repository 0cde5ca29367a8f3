//! A journal that was read.
ghost use Rattle.std.specs.Prelude.{◌≡◌, IfOk, IfErr};
ghost use Rattle.undo_plans.specs.KeptManager.{IsSound};
ghost use Rattle.undo_plans.specs.KeptManagerLaws.{IsSound-prop};
ghost use Rattle.undo_plans.specs.Journals.{IsFault};

use crate::kept_stage::{Counts, KeptStage};
use crate::names::Names;
use crate::plan::Steps;
use crate::requests::Requests;

/// What is kept of a manager, as it was read.
#[derive(Drop)]
pub struct Contents {
    /// The steps of the plan.
    pub steps: Steps,
    /// How often the frames of a request may be sent again.
    pub retries: u8,
    /// The names of the manager and of its controller.
    pub names: Names,
    /// The names in its list of requests that undo, where the list tells them.
    pub listed: Option<Names>,
    pub stage: KeptStage,
    /// The plan is to stop. One that has a request open always is.
    pub stopped: bool,
    /// The requests that undo the steps that were done. The one that undoes the step whose Set is open waits behind them.
    pub requests: Requests,
    pub counts: Counts,
    /// What the replies to an open Get show so far, where it goes in parts and some came: `bios_attr` says how. Else nothing.
    pub replies: Vec<u8>,
}

/// What is kept of a manager, of which another is made again: all of it is of one manager.
#[derive(Drop)]
pub struct Journal {
    pub contents: Contents,
    pub ghost sound: { IsSound contents.steps contents.requests contents.stage contents.stopped contents.counts contents.replies.items } by { IsSound-prop contents.steps contents.requests contents.stage contents.stopped contents.counts contents.replies.items },
}

/// Why contents are no journal: the first of these that holds.
#[derive(Clone, Copy, Debug, PartialEq, Eq)]
pub enum JournalFault {
    /// With these steps and these requests that undo no manager is at this stage: the plan or the list has no such step, the task has no such
    /// request, more requests undo than steps were done, or none waits while a Set is open.
    Stage,
    /// A Get or a Set is open, and the plan isn't to stop.
    Stopped,
    /// More requests were answered than a manager has by this stage.
    Counts,
    /// There are more data of replies than the open Get has.
    Replies,
}

impl Journal {
    /// The journal of these contents.
    pub fn new(contents: Contents) -> Result<Self, JournalFault>
        ensures journal { IfOk result (λ journal. journal.contents ≡ contents) }
        ensures fault { IfErr result (λ fault. IsFault fault contents) }
    {
        let Contents {
            steps,
            requests,
            stage,
            ..
        } = &contents;
        if !stage.is_of(steps, requests) {
            return Err(JournalFault::Stage);
        }
        if !stage.is_stopped_so(contents.stopped) {
            return Err(JournalFault::Stopped);
        }
        if !stage.has_counts(steps, requests, contents.counts) {
            return Err(JournalFault::Counts);
        }
        if !stage.has_replies(contents.replies.as_slice()) {
            return Err(JournalFault::Replies);
        }
        Ok(Journal { contents })
    }
}
