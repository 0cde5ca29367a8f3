//! What comes of `bmcnet apply` and `bmcnet revert`.
ghost use Rattle.std.specs.Prelude.{◌≡◌};
ghost use Rattle.app_apply.specs.Statuses.{status_at, status_of};

use app_base::Status;
use app_journal::{Standing, WriteFault};
use app_run::Unanswered;
use undo_core::Phase;

/// What came of a call, or why nothing was begun.
#[derive(Clone, Copy)]
pub enum Outcome {
    /// Another process holds FILE, or it can't be held.
    Held,
    /// FILE has this, so it isn't written over: something to take back, or what is no journal and no undo text.
    Occupied(Standing),
    /// FILE has nothing to take back.
    Empty,
    /// FILE can't get the journal.
    Unmade,
    /// This greeting wasn't answered, and nothing was begun behind it.
    Ungreeted(Unanswered),
    /// A link couldn't be had, and nothing was begun behind that.
    NoLink,
    /// FILE couldn't get the journal of a manager that takes back, whose frames were kept back then.
    Unkept,
    /// The manager is in this phase. Its files were kept, or one couldn't be.
    Ended(Phase, Result<(), WriteFault>),
}

/// How a call ends whose manager is in this phase, and whose files were kept or weren't.
fn status_at(phase: Phase, kept: Result<(), WriteFault>) -> Status
    ensures { result ≡ status_at phase kept }
{
    match (phase, kept) {
        (Phase::Halted(_, _), _) => Status::Halted,
        (Phase::Unsettled(_), _) => Status::Unsettled,
        (Phase::UndoRefused(_, _), _) => Status::UndoRefused,
        (_, Err(WriteFault)) => Status::RefusedFile,
        (Phase::Done | Phase::Undone, Ok(())) => Status::Success,
        (_, Ok(())) => Status::Unsettled,
    }
}

impl Outcome {
    /// How a call ends of which this came.
    pub fn status(self) -> Status
        ensures { result ≡ status_of self }
    {
        match self {
            Outcome::Held | Outcome::Occupied(_) | Outcome::Unmade | Outcome::Unkept => {
                Status::RefusedFile
            }
            Outcome::Empty => Status::Success,
            Outcome::Ungreeted(_) => Status::Unsettled,
            Outcome::NoLink => Status::Stopped,
            Outcome::Ended(phase, kept) => status_at(phase, kept),
        }
    }
}
