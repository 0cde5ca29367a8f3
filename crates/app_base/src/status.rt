//! How a run ends.

/// The status that a run ends with, as the process gives it.
#[derive(Clone, Copy, Debug, PartialEq, Eq)]
pub enum Status {
    /// The run did what was asked for: a frame was sent, or every event was played.
    Success = 0,
    /// No frame was sent.
    NotSent = 1,
    /// The words of the command line were refused.
    RefusedWords = 2,
    /// A file was refused.
    RefusedFile = 3,
    /// What was begun came to no end: an event of a schedule has a fault and isn't played, a link or a thread can't be had, or a board isn't closed.
    Stopped = 4,
    /// Memory was refused.
    Memory = 5,
    /// Writing to standard output or standard error failed.
    Output = 6,
    /// A plan halted, or a record isn't as it was.
    Halted = 10,
    /// A request is open to which no reply came, and what it did is in doubt.
    Unsettled = 11,
    /// A request that undoes was refused.
    UndoRefused = 12,
    /// Everything was undone, and a record has another value than it began with.
    RecordsChanged = 13,
}

impl From<Status> for u8 {
    ghost use Rattle.std.specs.Prelude.{◌≡◌};
    ghost use Rattle.app_base.specs.Report.{byte_of};

    ghost from_gives = { λ status byte. byte ≡ byte_of status };

    fn from(status: Status) -> u8 {
        status as u8
    }
}
