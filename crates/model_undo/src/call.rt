//! Calls of a manager.

/// What a manager is told to do.
#[derive(Clone, Copy, Debug, PartialEq, Eq)]
pub enum Call {
    /// The manager begins with its plan.
    Start,
    /// No reply came for long enough: it sends the open request again, or gives up.
    Quiet,
    /// The manager ends with the request that is open.
    Stop,
    /// The manager sends again the request with which it gave up.
    Again,
    /// The manager takes its plan back.
    Undo,
}
