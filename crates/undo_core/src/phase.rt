//! What a call gives in a phase that isn't one for it.

/// The phase isn't one for the call, which changed nothing.
#[derive(Clone, Copy, Debug, PartialEq, Eq)]
pub struct WrongPhase;
