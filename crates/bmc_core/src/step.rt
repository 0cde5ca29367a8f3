//! What comes of what a port heard, apart from the board.

/// What is to be done next.
#[derive(Drop)]
pub enum Step<P> {
    /// A request is to be carried out. The caller gives this back with the answer. Where it is dropped, the request
    /// counts as not carried out.
    Ask(P),
    /// Nothing. The caller's `Out` says what was done.
    Done,
}

/// What came of bytes that a port heard with a carrier beside it. The caller's `Out` says what the port did.
#[derive(Clone, Copy, PartialEq, Eq)]
pub enum ServeOutcome {
    /// The bytes were a new request, and the carrier carried it out.
    CarriedOut,
    /// The bytes asked nothing of the carrier.
    NothingAsked,
}
