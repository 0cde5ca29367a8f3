//! What a step meets on a board.
use two_wire::Code;

/// What a step meets on a board.
#[derive(Drop)]
pub enum Finding {
    /// The board refuses the step's Get with this code: it lacks the record.
    GetRefused(Code),
    /// The Get shows what no Set brings back, so the step's Set isn't sent.
    NotRestorable,
    /// The board refuses the step's Set with this code.
    Refused(Code),
    /// The board carries the step out. These data are what the Get showed.
    Done(Vec<u8>),
}
