//! What happens on a board beside requests.
use two_wire::Below;

/// What happens on a board.
#[derive(Clone, Copy, Debug, PartialEq, Eq)]
pub enum Bench {
    /// The sensor of this number gives this raw reading.
    Reading { sensor: u8, raw: u8 },
    /// A tenth of a second passes.
    Tick,
    /// Bits 4:0 of the chassis status (IPMI 2.0) become these.
    Chassis(Below<32>),
}

/// The board has no sensor of that number.
#[derive(Clone, Copy, Debug, PartialEq, Eq)]
pub struct NoSensor;
