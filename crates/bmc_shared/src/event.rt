//! What a history has.
use bmc_board::{Bench, NoSensor};
use record_base::{Answered, Asked};

/// What was asked of a board, and what it answered.
#[derive(Debug, PartialEq, Eq, Drop)]
pub enum Call {
    /// A request, with its reply.
    Exchanged {
        asked: Asked,
        answered: Answered,
    },
    /// What happens beside requests, with the board's answer.
    Benched {
        bench: Bench,
        answered: Result<(), NoSensor>,
    },
}

impl Call {
    ghost use Rattle.std.specs.Prelude.{◌≡◌, ◌↔◌, IsTrue};

    /// Whether it is that call.
    pub fn is(&self, other: &Call) -> bool
        ensures { IsTrue result ↔ (self.now ≡ other.now) }
    {
        self == other
    }
}

/// A call, and the number of the seat that made it.
#[derive(Debug, PartialEq, Eq, Drop)]
pub struct Event {
    pub seat: u8,
    pub call: Call,
}
