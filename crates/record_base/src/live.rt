//! The state of a board that isn't configuration.
ghost use Rattle.std.specs.Prelude.{◌≡◌};
ghost use Rattle.record_base.specs.Opening.{opening};

use two_wire::Below;

/// The state that a board shows beside its records, and that operations may change beside them.
#[derive(Clone, Copy)]
pub struct Live {
    /// Bits 4:0 of the chassis status (IPMI 2.0).
    pub chassis: Below<32>,
    /// The rest of the watchdog's countdown, in 100 ms.
    pub countdown: u16,
    /// The expiration flags of the watchdog, by their bits (IPMI 2.0).
    pub expired: u8,
    /// Whether the watchdog timer runs.
    pub running: bool,
    /// Which users are enabled: bit i for the user of number i.
    pub enabled_users: u64,
}

impl Live {
    /// The state in which a board begins: no chassis bit, a stopped watchdog without flags and at 0, and no user enabled.
    pub fn opening() -> Live
        ensures { result ≡ opening }
    {
        Live {
            chassis: Below::new(0),
            countdown: 0,
            expired: 0,
            running: false,
            enabled_users: 0,
        }
    }
}
