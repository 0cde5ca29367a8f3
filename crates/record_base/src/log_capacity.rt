//! The capacity of the System Event Log.
ghost use Rattle.std.specs.Prelude.{◌≤◌};
ghost use Rattle.two_wire.specs.LogSize.{least_log_records, most_log_records};

use two_wire::log_size::{LEAST_LOG_RECORDS, MOST_LOG_RECORDS};

/// How many records the System Event Log can have: `LEAST_LOG_RECORDS` to `MOST_LOG_RECORDS`.
#[derive(Clone, Copy, Debug)]
pub struct LogCapacity {
    pub records: u16,
    ghost least: { least_log_records ≤ records },
    ghost most: { records ≤ most_log_records },
}

impl LogCapacity {
    ghost use Rattle.std.specs.Prelude.{◌≡◌, ◌≤◌, ◌↔◌, IsSome, IfSome};
    ghost use Rattle.two_wire.specs.LogSize.{least_log_records, most_log_records};

    /// Room for so many records, or nothing where a log can't have so few or so many.
    pub fn new(records: u16) -> Option<LogCapacity>
        ensures made { IsSome result
            ↔ ((least_log_records ≤ records) × (records ≤ most_log_records)) }
        ensures records { IfSome result (λ made. made.records ≡ records) }
    {
        if records < LEAST_LOG_RECORDS || records > MOST_LOG_RECORDS {
            return None;
        }
        Some(LogCapacity { records })
    }
}
