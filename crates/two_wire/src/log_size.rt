//! How many records a System Event Log can have.
ghost use Rattle.std.specs.Prelude.{◌≡◌};
ghost use Rattle.two_wire.specs.LogSize.{least_log_records, most_log_records};

/// At least so many.
pub const LEAST_LOG_RECORDS: u16 = 1;

/// At most so many.
pub const MOST_LOG_RECORDS: u16 = 1_024;

/// Each constant is the definition of its name.
pub fn log_sizes_are_the_definitions()
    ensures least { LEAST_LOG_RECORDS ≡ least_log_records }
    ensures most { MOST_LOG_RECORDS ≡ most_log_records }
{}
