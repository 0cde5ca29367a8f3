//! How often the frames of a request are sent again.
use crate::Below;

/// The most times that the frames of a request may be sent again.
pub const MOST_RETRIES: u8 = 15;

/// What a number of retries is below.
pub const RETRIES_END: u8 = MOST_RETRIES + 1;

/// How often the frames of a request may be sent again: at most `MOST_RETRIES` times.
pub type Retries = Below<{ RETRIES_END }>;
