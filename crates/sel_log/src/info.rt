//! What is told of the log.

/// What Get SEL Info tells.
#[derive(Clone, Copy)]
pub struct Info {
    /// How many records the log has.
    pub count: u16,
    /// How many bytes the records could still take.
    pub free_bytes: u16,
    /// When the last record was added, in seconds; a clear leaves it.
    pub last_add: u32,
    /// When the log was last cleared, in seconds.
    pub last_clear: u32,
    /// Whether a record was refused since the log was cleared.
    pub overflow: bool,
}
