//! What a worker passes before and after each exchange.

/// A place where a test or a measure can hold a worker.
pub trait Gate {
    /// A worker of this port calls it with 2i before its exchange i, and with 2i + 1 once that exchange's reply was sent.
    fn pass(&self, port: u8, n: u64);
}
