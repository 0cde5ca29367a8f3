//! How many events a history may get before those who bring them are to stop.
use std::sync::atomic::{AtomicU64, Ordering};

/// How many events were brought so far, by all who bring some, and at how many they are to stop, where they are.
#[derive(Drop)]
pub(crate) struct EventRoom {
    brought: AtomicU64,
    most: Option<usize>,
}

impl EventRoom {
    /// The room of a history that has so many events.
    pub fn new(events: usize, most: Option<usize>) -> Self {
        EventRoom {
            brought: AtomicU64::new(events as u64),
            most,
        }
    }

    /// Counts so many events more. Gives whether they are to stop.
    pub fn bring(&self, more: usize) -> bool {
        let more = more as u64;
        let before = self.brought.fetch_add(more, Ordering::SeqCst);
        match self.most {
            Some(most) => most as u64 <= before.saturating_add(more),
            None => false,
        }
    }
}
