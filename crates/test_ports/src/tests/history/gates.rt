//! Gates that hold workers.
use bmc_ports::Gate;
use std::sync::atomic::{AtomicU64, Ordering};
use std::thread;

/// The most often that a worker looks for another.
const MOST_YIELDS: u32 = 10_000_000;

/// Waits until the number is so large, and gives whether it became so.
pub(crate) fn wait_for(number: &AtomicU64, least: u64) -> bool {
    for _ in 0..MOST_YIELDS {
        if number.load(Ordering::SeqCst) >= least {
            return true;
        }
        thread::yield_now();
    }
    false
}

/// A gate that holds nobody.
#[derive(Drop)]
pub(crate) struct Open;

impl Gate for Open {
    fn pass(&self, _port: u8, _n: u64) {}
}

/// Port 0 makes its first exchange only once port 1 sent its first reply, and port 1 goes on only once port 0 is there.
#[derive(Drop)]
pub(crate) struct Crossed {
    /// How often port 0 came to its first exchange.
    first_came: AtomicU64,
    /// How often port 1 sent its first reply.
    second_sent: AtomicU64,
    /// How often a worker waited in vain.
    gave_up: AtomicU64,
}

impl Crossed {
    pub fn new() -> Crossed {
        Crossed {
            first_came: AtomicU64::new(0),
            second_sent: AtomicU64::new(0),
            gave_up: AtomicU64::new(0),
        }
    }

    /// How often a worker waited in vain.
    pub fn gave_up(&self) -> u64 {
        self.gave_up.load(Ordering::SeqCst)
    }

    /// Says that one worker is there, and waits for the other.
    fn meet(&self, own: &AtomicU64, other: &AtomicU64) {
        own.store(1, Ordering::SeqCst);
        if !wait_for(other, 1) {
            self.gave_up.store(1, Ordering::SeqCst);
        }
    }
}

impl Gate for Crossed {
    fn pass(&self, port: u8, n: u64) {
        if port == 0 && n == 0 {
            self.meet(&self.first_came, &self.second_sent);
        } else if port == 1 && n == 1 {
            self.meet(&self.second_sent, &self.first_came);
        }
    }
}

/// A gate that holds each worker for a while that its seed gives.
#[derive(Drop)]
pub(crate) struct Mixed {
    pub seed: u64,
}

impl Gate for Mixed {
    fn pass(&self, port: u8, n: u64) {
        let place = n.wrapping_mul(2).wrapping_add(port as u64);
        let mixed = self
            .seed
            .wrapping_add(place)
            .wrapping_mul(0x9E37_79B9_7F4A_7C15);
        for _ in 0..(mixed >> 58) {
            thread::yield_now();
        }
    }
}

/// What `passed` is once a worker's numbers didn't come one after another, from 0 on.
const OUT_OF_ORDER: u64 = u64::MAX;

/// A gate that counts how often one worker passes it.
#[derive(Drop)]
pub(crate) struct Counted {
    passed: AtomicU64,
}

impl Counted {
    pub fn new() -> Counted {
        Counted {
            passed: AtomicU64::new(0),
        }
    }

    /// How often it was passed, where the worker's numbers came one after another, from 0 on.
    pub fn passed(&self) -> u64 {
        self.passed.load(Ordering::SeqCst)
    }
}

impl Gate for Counted {
    fn pass(&self, _port: u8, n: u64) {
        let next = if self.passed() == n {
            n.wrapping_add(1)
        } else {
            OUT_OF_ORDER
        };
        self.passed.store(next, Ordering::SeqCst);
    }
}
