//! A link over UDP whose wait for a frame ends once a bell rings.
ghost use Rattle.std.specs.Prelude.{◌≡◌, IfOk};
ghost use Rattle.wire_links.specs.Counted.{none_counted};

use bmc_ports::{Counts, Heard, Link, LinkFault, UdpLink};
use std::net::Net;
use std::sync::atomic::{AtomicBool, Ordering};
use std::time::{Clock, Duration, Instant};
use two_wire::Frame;

/// How long a link waits before it looks whether the bell rang, in milliseconds.
const NAP_MS: u32 = 10;

/// A link over UDP that waits for a frame in naps, and looks at a bell behind each. A call of `next` waits as long as it's asked, or until the
/// bell rings: then it answers that none came. What comes meanwhile waits in the socket.
#[derive(Drop)]
pub(crate) struct WakefulLink<'a, R: Clock> {
    rt: &'a R,
    bell: &'a AtomicBool,
    link: UdpLink,
    /// How many milliseconds a call of `next` waits for a frame.
    wait_ms: u32,
    /// How many naps it makes at most, where the clock can't be read.
    naps: u32,
    /// By how much the last wait was too long, if no frame came in it.
    over: Duration,
    counts: Counts,
}

impl<'a, R: Clock> WakefulLink<'a, R> {
    /// A link at this port, or at a free one for port 0, whose wait is so many milliseconds, from 1 on.
    pub fn bind(rt: &'a R, bell: &'a AtomicBool, port: u16, wait_ms: u32) -> Result<Self, LinkFault>
    where
        R: Net,
        ensures counts { IfOk result (λ link. link.counts ≡ none_counted) }
        ensures port { IfOk result (λ link. link.link.named ≡ port) }
        ensures wait { IfOk result (λ link. link.wait_ms ≡ wait_ms) }
    {
        match UdpLink::bind(rt, port, wait_ms.min(NAP_MS)) {
            Ok(link) => Ok(WakefulLink {
                rt,
                bell,
                link,
                wait_ms,
                naps: wait_ms / NAP_MS,
                over: Duration::from_millis(0),
                counts: Counts::NONE,
            }),
            Err(why) => Err(why),
        }
    }

    /// The port at which it hears.
    pub fn port(&self) -> Result<u16, LinkFault> {
        self.link.port()
    }

    /// Whether a wait that began then is over by the clock; then its excess is noted.
    fn has_waited(&mut self, start: Option<Instant>) -> bool
        ensures counts { self.new.counts ≡ self.old.counts }
        ensures link { self.new.link ≡ self.old.link }
        ensures wait { self.new.wait_ms ≡ self.old.wait_ms }
    {
        let asked = Duration::from_millis(u64::from(self.wait_ms));
        let wait = asked.saturating_sub(self.over);
        let Some(passed) = passed_since(self.rt, start) else {
            return false;
        };
        if passed < wait {
            return false;
        }
        self.over = passed.saturating_sub(wait);
        true
    }

    /// The next frame, or none where the wait is over or the bell rang.
    fn hear(&mut self) -> Result<Heard, LinkFault>
        ensures counts { self.new.counts ≡ self.old.counts }
        ensures port { self.new.link.named ≡ self.old.link.named }
        ensures wait { self.new.wait_ms ≡ self.old.wait_ms }
    {
        let start = Instant::now(self.rt).ok();
        for _ in 0..self.naps {
            match self.link.next() {
                Ok(Heard::Quiet) => {}
                answer => {
                    self.over = Duration::from_millis(0);
                    return answer;
                }
            }
            if self.bell.load(Ordering::SeqCst) || self.has_waited(start) {
                return Ok(Heard::Quiet);
            }
        }
        self.link.next()
    }
}

/// How long ago that was, where the clock can be read.
fn passed_since<R: Clock>(rt: &R, start: Option<Instant>) -> Option<Duration> {
    start?.elapsed(rt).ok()
}

impl<R: Clock> Link for WakefulLink<'_, R> {
    ghost use Rattle.std.specs.Prelude.{◌≡◌};

    ghost counts_of = { λ link. link.counts };

    ghost gives = { λ link answer after. (after.link.named ≡ link.link.named)
        × (after.wait_ms ≡ link.wait_ms) };

    ghost takes = { λ link frame answer after. (after.link.named ≡ link.link.named)
        × (after.wait_ms ≡ link.wait_ms) };

    fn next(&mut self) -> Result<Heard, LinkFault> {
        let answer = self.hear();
        self.counts.count_next(&answer);
        answer
    }

    fn send(&mut self, frame: &Frame) -> Result<(), LinkFault> {
        let answer = self.link.send(frame);
        self.counts.count_send(&answer);
        answer
    }

    fn counts(&self) -> Counts {
        self.counts
    }
}
