//! What a link is.
use two_wire::Frame;

/// What `next` answers.
#[derive(PartialEq, Eq, Drop)]
pub enum Heard {
    /// A frame came, which may be no frame of any bus.
    Frame(Frame),
    /// None came.
    Quiet,
}

/// Why a call of a link failed. What the link was to send, or would have heard, is lost.
#[derive(Clone, Copy, Debug, PartialEq, Eq)]
pub enum LinkFault {
    /// Nobody is at the other end: nobody was heard to whom to send, or the system refused the frame, since no program has its port.
    NobodyThere,
    /// The link failed in another way.
    Failed,
}

/// What a link has counted, each from 0 on, and from the last value to 0 again.
#[derive(Clone, Copy, Debug, PartialEq, Eq)]
pub struct Counts {
    /// Calls that failed.
    pub failures: u64,
    /// Calls of `next`.
    pub calls: u64,
    /// Frames that were heard.
    pub heard: u64,
    /// Calls of `send`.
    pub sends: u64,
}

impl Counts {
    ghost use Rattle.std.specs.Prelude.{◌≡◌};
    ghost use Rattle.wire_links.specs.Counted.{after_next, after_send};

    /// Nothing yet.
    pub const NONE: Counts = Counts {
        failures: 0,
        calls: 0,
        heard: 0,
        sends: 0,
    };

    /// What `next` leaves, where it answered so.
    pub fn count_next(&mut self, answer: &Result<Heard, LinkFault>)
        ensures { self.new ≡ after_next answer.now self.old }
    {
        self.calls = self.calls.wrapping_add(1);
        match answer {
            Ok(Heard::Frame(_)) => self.heard = self.heard.wrapping_add(1),
            Ok(Heard::Quiet) => {}
            Err(_) => self.failures = self.failures.wrapping_add(1),
        }
    }

    /// What `send` leaves, where it answered so.
    pub fn count_send(&mut self, answer: &Result<(), LinkFault>)
        ensures { self.new ≡ after_send answer.now self.old }
    {
        self.sends = self.sends.wrapping_add(1);
        if answer.is_err() {
            self.failures = self.failures.wrapping_add(1);
        }
    }
}

/// A link: frames come over it, and go. Neither call promises that a frame comes, or arrives.
pub trait Link {
    ghost use Rattle.std.specs.Prelude.{◌≡◌, ℕ, List, Result};
    ghost use Rattle.wire_links.specs.declared.link.Counts.{Counts};
    ghost use Rattle.wire_links.specs.declared.link.Heard.{Heard};
    ghost use Rattle.wire_links.specs.declared.link.LinkFault.{LinkFault};
    ghost use Rattle.wire_links.specs.Counted.{after_next, after_send};

    /// What it has counted.
    ghost counts_of: { Self → Counts };

    /// What `next` may answer, of the link before, and the link behind it.
    ghost gives: { Self → Result Heard LinkFault → Self → Type 0 };

    /// What a frame's sending may answer, of the link before, and the link behind it.
    ghost takes: { Self → (frame : List ℕ) → Result (Unit {0}) LinkFault → Self → Type 0 };

    /// The next frame.
    fn next(&mut self) -> Result<Heard, LinkFault>
        ensures gave { gives self.old result self.new }
        ensures counted { counts_of self.new ≡ after_next result (counts_of self.old) };

    /// Sends a frame.
    fn send(&mut self, frame: &Frame) -> Result<(), LinkFault>
        ensures took { takes self.old frame.now result self.new }
        ensures counted { counts_of self.new ≡ after_send result (counts_of self.old) };

    /// What it has counted.
    fn counts(&self) -> Counts
        ensures { result ≡ counts_of self.now };
}
