//! A link whose other end is a port over a board, and a link of which one call fails.
ghost use Rattle.std.specs.Prelude.{◌≡◌};

use bmc_board::{Board, Records};
use bmc_core::{At, Out, Port};
use cfg_records::sample_board;
use mctp_net::EndpointId;
use std::alloc::Global;
use std::process::Abort;
use two_wire::{Address, Bus, Frame};
use wire_links::{Counts, Heard, Link, LinkFault};

/// The sample board.
pub(crate) fn open_sample(rt: &impl Abort, alloc: Global) -> Board<Records> {
    let file = sample_board(alloc).expect(rt, "memory");
    Board::of_file(alloc, file).expect(rt, "memory")
}

/// A port of the controller at its address on this bus.
pub(crate) fn port_on(rt: &impl Abort, alloc: Global, bus: Bus) -> Port {
    let at = At {
        wire: Address::new(0x20).unwrap(),
        eid: EndpointId::new(0x0A).unwrap(),
    };
    Port::new(alloc, bus, at).expect(rt, "memory")
}

/// A link of which one call fails, and does nothing else.
#[derive(Drop)]
pub(crate) struct Faulty<L> {
    pub link: L,
    made: u32,
    failing_call: u32,
    counts: Counts,
}

impl<L: Drop> Faulty<L> {
    /// This link, whose call of this number fails, counted from 1.
    pub fn new(link: L, failing_call: u32) -> Self {
        Faulty {
            link,
            made: 0,
            failing_call,
            counts: Counts::NONE,
        }
    }
}

impl<L: Link> Link for Faulty<L> {
    ghost counts_of = { λ link. link.counts };

    // It states nothing of what its calls may give and take.
    ghost gives = { λ link answer after. Unit {0} };

    ghost takes = { λ link frame answer after. Unit {0} };

    fn next(&mut self) -> Result<Heard, LinkFault> {
        self.made = self.made.wrapping_add(1);
        let answer = if self.made == self.failing_call {
            Err(LinkFault::Failed)
        } else {
            self.link.next()
        };
        self.counts.count_next(&answer);
        answer
    }

    fn send(&mut self, frame: &Frame) -> Result<(), LinkFault> {
        self.made = self.made.wrapping_add(1);
        let answer = if self.made == self.failing_call {
            Err(LinkFault::Failed)
        } else {
            self.link.send(frame)
        };
        self.counts.count_send(&answer);
        answer
    }

    fn counts(&self) -> Counts {
        self.counts
    }
}

/// A link that gives each frame that is sent to a port over a board, and hands out the replies in their order.
#[derive(Drop)]
pub(crate) struct Wired {
    pub board: Board<Records>,
    port: Port,
    out: Out,
    replies: Vec<Frame>,
    handed_out: usize,
    counts: Counts,
}

impl Wired {
    /// A link to the sample board's port on this bus.
    pub fn new(rt: &impl Abort, alloc: Global, bus: Bus) -> Wired {
        Wired {
            board: open_sample(rt, alloc),
            port: port_on(rt, alloc, bus),
            out: Out::new(),
            replies: Vec::new(alloc),
            handed_out: 0,
            counts: Counts::NONE,
        }
    }

    fn tell(&mut self, bytes: &[u8]) -> Result<(), LinkFault>
        ensures { self.new.counts ≡ self.old.counts }
    {
        self.port.on_frame(&mut self.board, bytes, &mut self.out);
        for frame in self.out.frames.as_slice() {
            if self.replies.push(frame.copy()).is_err() {
                return Err(LinkFault::Failed);
            }
        }
        Ok(())
    }
}

impl Link for Wired {
    ghost counts_of = { λ link. link.counts };

    // It states nothing of what its calls may give and take.
    ghost gives = { λ link answer after. Unit {0} };

    ghost takes = { λ link frame answer after. Unit {0} };

    fn next(&mut self) -> Result<Heard, LinkFault> {
        let answer = match self.replies.get(self.handed_out) {
            Some(frame) => {
                self.handed_out += 1;
                Ok(Heard::Frame(frame.copy()))
            }
            None => Ok(Heard::Quiet),
        };
        self.counts.count_next(&answer);
        answer
    }

    fn send(&mut self, frame: &Frame) -> Result<(), LinkFault> {
        let answer = self.tell(frame.as_slice());
        self.counts.count_send(&answer);
        answer
    }

    fn counts(&self) -> Counts {
        self.counts
    }
}
