//! What happens in a lab.
ghost use Rattle.std.specs.Prelude.{◌≡◌};
ghost use Rattle.text_lines.specs.EventLine.{event_name};

use crate::octets::Octets;
use crate::schedule_cuts::call_name;
use ipmb_frame::{Party, Sequence};
use model_undo::Call;
use two_wire::size::{MOST_FRAME_BYTES, MOST_IPMI_REQUEST_DATA, MOST_MESSAGE_BYTES};
use two_wire::{Bus, Bytes, Lun, NetFn};

/// The most bytes of noise: as many as a frame has.
pub const MOST_NOISE: usize = MOST_FRAME_BYTES;

/// Somebody else's request to the controller on IPMB.
#[derive(Debug, Drop)]
pub struct OtherRequest {
    /// Who asks.
    pub requester: Party,
    /// The logical unit of the controller that is meant.
    pub responder: Lun,
    pub net_fn: NetFn,
    pub sequence: Sequence,
    pub command: u8,
    /// The command's data.
    pub body: Bytes<{ MOST_IPMI_REQUEST_DATA }>,
}

/// Somebody else's message to the controller on SMBus.
#[derive(Debug)]
pub struct OtherMessage {
    /// The endpoint from which it comes.
    pub from: u8,
    /// All bytes of the message, the type first.
    pub body: Octets<{ MOST_MESSAGE_BYTES }>,
}

// Written out: the crates above would prove a derived one anew.
impl Drop for OtherMessage {
    fn drop(self) {
        let OtherMessage { from: _, body } = self;
        drop(body);
    }
}

/// What happens on the bench: on the controller's board, beside requests.
#[derive(Clone, Copy, Debug, PartialEq, Eq)]
pub enum BenchEvent {
    /// A sensor's reading is taken.
    Scan { sensor: u8, reading: u8 },
    /// A tenth of a second goes by.
    Tick,
}

/// What can happen.
#[derive(Debug)]
pub enum Event {
    /// The manager is called.
    Calls(Call),
    /// The frame of this number comes to the controller's port.
    ToBmc(u32),
    /// The frame of this number comes to the manager.
    ToMgr(u32),
    /// Somebody else's request comes to the controller.
    OtherIpmb(OtherRequest),
    /// All packets of somebody else's message come to the controller.
    OtherSmbus(OtherMessage),
    /// Both ends hear bytes that are no frame.
    Noise(Bus, Octets<{ MOST_NOISE }>),
    /// The controller's port forgets the window of this requester.
    Idle(Bus, u8),
    /// An event happens on the bench.
    OnBench(BenchEvent),
}

// Written out: the crates above would prove a derived one anew.
impl Drop for Event {
    fn drop(self) {
        match self {
            Event::OtherSmbus(message) => drop(message),
            Event::Noise(_, bytes) => drop(bytes),
            Event::Calls(_)
            | Event::ToBmc(_)
            | Event::ToMgr(_)
            | Event::OtherIpmb(_)
            | Event::Idle(_, _)
            | Event::OnBench(_) => {}
        }
    }
}

impl Event {
    /// The first word of the line that says it.
    pub fn name(&self) -> &'static str
        ensures { result.now ≡ event_name self.now }
    {
        match self {
            Event::Calls(call) => call_name(*call),
            Event::ToBmc(_) => "to-bmc",
            Event::ToMgr(_) => "to-mgr",
            Event::OtherIpmb(_) | Event::OtherSmbus(_) => "other",
            Event::Noise(..) => "noise",
            Event::Idle(..) => "idle",
            Event::OnBench(BenchEvent::Scan { .. }) => "scan",
            Event::OnBench(BenchEvent::Tick) => "tick",
        }
    }
}
