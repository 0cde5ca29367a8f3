//! How old the frames of a lab are, and which window may be forgotten.

ghost use Rattle.std.specs.Prelude.{◌≡◌};
ghost use Rattle.undo_plans.specs.declared.names.Names.{Names as NamesValue};
ghost use Rattle.model_lab.specs.ManagerSteps.{board_plans};
ghost use Rattle.lab_run.specs.Marks.{TellsLive, MarksAllReplies, TellsOpen, with_idles};

use model_bus::span;
use two_wire::Bus;
use undo_plans::Names;

/// All of a frame that tells how old it is.
#[derive(Clone, Copy)]
pub struct FrameAge {
    pub on: Bus,
    /// The manager's request that it carries, or whose frame's delivery brought it, counted from 0 on its bus.
    pub request: usize,
    /// How often the manager's window had been forgotten on the bus when it was sent.
    pub idles: usize,
}

/// What tells on a bus which frames are too old.
#[derive(Clone, Copy)]
pub struct BusAge {
    /// How many requests the manager began there.
    pub begun: usize,
    /// How often its window was forgotten there.
    pub idles: usize,
}

impl FrameAge {
    /// Whether the frame may still be delivered.
    pub fn is_live(self, known: BusAge) -> bool
        ensures { (names : NamesValue) → TellsLive (board_plans names) self known result }
    {
        known.begun.saturating_sub(self.request) <= span(self.on) && self.idles == known.idles
    }

    /// The mark of each frame that the port sends when this one comes.
    pub fn reply(self, idles: usize) -> FrameAge
        ensures value { result ≡ with_idles self idles }
        ensures marks { MarksAllReplies self idles result }
    {
        FrameAge {
            on: self.on,
            request: self.request,
            idles,
        }
    }
}

/// Whether a requester's window on a bus must be kept, where a request of the manager is open on that bus or on none: the manager's is,
/// on both buses.
pub fn is_still_open(names: &Names, on: Bus, requester: u8, opened_on: Option<Bus>) -> bool
    ensures { TellsOpen (board_plans names.now) names.now on requester opened_on result }
{
    let own = match on {
        Bus::Ipmb => names.own_address.byte(),
        Bus::Smbus => names.own_eid,
    };
    requester == own && opened_on.is_some()
}
