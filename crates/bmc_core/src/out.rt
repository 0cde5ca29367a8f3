//! What a port sends, and what it did.
ghost use Rattle.std.specs.Prelude.{◌≡◌, [], length};

use arrayvec::ArrayVec;
use ipmb_frame::FrameFault;
use mctp_net::{DropCause, PacketFault};
use pldm_base::PldmFault;
use std::fmt;
use two_wire::Frame;

/// Why a port ignored what it heard.
#[derive(Clone, Copy, Debug, PartialEq, Eq)]
pub enum Reason {
    /// The bytes are no frame of IPMB.
    Frame(FrameFault),
    /// The bytes are no packet of the System Management Bus.
    Packet(PacketFault),
    /// The frame or packet isn't to the port's address.
    NotOurs,
    /// The packet was dropped.
    Dropped(DropCause),
    /// What came is no request: an IPMB response, a message under a tag that its sender doesn't own, or a control message without reply.
    NotRequest,
    /// The message is neither a control message nor PLDM's.
    MessageType,
    /// The message is no request of PLDM.
    Pldm(PldmFault),
}

/// Writes the name of the reason, or of the fault or the cause that it holds.
impl fmt::Display for Reason {
    ghost use Rattle.std.specs.Prelude.{Some};
    ghost use Rattle.bmc_core.specs.Names.{reason_name};

    ghost output = { λ reason. Some (reason_name reason) };

    fn fmt<W: fmt::Write>(&self, f: &mut fmt::Formatter<W>) -> fmt::Result {
        match self {
            Reason::Frame(fault) => write!(f, "{fault}"),
            Reason::Packet(fault) => write!(f, "{fault}"),
            Reason::NotOurs => f.write_str("NotOurs"),
            Reason::Dropped(cause) => write!(f, "{cause}"),
            Reason::NotRequest => f.write_str("NotRequest"),
            Reason::MessageType => f.write_str("MessageType"),
            Reason::Pldm(fault) => write!(f, "{fault}"),
        }
    }
}

/// What a port did with what it heard.
#[derive(Clone, Copy, Debug, PartialEq, Eq)]
pub enum Disposition {
    /// Nothing.
    Ignored(Reason),
    /// The port took a packet, and others of its message are to come.
    Waiting,
    /// The board answered the request.
    Answered,
    /// The port gave the reply that it keeps for the request that this one repeats.
    Repeated,
    /// The port answered that it's busy: it has a window for eight other requesters.
    Busy,
    /// The port's endpoint answered a control message.
    Control,
}

/// At most four frames, in the order in which they are to be sent.
#[derive(Drop)]
pub struct Frames {
    pub(crate) list: ArrayVec<Frame, 4>,
}

impl From<ArrayVec<Frame, 4>> for Frames {
    ghost from_gives = { λ list frames. frames.list ≡ list };

    fn from(list: ArrayVec<Frame, 4>) -> Frames {
        Frames { list }
    }
}

impl Frames {
    /// No frames.
    pub fn none() -> Frames
        ensures { result.list.items ≡ [] }
    {
        Frames {
            list: ArrayVec::new(),
        }
    }

    /// Leaves one frame, of unspecified bytes.
    pub(crate) fn keep_one(&mut self)
        ensures { length self.new.list.items ≡ 1 }
    {
        self.list.truncate(1);
        if self.list.is_empty() {
            self.list.push(Frame::new());
        }
    }

    /// The frames.
    pub fn as_slice(&self) -> &[Frame]
        ensures { result.now ≡ self.now.list.items }
    {
        self.list.as_slice()
    }
}

/// What a port sends, and what it did. A port overwrites all of it, so one `Out` serves for many calls.
#[derive(Drop)]
pub struct Out {
    pub frames: Frames,
    pub done: Disposition,
}

impl Out {
    ghost use Rattle.bmc_core.specs.Outs.{ignored, waiting};

    /// Nothing was sent yet.
    pub fn new() -> Out
        ensures { result ≡ waiting }
    {
        Out {
            frames: Frames::none(),
            done: Disposition::Waiting,
        }
    }

    /// Nothing is sent, for this reason.
    pub(crate) fn ignore(&mut self, reason: Reason)
        ensures { self.new ≡ ignored reason }
    {
        self.frames.list.clear();
        self.done = Disposition::Ignored(reason);
    }

    /// Nothing is sent yet.
    pub(crate) fn wait(&mut self)
        ensures { self.new ≡ waiting }
    {
        self.frames.list.clear();
        self.done = Disposition::Waiting;
    }
}
