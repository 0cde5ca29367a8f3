//! The frames that were sent.
ghost use Rattle.std.specs.Prelude.{◌≡◌, ◌++◌, ◌∷◌, [], length, nat_le, slice_get, Some, None, IfSome, IfNone, is_ok, if◌then◌else◌, OnOk, map};
ghost use Rattle.model_lab.specs.Faults.{most_frames};
ghost use Rattle.lab_run.specs.FramesShown.{sent_as};

use crate::ages::FrameAge;
use model_lab::Way;
use std::alloc::{AllocError, Global};
use std::marker::Model;
use two_wire::Frame;

/// A lab that sent so many frames takes no event that could send another.
pub const MOST_FRAMES: usize = 65_536;

/// A frame that was sent.
#[derive(Drop)]
pub struct SentFrame {
    pub way: Way,
    /// The frame's bus, and what tells how old it is.
    pub mark: FrameAge,
    pub bytes: Frame,
}

/// All frames that were sent, each at its number. Memory is taken as they come.
pub struct Frames {
    items: Vec<SentFrame>,
}

// Written out: the crates above would prove a derived one anew.
impl Drop for Frames {
    fn drop(self) {
        let Frames { items } = self;
        drop(items);
    }
}

impl Model for Frames {
    ghost use Rattle.std.specs.Prelude.{List};
    ghost use Rattle.lab_run.specs.declared.frames.SentFrame.{SentFrame};

    ghost Value = { List SentFrame };

    ghost view = { λ f. f.items.items };
}

impl Frames {
    /// No frame was sent.
    pub fn new(alloc: Global) -> Frames
        ensures { result ≡ [] }
    {
        Frames {
            items: Vec::new(alloc),
        }
    }

    /// How many were sent.
    pub fn len(&self) -> usize
        ensures { result ≡ length self.now }
    {
        self.items.len()
    }

    /// Whether there is no room for more.
    pub fn is_full(&self) -> bool
        ensures { result ≡ nat_le most_frames (length self.now) }
    {
        self.items.len() >= MOST_FRAMES
    }

    /// The frame of this number.
    pub fn get(&self, number: u32) -> Option<&SentFrame>
        ensures some { IfSome result (λ frame. slice_get self.now number ≡ Some frame.now) }
        ensures none { IfNone result (slice_get self.now number ≡ None) }
    {
        self.items.get(number as usize)
    }

    /// The frames, in the order of their numbers.
    pub fn as_slice(&self) -> &[SentFrame]
        ensures { result.now ≡ self.now }
    {
        self.items.as_slice()
    }

    /// The next frame is sent. Where memory is refused, it isn't.
    pub fn push(&mut self, frame: SentFrame) -> Result<(), AllocError>
        ensures { self.new ≡ (if is_ok result then self.old ++ frame ∷ [] else self.old) }
    {
        match self.items.push(frame) {
            Ok(()) => Ok(()),
            Err(_) => Err(AllocError),
        }
    }

    /// Frames are sent, one after another, each of this way and with this mark. Where memory is refused, the rest aren't.
    pub fn send(&mut self, way: Way, mark: FrameAge, frames: &[Frame]) -> Result<(), AllocError>
        ensures { OnOk result (self.new ≡ self.old ++ map (sent_as way mark) frames.now) }
    {
        for frame in frames {
            let bytes = frame.copy();
            self.push(SentFrame { way, mark, bytes })?;
        }
        Ok(())
    }
}
