//! What the manager is called to do, and what it hears.
ghost use Rattle.std.specs.Prelude.{◌≡◌, OnOk};
ghost use Rattle.undo_core.specs.Shown.{CallStep};
ghost use Rattle.lab_run.specs.Makes.{calls, returns};
ghost use Rattle.lab_run.specs.Shown.{StepUnlessMemory, SendsFrame};

use crate::ages::FrameAge;
use crate::lab_state::Lab;
use model_lab::Way;
use model_undo::Call;
use std::alloc::AllocError;
use undo_core::{Manager, Sent, WrongPhase};

/// Calls the manager.
fn made(manager: &mut Manager, call: Call) -> Result<Option<Sent>, WrongPhase>
    ensures { CallStep call manager.old manager.new result }
{
    match call {
        Call::Start => manager.start(),
        Call::Quiet => manager.quiet(),
        Call::Stop => manager.stop(),
        Call::Again => manager.again(),
        Call::Undo => manager.undo(),
    }
}

impl Lab {
    /// The manager is called. In a wrong phase nothing changes.
    pub(crate) fn call(&mut self, call: Call) -> Result<(), AllocError>
        ensures becomes { StepUnlessMemory result self.old self.new (calls call) }
        ensures idles { self.new.idles ≡ self.old.idles }
    {
        match made(&mut self.manager, call) {
            Ok(sent) => self.send(sent),
            Err(_) => Ok(()),
        }
    }

    /// The bytes of the frame of this number come to the manager, if there is such a frame.
    pub(crate) fn to_manager(&mut self, number: u32) -> Result<(), AllocError>
        ensures becomes { StepUnlessMemory result self.old self.new (returns number) }
        ensures idles { self.new.idles ≡ self.old.idles }
    {
        let Some(frame) = self.frames.get(number) else {
            return Ok(());
        };
        let sent = self.manager.on_frame(frame.mark.on, frame.bytes.as_slice());
        self.send(sent)
    }

    /// The manager's frames are sent, if it sends some.
    pub(crate) fn send(&mut self, sent: Option<Sent>) -> Result<(), AllocError>
        ensures becomes { OnOk result (SendsFrame sent self.old self.new) }
        ensures out { self.new.out ≡ self.old.out }
        ensures idles { self.new.idles ≡ self.old.idles }
    {
        let Some(sent) = sent else {
            return Ok(());
        };
        let mark = FrameAge {
            on: sent.bus,
            request: usize::from(sent.request),
            idles: self.idles.on(sent.bus),
        };
        self.frames.send(Way::ToPort, mark, sent.frames.as_slice())
    }
}
