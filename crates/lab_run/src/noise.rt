//! Noise.
ghost use Rattle.std.specs.Prelude.{◌≡◌, OnOk};
ghost use Rattle.lab_run.specs.Hearing.{StaysAtNoise, IgnoresNoise};

use crate::lab_state::Lab;
use std::alloc::AllocError;
use two_wire::Bus;

impl Lab {
    /// Bytes come to both ends of a bus, the port and the manager. Where they are no frame, nothing changes and nothing is sent.
    pub(crate) fn noise(&mut self, on: Bus, bytes: &[u8]) -> Result<(), AllocError>
        ensures stays { OnOk result (StaysAtNoise on bytes.now self.old self.new) }
        ensures ignored { OnOk result (IgnoresNoise on bytes.now self.old self.new) }
        ensures idles { self.new.idles ≡ self.old.idles }
    {
        self.hear_other(on, bytes)?;
        let sent = self.manager.on_frame(on, bytes);
        self.send(sent)
    }
}
