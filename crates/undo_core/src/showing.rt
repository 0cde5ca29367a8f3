//! Where a manager is.
ghost use Rattle.std.specs.Prelude.{◌≡◌};
ghost use Rattle.model_undo.specs.Machine as machine;
ghost use Rattle.model_lab.specs.Faults.{begun_on};
ghost use Rattle.undo_core.specs.Shown.{words_of, IsListOf, ForRepresented, SendsOpen};

use crate::Phase;
use crate::manager::Manager;
use crate::sending::{Sent, bus_of, frames_of};
use two_wire::Bus;
use undo_plans::UndoList;

impl Manager {
    /// The phase.
    pub fn phase(&self) -> Phase
        ensures { ForRepresented self.now (λ names s.
            result ≡ machine.phase_of (words_of names) s.machine) }
    {
        self.stage.phase()
    }

    /// The bus on which a request is open, also one that isn't heeded.
    pub fn open_bus(&self) -> Option<Bus>
        ensures { ForRepresented self.now (λ names s.
            result ≡ machine.open_bus (words_of names) s.machine) }
    {
        match self.stage.open() {
            Some(asked) => Some(bus_of(asked)),
            None => None,
        }
    }

    /// How many requests it began on a bus: those that were answered, and the open one.
    pub fn begun(&self, bus: Bus) -> usize
        ensures { ForRepresented self.now (λ names s.
            result ≡ begun_on (words_of names) bus s.machine) }
    {
        let answered = match bus {
            Bus::Ipmb => self.counts.ipmb,
            Bus::Smbus => self.counts.smbus,
        };
        if self.open_bus() == Some(bus) {
            usize::from(answered) + 1
        } else {
            usize::from(answered)
        }
    }

    /// How often the open request's frames were sent again, since it was opened or heeded again.
    pub fn resent(&self) -> u8
        ensures { ForRepresented self.now (λ names s. result ≡ s.machine.resent) }
    {
        self.resent
    }

    /// The requests that undo the steps that were done, the numbers of the next requests, and the names: those of the manager, or, where the manager
    /// went on from a list, those of that list.
    pub fn undo_list(&self) -> &UndoList
        ensures { ForRepresented self.now (λ names s. IsListOf names result.now s) }
    {
        &self.undo
    }

    /// The frames of the open request.
    pub(crate) fn open_frames(&self) -> Option<Sent>
        ensures { SendsOpen self.now result }
    {
        let asked = self.stage.open()?;
        Some(frames_of(&self.names, self.counts, asked))
    }
}
