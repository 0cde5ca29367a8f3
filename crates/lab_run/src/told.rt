//! What a lab tells of itself.
ghost use Rattle.std.specs.Prelude.{◌≡◌};
ghost use Rattle.std.specs.List.{AllZip};
ghost use Rattle.model_undo.specs.Machine.{phase_of};
ghost use Rattle.undo_core.specs.Shown.{backs};
ghost use Rattle.model_lab.specs.Faults.{begun_on};
ghost use Rattle.model_lab.specs.Played.{plans};
ghost use Rattle.lab_run.specs.Shown.{ForRepresented, IsSentFrame};

use crate::frames::SentFrame;
use crate::lab_state::Lab;
use bmc_board::Records;
use cfg_records::Store;
use two_wire::Bus;
use undo_core::Phase;
use undo_plans::UndoList;

impl Lab {
    /// Where the manager is.
    pub fn phase(&self) -> Phase
        ensures { ForRepresented self.now (λ _ x. result ≡ phase_of plans.words x.manager.machine) }
    {
        self.manager.phase()
    }

    /// How many requests the manager began on a bus: those that were answered, and the open one.
    pub fn begun(&self, on: Bus) -> usize
        ensures { ForRepresented self.now (λ _ x. result ≡ begun_on plans.words on x.manager.machine) }
    {
        self.manager.begun(on)
    }

    /// The frames that were sent, in the order of their numbers.
    pub fn frames(&self) -> &[SentFrame]
        ensures { ForRepresented self.now (λ _ x. AllZip IsSentFrame result.now x.frames) }
    {
        self.frames.as_slice()
    }

    /// The requests that undo what was done.
    pub fn undo_list(&self) -> &UndoList
        ensures { ForRepresented self.now (λ _ x.
            backs result.now.requests.members ≡ x.manager.machine.undo) }
    {
        self.manager.undo_list()
    }

    /// The records.
    pub fn store(&self) -> &Records
        ensures { ForRepresented self.now (λ _ x.
            ⟦<Records as Store>⟧.records result.now ≡ x.board.records) }
    {
        self.board.store()
    }
}
