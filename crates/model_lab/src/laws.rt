//! Laws of the definitions.

ghost use Rattle.std.specs.Prelude.{◌≡◌, ℕ, List};
ghost use Rattle.two_wire.specs.declared.Bus.{Bus};
ghost use Rattle.cfg_records.specs.declared.board_file.BoardFile.{BoardFile};
ghost use Rattle.record_base.specs.declared.op.Op.{Op};
ghost use Rattle.model_bus.specs.Addresses.{Addresses};
ghost use Rattle.undo_plans.specs.declared.names.Names.{Names};
ghost use Rattle.text_lines.specs.declared.event.Event.{Event};
ghost use Rattle.model_lab.specs.Spelled.{AreSpelled};
ghost use Rattle.model_lab.specs.ManagerSteps.{board_plans};
ghost use Rattle.model_lab.specs.Honest.{FaultsAreBreaches};
ghost use Rattle.model_lab.specs.Stepwise.{RunsBy};
ghost use Rattle.model_lab.specs.ManagerEvents.{RepliesAreBrought};
ghost use Rattle.model_lab.specs.Played.{Ending, IsPlayed};

/// The manager's requests are requests on their bus, IPMI on IPMB and PLDM on SMBus, each under its number; and a reply to one is a reply
/// to it, with the answer's code.
pub fn bytes_are_of_the_buses()
    ensures { (at : Bus → Addresses) → AreSpelled at }
{}

/// An event has a fault only where it breaks what the links are trusted with, or where there is no room; an event without a fault
/// breaks nothing.
pub fn faults_are_breaches()
    ensures { (names : Names) → FaultsAreBreaches (board_plans names) }
{}

/// What a run is, event by event.
pub fn runs_are_these()
    ensures { (setup : BoardFile) (names : Names) → RunsBy (board_plans names) setup }
{}

/// The manager takes of a live reply, whole or in packets, what the model's event brings it, and nothing while it heeds no request.
pub fn replies_are_brought()
    ensures { (names : Names) → RepliesAreBrought (board_plans names) }
{}

/// A play ends in one way.
pub fn one_ending()
    ensures { (file : BoardFile) (steps : List Op) (retries : ℕ) (events : List Event)
        (ending other : Ending)
        → IsPlayed file steps retries events ending → IsPlayed file steps retries events other
        → ending ≡ other }
{}
