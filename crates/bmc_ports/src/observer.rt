//! What looks at a manager that is driven, before the manager's frames go out.

use undo_core::Manager;

/// Looks at a manager that is driven: once it was given frames to send first, and behind each call of `next` of a link.
pub trait Observer {
    ghost use Rattle.std.specs.Prelude.{Bool};
    ghost use Rattle.undo_core.specs.declared.manager.Manager.{Manager};

    /// What a look at this manager may answer, and make of what looks.
    ghost sees: { Self → Manager → Bool → Self → Type 0 };

    /// Looks at the manager as it is now. It gives whether the frames that the manager gave may go out.
    fn look(&mut self, manager: &Manager) -> bool
        ensures { sees self.old manager.now result self.new };
}

/// A look kept the manager's frames back.
#[derive(Clone, Copy, Debug)]
pub struct KeptBack;

/// Looks at nothing, and lets all frames go out.
#[derive(Clone, Copy)]
pub struct NoObserver;

impl Observer for NoObserver {
    ghost use Rattle.std.specs.Prelude.{◌≡◌, true};

    ghost sees = { λ old manager allowed new. (allowed ≡ true) × (new ≡ old) };

    fn look(&mut self, _manager: &Manager) -> bool {
        true
    }
}
