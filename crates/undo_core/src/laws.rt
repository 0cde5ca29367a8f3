//! Laws of the frames between a manager and a controller's port, as lists of bytes; and of a manager over lists of calls.
ghost use Rattle.undo_plans.specs.declared.names.Names.{Names};
ghost use Rattle.model_undo.specs.Unsettled.{UnsettledByQuiet};
ghost use Rattle.undo_core.specs.Shown.{words_of};
ghost use Rattle.undo_core.specs.Course.{GoesOnOverFrames};
ghost use Rattle.undo_core.specs.Exchange.{RequestsAreHeard, RepliesAreTaken};
ghost use Rattle.undo_core.specs.Journals.{RevivingIsRestarting};

/// The controller's port reads the frames of a manager's request as that request, and as nothing else: it carries that request out, repeats
/// its reply or says that it is busy, and writes the reply to it.
pub fn requests_are_heard()
    ensures { RequestsAreHeard }
{}

/// The manager takes the frames that a port writes in reply to its open request as that reply. It ignores those that say that the port
/// is busy.
pub fn replies_are_taken()
    ensures { RepliesAreTaken }
{}

/// Over all calls and all bytes that come: a manager that goes on from the list of another, with the same names and retries, goes through the
/// same phases from `undo` on, and sends the same frames. The list is one that was taken once the plan ended or halted.
pub fn resumed_sends_the_same_frames()
    ensures { (names : Names) → GoesOnOverFrames names }
{}

/// A request comes to be unsettled only by a call of `quiet`, after its frames were sent again as often as is allowed since it was opened or
/// since `again`.
pub fn unsettled_only_by_quiet()
    ensures { (names : Names) → UnsettledByQuiet (words_of names) }
{}

/// A manager that is made of another's journal is that one after a restart: whatever machine the other showed, it shows the one that is made again.
pub fn reviving_is_restarting()
    ensures { RevivingIsRestarting }
{}
