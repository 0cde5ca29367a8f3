//! Laws of a journal's file.
ghost use Rattle.app_journal.specs.Keeping.{AllowedIsKept, ClosedIsSilent, OpenSetIsTakenBack};
ghost use Rattle.app_journal.specs.Reviving.{KeptTextsAreRead, KeptTextsAreRemade};

use crate::files::WritesFiles;

/// Where frames may go out while a request is open, the file has the journal of the very manager that gave them: it had it already, or was given it
/// by a put that was answered Ok. While a Set is open that journal has the request which undoes it. Where no request is open a manager sends
/// nothing.
pub fn journals_are_kept<F: WritesFiles>()
    ensures allowed { AllowedIsKept F.takes F.renames }
    ensures taken_back { OpenSetIsTakenBack }
    ensures silent { ClosedIsSilent }
{}

/// A text that a keeper put is the text of a journal: of a manager with the lab's names, which are all that a run has, only memory can be refused,
/// and the one that is made is that manager, made again.
pub fn kept_texts_revive()
    ensures read { KeptTextsAreRead }
    ensures remade { KeptTextsAreRemade }
{}
