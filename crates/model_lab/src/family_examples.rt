//! A schedule and a series that compute, so that no theorem is about nothing: each is the contract of a function without a body.

ghost use Rattle.cfg_records.specs.declared.board_file.BoardFile.{BoardFile};
ghost use Rattle.cfg_records.specs.Records.{Records};
ghost use Rattle.model_lab.specs.FamilyExample.{EndsUndone};
ghost use Rattle.model_lab.specs.PartsExample.{GoesInTwo};

/// A plan of one step and its undo over IPMB, in nine events with their bytes: the power restore policy is set, a late copy of the Set
/// changes nothing, and the run ends undone. It may happen on every board that begins with policy 0.
pub fn policy_ends_undone()
    ensures { (setup : BoardFile) (others : Records) → EndsUndone setup others }
{}

/// A text of 220 bytes is set by two requests, and the replies to a Get of two requests show it.
pub fn text_goes_in_two()
    ensures { GoesInTwo }
{}
