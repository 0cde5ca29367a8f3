//! What holds of the definitions.
ghost use Rattle.std.specs.Prelude.{◌≡◌, ◌≢◌, ℕ, List, Some, None};
ghost use Rattle.record_kinds.specs.Stagings.{StagedParts, staged_by, without, with_staged};

/// What a requester stages is what it has staged, until its staging ends.
pub fn staged_is_kept()
    ensures staged { (stagings : StagedParts) (from : ℕ) (entry : List ℕ)
        → staged_by from (with_staged from entry stagings) ≡ Some entry }
    ensures ended { (stagings : StagedParts) (from : ℕ)
        → staged_by from (without from stagings) ≡ None }
{}

/// A part changes no other requester's staging, and neither does its end.
pub fn stagings_are_apart()
    ensures staged { (stagings : StagedParts) (from other : ℕ) (entry : List ℕ) → other ≢ from
        → staged_by other (with_staged from entry stagings) ≡ staged_by other stagings }
    ensures ended { (stagings : StagedParts) (from other : ℕ) → other ≢ from
        → staged_by other (without from stagings) ≡ staged_by other stagings }
{}
