//! Laws of the records that a board file gives.
ghost use Rattle.record_kinds.specs.Sound.{StartsSound};

/// Every record that a board file gives has limits, and a value that they allow.
pub fn starts_sound()
    ensures { StartsSound }
{}
