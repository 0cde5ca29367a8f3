//! What holds of what a port of either bus does: each law is the contract of a function without a body.
ghost use Rattle.bmc_core.specs.Port.{AreHeardThenAnswered};

/// `on_frame` hears the bytes, has the board answer what is asked, and gets that answer.
pub fn bytes_are_heard_and_then_answered()
    ensures { AreHeardThenAnswered }
{}
