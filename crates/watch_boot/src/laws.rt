//! Laws of the watchdog.
ghost use Rattle.watch_boot.specs.Watchdog.{ClearsNamed};

/// A flag is set after a Set exactly where it was set before and the Set doesn't name it.
pub fn named_flags_are_cleared()
    ensures { ClearsNamed }
{}
