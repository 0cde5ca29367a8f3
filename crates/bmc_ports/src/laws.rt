//! A law of what drives a manager.
ghost use Rattle.bmc_ports.specs.Driving.{DrivesOn};

/// To be driven for some turns, and from where that ended, with nothing to send first, for others, is to be driven for all of them.
pub fn drives_on()
    ensures { DrivesOn }
{}
