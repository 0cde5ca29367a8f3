//! What is wrong with an event.
use std::fmt;

/// What is wrong with an event, which a lab doesn't take then.
#[derive(Clone, Copy, Debug, PartialEq, Eq)]
pub enum Fault {
    /// There is no such frame.
    NoFrame,
    /// The frame doesn't go to that end.
    WrongWay,
    /// Too many newer requests were begun, or the manager's window was forgotten since.
    Aged,
    /// Another requester's command sets the configuration.
    Changing,
    /// The frame comes from the manager's or the controller's address.
    Impersonates,
    /// The noise reads as a frame.
    Forged,
    /// A request of the manager is open, on either bus.
    StillOpen,
    /// 65,536 frames were sent.
    Room,
}

impl fmt::Display for Fault {
    ghost use Rattle.std.specs.Prelude.{Some};
    ghost use Rattle.model_lab.specs.FaultNames.{fault_name};

    ghost output = { λ fault. Some (fault_name fault) };

    fn fmt<W: fmt::Write>(&self, f: &mut fmt::Formatter<W>) -> fmt::Result {
        f.write_str(match self {
            Fault::NoFrame => "NoFrame",
            Fault::WrongWay => "WrongWay",
            Fault::Aged => "Aged",
            Fault::Changing => "Changing",
            Fault::Impersonates => "Impersonates",
            Fault::Forged => "Forged",
            Fault::StillOpen => "StillOpen",
            Fault::Room => "Room",
        })
    }
}
