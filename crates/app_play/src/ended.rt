//! How a play ended.
ghost use Rattle.std.specs.Prelude.{◌≡◌, IfOk};
ghost use Rattle.app_play.specs.Ended.{given_of};

use lab_play::{LabFault, Played, Stopped};
use std::alloc::AllocError;

/// What was played, and the event that the lab didn't take.
pub(crate) struct Ended {
    pub played: Played,
    pub stopped: Option<Stopped>,
}

/// The parts of what a play gave. It drops none of them: so whoever takes them drops what was played at one place.
pub(crate) fn parts_of(given: Result<Played, LabFault>) -> Result<Ended, AllocError>
    ensures { IfOk result (λ ended. given ≡ given_of ended.played ended.stopped) }
{
    match given {
        Ok(played) => Ok(Ended {
            played,
            stopped: None,
        }),
        Err(LabFault::Memory) => Err(AllocError),
        Err(
            LabFault::Event {
                fault,
                place,
                played,
            },
        ) => Ok(Ended {
            played,
            stopped: Some(Stopped { place, fault }),
        }),
    }
}
