//! How far a looker is.
ghost use Rattle.std.specs.Prelude.{◌≡◌};
ghost use Rattle.std.specs.Option.{option_map};
ghost use Rattle.undo_look.specs.Looks.{awaited_on, heeded_in, open_on};

use crate::requests::bus_of;
use crate::target::Target;
use record_base::Asked;
use two_wire::{Bus, Code};

/// How far a looker is.
#[derive(Drop)]
pub enum Stage {
    /// Nothing was sent.
    AtStart,
    /// A request for this is open, behind so many that were answered. Where it isn't heeded, no reply to it is taken.
    Opened {
        heeded: bool,
        target: Target,
        parts: u8,
        asked: Asked,
    },
    /// The requests for this were answered.
    Found(Target),
    /// A request for this was refused.
    Refused(Target, Code),
}

impl Stage {
    /// The open request, where it is heeded.
    pub(crate) fn heeded(&self) -> Option<&Asked>
        ensures { option_map (λ asked. asked.now) result ≡ heeded_in self.now }
    {
        match self {
            Stage::Opened {
                heeded: true,
                asked,
                ..
            } => Some(asked),
            _ => None,
        }
    }

    /// The bus on which an answer is awaited.
    pub(crate) fn awaits(&self) -> Option<Bus>
        ensures { result ≡ awaited_on self.now }
    {
        match self {
            Stage::Opened {
                heeded: true,
                asked,
                ..
            } => Some(bus_of(asked)),
            _ => None,
        }
    }

    /// The bus on which a request is open, also one that isn't heeded.
    pub(crate) fn open_bus(&self) -> Option<Bus>
        ensures { result ≡ open_on self.now }
    {
        match self {
            Stage::Opened { asked, .. } => Some(bus_of(asked)),
            _ => None,
        }
    }
}
