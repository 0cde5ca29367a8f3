//! A greeting.
ghost use Rattle.std.specs.Prelude.{◌≡◌, Some, None, if◌then◌else◌};
ghost use Rattle.undo_plans.specs.declared.greeting.GreetingStage.TheVariants as stage;
ghost use Rattle.undo_plans.specs.Greeter.{is_heeded, is_open, is_over};

use crate::names::Names;
use two_wire::{Bus, Retries};

/// The call isn't one for the stage of the greeting. It changed nothing.
#[derive(Clone, Copy, Debug, PartialEq, Eq)]
pub struct WrongStage;

/// How far a greeting is.
#[derive(Clone, Copy, Debug, PartialEq, Eq)]
pub enum GreetingStage {
    /// Nothing was sent.
    AtStart,
    /// The request of this place is open. Where it isn't heeded, no answer to it is taken.
    Opened { heeded: bool, place: u8 },
    /// Each request was answered.
    Answered,
}

/// What greets a controller on one bus. Its requests go out one after another, each once the one
/// before it was answered.
#[derive(Drop)]
pub struct Greeting {
    pub(crate) names: Names,
    pub(crate) bus: Bus,
    /// The number with which the manager's requests go on.
    pub(crate) next: u8,
    pub(crate) retries: Retries,
    pub(crate) stage: GreetingStage,
    /// How often the open request was sent again, since it was begun or heeded again.
    pub(crate) resent: u8,
}

impl Greeting {
    /// A greeting of the controller of these names on this bus, for a manager whose requests there
    /// go on with the number `next`. Each request is sent again at most `retries` times.
    pub fn new(names: Names, bus: Bus, next: u8, retries: Retries) -> Self
        ensures { result ≡ record {
          names = names;
          bus = bus;
          next = next;
          retries = retries;
          stage = stage.AtStart;
          resent = 0;
        } }
    {
        Greeting {
            names,
            bus,
            next,
            retries,
            stage: GreetingStage::AtStart,
            resent: 0,
        }
    }

    /// Whether each request was answered.
    pub fn is_answered(&self) -> bool
        ensures { result ≡ is_over self.now.stage }
    {
        matches!(self.stage, GreetingStage::Answered)
    }

    /// The bus, while an answer is awaited: a request is open, and is heeded.
    pub fn awaits(&self) -> Option<Bus>
        ensures { result ≡ (if is_heeded self.now.stage then Some self.now.bus else None) }
    {
        match self.stage {
            GreetingStage::Opened { heeded: true, .. } => Some(self.bus),
            _ => None,
        }
    }

    /// The bus, while a request is open, also one that isn't heeded.
    pub fn open_bus(&self) -> Option<Bus>
        ensures { result ≡ (if is_open self.now.stage then Some self.now.bus else None) }
    {
        match self.stage {
            GreetingStage::Opened { .. } => Some(self.bus),
            GreetingStage::AtStart | GreetingStage::Answered => None,
        }
    }
}
