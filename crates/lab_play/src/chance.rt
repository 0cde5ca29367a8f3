//! Chances, and a generator of numbers that looks random and is the same in each run.
ghost use Rattle.std.specs.Prelude.{◌≡◌, ◌<◌, true, false};

use rand_core::{Rng, SeedableRng};
use rand_xoshiro::SplitMix64;
use two_wire::Below;

/// How often something happens, of a hundred times.
pub type Percent = Below<101>;

/// What may happen on buses that are honest, and how often.
#[derive(Clone, Copy)]
pub struct Chances {
    /// A frame is lost.
    pub lose: Percent,
    /// A frame that isn't lost comes twice.
    pub repeat: Percent,
    /// A frame that comes lets later ones past.
    pub delay: Percent,
    /// A request of somebody else comes before an event.
    pub others: Percent,
    /// What all of that is drawn from.
    pub seed: u64,
    /// Whether a packet may join one that waits too long at the controller.
    pub late_joins: bool,
}

/// A generator of numbers.
#[derive(Drop)]
pub(crate) struct Dice {
    rng: SplitMix64,
}

impl Dice {
    /// The generator of this seed.
    pub fn new(seed: u64) -> Dice {
        Dice {
            rng: SplitMix64::seed_from_u64(seed),
        }
    }

    /// A number below this one.
    pub fn below(&mut self, end: u32) -> u32
        requires { 0 < end }
        ensures { result < end }
    {
        self.rng.next_u32() % end
    }

    /// Whether something happens that does so often: never at 0, and each time at 100.
    pub fn happens(&mut self, chance: Percent) -> bool
        ensures never { chance ≡ 0 → result ≡ false }
        ensures always { chance ≡ 100 → result ≡ true }
    {
        self.below(100) < u32::from(chance.number())
    }
}
