//! Ports that workers are lent, each with its link and its turns.
ghost use Rattle.std.specs.Prelude.{◌≡◌, ◌↔◌, IsTrue};
ghost use Rattle.bmc_ports.specs.Silence.{NobodySilent};
ghost use Rattle.bmc_ports.specs.Slices.{IsQuietFor, EndsAt};

use crate::silence::Silence;
use bmc_core::Port;

/// A port, the link over which it's served, and its worker's turns.
#[derive(Drop)]
pub struct Lane<L> {
    pub port: Port,
    pub link: L,
    /// How many turns its worker has left.
    pub turns: u32,
    /// In how many turns in a row, up to now, nothing was heard over the link. The largest number stands for itself and all above it.
    pub quiet: u32,
    /// In how many turns in a row nothing comes from a requester before the port forgets it, where it forgets any.
    pub forget: Option<u32>,
    /// In how many nothing came from each, up to now, where the port forgets any.
    pub silence: Silence,
}

/// Both ports with their links and turns.
#[derive(Drop)]
pub struct Lanes<A, B> {
    pub first: Lane<A>,
    pub second: Lane<B>,
}

/// Whether a link over which nothing was heard for so many turns was quiet for the least number of turns, where there is one.
pub(crate) fn is_quiet_for(least: Option<u32>, quiet: u32) -> bool
    ensures { IsTrue result ↔ IsQuietFor least quiet }
{
    match least {
        Some(least) => least <= quiet,
        None => false,
    }
}

impl<L: Drop> Lane<L> {
    /// A lane on which no turn was made yet.
    pub fn new(port: Port, link: L, turns: u32, forget: Option<u32>) -> Self
        ensures lent { (result.port ≡ port) × (result.link ≡ link) }
        ensures turns { result.turns ≡ turns }
        ensures quiet { result.quiet ≡ 0 }
        ensures forget { result.forget ≡ forget }
        ensures silence { NobodySilent result.silence }
    {
        Lane {
            port,
            link,
            turns,
            quiet: 0,
            forget,
            silence: Silence::new(),
        }
    }
}

impl<A: Drop, B: Drop> Lanes<A, B> {
    /// Whether both workers made all their turns, or both links were quiet for the least number of turns, where there is one.
    pub fn are_over(&self, least: Option<u32>) -> bool
        ensures { IsTrue result ↔ EndsAt least self.now }
    {
        self.first.turns == 0 && self.second.turns == 0
            || is_quiet_for(least, self.first.quiet) && is_quiet_for(least, self.second.quiet)
    }
}
