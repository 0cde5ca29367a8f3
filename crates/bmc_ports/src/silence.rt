//! How long each requester of a port was silent, and which ones the port forgets by it.
ghost use Rattle.std.specs.Prelude.{◌≡◌, ◌≢◌, ◌<◌, ◌==◌, ◌+◌, ℕ, [], ◌∷◌, min, if◌then◌else◌};
ghost use Rattle.bmc_core.specs.PortSteps.{PortState, idles};
ghost use Rattle.bmc_core.specs.Port.{Represents, bus_of};
ghost use Rattle.bmc_ports.specs.Since.{most_turns};
ghost use Rattle.model_bus.specs.Request.{requester_bytes};
ghost use Rattle.bmc_ports.specs.Silence.{AreCounted, CountsAll, ForgetsRequesters, NobodySilent, idles_all, silent_among, silent_turns};

use crate::sender::heard_from;
use bmc_core::Port;
use model_bus::REQUESTERS;
use two_wire::{Bus, Frame};

/// In how many turns in a row, up to now, nothing came from each requester. The largest number stands for itself and all above it.
#[derive(Drop)]
pub struct Silence {
    turns: [u32; REQUESTERS],
}

impl Silence {
    /// The silence of a port that made no turn yet.
    pub(crate) fn new() -> Self
        ensures { NobodySilent result }
    {
        Silence {
            turns: [0; REQUESTERS],
        }
    }

    /// Counts a turn more for each requester.
    fn count_more(&mut self)
        ensures { (who : ℕ) → who < requester_bytes
            → silent_turns self.new who ≡ min (silent_turns self.old who + 1) most_turns }
    {
        for who in 0..REQUESTERS {
            self.turns[who] = self.turns[who].saturating_add(1);
        }
    }

    /// Counts from 0 again for this requester.
    fn clear(&mut self, from: u8)
        ensures cleared { silent_turns self.new from ≡ 0 }
        ensures others { (who : ℕ) → who ≢ from
            → silent_turns self.new who ≡ silent_turns self.old who }
    {
        self.turns[usize::from(from)] = 0;
    }

    /// Counts a turn of a port on this bus, which heard this.
    pub(crate) fn count(&mut self, on: Bus, heard: &Option<Frame>)
        ensures { CountsAll on self.old (heard.now ∷ []) self.new }
    {
        self.count_more();
        match heard_from(on, heard) {
            Some(from) => self.clear(from),
            None => {}
        }
    }
}

/// The bus that a port is on.
fn port_bus(port: &Port) -> Bus
    ensures { result ≡ bus_of port.now }
{
    match port {
        Port::Ipmb(_) => Bus::Ipmb,
        Port::Smbus(_) => Bus::Smbus,
    }
}

/// Has a port forget a requester, where it was silent for just so many turns.
fn forget_one(port: &mut Port, silence: &Silence, turns: u32, who: u8)
    ensures forgets { (p : PortState) → Represents port.old p
        → Represents port.new (if silent_turns silence.now who == turns then idles who p else p) }
    ensures bus { bus_of port.new ≡ bus_of port.old }
{
    if silence.turns[usize::from(who)] == turns {
        port.idle(who);
    }
}

/// Has a port forget all that were silent for just so many turns.
fn forget_all(port: &mut Port, silence: &Silence, turns: u32)
    ensures forgets { (p : PortState) → Represents port.old p
        → Represents port.new (idles_all (silent_among requester_bytes turns silence.now) p) }
    ensures bus { bus_of port.new ≡ bus_of port.old }
{
    for who in 0..REQUESTERS {
        forget_one(port, silence, turns, who as u8);
    }
}

/// Counts a turn of a port that heard this, and has the port forget those that were silent for just the least number of turns. Where there is
/// none, it does nothing.
pub(crate) fn forget_silent(
    port: &mut Port,
    silence: &mut Silence,
    least: Option<u32>,
    heard: &Option<Frame>,
)
    ensures counted { AreCounted least (bus_of port.old)
        silence.old (heard.now ∷ []) silence.new }
    ensures forgets { ForgetsRequesters least silence.new port.old port.new }
    ensures bus { bus_of port.new ≡ bus_of port.old }
{
    match least {
        Some(least) => {
            silence.count(port_bus(port), heard);
            forget_all(port, silence, least);
        }
        None => {}
    }
}
