//! The watchdog timer: in a board file, and as it is set.
ghost use Rattle.record_base.specs.Watchdog.{watchdog_value, IsWatchdog};
ghost use Rattle.record_base.specs.PartLaws.{IsWatchdog-prop};

use crate::key::Key;
use crate::start_value::StartValue;

/// The settings of a watchdog timer, by their bytes: the timer use (bit 7 don't log, bits 2:0 the use: at most 5, and 0 before
/// the first Set), the actions (bits 6:4 the interrupt, bits 2:0 the action, each at most 3), no other bits, the pre-timeout
/// interval in seconds, and the countdown's first number, in 100 ms.
#[derive(Clone, Copy, Debug)]
pub struct Watchdog {
    pub timer_use: u8,
    pub actions: u8,
    pub pre_timeout: u8,
    pub initial: u16,
    ghost valid: { IsWatchdog (watchdog_value timer_use actions pre_timeout initial) } by { IsWatchdog-prop (watchdog_value timer_use actions pre_timeout initial) },
}

/// Sets the watchdog timer, by the bytes of the request: the timer use (bit 7 don't log, bit 6 don't stop, bits 2:0 the use),
/// the actions (bits 6:4 the interrupt, bits 2:0 the action), the pre-timeout interval in seconds, the expiration flags to
/// clear, and the countdown's first number, in 100 ms.
#[derive(Clone, Copy)]
pub struct SetWatchdog {
    pub timer_use: u8,
    pub actions: u8,
    pub pre_timeout: u8,
    pub flags_to_clear: u8,
    pub initial: u16,
}

impl Watchdog {
    ghost use Rattle.std.specs.Prelude.{◌≡◌, ◌↔◌, IsSome, IfSome};
    ghost use Rattle.record_base.specs.Watchdog.{watchdog_value, IsWatchdog};
    ghost use Rattle.record_base.specs.Values.{settings_value};

    /// The settings of these bytes, or nothing where a watchdog can't have such settings.
    pub fn new(timer_use: u8, actions: u8, pre_timeout: u8, initial: u16) -> Option<Watchdog>
        ensures made { IsSome result
            ↔ IsWatchdog (watchdog_value timer_use actions pre_timeout initial) }
        ensures uses { IfSome result (λ w. (w.timer_use ≡ timer_use) × (w.actions ≡ actions)) }
        ensures times { IfSome result (λ w. (w.pre_timeout ≡ pre_timeout) × (w.initial ≡ initial)) }
    {
        if timer_use & 0x7F > 5 || actions >> 4 > 3 || actions & 0x0F > 3 {
            return None;
        }
        Some(Watchdog {
            timer_use,
            actions,
            pre_timeout,
            initial,
        })
    }

    /// The record of the settings.
    pub fn pair(&self) -> (Key, StartValue)
        ensures { result ≡ (Key.Watchdog, settings_value self.now) }
    {
        let [low, high] = self.initial.to_le_bytes();
        (
            Key::Watchdog,
            StartValue::few(&[self.timer_use, self.actions, self.pre_timeout, low, high]),
        )
    }
}
