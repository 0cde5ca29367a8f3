//! The clock by which records get their time.
ghost use Rattle.std.specs.Prelude.{◌≡◌};
ghost use Rattle.sel_log.specs.Clock.{clock_at, ticked};

use two_wire::Below;

/// How many ticks are a second.
const TICKS_A_SECOND: u8 = 10;

/// A clock of seconds, which ticks ten times a second and stays at its last second.
#[derive(Clone, Copy)]
pub struct Clock {
    seconds: u32,
    ticks: Below<10>,
}

impl Clock {
    /// A clock that shows these seconds, the first tick of which is still to come.
    pub fn at(seconds: u32) -> Self
        ensures { result ≡ clock_at seconds }
    {
        Clock {
            seconds,
            ticks: Below::new(0),
        }
    }

    /// The seconds that it shows.
    pub fn seconds(self) -> u32
        ensures { result ≡ self.seconds }
    {
        self.seconds
    }

    /// A tenth of a second has passed.
    pub fn tick(&mut self)
        ensures { self.new ≡ ticked self.old }
    {
        let ticks = self.ticks.number() + 1;
        if ticks < TICKS_A_SECOND {
            self.ticks = Below::new(ticks);
        } else {
            *self = Clock::at(self.seconds.saturating_add(1));
        }
    }
}
