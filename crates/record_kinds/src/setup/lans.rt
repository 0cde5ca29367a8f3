//! The LAN parameters of a board's channels.
ghost use Rattle.std.specs.Prelude.{◌≡◌};
ghost use Rattle.std.specs.Option.{option_copied};

use super::Setup;
use record_base::{ChannelNumber, Lan};

impl Setup {
    ghost use Rattle.record_kinds.specs.Lans.{lan_at};

    /// The LAN parameters of this channel, if it has any. It looks at one channel after another, of which there are at most 8.
    pub fn lan(&self, number: ChannelNumber) -> Option<&Lan>
        ensures { option_copied result ≡ lan_at self.now.lans.items number.number }
    {
        let lans = self.file.lans.items.as_slice();
        lans.iter().find(|lan| lan.number.number == number.number)
    }
}
