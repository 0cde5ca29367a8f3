//! What looks at records.
ghost use Rattle.std.specs.Prelude.{◌≤◌, ◌<◌, length};
ghost use Rattle.undo_plans.specs.Fitting.{most_requests};
ghost use Rattle.undo_look.specs.OpenGet.{IsOpenGet, IsOpenGet-prop, most_joined, parts_at};

use crate::data::ShownData;
use crate::stage::Stage;
use mctp_net::Assembler;
use two_wire::{Code, Retries};
use undo_plans::{Names, NextNumbers};

/// The call isn't one for the stage of the looker. It changed nothing.
#[derive(Clone, Copy, Debug, PartialEq, Eq)]
pub struct WrongPhase;

/// What a look came to.
#[derive(Clone, Copy)]
pub enum Seen<'a> {
    /// These data are what the replies show.
    Shown(&'a [u8]),
    /// A request was refused with this code.
    Refused(Code),
}

/// What looks at the records of one controller and at parts of its tables, one after another. Its requests are those of Gets and for the
/// parts, each under the next number of its bus, and one is open at a time. All its memory is taken when it is made.
pub struct Looker {
    pub(crate) names: Names,
    pub(crate) retries: Retries,
    /// The number of the open request on its bus, and those of the next ones.
    pub(crate) next: NextNumbers,
    pub(crate) stage: Stage,
    /// How often the open request was sent again, since it was begun or heeded again.
    pub(crate) resent: u8,
    /// The packets that wait.
    pub(crate) joined: Assembler,
    pub(crate) shown: ShownData,
    ghost gets: { IsOpenGet stage } by { IsOpenGet-prop stage },
    ghost parted: { parts_at stage < most_requests },
    ghost filled: { length shown ≤ most_joined (parts_at stage) },
}

// Written out: the crates above would prove a derived one anew.
impl Drop for Looker {
    fn drop(self) {
        let Looker {
            names: _,
            retries: _,
            next: _,
            stage: _,
            resent: _,
            joined,
            shown,
        } = self;
        drop(joined);
        drop(shown);
    }
}
