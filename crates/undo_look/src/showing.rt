//! A looker is made, and where it is.
ghost use Rattle.std.specs.Prelude.{◌≡◌, IfOk};
ghost use Rattle.undo_look.specs.Looks.{IsSeen, IsSent, awaited_on, is_open, open_on, opened_at, state_of};

use crate::data::ShownData;
use crate::looker::{Looker, Seen};
use crate::requests::frame_of;
use crate::stage::Stage;
use mctp_net::Assembler;
use std::alloc::{AllocError, Global};
use two_wire::{Bus, Frame, Retries};
use undo_plans::{Names, NextNumbers};

impl Looker {
    /// A looker at the controller of these names, whose requests go on with these numbers. Each is sent again at most `retries` times.
    pub fn new(
        alloc: Global,
        names: Names,
        next: NextNumbers,
        retries: Retries,
    ) -> Result<Self, AllocError>
        ensures { IfOk result (λ looker. state_of looker ≡ opened_at names next retries) }
    {
        Ok(Looker {
            names,
            retries,
            next,
            stage: Stage::AtStart,
            resent: 0,
            joined: Assembler::new(alloc)?,
            shown: ShownData::open(alloc)?,
        })
    }

    /// The bus on which an answer is awaited: a request is open there, and is heeded.
    pub fn awaits(&self) -> Option<Bus>
        ensures { result ≡ awaited_on self.now.stage }
    {
        self.stage.awaits()
    }

    /// The bus on which a request is open, also one that isn't heeded.
    pub fn open_bus(&self) -> Option<Bus>
        ensures { result ≡ open_on self.now.stage }
    {
        self.stage.open_bus()
    }

    /// What the last look came to, unless its request is open.
    pub fn seen(&self) -> Option<Seen<'_>>
        ensures { IsSeen self.now.stage self.now.shown result }
    {
        match &self.stage {
            Stage::Found(_) => Some(Seen::Shown(self.shown.as_slice())),
            Stage::Refused(_, code) => Some(Seen::Refused(*code)),
            Stage::AtStart | Stage::Opened { .. } => None,
        }
    }

    /// The frame of the open request, if one is open.
    pub(crate) fn open_frame(&self) -> Option<Frame>
        ensures { IsSent (state_of self.now) result (is_open self.now.stage) }
    {
        match &self.stage {
            Stage::Opened { asked, .. } => Some(frame_of(&self.names, self.next, asked)),
            _ => None,
        }
    }
}
