//! A looker with links of its own to a controller that was greeted.
ghost use Rattle.std.specs.Prelude.{◌≡◌, IfErr, IfOk, None};
ghost use Rattle.model_lab.specs.Meaning.{lab_names as the_names};
ghost use Rattle.undo_look.specs.Looks.{IsSeen, opened_at, state_of};
ghost use Rattle.app_run.specs.Greeted.{AreGreeted};
ghost use Rattle.app_look.specs.Opened.{IsOpened, IsUnopened, first_numbers, greetings_of};
ghost use Rattle.app_look.specs.Opened.{most_turns, number_on, session_over};
ghost use Rattle.app_look.specs.Looking.{AsksFor, CallsOnce, GoesOn, LooksAt, LooksTo, begins};
ghost use Rattle.app_look.specs.Looking.{sends_again};

use crate::look_driver::{LookEnd, drive_again, drive_look};
use app_run::{BusLinks, GreetFault, Greetings, Unanswered, greet_first, open_ends};
use model_lab::lab_names;
use record_base::Key;
use std::alloc::{AllocError, Global};
use std::net::Net;
use two_wire::{Below, Retries};
use undo_look::{Looker, Seen, TablePart, Target};
use undo_plans::NextNumbers;
use wire_links::UdpLink;

/// The most turns of a greeting, and of a call that drives a look.
const MOST_TURNS: u32 = u32::MAX;

/// Where a controller is, and how long a looker tries to reach it.
#[derive(Clone, Copy)]
pub struct Way {
    /// The UDP port of the controller's end of IPMB.
    pub ipmb_port: u16,
    /// The UDP port of the end of SMBus, or 0, to which nothing can be sent.
    pub smbus_port: u16,
    /// How many milliseconds of quiet end a turn.
    pub wait_ms: u32,
    /// How often a request is sent again at first.
    pub retries: Retries,
    /// How often a request is then heeded again, and sent as often once more.
    pub again: u32,
}

/// Why no look is made.
#[derive(Clone, Copy, Debug)]
pub enum OpenFault {
    /// Memory was refused.
    Memory,
    /// A link couldn't be had.
    NoLink,
    /// This greeting wasn't answered.
    Ungreeted(Unanswered),
}

/// A looker, and its links.
#[derive(Drop)]
pub struct Session {
    looker: Looker,
    ipmb: UdpLink,
    smbus: UdpLink,
    again: u32,
}

/// A looker whose requests begin with the number 0 on each bus.
fn new_looker(alloc: Global, retries: Retries) -> Result<Looker, AllocError>
    ensures { IfOk result (λ looker. state_of looker
        ≡ opened_at the_names first_numbers retries) }
{
    let next = NextNumbers {
        ipmb: Below::new(0),
        smbus: Below::new(0),
    };
    Looker::new(alloc, lab_names(), next, retries)
}

/// The number 0, where the bus is used.
fn number_on(used: bool) -> Option<u8>
    ensures { result ≡ number_on used }
{
    used.then_some(0)
}

/// The greetings before the looks.
fn greetings_of(way: &Way, ipmb: bool, smbus: bool) -> Greetings
    ensures { result ≡ greetings_of way.now ipmb smbus }
{
    Greetings {
        ipmb: number_on(ipmb),
        smbus: number_on(smbus),
        retries: way.retries,
    }
}

/// Greets the controller on the buses that are used.
fn greet<R: Net>(rt: &R, way: &Way, ipmb: bool, smbus: bool) -> Result<(), OpenFault>
    ensures greeted { IfOk result (λ _.
        AreGreeted (greetings_of way.now ipmb smbus) most_turns None) }
    ensures fault { IfErr result (IsUnopened way.now ipmb smbus) }
{
    let greetings = greetings_of(way, ipmb, smbus);
    let greeted = greet_first(
        rt,
        &greetings,
        way.ipmb_port,
        way.smbus_port,
        way.wait_ms,
        MOST_TURNS,
    );
    match greeted {
        Ok(()) => Ok(()),
        Err(GreetFault::NoLink) => Err(OpenFault::NoLink),
        Err(GreetFault::Unanswered(why)) => Err(OpenFault::Ungreeted(why)),
    }
}

impl Session {
    /// Greets the controller on the buses that are used, and opens links to it for a looker whose requests there begin with the number 0.
    pub fn open<R: Net>(
        rt: &R,
        alloc: Global,
        way: &Way,
        ipmb: bool,
        smbus: bool,
    ) -> Result<Session, OpenFault>
        ensures opened { IfOk result (IsOpened way.now ipmb smbus) }
        ensures fault { IfErr result (IsUnopened way.now ipmb smbus) }
    {
        let Ok(looker) = new_looker(alloc, way.retries) else {
            return Err(OpenFault::Memory);
        };
        greet(rt, way, ipmb, smbus)?;
        let Some(ends) = open_ends(rt, way.ipmb_port, way.smbus_port, way.wait_ms) else {
            return Err(OpenFault::NoLink);
        };
        let BusLinks { ipmb, smbus } = ends;
        Ok(Session {
            looker,
            ipmb,
            smbus,
            again: way.again,
        })
    }

    /// The session of a looker and links that are there: nothing is sent before its requests, and no greeting is. Its requests are heeded again so
    /// often.
    pub fn over(looker: Looker, ends: BusLinks, again: u32) -> Session
        ensures { result ≡ session_over looker ends again }
    {
        let BusLinks { ipmb, smbus } = ends;
        Session {
            looker,
            ipmb,
            smbus,
            again,
        }
    }

    /// Begins a look at this, and drives it.
    fn begin(&mut self, target: &Target) -> LookEnd
        ensures { CallsOnce (begins self.old target.now) self.old result self.new }
    {
        drive_look(
            &mut self.looker,
            target,
            &mut self.ipmb,
            &mut self.smbus,
            MOST_TURNS,
        )
    }

    /// Sends the request again that wasn't answered, and drives the look on.
    fn send_again(&mut self) -> LookEnd
        ensures { CallsOnce (sends_again self.old) self.old result self.new }
    {
        drive_again(
            &mut self.looker,
            &mut self.ipmb,
            &mut self.smbus,
            MOST_TURNS,
        )
    }

    /// Sends the request again behind each call that no answer came to, as often as that is asked for.
    fn go_on(&mut self, first: LookEnd) -> LookEnd
        ensures { GoesOn first self.old result self.new }
    {
        let agains = self.again;
        let mut end = first;
        for _ in 0..agains {
            let LookEnd::Silent = end else {
                return end;
            };
            end = self.send_again();
        }
        end
    }

    /// Looks at this. While an answer to the look before is still awaited nothing is sent, and the look ends as silent.
    fn look_to(&mut self, target: &Target) -> LookEnd
        ensures { LooksTo self.old target.now result self.new }
    {
        let None = self.looker.awaits() else {
            return LookEnd::Silent;
        };
        let first = self.begin(target);
        self.go_on(first)
    }

    /// Looks at this record. While an answer to the look before is still awaited nothing is sent, and the look ends as silent.
    pub fn look(&mut self, key: &Key) -> LookEnd
        ensures { LooksAt self.old key.now result self.new }
    {
        self.look_to(&Target::Record(*key))
    }

    /// Asks for this part of one of the controller's tables. Where the request before that wasn't answered nothing is sent, and this one ends as
    /// silent: a controller that has gone away is waited for once.
    pub fn ask(&mut self, part: &TablePart) -> LookEnd
        ensures { AsksFor self.old part.now result self.new }
    {
        let None = self.looker.open_bus() else {
            return LookEnd::Silent;
        };
        self.look_to(&Target::Table(*part))
    }

    /// What the last look came to, unless one of its requests wasn't answered.
    pub fn seen(&self) -> Option<Seen<'_>>
        ensures { IsSeen self.now.looker.stage self.now.looker.shown result }
    {
        self.looker.seen()
    }
}
