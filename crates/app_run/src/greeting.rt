//! The greetings before a manager is called.
ghost use Rattle.std.specs.Prelude.{◌≡◌, ◌&&◌, None, Some, is_none, if◌then◌else◌};
ghost use Rattle.bmc_ports.specs.Conversation.{links};
ghost use Rattle.app_run.specs.Greeted.{GreetedFirst, GreetsBoth, GreetsBus};
ghost use Rattle.app_run.specs.Greeted.{answer_word, greetings_before_run, greetings_before_undo};
ghost use Rattle.app_run.specs.Greeted.{unanswered_by};

use crate::buses::{requests_use, steps_use};
use crate::driven::UNDO_RETRIES;
use crate::links::{BusLinks, open_ends};
use bmc_ports::{GreetEnd, drive_greeting};
use model_lab::lab_names;
use std::net::Net;
use two_wire::{Bus, Retries};
use undo_plans::{Greeting, Plan, UndoList};
use wire_links::Link;

/// Which greeting wasn't answered.
#[derive(Clone, Copy, Debug, PartialEq, Eq)]
pub struct Unanswered {
    /// The bus on which it went.
    pub bus: Bus,
    /// Whether the newest reply to its open request says that the controller is busy. Else no reply
    /// to that came.
    pub busy: bool,
}

impl Unanswered {
    /// What came in place of an answer.
    pub fn word(self) -> &'static str
        ensures { result.now ≡ answer_word self.busy }
    {
        if self.busy { "busy" } else { "no answer" }
    }
}

/// Why nothing is begun behind the greetings.
#[derive(Clone, Copy, Debug, PartialEq, Eq)]
pub enum GreetFault {
    /// A link couldn't be had.
    NoLink,
    /// A greeting wasn't answered.
    Unanswered(Unanswered),
}

/// Which buses are greeted before a manager is called.
#[derive(Clone, Copy)]
pub struct Greetings {
    /// The number with which the manager's requests on IPMB go on, where that is greeted.
    pub ipmb: Option<u8>,
    /// The same of SMBus.
    pub smbus: Option<u8>,
    /// How often a request is sent again at most.
    pub retries: Retries,
}

/// The number, where greetings are asked for and the bus is used.
fn number_for(greet: bool, used: bool, next: u8) -> Option<u8>
    ensures { result ≡ (if greet && used then Some next else None) }
{
    (greet && used).then_some(next)
}

impl Greetings {
    /// Those before a run of a plan, where greetings are asked for: of each bus on which requests of
    /// its steps go.
    pub fn before_run(greet: bool, plan: &Plan) -> Greetings
        ensures { result ≡ greetings_before_run greet plan.now }
    {
        Greetings {
            ipmb: number_for(greet, steps_use(&plan.steps, Bus::Ipmb), 0),
            smbus: number_for(greet, steps_use(&plan.steps, Bus::Smbus), 0),
            retries: plan.retries,
        }
    }

    /// Those before the undo of a list, where greetings are asked for: of each bus on which its
    /// requests go.
    pub fn before_undo(greet: bool, list: &UndoList) -> Greetings
        ensures { result ≡ greetings_before_undo greet list.now }
    {
        let next = list.next;
        Greetings {
            ipmb: number_for(
                greet,
                requests_use(&list.requests, Bus::Ipmb),
                next.ipmb.number(),
            ),
            smbus: number_for(
                greet,
                requests_use(&list.requests, Bus::Smbus),
                next.smbus.number(),
            ),
            retries: Retries::new(UNDO_RETRIES),
        }
    }

    /// Whether no bus is greeted.
    fn are_none(&self) -> bool
        ensures { result ≡ (is_none self.now.ipmb && is_none self.now.smbus) }
    {
        self.ipmb.is_none() && self.smbus.is_none()
    }
}

/// What is unanswered on this bus, where its greeting ended so.
fn unanswered_by(bus: Bus, end: GreetEnd) -> Option<Unanswered>
    ensures { result ≡ unanswered_by bus end }
{
    match end {
        GreetEnd::Answered => None,
        GreetEnd::Busy => Some(Unanswered { bus, busy: true }),
        GreetEnd::Silent => Some(Unanswered { bus, busy: false }),
    }
}

/// Greets the controller on this bus, if the number with which requests go on there is given.
fn greet_bus<L: Link>(
    link: &mut L,
    bus: Bus,
    next: Option<u8>,
    retries: Retries,
    turns: u32,
) -> Option<Unanswered>
    ensures { GreetsBus L.Link bus next retries turns link.old result link.new }
{
    let Some(next) = next else {
        return None;
    };
    let mut greeting = Greeting::new(lab_names(), bus, next, retries);
    let end = drive_greeting(&mut greeting, link, turns);
    unanswered_by(bus, end)
}

/// Greets the controller on each bus that is to be greeted, on IPMB first, and where that isn't
/// answered on no other. Each greeting makes so many turns at most. It gives which wasn't answered.
pub(crate) fn greet_both<A: Link, B: Link>(
    greetings: &Greetings,
    ipmb: &mut A,
    smbus: &mut B,
    turns: u32,
) -> Option<Unanswered>
    ensures { GreetsBoth A.Link B.Link greetings.now turns (links ipmb.old smbus.old) result
        (links ipmb.new smbus.new) }
{
    let retries = greetings.retries;
    match greet_bus(ipmb, Bus::Ipmb, greetings.ipmb, retries, turns) {
        Some(unanswered) => Some(unanswered),
        None => greet_bus(smbus, Bus::Smbus, greetings.smbus, retries, turns),
    }
}

/// Greets so over links of its own to these ports, which wait so many milliseconds for a frame.
/// Where no bus is to be greeted, it opens none.
pub fn greet_first<R: Net>(
    rt: &R,
    greetings: &Greetings,
    ipmb_port: u16,
    smbus_port: u16,
    wait_ms: u32,
    turns: u32,
) -> Result<(), GreetFault>
    ensures { GreetedFirst greetings.now turns result }
{
    if greetings.are_none() {
        return Ok(());
    }
    let Some(ends) = open_ends(rt, ipmb_port, smbus_port, wait_ms) else {
        return Err(GreetFault::NoLink);
    };
    let BusLinks {
        mut ipmb,
        mut smbus,
    } = ends;
    match greet_both(greetings, &mut ipmb, &mut smbus, turns) {
        None => Ok(()),
        Some(unanswered) => Err(GreetFault::Unanswered(unanswered)),
    }
}
