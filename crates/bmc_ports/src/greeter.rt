//! A greeting that is driven over the link of its bus.
ghost use Rattle.std.specs.Prelude.{◌≡◌, false, None, Result, true};
ghost use Rattle.wire_links.specs.declared.link.Heard.{Heard as AnyHeard};
ghost use Rattle.wire_links.specs.declared.link.LinkFault.{LinkFault as AnyFault};
ghost use Rattle.wire_links.specs.Trace.{Gives};
ghost use Rattle.undo_plans.specs.Greeter.{IsStepResult, is_heeded};
ghost use Rattle.bmc_ports.specs.Greeted.{Drives, GreetsOver, Hears, HearsFrame, SendsNow, TurnsMade, begun_at, end_of, moment, quieted_at, state};

use two_wire::{Bus, Frame};
use undo_plans::{Greeting, WrongStage};
use wire_links::{Heard, Link};

/// How the driving of a greeting ended.
#[derive(Clone, Copy, Debug, PartialEq, Eq)]
pub enum GreetEnd {
    /// Each request was answered.
    Answered,
    /// The open request wasn't answered, and the newest reply to it says that the controller is busy.
    Busy,
    /// The open request wasn't answered, and no reply to it came.
    Silent,
}

impl GreetEnd {
    /// How it ended, where each request was answered or not, and the newest reply was of a busy
    /// controller or not.
    fn of(answered: bool, busy: bool) -> GreetEnd
        ensures { result ≡ end_of answered busy }
    {
        match (answered, busy) {
            (true, _) => GreetEnd::Answered,
            (false, true) => GreetEnd::Busy,
            (false, false) => GreetEnd::Silent,
        }
    }
}

/// What a greeting gave for what came, and whether the newest reply to its open request says that
/// the controller is busy.
#[derive(Drop)]
struct Told {
    sent: Option<Frame>,
    busy: bool,
}

/// Begins the greeting, or sends its open request again where that isn't heeded. Else it goes on as
/// it is.
fn begin(greeting: &mut Greeting) -> Option<Frame>
    ensures { IsStepResult greeting.new result (begun_at greeting.old greeting.old.stage) }
{
    match greeting.start() {
        Ok(first) => first,
        Err(WrongStage) => match greeting.again() {
            Ok(sent) => sent,
            Err(WrongStage) => None,
        },
    }
}

/// Tells the greeting that no answer came. Where it awaits none, nothing changes.
fn be_quiet(greeting: &mut Greeting) -> Option<Frame>
    ensures { IsStepResult greeting.new result (quieted_at greeting.old) }
{
    match greeting.quiet() {
        Ok(sent) => sent,
        Err(WrongStage) => None,
    }
}

/// Sends what a greeting gave. Where that fails, the greeting is told at once that no answer came,
/// and what it gives then is sent in its turn.
fn send_now<L: Link>(greeting: &mut Greeting, first: Option<Frame>, link: &mut L)
    ensures { SendsNow L.Link greeting.old first link.old greeting.new link.new }
{
    let mut sent = first;
    while let Some(frame) = sent {
        match link.send(&frame) {
            Ok(()) => return,
            Err(_) => sent = be_quiet(greeting),
        }
    }
}

/// Hears the bytes of a frame, while the newest reply to the open request is one of a busy
/// controller or isn't.
fn hear_frame(greeting: &mut Greeting, bus: Bus, bytes: &[u8], busy: bool) -> Told
    ensures { HearsFrame bus bytes.now (state greeting.old None busy)
        (state greeting.new result.sent result.busy) }
{
    let says_busy = greeting.is_told_busy(bus, bytes);
    let sent = greeting.on_frame(bus, bytes);
    let busy = says_busy || (busy && sent.is_none());
    Told { sent, busy }
}

/// One call of `next` of the link, and what the greeting gives for it.
fn hear<L: Link>(greeting: &mut Greeting, bus: Bus, link: &mut L, busy: bool) -> Told
    ensures { (answer : Result AnyHeard AnyFault)
        × Gives L.Link link.old answer link.new
        × Hears bus answer (state greeting.old None busy)
        (state greeting.new result.sent result.busy) }
{
    match link.next() {
        Ok(Heard::Frame(frame)) => hear_frame(greeting, bus, frame.as_slice(), busy),
        Ok(Heard::Quiet) | Err(_) => {
            let sent = be_quiet(greeting);
            Told { sent, busy }
        }
    }
}

/// One turn, while the greeting awaits an answer on its bus: it hears the link, and all that the
/// greeting gives is sent. It gives whether the newest reply is then one of a busy controller.
fn turn<L: Link>(greeting: &mut Greeting, bus: Bus, link: &mut L, busy: bool) -> bool
    ensures { is_heeded greeting.old.stage ≡ true → greeting.old.bus ≡ bus
        → Drives L.Link 1 (moment (state greeting.old None busy) link.old)
        (moment (state greeting.new None result) link.new) }
{
    let Told { sent, busy } = hear(greeting, bus, link, busy);
    send_now(greeting, sent, link);
    busy
}

/// Makes so many turns, or those until no answer is awaited. It gives whether the newest reply to the
/// open request is then one of a busy controller.
fn make_turns<L: Link>(greeting: &mut Greeting, link: &mut L, turns: u32) -> bool
    ensures { TurnsMade L.Link turns (moment (state greeting.old None false) link.old)
        (moment (state greeting.new None result) link.new) }
{
    let mut busy = false;
    for _ in 0..turns {
        let Some(bus) = greeting.awaits() else {
            return busy;
        };
        busy = turn(greeting, bus, link, busy);
    }
    busy
}

/// Drives a greeting over the link of its bus: begins it, or goes on with one that was begun, sends
/// each frame that it gives, and hears the link, until each request was answered, or the open one
/// isn't heeded any more, or the link's `next` was called as often as there are turns.
///
/// Where nothing comes, and where the link fails, the greeting is told that no answer came.
pub fn drive_greeting<L: Link>(greeting: &mut Greeting, link: &mut L, turns: u32) -> GreetEnd
    ensures { GreetsOver L.Link turns greeting.old link.old greeting.new result link.new }
{
    let first = begin(greeting);
    send_now(greeting, first, link);
    let busy = make_turns(greeting, link, turns);
    GreetEnd::of(greeting.is_answered(), busy)
}
