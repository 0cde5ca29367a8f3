//! A looker that is driven over the link of its open request.
ghost use Rattle.std.specs.Prelude.{◌≡◌, None, Some, Result};
ghost use Rattle.two_wire.specs.declared.Bus.{Bus as AnyBus};
ghost use Rattle.wire_links.specs.declared.link.Heard.{Heard as AnyHeard};
ghost use Rattle.wire_links.specs.declared.link.LinkFault.{LinkFault as AnyFault};
ghost use Rattle.wire_links.specs.Trace.{Gives};
ghost use Rattle.undo_look.specs.Looks.{IsStepResult, again_at, awaited_on, begin_at, open_on, state_of};
ghost use Rattle.app_look.specs.Driven.{Drives, DrivenOn, Hears, IsGivenOn, IsOn, LooksOver, TurnsMade, end_at, moment, or_rests, quieted_at, state};

use two_wire::{Bus, Frame};
use undo_look::{Looker, Seen, Target, WrongPhase};
use wire_links::{Heard, Link};

/// How a look ended.
#[derive(Clone, Copy, Debug, PartialEq, Eq)]
pub enum LookEnd {
    /// The requests were answered: the looker has what the replies show.
    Shown,
    /// A request was refused: the looker has the code.
    Refused,
    /// A request wasn't answered.
    Silent,
}

impl LookEnd {
    /// How the look of this looker ended.
    fn of(looker: &Looker) -> LookEnd
        ensures { result ≡ end_at looker.now.stage }
    {
        match looker.seen() {
            Some(Seen::Shown(_)) => LookEnd::Shown,
            Some(Seen::Refused(_)) => LookEnd::Refused,
            None => LookEnd::Silent,
        }
    }
}

/// Begins a look at this. While an answer is awaited, the looker goes on as it is.
fn begin(looker: &mut Looker, target: &Target) -> Option<Frame>
    ensures { IsStepResult looker.new result
        (or_rests looker.old (begin_at (state_of looker.old) target.now looker.old.stage)) }
{
    match looker.begin(target) {
        Ok(sent) => sent,
        Err(WrongPhase) => None,
    }
}

/// Sends the request again that isn't heeded. Where there is none, the looker goes on as it is.
fn again(looker: &mut Looker) -> Option<Frame>
    ensures { IsStepResult looker.new result
        (or_rests looker.old (again_at (state_of looker.old) looker.old.stage)) }
{
    match looker.again() {
        Ok(sent) => sent,
        Err(WrongPhase) => None,
    }
}

/// Tells the looker that no answer came. Where it awaits none, nothing changes.
fn be_quiet(looker: &mut Looker) -> Option<Frame>
    ensures { IsStepResult looker.new result (quieted_at looker.old) }
{
    match looker.quiet() {
        Ok(sent) => sent,
        Err(WrongPhase) => None,
    }
}

/// Sends what a looker gave over the link of its bus. Where that fails, the looker is told at once that no answer came, and what it gives
/// then is sent in its turn.
fn send_now<L: Link>(looker: &mut Looker, first: Option<Frame>, bus: Bus, link: &mut L)
    requires on { IsOn bus looker.old.stage }
    requires given { IsGivenOn bus looker.old.stage first }
    ensures drives { Drives L.Link bus 0 (moment (state looker.old first) link.old)
        (moment (state looker.new None) link.new) }
    ensures on { IsOn bus looker.new.stage }
{
    let mut sent = first;
    while let Some(frame) = sent {
        match link.send(&frame) {
            Ok(()) => return,
            Err(_) => sent = be_quiet(looker),
        }
    }
}

/// One call of `next` of the link of this bus, and what the looker gives for it.
fn hear<L: Link>(looker: &mut Looker, bus: Bus, link: &mut L) -> Option<Frame>
    ensures { (answer : Result AnyHeard AnyFault)
        × Gives L.Link link.old answer link.new
        × Hears bus answer (state looker.old None) (state looker.new result) }
{
    match link.next() {
        Ok(Heard::Frame(frame)) => looker.on_frame(bus, frame.as_slice()),
        Ok(Heard::Quiet) | Err(_) => be_quiet(looker),
    }
}

/// One turn, while the looker awaits an answer on this bus: it hears the link, and all that the looker gives is sent.
fn turn<L: Link>(looker: &mut Looker, bus: Bus, link: &mut L)
    requires { awaited_on looker.old.stage ≡ Some bus }
    ensures drives { Drives L.Link bus 1 (moment (state looker.old None) link.old)
        (moment (state looker.new None) link.new) }
    ensures on { IsOn bus looker.new.stage }
{
    let sent = hear(looker, bus, link);
    send_now(looker, sent, bus, link);
}

/// Makes so many turns, or those until no answer is awaited.
fn make_turns<L: Link>(looker: &mut Looker, bus: Bus, link: &mut L, turns: u32)
    requires { IsOn bus looker.old.stage }
    ensures { TurnsMade L.Link bus turns (moment (state looker.old None) link.old)
        (moment (state looker.new None) link.new) }
{
    for _ in 0..turns {
        let Some(_) = looker.awaits() else {
            return;
        };
        turn(looker, bus, link);
    }
}

/// Sends what a looker gave over the link of its bus, and makes so many turns, or those until no answer is awaited.
fn drive_on<L: Link>(looker: &mut Looker, first: Option<Frame>, bus: Bus, link: &mut L, turns: u32)
    requires on { IsOn bus looker.old.stage }
    requires given { IsGivenOn bus looker.old.stage first }
    ensures { TurnsMade L.Link bus turns (moment (state looker.old first) link.old)
        (moment (state looker.new None) link.new) }
{
    send_now(looker, first, bus, link);
    make_turns(looker, bus, link, turns);
}

/// The same, over the link of the looker's open request, if it has one.
fn drive<A: Link, B: Link>(
    looker: &mut Looker,
    first: Option<Frame>,
    ipmb: &mut A,
    smbus: &mut B,
    turns: u32,
)
    requires { (on : AnyBus) → IsOn on looker.old.stage → IsGivenOn on looker.old.stage first }
    ensures { DrivenOn A.Link B.Link turns (state looker.old first) ipmb.old smbus.old looker.new
        ipmb.new smbus.new (open_on looker.old.stage) }
{
    match looker.open_bus() {
        Some(Bus::Ipmb) => drive_on(looker, first, Bus::Ipmb, ipmb, turns),
        Some(Bus::Smbus) => drive_on(looker, first, Bus::Smbus, smbus, turns),
        None => {}
    }
}

/// Has a looker look at this: sends its first request, and each frame that the looker gives, over the link of the request, and hears that
/// link, until the look came to its end, or a request isn't heeded any more, or the link's `next` was called as often as there are turns.
///
/// Where nothing comes, and where the link fails, the looker is told that no answer came.
pub fn drive_look<A: Link, B: Link>(
    looker: &mut Looker,
    target: &Target,
    ipmb: &mut A,
    smbus: &mut B,
    turns: u32,
) -> LookEnd
    ensures { LooksOver A.Link B.Link turns
        (or_rests looker.old (begin_at (state_of looker.old) target.now looker.old.stage))
        ipmb.old smbus.old looker.new result ipmb.new smbus.new }
{
    let first = begin(looker, target);
    drive(looker, first, ipmb, smbus, turns);
    LookEnd::of(&*looker)
}

/// Has the looker go on with a look whose request isn't heeded any more: that is sent again, and the look goes on as of `drive_look`.
pub fn drive_again<A: Link, B: Link>(
    looker: &mut Looker,
    ipmb: &mut A,
    smbus: &mut B,
    turns: u32,
) -> LookEnd
    ensures { LooksOver A.Link B.Link turns
        (or_rests looker.old (again_at (state_of looker.old) looker.old.stage))
        ipmb.old smbus.old looker.new result ipmb.new smbus.new }
{
    let first = again(looker);
    drive(looker, first, ipmb, smbus, turns);
    LookEnd::of(&*looker)
}
