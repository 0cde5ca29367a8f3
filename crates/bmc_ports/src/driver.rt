//! A manager that is driven over two links.
ghost use Rattle.std.specs.Prelude.{◌≡◌, [], ◌∷◌, Result, Some, None, OnOk, OnErr};
ghost use Rattle.wire_links.specs.declared.link.Heard.{Heard as AnyHeard};
ghost use Rattle.wire_links.specs.declared.link.LinkFault.{LinkFault as AnyFault};
ghost use Rattle.wire_links.specs.Trace.{Gives, SendsTo};
ghost use Rattle.undo_plans.specs.declared.names.Names.{Names};
ghost use Rattle.model_undo.specs.declared.call.Call.TheVariants as call;
ghost use Rattle.undo_core.specs.Shown.{Represents};
ghost use Rattle.undo_core.specs.Course.{Calls, InputResult};
ghost use Rattle.bmc_ports.specs.Conversation.{HeardAndSent, GivesOn, SendsOn, frames_given, links};
ghost use Rattle.bmc_ports.specs.Driving.{DrivenState, Answers, call_for, both, CountsFailures, faults_in, HaveCounted, LinkFails, open_at, LeadsTo, DriveResult};
ghost use Rattle.bmc_ports.specs.Observing.{MaySend, Unseen, Observed, DrivesTo, SentAll, permit_at, permit_of, permit_for};

use crate::observer::{KeptBack, NoObserver, Observer};
use two_wire::{Bus, Frame};
use undo_core::{Manager, Phase, Sent};
use wire_links::{Heard, Link, LinkFault};

/// How a drive ends that is looked at: in this phase, and all that the manager gave was sent, up to a fault; or a look kept its frames back.
pub type DriveEnd = Result<Phase, KeptBack>;

/// Sends frames in their order, up to the first whose sending fails.
fn send_frames<L: Link>(link: &mut L, frames: &[Frame]) -> Result<(), LinkFault>
    ensures sends { SendsTo L.Link result link.old frames.now link.new }
    ensures counts { CountsFailures (faults_in result)
        (L.counts_of link.old) (L.counts_of link.new) }
{
    for frame in frames {
        match link.send(frame) {
            Ok(()) => {}
            Err(fault) => return Err(fault),
        }
    }
    Ok(())
}

/// Sends a request's frames over the link of its bus, up to the first whose sending fails.
fn send_over<A: Link, B: Link>(ipmb: &mut A, smbus: &mut B, sent: &Sent) -> Result<(), LinkFault>
    ensures over { SendsOn A.Link B.Link sent.now.bus (links ipmb.old smbus.old)
        sent.now.frames.items result (links ipmb.new smbus.new) }
    ensures done { OnOk result (HaveCounted [] (both (A.counts_of ipmb.old) (B.counts_of smbus.old))
        (both (A.counts_of ipmb.new) (B.counts_of smbus.new))) }
    ensures fails { OnErr result (LinkFails (both (A.counts_of ipmb.old) (B.counts_of smbus.old))
        (both (A.counts_of ipmb.new) (B.counts_of smbus.new))) }
{
    match sent.bus {
        Bus::Ipmb => send_frames(ipmb, sent.frames.as_slice()),
        Bus::Smbus => send_frames(smbus, sent.frames.as_slice()),
    }
}

/// Tells the manager that no reply came. Where it awaits none, nothing changes.
fn be_quiet(manager: &mut Manager) -> Option<Sent>
    ensures { (names : Names) (s : DrivenState names) → Represents names manager.old s
        → InputResult names (Calls call.Quiet) s manager.new result }
{
    match manager.quiet() {
        Ok(sent) => sent,
        Err(_) => None,
    }
}

/// More often than a manager gives frames one after another where each sending of them fails: it counts in a byte how often it gave them again.
const MOST_SENDINGS: u16 = 256;

/// Sends what a manager gave. Where a frame's sending fails, those behind it aren't sent: the manager is told at once that no reply came,
/// and what it gives then is sent in its turn.
fn send_all<A: Link, B: Link>(
    manager: &mut Manager,
    first: Option<Sent>,
    ipmb: &mut A,
    smbus: &mut B,
)
    ensures leads { (names : Names) (s : DrivenState names) → Represents names manager.old s
        → LeadsTo names 0 s manager.new (both (A.counts_of ipmb.old) (B.counts_of smbus.old))
        (both (A.counts_of ipmb.new) (B.counts_of smbus.new)) }
    ensures over { (names : Names) (s : DrivenState names) → Represents names manager.old s
        → SentAll A.Link B.Link names s first manager.new (links ipmb.old smbus.old)
        (links ipmb.new smbus.new) }
{
    let mut sent = first;
    for _ in 0..MOST_SENDINGS {
        let Some(sending) = sent else {
            return;
        };
        match send_over(ipmb, smbus, &sending) {
            Ok(()) => return,
            Err(_) => sent = be_quiet(manager),
        }
    }
    let _fewer = manager.resent();
}

/// One call of `next` of a link, and what the manager gives for it.
fn hear<L: Link>(manager: &mut Manager, bus: Bus, link: &mut L) -> Option<Sent>
    ensures { (answer : Result AnyHeard AnyFault)
        × Gives L.Link link.old answer link.new
        × ((names : Names) (s : DrivenState names) → Represents names manager.old s
        → InputResult names (call_for (Answers bus answer)) s manager.new result) }
{
    match link.next() {
        Ok(Heard::Frame(frame)) => manager.on_frame(bus, frame.as_slice()),
        Ok(Heard::Quiet) | Err(_) => be_quiet(manager),
    }
}

/// The same of the link of this bus.
fn hear_on<A: Link, B: Link>(
    manager: &mut Manager,
    bus: Bus,
    ipmb: &mut A,
    smbus: &mut B,
) -> Option<Sent>
    ensures { (answer : Result AnyHeard AnyFault)
        × GivesOn A.Link B.Link bus (links ipmb.old smbus.old) answer (links ipmb.new smbus.new)
        × HaveCounted (Answers bus answer ∷ [])
        (both (A.counts_of ipmb.old) (B.counts_of smbus.old))
        (both (A.counts_of ipmb.new) (B.counts_of smbus.new))
        × ((names : Names) (s : DrivenState names) → Represents names manager.old s
        → InputResult names (call_for (Answers bus answer)) s manager.new result) }
{
    match bus {
        Bus::Ipmb => hear(manager, bus, ipmb),
        Bus::Smbus => hear(manager, bus, smbus),
    }
}

/// Has the manager looked at, and sends what it gave where the look allows that. It gives whether it did.
fn send_seen<A: Link, B: Link, O: Observer>(
    manager: &mut Manager,
    given: Option<Sent>,
    ipmb: &mut A,
    smbus: &mut B,
    observer: &mut O,
) -> bool
    ensures leads { (names : Names) (s : DrivenState names) → Represents names manager.old s
        → LeadsTo names 0 s manager.new (both (A.counts_of ipmb.old) (B.counts_of smbus.old))
        (both (A.counts_of ipmb.new) (B.counts_of smbus.new)) }
    ensures observed { Observed O.sees A.Link B.Link Unseen given manager.old manager.new
        (links ipmb.old smbus.old) (links ipmb.new smbus.new) (permit_of result)
        observer.old observer.new }
{
    if !observer.look(manager) {
        return false;
    }
    send_all(manager, given, ipmb, smbus);
    true
}

/// One turn, while the manager's request is open on this bus: it hears the link of that bus and is looked at, and all that it gives is sent
/// where the look allows that. It gives whether it did.
fn turn<A: Link, B: Link, O: Observer>(
    manager: &mut Manager,
    bus: Bus,
    ipmb: &mut A,
    smbus: &mut B,
    observer: &mut O,
) -> bool
    requires open { (names : Names) (s : DrivenState names) → Represents names manager.old s
        → open_at names s ≡ Some bus }
    ensures leads { (names : Names) (s : DrivenState names) → Represents names manager.old s
        → LeadsTo names 1 s manager.new (both (A.counts_of ipmb.old) (B.counts_of smbus.old))
        (both (A.counts_of ipmb.new) (B.counts_of smbus.new)) }
    ensures observed { Observed O.sees A.Link B.Link MaySend None manager.old manager.new
        (links ipmb.old smbus.old) (links ipmb.new smbus.new) (permit_of result)
        observer.old observer.new }
{
    let given = hear_on(manager, bus, ipmb, smbus);
    send_seen(manager, given, ipmb, smbus, observer)
}

/// Makes so many turns, or those until no request is open or a look keeps frames back.
fn make_turns<A: Link, B: Link, O: Observer>(
    manager: &mut Manager,
    ipmb: &mut A,
    smbus: &mut B,
    turns: u32,
    observer: &mut O,
) -> DriveEnd
    ensures drives { (names : Names) (s : DrivenState names) → Represents names manager.old s
        → DrivesTo names turns s manager.new result
        (both (A.counts_of ipmb.old) (B.counts_of smbus.old))
        (both (A.counts_of ipmb.new) (B.counts_of smbus.new)) }
    ensures observed { Observed O.sees A.Link B.Link MaySend None manager.old manager.new
        (links ipmb.old smbus.old) (links ipmb.new smbus.new) (permit_at result)
        observer.old observer.new }
{
    for _ in 0..turns {
        let Some(bus) = manager.open_bus() else {
            return Ok(manager.phase());
        };
        if !turn(manager, bus, ipmb, smbus, observer) {
            return Err(KeptBack);
        }
    }
    Ok(manager.phase())
}

/// Has the manager looked at where there is something to send first, and sends that. It gives whether it was let.
fn send_first<A: Link, B: Link, O: Observer>(
    manager: &mut Manager,
    first: Option<Sent>,
    ipmb: &mut A,
    smbus: &mut B,
    observer: &mut O,
) -> bool
    ensures leads { (names : Names) (s : DrivenState names) → Represents names manager.old s
        → LeadsTo names 0 s manager.new (both (A.counts_of ipmb.old) (B.counts_of smbus.old))
        (both (A.counts_of ipmb.new) (B.counts_of smbus.new)) }
    ensures observed { Observed O.sees A.Link B.Link (permit_for (frames_given first)) first
        manager.old manager.new (links ipmb.old smbus.old) (links ipmb.new smbus.new)
        (permit_of result) observer.old observer.new }
{
    match first {
        Some(sent) => send_seen(manager, Some(sent), ipmb, smbus, observer),
        None => true,
    }
}

/// Drives a manager as `drive` does, while an observer looks at it: before what was given to send first goes out, and behind each call of
/// `next`, before what the manager gave for that goes out. A look that doesn't allow that ends the drive at once, and nothing is sent behind
/// it.
///
/// What the manager gives where a sending failed goes out by the same look: the manager sends its open request again, and its journal stays
/// as it was. Where there is nothing to send first, nothing is looked at before the first turn.
pub fn drive_observed<A: Link, B: Link, O: Observer>(
    manager: &mut Manager,
    first: Option<Sent>,
    ipmb: &mut A,
    smbus: &mut B,
    turns: u32,
    observer: &mut O,
) -> DriveEnd
    ensures drives { (names : Names) (s : DrivenState names) → Represents names manager.old s
        → DrivesTo names turns s manager.new result
        (both (A.counts_of ipmb.old) (B.counts_of smbus.old))
        (both (A.counts_of ipmb.new) (B.counts_of smbus.new)) }
    ensures observed { Observed O.sees A.Link B.Link (permit_for (frames_given first)) first
        manager.old manager.new (links ipmb.old smbus.old) (links ipmb.new smbus.new)
        (permit_at result) observer.old observer.new }
{
    if !send_first(manager, first, ipmb, smbus, observer) {
        return Err(KeptBack);
    }
    make_turns(manager, ipmb, smbus, turns, observer)
}

/// Drives a manager over IPMB's link and SMBus's: sends what `start`, `undo` or `again` gave, and what the manager gives from then on, until
/// no request of it is open, or both links' `next` was called as often as there are turns. It gives the phase.
///
/// It hears the link of the open request. Where nothing comes, and where a link fails, the manager is told that no reply came. An unsettled
/// request is open too, and heeds nothing: then all turns are made.
pub fn drive<A: Link, B: Link>(
    manager: &mut Manager,
    first: Option<Sent>,
    ipmb: &mut A,
    smbus: &mut B,
    turns: u32,
) -> Phase
    ensures drives { (names : Names) (s : DrivenState names) → Represents names manager.old s
        → DriveResult names turns s manager.new result
        (both (A.counts_of ipmb.old) (B.counts_of smbus.old))
        (both (A.counts_of ipmb.new) (B.counts_of smbus.new)) }
    ensures over { (names : Names) (s : DrivenState names) → Represents names manager.old s
        → HeardAndSent A.Link B.Link names s first manager.new (links ipmb.old smbus.old)
        (links ipmb.new smbus.new) }
{
    let mut nobody = NoObserver;
    match drive_observed(manager, first, ipmb, smbus, turns, &mut nobody) {
        Ok(phase) => phase,
        Err(KeptBack) => unreachable!(),
    }
}
