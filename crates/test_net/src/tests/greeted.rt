//! A greeting that is driven over a link.
use super::shared::expect_equal;
use super::wired::{Faulty, Wired};
use bmc_ports::{GreetEnd, drive_greeting};
use model_lab::lab_names;
use std::alloc::Global;
use std::process::Abort;
use two_wire::{Bus, Retries};
use undo_plans::Greeting;
use wire_links::{Counts, Link, MemLink};

/// Get Device ID with data, under sequence numbers 31 and 63.
const IPMB_31: [u8; 11] = [
    0x20, 0x18, 0xC8, 0x2C, 0x7C, 0x01, 0x48, 0x45, 0x4C, 0x4F, 0x2F,
];

const IPMB_63: [u8; 11] = [
    0x20, 0x18, 0xC8, 0x2C, 0xFC, 0x01, 0x48, 0x45, 0x4C, 0x4F, 0xAF,
];

/// Their replies: the length isn't taken, or the controller is busy.
const REFUSED_31: [u8; 8] = [0x2C, 0x1C, 0xB8, 0x20, 0x7C, 0x01, 0xC7, 0x9C];

const REFUSED_63: [u8; 8] = [0x2C, 0x1C, 0xB8, 0x20, 0xFC, 0x01, 0xC7, 0x1C];

const BUSY_31: [u8; 8] = [0x2C, 0x1C, 0xB8, 0x20, 0x7C, 0x01, 0xC0, 0xA3];

const TURNS: u32 = 20;

/// What came of a greeting: its end, the calls of `next`, and those of `send`.
type Met = (GreetEnd, u64, u64);

/// The greeting of a manager whose requests begin with number 0, with one retry.
fn greeting_on(bus: Bus) -> Greeting {
    Greeting::new(lab_names(), bus, 0, Retries::new(1))
}

/// A link that hears this script.
fn link_of(rt: &impl Abort, alloc: Global, script: &[&[u8]]) -> MemLink {
    MemLink::new(alloc, script).ok().expect(rt, "memory")
}

fn met(end: GreetEnd, counts: Counts) -> Met {
    (end, counts.calls, counts.sends)
}

/// A greeting on IPMB over a link that hears this script comes to this, and sends these frames.
fn expect_greeted(
    rt: &impl Abort,
    alloc: Global,
    script: &[&[u8]],
    turns: u32,
    wanted: Met,
    frames: &[&[u8]],
) {
    let mut link = link_of(rt, alloc, script);
    let mut greeting = greeting_on(Bus::Ipmb);
    let end = drive_greeting(&mut greeting, &mut link, turns);
    expect_equal(rt, "end, calls and frames", met(end, link.counts()), wanted);
    expect_equal(rt, "frames", link.sent().len(), frames.len());
    for (sent, frame) in link.sent().iter().zip(frames) {
        assert!(rt; sent.as_slice() == *frame);
    }
    drop(greeting);
    drop(link);
}

/// Both requests are answered, also where a reply was lost, where one comes again, and behind a
/// reply of a busy controller.
#[test]
fn answered_greeting_ends(rt: HostRuntime) {
    let alloc = rt.alloc();
    let both: [&[u8]; 2] = [&IPMB_31, &IPMB_63];
    let clean: [&[u8]; 2] = [&REFUSED_31, &REFUSED_63];
    expect_greeted(&rt, alloc, &clean, TURNS, (GreetEnd::Answered, 2, 2), &both);
    let repeated: [&[u8]; 3] = [&REFUSED_31, &REFUSED_31, &REFUSED_63];
    let heard = (GreetEnd::Answered, 3, 2);
    expect_greeted(&rt, alloc, &repeated, TURNS, heard, &both);
    let lost: [&[u8]; 4] = [&[], &REFUSED_31, &[], &REFUSED_63];
    let again: [&[u8]; 4] = [&IPMB_31, &IPMB_31, &IPMB_63, &IPMB_63];
    let heard = (GreetEnd::Answered, 4, 4);
    expect_greeted(&rt, alloc, &lost, TURNS, heard, &again);
    let busy: [&[u8]; 3] = [&BUSY_31, &REFUSED_31, &REFUSED_63];
    let heard = (GreetEnd::Answered, 3, 2);
    expect_greeted(&rt, alloc, &busy, TURNS, heard, &both);
}

/// A request that isn't answered is sent again once, and then the greeting ends. It tells a busy
/// controller from none, by the replies to the open request alone.
#[test]
fn unanswered_greeting_tells_busy_from_silent(rt: HostRuntime) {
    let alloc = rt.alloc();
    let twice: [&[u8]; 2] = [&IPMB_31, &IPMB_31];
    let silent = (GreetEnd::Silent, 2, 2);
    expect_greeted(&rt, alloc, &[], TURNS, silent, &twice);
    let replies: [&[u8]; 3] = [&BUSY_31, &[], &BUSY_31];
    let busy = (GreetEnd::Busy, 4, 2);
    expect_greeted(&rt, alloc, &replies, TURNS, busy, &twice);
    let first: [&[u8]; 3] = [&IPMB_31, &IPMB_63, &IPMB_63];
    let replies: [&[u8]; 2] = [&BUSY_31, &REFUSED_31];
    let silent = (GreetEnd::Silent, 4, 3);
    expect_greeted(&rt, alloc, &replies, TURNS, silent, &first);
}

/// Where the turns are over, a greeting can be gone on with.
#[test]
fn greeting_goes_on(rt: HostRuntime) {
    let script: [&[u8]; 2] = [&REFUSED_31, &REFUSED_63];
    let mut link = link_of(&rt, rt.alloc(), &script);
    let mut greeting = greeting_on(Bus::Ipmb);
    let end = drive_greeting(&mut greeting, &mut link, 1);
    let begun = (GreetEnd::Silent, 1, 2);
    expect_equal(&rt, "one turn", met(end, link.counts()), begun);
    let end = drive_greeting(&mut greeting, &mut link, TURNS);
    let over = (GreetEnd::Answered, 2, 2);
    expect_equal(&rt, "others", met(end, link.counts()), over);
    drop(greeting);
    drop(link);
}

/// A greeting on this bus over the link to a controller, whose call of this number fails.
fn met_at(rt: &impl Abort, alloc: Global, bus: Bus, failing_call: u32) -> Met {
    let mut link = Faulty::new(Wired::new(rt, alloc, bus), failing_call);
    let mut greeting = greeting_on(bus);
    let end = drive_greeting(&mut greeting, &mut link, TURNS);
    let counts = link.counts();
    drop(greeting);
    drop(link);
    met(end, counts)
}

/// A controller answers both requests on IPMB and the nine on SMBus, also where a call fails.
#[test]
fn controller_answers_a_greeting(rt: HostRuntime) {
    let alloc = rt.alloc();
    let clean = met_at(&rt, alloc, Bus::Ipmb, 0);
    expect_equal(&rt, "IPMB", clean, (GreetEnd::Answered, 2, 2));
    let clean = met_at(&rt, alloc, Bus::Smbus, 0);
    expect_equal(&rt, "SMBus", clean, (GreetEnd::Answered, 9, 9));
    // The first frame isn't sent, so it is sent again.
    let faulty = met_at(&rt, alloc, Bus::Ipmb, 1);
    expect_equal(&rt, "a sending", faulty, (GreetEnd::Answered, 2, 3));
    // The first reply isn't heard in the first turn, and comes behind it, before its copy.
    let faulty = met_at(&rt, alloc, Bus::Ipmb, 2);
    expect_equal(&rt, "a hearing", faulty, (GreetEnd::Answered, 4, 3));
}
