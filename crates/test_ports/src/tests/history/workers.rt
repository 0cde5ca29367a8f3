//! Two workers and a scanner on one board.
ghost use Rattle.std.specs.Prelude.{◌≡◌};
ghost use Rattle.bmc_board.specs.State.{state_of};

use super::gates::{Counted, Crossed, Mixed};
use super::links::link_of;
use super::seats::code_at;
use super::{expect_equal, history_of, open_sample, open_shared};
use bmc_board::{Bench, Board, Records};
use bmc_core::{At, Port};
use bmc_ports::{Call, End, Gate, History, Link, MemLink, Opening, run_two, serve_port};
use mctp_net::EndpointId;
use std::alloc::Global;
use std::marker::Brand;
use std::process::Abort;
use std::sync::Wait;
use std::sync::ledger::Blank;
use std::thread::Threads;
use two_wire::{Address, Bus, Frame};

const READING: Bench = Bench::Reading {
    sensor: 5,
    raw: 0x55,
};

/// A Set of boot parameter 5, and its reply.
const SET_BOOT: &[u8] = &[
    0x20, 0x00, 0xE0, 0x2C, 0x00, 0x08, 0x05, 0x80, 0x04, 0x00, 0x00, 0x00, 0x43,
];

const BOOT_SET: &[u8] = &[0x2C, 0x04, 0xD0, 0x20, 0x00, 0x08, 0x00, 0xD8];

/// A Get of it, and its reply: the value that was set.
const GET_BOOT: &[u8] = &[0x20, 0x00, 0xE0, 0x2C, 0x04, 0x09, 0x05, 0x00, 0x00, 0xC2];

const BOOT_GOT: &[u8] = &[
    0x2C, 0x04, 0xD0, 0x20, 0x04, 0x09, 0x00, 0x01, 0x05, 0x80, 0x04, 0x00, 0x00, 0x00, 0x49,
];

/// That Get with a last check byte that is wrong.
const DAMAGED: &[u8] = &[0x20, 0x00, 0xE0, 0x2C, 0x04, 0x09, 0x05, 0x00, 0x00, 0xC3];

/// GetTID, and its reply.
const GET_TID: &[u8] = &[
    0x20, 0x0F, 0x09, 0x31, 0x01, 0x0A, 0x08, 0xC8, 0x01, 0x80, 0x00, 0x02, 0xBE,
];

const TID: &[u8] = &[
    0x30, 0x0F, 0x0B, 0x21, 0x01, 0x08, 0x0A, 0xC0, 0x01, 0x00, 0x00, 0x02, 0x00, 0x05, 0x1C,
];

/// GetPLDMTypes, under instance 1.
const GET_TYPES: &[u8] = &[
    0x20, 0x0F, 0x09, 0x31, 0x01, 0x0A, 0x08, 0xC9, 0x01, 0x81, 0x00, 0x04, 0xA5,
];

/// GetTID under instance 2, and its reply.
const GET_TID_2: &[u8] = &[
    0x20, 0x0F, 0x09, 0x31, 0x01, 0x0A, 0x08, 0xCA, 0x01, 0x82, 0x00, 0x02, 0xAC,
];

const TID_2: &[u8] = &[
    0x30, 0x0F, 0x0B, 0x21, 0x01, 0x08, 0x0A, 0xC2, 0x01, 0x02, 0x00, 0x02, 0x00, 0x05, 0x61,
];

/// The control message Get Endpoint ID, and its reply.
const GET_ENDPOINT: &[u8] = &[
    0x20, 0x0F, 0x08, 0x31, 0x01, 0x0A, 0x08, 0xC8, 0x00, 0x80, 0x02, 0x4D,
];

const ENDPOINT: &[u8] = &[
    0x30, 0x0F, 0x0C, 0x21, 0x01, 0x08, 0x0A, 0xC0, 0x00, 0x00, 0x02, 0x00, 0x0A, 0x00, 0x00, 0x40,
];

/// What a run is of: the scripts of both links, what happens on the bench, and how many turns each worker makes.
#[derive(Clone, Copy)]
struct Script<'a> {
    first: &'a [&'a [u8]],
    second: &'a [&'a [u8]],
    bench: &'a [Bench],
    turns: u32,
}

/// A port of the controller at its address on this bus.
fn port_on(rt: &impl Abort, alloc: Global, bus: Bus) -> Port {
    let at = At {
        wire: Address::new(0x20).unwrap(),
        eid: EndpointId::new(0x0A).unwrap(),
    };
    Port::new(alloc, bus, at).expect(rt, "memory")
}

/// What both workers sent, why the three ended, and the history.
#[derive(Drop)]
struct Told {
    first: MemLink,
    second: MemLink,
    ends: [End; 3],
    history: History,
}

/// Has two workers and a scanner share a board.
fn share<J: Opening + Send + Sync, G: Gate + Sync, R: Threads + Wait + Abort + Sync>(
    rt: &R,
    alloc: Global,
    blank: Blank,
    board: Board<Records>,
    room: usize,
    script: &Script<'_>,
    gate: &G,
) -> Told
    requires name { blank.name ≡ J.name }
    requires parts { blank.parts ≡ J.parts }
    requires three { blank.parts ≡ 3 }
    requires setup { board.setup ≡ J.setup }
    requires opening { state_of board ≡ J.opening }
    requires room { room ≡ J.room }
{
    let (shared, seats) = open_shared::<J, R>(rt, alloc, blank, board, room);
    let ports = [
        port_on(rt, alloc, Bus::Ipmb),
        port_on(rt, alloc, Bus::Smbus),
    ];
    let mut first = link_of(rt, alloc, script.first);
    let mut second = link_of(rt, alloc, script.second);
    let ran = run_two(
        rt,
        &shared,
        seats,
        ports,
        &mut first,
        &mut second,
        script.bench,
        gate,
        script.turns,
    );
    let (seats, ends) = ran.ok().expect(rt, "three threads");
    Told {
        first,
        second,
        ends,
        history: history_of(rt, shared, seats),
    }
}

/// The same, with a ledger of its own.
fn share_at<G: Gate + Sync, R: Threads + Wait + Abort + Sync>(
    rt: &R,
    alloc: Global,
    board: Board<Records>,
    room: usize,
    script: &Script<'_>,
    gate: &G,
) -> Told {
    share::<Brand, G, R>(rt, alloc, Blank::new(3), board, room, script, gate)
}

/// The same, of the sample board.
fn share_sample<G: Gate + Sync, R: Threads + Wait + Abort + Sync>(
    rt: &R,
    alloc: Global,
    script: &Script<'_>,
    gate: &G,
) -> Told {
    let board = open_sample(rt, alloc);
    share_at::<G, R>(rt, alloc, board, 8, script, gate)
}

/// Whether these frames were sent, and no others.
fn are_sent(sent: &[Frame], wanted: &[&[u8]]) -> bool {
    if sent.len() != wanted.len() {
        return false;
    }
    for (frame, bytes) in sent.iter().zip(wanted.iter()) {
        if !frame.is(bytes) {
            return false;
        }
    }
    true
}

/// The link of this name sent these frames, and no others.
fn expect_sent(rt: &impl Abort, name: &str, link: &MemLink, wanted: &[&[u8]]) {
    assert!(rt; are_sent(link.sent(), wanted), "{name}");
}

/// The place of a seat's first event.
fn place_of(history: &History, seat: u8) -> Option<usize> {
    for place in 0..history.len() {
        if history.get(place)?.seat == seat {
            return Some(place);
        }
    }
    None
}

/// Port 1 has an event before each of port 0.
fn expect_second_first(rt: &impl Abort, history: &History) {
    let first = place_of(history, 0).expect(rt, "an event of port 0");
    let second = place_of(history, 1).expect(rt, "an event of port 1");
    assert!(rt; second < first, "port 0 came first");
}

#[test]
fn a_gate_lets_port_1_answer_before_port_0(rt: HostRuntime) {
    let script = Script {
        first: &[SET_BOOT, GET_BOOT],
        second: &[GET_TID],
        bench: &[READING],
        turns: 3,
    };
    let gate = Crossed::new();
    let told = share_sample(&rt, rt.alloc(), &script, &gate);
    expect_equal(&rt, "workers that waited too long", gate.gave_up(), 0);
    expect_equal(&rt, "ends", told.ends, [End::Turns, End::Turns, End::Turns]);
    expect_sent(&rt, "port 0", &told.first, &[BOOT_SET, BOOT_GOT]);
    expect_sent(&rt, "port 1", &told.second, &[TID]);
    expect_equal(&rt, "events", told.history.len(), 4);
    expect_second_first(&rt, &told.history);
}

/// Whether the board answers the call at this place so.
fn answers_at(board: &mut Board<Records>, history: &History, place: usize) -> bool {
    match history.get(place) {
        Some(event) => match &event.call {
            Call::Exchanged { asked, answered } => board.answer(asked).is(answered),
            Call::Benched { bench, answered } => board.bench(*bench) == *answered,
        },
        None => false,
    }
}

/// The sample board answers the calls of the history that workers of this seed left, in their order, as they were answered then.
fn expect_replays(rt: &impl Abort, alloc: Global, history: &History, seed: u64) {
    let mut other = open_sample(rt, alloc);
    for place in 0..history.len() {
        assert!(rt;
            answers_at(&mut other, history, place),
            "seed {seed}, place {place}"
        );
    }
    drop(other);
}

/// Workers whom a gate of this seed holds leave a history of so many events, and a second board answers it so.
fn expect_replayed<R: Threads + Wait + Abort + Sync>(
    rt: &R,
    alloc: Global,
    script: &Script<'_>,
    seed: u64,
    events: usize,
) {
    let told = share_sample(rt, alloc, script, &Mixed { seed });
    expect_equal(rt, "events", told.history.len(), events);
    expect_replays(rt, alloc, &told.history, seed);
    drop(told);
}

#[test]
fn whoever_goes_first_a_second_board_answers_the_history_so(rt: HostRuntime) {
    let script = Script {
        first: &[SET_BOOT, GET_BOOT],
        second: &[GET_TID, GET_TYPES, GET_TID_2],
        bench: &[READING, Bench::Tick],
        turns: 4,
    };
    for seed in 0..300u64 {
        expect_replayed(&rt, rt.alloc(), &script, seed, 7);
    }
}

/// One worker that serves a port of a board: its port, its link, its gate and its turns.
#[derive(Drop)]
struct Alone {
    port: Port,
    link: MemLink,
    gate: Counted,
    turns: u32,
}

/// Has one worker alone serve a port of a board: why it ended, and the history.
fn serve_alone<J: Opening, R: Wait + Abort>(
    rt: &R,
    alloc: Global,
    blank: Blank,
    board: Board<Records>,
    room: usize,
    alone: &mut Alone,
) -> (End, History)
    requires name { blank.name ≡ J.name }
    requires parts { blank.parts ≡ J.parts }
    requires three { blank.parts ≡ 3 }
    requires setup { board.setup ≡ J.setup }
    requires opening { state_of board ≡ J.opening }
    requires room { room ≡ J.room }
{
    let (shared, mut seats) = open_shared::<J, R>(rt, alloc, blank, board, room);
    let Alone {
        port,
        link,
        gate,
        turns,
    } = alone;
    let end = serve_port(rt, &shared, &mut seats.first, port, link, gate, *turns);
    (end, history_of(rt, shared, seats))
}

/// The same, with a ledger of its own.
fn serve_alone_at<R: Wait + Abort>(
    rt: &R,
    alloc: Global,
    board: Board<Records>,
    room: usize,
    alone: &mut Alone,
) -> (End, History) {
    serve_alone::<Brand, R>(rt, alloc, Blank::new(3), board, room, alone)
}

/// What one worker alone does: its port's bus, its script, how many turns it makes, and for how many events there is room. Then why it ends,
/// what it sends, how many requests it carries out, how often it passes its gate, and how many frames it hears.
#[derive(Clone, Copy)]
struct Case {
    name: &'static str,
    bus: Bus,
    script: &'static [&'static [u8]],
    turns: u32,
    room: usize,
    end: End,
    sent: &'static [&'static [u8]],
    events: usize,
    passed: u64,
    calls: u64,
    heard: u64,
}

/// The worker does so.
fn expect_alone<R: Wait + Abort>(rt: &R, alloc: Global, case: Case) {
    let mut alone = Alone {
        port: port_on(rt, alloc, case.bus),
        link: link_of(rt, alloc, case.script),
        gate: Counted::new(),
        turns: case.turns,
    };
    let board = open_sample(rt, alloc);
    let (end, history) = serve_alone_at(rt, alloc, board, case.room, &mut alone);
    let counts = alone.link.counts();
    expect_equal(rt, case.name, end, case.end);
    expect_sent(rt, case.name, &alone.link, case.sent);
    expect_equal(rt, case.name, history.len(), case.events);
    expect_equal(rt, case.name, code_at(&history, 0), Some(0x00));
    expect_equal(rt, case.name, alone.gate.passed(), case.passed);
    expect_equal(
        rt,
        case.name,
        (counts.calls, counts.heard, counts.sends),
        (case.calls, case.heard, case.sent.len() as u64),
    );
}

const NO_ROOM: Case = Case {
    name: "a worker ends at the request that finds no room",
    bus: Bus::Ipmb,
    script: &[SET_BOOT, GET_BOOT],
    turns: 3,
    room: 1,
    end: End::Full,
    sent: &[BOOT_SET],
    events: 1,
    // It passes the gate before the request that finds no room, too.
    passed: 3,
    calls: 2,
    heard: 2,
};

const REPEAT: Case = Case {
    name: "a repeat and what is ignored pass no gate",
    bus: Bus::Ipmb,
    script: &[SET_BOOT, SET_BOOT, DAMAGED, GET_BOOT],
    turns: 5,
    room: 8,
    end: End::Turns,
    sent: &[BOOT_SET, BOOT_SET, BOOT_GOT],
    events: 2,
    passed: 4,
    calls: 5,
    heard: 4,
};

const CONTROL: Case = Case {
    name: "a control message passes no gate",
    bus: Bus::Smbus,
    script: &[GET_TID, GET_ENDPOINT, GET_TID, GET_TID_2],
    turns: 4,
    room: 8,
    end: End::Turns,
    sent: &[TID, ENDPOINT, TID, TID_2],
    events: 2,
    passed: 4,
    calls: 4,
    heard: 4,
};

#[test]
fn a_worker_alone_serves_a_port(rt: HostRuntime) {
    for case in [NO_ROOM, REPEAT, CONTROL] {
        expect_alone(&rt, rt.alloc(), case);
    }
}
