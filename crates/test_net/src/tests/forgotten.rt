//! A port that forgets a requester from which nothing comes for some turns.
use super::lent::{SET_REPLY, expect_sent, expect_served, new_lanes};
use super::served::SET;
use super::wired::open_sample;
use bmc_ports::End;
use std::alloc::Global;
use std::process::Abort;
use std::sync::Wait;
use std::thread::Threads;
use std::time::Clock;

/// A Get of boot parameter 5 by another requester, and its reply.
const OTHER_GET: [u8; 10] = [0x20, 0x00, 0xE0, 0x2E, 0x04, 0x09, 0x05, 0x00, 0x00, 0xC0];

const OTHER_REPLY: [u8; 15] = [
    0x2E, 0x04, 0xCE, 0x20, 0x04, 0x09, 0x00, 0x01, 0x05, 0x80, 0x04, 0x00, 0x00, 0x00, 0x49,
];

/// A Set, and then nothing from its requester for three turns. In the second and the fourth turn comes another's Get. Then come the Set twice,
/// and the Get once more.
const SCRIPT: [&[u8]; 7] = [&SET, &OTHER_GET, &[], &OTHER_GET, &SET, &SET, &OTHER_GET];

/// The reply to each, whether it is carried out or not.
const REPLIES: [&[u8]; 6] = [
    &SET_REPLY,
    &OTHER_REPLY,
    &OTHER_REPLY,
    &SET_REPLY,
    &SET_REPLY,
    &OTHER_REPLY,
];

/// How many turns the port on IPMB has for them.
const TURNS: u32 = 7;

/// So many requests are carried out where the port forgets those that are silent for so many turns, and each gets its reply.
fn expect_events<R: Threads + Wait + Clock + Abort + Sync>(
    rt: &R,
    alloc: Global,
    name: &str,
    forget: Option<u32>,
    events: usize,
) {
    let board = open_sample(rt, alloc);
    let lanes = new_lanes(rt, alloc, &SCRIPT, TURNS, forget);
    let wanted = (events, End::Turns, 0);
    let (board, lanes) = expect_served(rt, alloc, board, 8, lanes, name, wanted);
    drop(board);
    expect_sent(rt, name, lanes, &REPLIES);
}

#[test]
fn a_silent_requester_is_forgotten_and_another_one_is_not(rt: HostRuntime) {
    let alloc = rt.alloc();
    // The Set is carried out twice, its repeat isn't, and the other's Get is carried out once.
    expect_events(&rt, alloc, "silent for as many turns", Some(3), 3);
    expect_events(&rt, alloc, "silent for fewer turns", Some(4), 2);
    let name = "where no number is given nobody is forgotten";
    expect_events(&rt, alloc, name, None, 2);
}
