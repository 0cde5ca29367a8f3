//! Links over UDP, on the loopback address.
ghost use Rattle.std.specs.Prelude.{◌≤◌, length};

use super::shared::expect_equal;
use std::net::{Net, UdpSocket};
use std::process::Abort;
use two_wire::Frame;
use wire_links::{Counts, Heard, Link, LinkFault, UdpLink};

/// So long a link waits for a datagram that was sent.
const WAIT_MS: u32 = 5_000;

/// A link that is bound to a free port, and that port.
fn bind<R: Net + Abort>(rt: &R, wait_ms: u32) -> (UdpLink, u16) {
    let bound = UdpLink::bind(rt, 0, wait_ms).ok().expect(rt, "a link");
    let port = bound.port().ok().expect(rt, "a port");
    (bound, port)
}

/// A link that sends to this port.
fn link_to<R: Net + Abort>(rt: &R, port: u16, wait_ms: u32) -> UdpLink {
    UdpLink::to(rt, port, wait_ms).ok().expect(rt, "a link")
}

/// The link hears these bytes.
fn expect_heard(rt: &impl Abort, link: &mut UdpLink, bytes: &[u8]) {
    match link.next() {
        Ok(Heard::Frame(frame)) => assert!(rt; frame.is(bytes)),
        _ => panic!(rt; "no frame"),
    }
}

/// One link sends these bytes, and the other hears them.
fn expect_passed(rt: &impl Abort, from: &mut UdpLink, to: &mut UdpLink, bytes: &[u8])
    requires { length bytes.now ≤ 80 }
{
    let sent = from.send(&Frame::from_slice(bytes));
    assert!(rt; sent == Ok(()));
    expect_heard(rt, to, bytes);
}

/// The link hears nothing.
fn expect_quiet(rt: &impl Abort, link: &mut UdpLink) {
    let heard = link.next();
    assert!(rt; heard == Ok(Heard::Quiet));
}

/// The link counted this.
fn expect_counts(rt: &impl Abort, link: &UdpLink, counts: Counts) {
    expect_equal(rt, "counts", link.counts(), counts);
}

#[test]
fn a_bound_link_answers_the_one_that_it_heard(rt: HostRuntime) {
    let (mut bound, port) = bind(&rt, WAIT_MS);
    let mut client = link_to(&rt, port, WAIT_MS);
    expect_passed(&rt, &mut client, &mut bound, &[0x20, 0x10, 0xD0]);
    expect_passed(&rt, &mut bound, &mut client, &[0x2C; 80]);
    let each_way = Counts {
        failures: 0,
        calls: 1,
        heard: 1,
        sends: 1,
    };
    expect_counts(&rt, &bound, each_way);
    expect_counts(&rt, &client, each_way);
}

#[test]
fn a_bound_link_that_heard_nobody_fails_to_send(rt: HostRuntime) {
    let (mut bound, _) = bind(&rt, 0);
    let sent = bound.send(&Frame::from_slice(&[1]));
    assert!(rt; sent == Err(LinkFault::NobodyThere));
    expect_quiet(&rt, &mut bound);
    let failed = Counts {
        failures: 1,
        calls: 1,
        heard: 0,
        sends: 1,
    };
    expect_counts(&rt, &bound, failed);
}

/// The socket sends the bytes to this port.
fn send_by(rt: &impl Abort, socket: &UdpSocket, port: u16, bytes: &[u8]) {
    let sent = socket.send_to(bytes, ("127.0.0.1", port)).ok();
    assert!(rt; sent == Some(bytes.len()));
}

#[test]
fn a_datagram_of_81_bytes_is_heard_as_an_empty_frame(rt: HostRuntime) {
    let (mut bound, port) = bind(&rt, WAIT_MS);
    let stranger = UdpSocket::bind(&rt, "127.0.0.1:0").ok();
    let stranger = stranger.expect(&rt, "a socket");
    send_by(&rt, &stranger, port, &[7; 81]);
    send_by(&rt, &stranger, port, &[]);
    send_by(&rt, &stranger, port, &[7; 80]);
    send_by(&rt, &stranger, port, &[9; 1000]);
    expect_heard(&rt, &mut bound, &[]);
    expect_heard(&rt, &mut bound, &[]);
    expect_heard(&rt, &mut bound, &[7; 80]);
    expect_heard(&rt, &mut bound, &[]);
    let four_heard = Counts {
        failures: 0,
        calls: 4,
        heard: 4,
        sends: 0,
    };
    expect_counts(&rt, &bound, four_heard);
}

#[test]
fn the_last_that_was_heard_is_answered(rt: HostRuntime) {
    let (mut bound, port) = bind(&rt, WAIT_MS);
    let mut client = link_to(&rt, port, WAIT_MS);
    let mut other = link_to(&rt, port, WAIT_MS);
    expect_passed(&rt, &mut client, &mut bound, &[1]);
    expect_passed(&rt, &mut other, &mut bound, &[2]);
    expect_passed(&rt, &mut bound, &mut other, &[3]);
}

#[test]
fn a_port_that_is_taken_is_not_bound_again(rt: HostRuntime) {
    let (_bound, port) = bind(&rt, 1);
    assert!(rt; UdpLink::bind(&rt, port, 1).is_err());
}

#[test]
fn a_link_waits_no_longer_than_it_is_told(rt: HostRuntime) {
    let (mut bound, port) = bind(&rt, 1);
    expect_quiet(&rt, &mut bound);
    expect_quiet(&rt, &mut link_to(&rt, port, 0));
}
