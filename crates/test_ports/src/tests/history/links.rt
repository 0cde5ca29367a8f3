//! A link in memory.
use super::expect_equal;
use bmc_ports::{Counts, Heard, Link, MOST_KEPT, MemFault, MemLink};
use std::alloc::Global;
use std::process::Abort;
use two_wire::Frame;

/// A link that hears this script.
pub(crate) fn link_of(rt: &impl Abort, alloc: Global, script: &[&[u8]]) -> MemLink {
    MemLink::new(alloc, script).ok().expect(rt, "a link")
}

/// Whether the link hears this next: a frame of these bytes, or nothing.
fn hears(link: &mut MemLink, wanted: Option<&[u8]>) -> bool {
    match link.next() {
        Ok(Heard::Frame(frame)) => wanted.is_some_and(|bytes| frame.is(bytes)),
        Ok(Heard::Quiet) => wanted.is_none(),
        Err(_) => false,
    }
}

/// So many calls of the link's `next` were made, so many frames were heard, so many were sent, and no call failed.
fn expect_counts(rt: &impl Abort, link: &MemLink, calls: u64, heard: u64, sends: u64) {
    let wanted = Counts {
        failures: 0,
        calls,
        heard,
        sends,
    };
    expect_equal(rt, "counts", link.counts(), wanted);
}

#[test]
fn a_link_hears_its_script_and_then_nothing(rt: HostRuntime) {
    let mut link = link_of(&rt, rt.alloc(), &[&[0x20, 0x10], &[], &[7u8; 80]]);
    assert!(rt; hears(&mut link, Some(&[0x20, 0x10])));
    assert!(rt; hears(&mut link, None));
    assert!(rt; hears(&mut link, Some(&[7u8; 80])));
    assert!(rt; hears(&mut link, None));
    expect_counts(&rt, &link, 4, 2, 0);
}

#[test]
fn the_first_frames_that_a_link_sends_are_kept(rt: HostRuntime) {
    let mut link = link_of(&rt, rt.alloc(), &[]);
    for number in 0..=255u8 {
        assert!(rt; link.send(&Frame::from_slice(&[number])).is_ok());
    }
    // One more is sent, and not kept.
    assert!(rt; link.send(&Frame::from_slice(&[1, 2])).is_ok());
    assert_eq!(rt; link.sent().len(), MOST_KEPT);
    assert!(rt; link.sent()[255].is(&[255]));
    expect_counts(&rt, &link, 0, 0, 257);
}

#[test]
fn a_frame_of_81_bytes_is_too_long(rt: HostRuntime) {
    let link = MemLink::new(rt.alloc(), &[&[0x20], &[7u8; 81]]);
    expect_equal(&rt, "a fault", link.err(), Some(MemFault::TooLong));
}
