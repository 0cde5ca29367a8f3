//! A port of each kind, on the sample board.
use super::{either, ipmb, smbus};
use stories::open_sample;

/// A frame, a packet, and what comes to a port of either bus.
#[test]
fn a_port_of_each_kind_answers(rt: HostRuntime) {
    let mut board = open_sample(rt.alloc()).expect(&rt, "memory");
    ipmb::expect_answer(&rt, rt.alloc(), &mut board);
    smbus::expect_answer(&rt, rt.alloc(), &mut board);
    either::expect_answers(&rt, rt.alloc(), &mut board);
    drop(board);
}
