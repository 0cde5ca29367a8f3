//! A port of either bus, by its calls.
use super::expect_out;
use bmc_board::{Board, Records};
use bmc_core::{At, Disposition, Out, Port, Step};
use mctp_net::EndpointId;
use std::alloc::Global;
use std::process::Abort;
use two_wire::{Address, Bus};

/// Get Sensor Thresholds of sensor 5, from 40h with sequence number 3.
const GET: &[u8] = &[0x20, 0x10, 0xD0, 0x40, 0x0C, 0x27, 0x05, 0x88];

/// Its response.
const GOT: &[u8] = &[
    0x40, 0x14, 0xAC, 0x20, 0x0C, 0x27, 0x00, 0x3F, 0x14, 0x0A, 0x05, 0x50, 0x5F, 0x6E, 0x2E,
];

/// A port on IPMB.
fn open_port(rt: &impl Abort, alloc: Global) -> Port {
    let at = At {
        wire: Address::new(0x20).unwrap(),
        eid: EndpointId::new(0x0A).unwrap(),
    };
    Port::new(alloc, Bus::Ipmb, at).expect(rt, "memory")
}

/// A port asks the sample board for that Get, tells what that answered, and repeats the response.
pub fn expect_answers(rt: &impl Abort, alloc: Global, board: &mut Board<Records>) {
    let mut port = open_port(rt, alloc);
    let mut out = Out::new();
    match port.hear(GET, &mut out) {
        Step::Ask(pending) => {
            let answered = board.answer(&pending.asked());
            port.answer(pending, &answered, &mut out);
        }
        Step::Done => panic!(rt; "nothing is asked"),
    }
    expect_out(rt, &out, Disposition::Answered, GOT);
    port.on_frame(board, GET, &mut out);
    expect_out(rt, &out, Disposition::Repeated, GOT);
    assert!(rt; port.idle(0x40));
}
