//! Requests to a port on the System Management Bus, and what it keeps of them.
use super::{expect_out, expect_told};
use bmc_board::{Board, Records};
use bmc_core::{At, Disposition, Out, SmbusPending, SmbusPort, Step};
use mctp_net::EndpointId;
use record_base::{Answered, Asked};
use std::alloc::Global;
use std::process::Abort;
use two_wire::{Address, Below, Bytes};

const SMBUS: &str = "\
story instance 16 forgets instance 0
# Each asks for the terminus identifier.
smbus 200F093101000BC80180000296 -> Answered 300F0B21010B0AC001000002000597
smbus 200F093101000BC801810002FD -> Answered 300F0B21010B0AC0010100020005F5
smbus 200F093101000BC80182000240 -> Answered 300F0B21010B0AC001020002000553
smbus 200F093101000BC8018300022B -> Answered 300F0B21010B0AC001030002000531
smbus 200F093101000BC8018400023D -> Answered 300F0B21010B0AC001040002000518
smbus 200F093101000BC80185000256 -> Answered 300F0B21010B0AC00105000200057A
smbus 200F093101000BC801860002EB -> Answered 300F0B21010B0AC0010600020005DC
smbus 200F093101000BC80187000280 -> Answered 300F0B21010B0AC0010700020005BE
smbus 200F093101000BC801880002C7 -> Answered 300F0B21010B0AC00108000200058E
smbus 200F093101000BC801890002AC -> Answered 300F0B21010B0AC0010900020005EC
smbus 200F093101000BC8018A000211 -> Answered 300F0B21010B0AC0010A000200054A
smbus 200F093101000BC8018B00027A -> Answered 300F0B21010B0AC0010B0002000528
smbus 200F093101000BC8018C00026C -> Answered 300F0B21010B0AC0010C0002000501
smbus 200F093101000BC8018D000207 -> Answered 300F0B21010B0AC0010D0002000563
smbus 200F093101000BC8018E0002BA -> Answered 300F0B21010B0AC0010E00020005C5
smbus 200F093101000BC8018F0002D1 -> Answered 300F0B21010B0AC0010F00020005A7
smbus 200F093101000BC80180000296 -> Repeated 300F0B21010B0AC001000002000597
smbus 200F093101000BC80190000234 -> Answered 300F0B21010B0AC0011000020005A5
smbus 200F093101000BC80180000296 -> Answered 300F0B21010B0AC001000002000597

story a ninth requester waits for an idle
smbus 200F0931010008C801800002ED -> Answered 300F0B2101080AC00100000200051C
smbus 200F0931010009C801800002C4 -> Answered 300F0B2101090AC001000002000565
smbus 200F093101000BC80180000296 -> Answered 300F0B21010B0AC001000002000597
smbus 200F093101000CC80180000249 -> Answered 300F0B21010C0AC0010000020005FF
smbus 200F093101000DC80180000260 -> Answered 300F0B21010D0AC001000002000586
smbus 200F093101000EC8018000021B -> Answered 300F0B21010E0AC00100000200050D
smbus 200F093101000FC80180000232 -> Answered 300F0B21010F0AC001000002000574
smbus 200F0931010010C8018000023C -> Answered 300F0B2101100AC001000002000558
# The ninth is told that the controller isn't ready.
smbus 200F0931010011C80180000215 -> Busy 300F0A2101110AC00100000204BE
# A control message, Get Endpoint ID, has no window.
smbus 200F0831010011C800800219 -> Control 300F0C2101110AC0000002000A0000F3
idle smbus 08 -> yes
idle smbus 08 -> no
smbus 200F0931010011C80180000215 -> Answered 300F0B2101110AC001000002000521
smbus 200F0931010008C801800002ED -> Busy 300F0A2101080AC0010000020402

story bit 5 makes no other request
smbus 200F0931010008C801800002ED -> Answered 300F0B2101080AC00100000200051C
smbus 200F0931010008C801A00002AE -> Repeated 300F0B2101080AC00100000200051C

story a kept reply goes where the repeat came from
# The endpoint gets another identifier; then the same request comes under tag 3.
smbus 200F0931010008C801800002ED -> Answered 300F0B2101080AC00100000200051C
smbus 200F0A31010A08C8008101000918 -> Control ..
smbus 200F0931010008CB018000024B -> Repeated 300F0B21010809C30100000200054F

story a request that is not told is asked again
dropped smbus 200F0931010008C801800002ED -> asked
told smbus 200F0931010008C801800002ED -> Answered 300F0B2101080AC00100000200051C
told smbus 200F0931010008C801800002ED -> Repeated 300F0B2101080AC00100000200051C
dropped smbus 200F0931010008C801800002ED -> Repeated 300F0B2101080AC00100000200051C

story what is heard and told is what comes of a frame
smbus 200F0931010008C801800002ED -> Answered 300F0B2101080AC00100000200051C

story two endpoints set strings in parts
smbus 200F4531010A0B88018003070000000001010001C800 61*50 9C -> Waiting
smbus 200F4531010A0B18 61*64 97 -> Waiting
smbus 200F4531010A0B28 61*64 A8 -> Waiting
smbus 200F0E31010A0B78 61*9 6A -> Answered 300F0E21010B0AC00100030700C0000000DF
smbus 200F1B31010A0CC801800307C000000004 62*13 A8 -> Answered 300F0A21010C0AC00100030702A0
smbus 200F4531010A0C88018103070000000001010001C800 62*50 A6 -> Waiting
smbus 200F4531010A0C18 62*64 8D -> Waiting
smbus 200F4531010A0C28 62*64 B2 -> Waiting
smbus 200F0E31010A0C78 62*9 83 -> Answered 300F0E21010C0AC00101030700C000000058
pldm 03 08 00000000010100 -> 00 0000000005 010001 0600 7261636B2D31
smbus 200F1B31010A0BC801810307C000000004 61*13 EF -> Answered 300F0E21010B0AC001010307000000000066
pldm 03 08 00000000010100 -> 00 0000000005 010001 C800 61*200
# A last part that comes again sets nothing, and one in a new request finds no staging.
smbus 200F1B31010A0BC801810307C000000004 61*13 EF -> Repeated 300F0E21010B0AC001010307000000000066
smbus 200F1B31010A0CC801820307C000000004 62*13 27 -> Answered 300F0E21010C0AC0010203070000000000C7
pldm 03 08 00000000010100 -> 00 0000000005 010001 C800 62*200
smbus 200F1B31010A0BC801810307C000000004 61*13 EF -> Repeated 300F0E21010B0AC001010307000000000066
smbus 200F1B31010A0BC801820307C000000004 61*13 A4 -> Answered 300F0A21010B0AC00102030702F5
pldm 03 08 00000000010100 -> 00 0000000005 010001 C800 62*200

story the port forgets a requester between two parts of its Set
smbus 200F4531010A0B88018003070000000001010001C800 61*50 9C -> Waiting
smbus 200F4531010A0B18 61*64 97 -> Waiting
smbus 200F4531010A0B28 61*64 A8 -> Waiting
smbus 200F0E31010A0B78 61*9 6A -> Answered 300F0E21010B0AC00100030700C0000000DF
idle smbus 0B -> yes
idle smbus 0B -> no
# What the board keeps of its parts is still there.
smbus 200F1B31010A0BC801810307C000000004 61*13 EF -> Answered 300F0E21010B0AC001010307000000000066
pldm 03 08 00000000010100 -> 00 0000000005 010001 C800 61*200
# Forgotten once more, it asks again, and nothing is staged.
idle smbus 0B -> yes
smbus 200F1B31010A0BC801810307C000000004 61*13 EF -> Answered 300F0A21010B0AC00101030702CF
pldm 03 08 00000000010100 -> 00 0000000005 010001 C800 61*200
";

/// GetTID, from 30h and EID 08h, and its reply.
const GET_TID: &[u8] = &[
    0x20, 0x0F, 0x09, 0x31, 0x01, 0x00, 0x08, 0xC8, 0x01, 0x80, 0x00, 0x02, 0xED,
];

const GOT_TID: &[u8] = &[
    0x30, 0x0F, 0x0B, 0x21, 0x01, 0x08, 0x0A, 0xC0, 0x01, 0x00, 0x00, 0x02, 0x00, 0x05, 0x1C,
];

/// A port at 20h, with the EID 0Ah.
fn open_port(rt: &impl Abort, alloc: Global) -> SmbusPort {
    let at = At {
        wire: Address::new(0x20).unwrap(),
        eid: EndpointId::new(0x0A).unwrap(),
    };
    SmbusPort::new(alloc, at).expect(rt, "memory")
}

/// The request that the port asks for.
fn asked(rt: &impl Abort, port: &mut SmbusPort, frame: &[u8], out: &mut Out) -> SmbusPending {
    match port.hear(frame, out) {
        Step::Ask(pending) => pending,
        Step::Done => panic!(rt; "nothing is asked"),
    }
}

/// The port gets this terminus identifier as the answer. It does this, and sends this.
fn expect_told_tid(
    rt: &impl Abort,
    port: &mut SmbusPort,
    pending: SmbusPending,
    number: u8,
    done: Disposition,
    frame: &[u8],
) {
    let tid = Answered {
        code: 0x00,
        body: Bytes::from_slice(&[number]),
    };
    let mut out = Out::new();
    port.answer(pending, &tid, &mut out);
    expect_out(rt, &out, done, frame);
}

/// The port repeats the reply to the request.
fn expect_repeated(rt: &impl Abort, port: &mut SmbusPort, frame: &[u8]) {
    let mut out = Out::new();
    assert!(rt; matches!(port.hear(GET_TID, &mut out), Step::Done));
    expect_out(rt, &out, Disposition::Repeated, frame);
}

#[test]
fn a_request_is_heard_and_told(rt: HostRuntime) {
    let mut port = open_port(&rt, rt.alloc());
    let pending = asked(&rt, &mut port, GET_TID, &mut Out::new());
    let wanted = Asked::Pldm {
        from: 0x08,
        kind: Below::new(0),
        command: 0x02,
        body: Bytes::new(),
    };
    assert!(rt; pending.asked().is(&wanted));
    expect_told_tid(
        &rt,
        &mut port,
        pending,
        0x05,
        Disposition::Answered,
        GOT_TID,
    );
    expect_repeated(&rt, &mut port, GOT_TID);
    assert!(rt; port.idle(0x08));
}

/// The same request under instances 1 and 16, and their replies.
const GET_TID_1: &[u8] = &[
    0x20, 0x0F, 0x09, 0x31, 0x01, 0x00, 0x08, 0xC8, 0x01, 0x81, 0x00, 0x02, 0x86,
];

const GOT_TID_1: &[u8] = &[
    0x30, 0x0F, 0x0B, 0x21, 0x01, 0x08, 0x0A, 0xC0, 0x01, 0x01, 0x00, 0x02, 0x00, 0x05, 0x7E,
];

const GET_TID_16: &[u8] = &[
    0x20, 0x0F, 0x09, 0x31, 0x01, 0x00, 0x08, 0xC8, 0x01, 0x90, 0x00, 0x02, 0x4F,
];

const GOT_TID_16: &[u8] = &[
    0x30, 0x0F, 0x0B, 0x21, 0x01, 0x08, 0x0A, 0xC0, 0x01, 0x10, 0x00, 0x02, 0x00, 0x05, 0x2E,
];

/// The reply to the first, where the terminus identifier is another.
const GOT_OTHER_TID: &[u8] = &[
    0x30, 0x0F, 0x0B, 0x21, 0x01, 0x08, 0x0A, 0xC0, 0x01, 0x00, 0x00, 0x02, 0x00, 0x06, 0x15,
];

/// A request is heard twice before it's told. The first answer is kept, and the second goes nowhere, also where another request of the
/// endpoint came between.
#[test]
fn of_a_request_that_is_told_twice_the_first_answer_is_kept(rt: HostRuntime) {
    let mut port = open_port(&rt, rt.alloc());
    let mut out = Out::new();
    let first = asked(&rt, &mut port, GET_TID, &mut out);
    let second = asked(&rt, &mut port, GET_TID, &mut out);
    let third = asked(&rt, &mut port, GET_TID, &mut out);
    expect_told_tid(&rt, &mut port, first, 0x05, Disposition::Answered, GOT_TID);
    expect_told_tid(&rt, &mut port, second, 0x06, Disposition::Repeated, GOT_TID);
    let other = asked(&rt, &mut port, GET_TID_1, &mut out);
    expect_told_tid(
        &rt,
        &mut port,
        other,
        0x05,
        Disposition::Answered,
        GOT_TID_1,
    );
    expect_told_tid(&rt, &mut port, third, 0x06, Disposition::Repeated, GOT_TID);
    expect_repeated(&rt, &mut port, GOT_TID);
}

/// A request is heard twice before it's told, and a request sixteen instances above it comes between: the first answer is forgotten
/// then, and the second is kept.
#[test]
fn an_answer_that_is_forgotten_makes_room_for_the_second(rt: HostRuntime) {
    let mut port = open_port(&rt, rt.alloc());
    let mut out = Out::new();
    let first = asked(&rt, &mut port, GET_TID, &mut out);
    let second = asked(&rt, &mut port, GET_TID, &mut out);
    expect_told_tid(&rt, &mut port, first, 0x05, Disposition::Answered, GOT_TID);
    let newer = asked(&rt, &mut port, GET_TID_16, &mut out);
    expect_told_tid(
        &rt,
        &mut port,
        newer,
        0x05,
        Disposition::Answered,
        GOT_TID_16,
    );
    expect_told_tid(
        &rt,
        &mut port,
        second,
        0x06,
        Disposition::Answered,
        GOT_OTHER_TID,
    );
    expect_repeated(&rt, &mut port, GOT_OTHER_TID);
}

/// A port answers GetTID for the sample board.
pub fn expect_answer(rt: &impl Abort, alloc: Global, board: &mut Board<Records>) {
    let mut port = open_port(rt, alloc);
    let mut out = Out::new();
    port.on_frame(board, GET_TID, &mut out);
    expect_out(rt, &out, Disposition::Answered, GOT_TID);
}

#[test]
fn requests_come_over_smbus(rt: HostRuntime) {
    expect_told(&rt, rt.alloc(), SMBUS);
}
