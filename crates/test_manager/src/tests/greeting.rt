//! A greeting against the frames of a controller.
use std::process::Abort;
use two_wire::{Address, Below, Bus, Frame};
use undo_plans::{Greeting, Names, WrongStage};

/// Get Device ID with data, under sequence numbers 31, 63 and 7.
const IPMB_31: [u8; 11] = [
    0x20, 0x18, 0xC8, 0x2C, 0x7C, 0x01, 0x48, 0x45, 0x4C, 0x4F, 0x2F,
];

const IPMB_63: [u8; 11] = [
    0x20, 0x18, 0xC8, 0x2C, 0xFC, 0x01, 0x48, 0x45, 0x4C, 0x4F, 0xAF,
];

const IPMB_7: [u8; 11] = [
    0x20, 0x18, 0xC8, 0x2C, 0x1C, 0x01, 0x48, 0x45, 0x4C, 0x4F, 0x8F,
];

/// Its replies: the length isn't taken, or the controller is busy.
const REFUSED_31: [u8; 8] = [0x2C, 0x1C, 0xB8, 0x20, 0x7C, 0x01, 0xC7, 0x9C];

const REFUSED_63: [u8; 8] = [0x2C, 0x1C, 0xB8, 0x20, 0xFC, 0x01, 0xC7, 0x1C];

const BUSY_31: [u8; 8] = [0x2C, 0x1C, 0xB8, 0x20, 0x7C, 0x01, 0xC0, 0xA3];

/// GetTID with data, under instances 15 and 24.
const SMBUS_15: [u8; 17] = [
    0x20, 0x0F, 0x0D, 0x31, 0x01, 0x0A, 0x08, 0xCF, 0x01, 0x8F, 0x00, 0x02, 0x48, 0x45, 0x4C, 0x4F,
    0x70,
];

const SMBUS_24: [u8; 17] = [
    0x20, 0x0F, 0x0D, 0x31, 0x01, 0x0A, 0x08, 0xC8, 0x01, 0x98, 0x00, 0x02, 0x48, 0x45, 0x4C, 0x4F,
    0xD8,
];

/// Its replies under instance 15: the length isn't taken, or the controller isn't ready.
const REFUSED_15: [u8; 14] = [
    0x30, 0x0F, 0x0A, 0x21, 0x01, 0x08, 0x0A, 0xC7, 0x01, 0x0F, 0x00, 0x02, 0x03, 0x1A,
];

const BUSY_15: [u8; 14] = [
    0x30, 0x0F, 0x0A, 0x21, 0x01, 0x08, 0x0A, 0xC7, 0x01, 0x0F, 0x00, 0x02, 0x04, 0x0F,
];

fn names() -> Names {
    Names {
        own_address: Address::new(0x2C).unwrap(),
        peer_address: Address::new(0x20).unwrap(),
        own_wire: Address::new(0x30).unwrap(),
        peer_wire: Address::new(0x20).unwrap(),
        own_eid: 0x08,
        peer_eid: 0x0A,
    }
}

/// The greeting of a manager whose requests go on with this number, with one retry.
fn greeting(bus: Bus, next: u8) -> Greeting {
    Greeting::new(names(), bus, next, Below::new(1))
}

/// It holds.
fn expect(rt: &impl Abort, holds: bool) {
    assert!(rt; holds);
}

/// The frame is sent.
fn is_sent(sent: Result<Option<Frame>, WrongStage>, frame: &[u8]) -> bool {
    match sent {
        Ok(Some(sent)) => sent.as_slice() == frame,
        _ => false,
    }
}

/// Two requests greet on IPMB, each begun once the one before it was answered; a busy controller's
/// reply is no answer.
#[test]
fn ipmb_is_greeted_twice(rt: HostRuntime) {
    let mut hello = greeting(Bus::Ipmb, 0);
    expect(&rt, hello.open_bus().is_none());
    expect(&rt, is_sent(hello.start(), IPMB_31.as_slice()));
    expect(&rt, hello.on_frame(Bus::Ipmb, &BUSY_31).is_none());
    expect(&rt, hello.on_frame(Bus::Ipmb, &REFUSED_63).is_none());
    expect(&rt, hello.on_frame(Bus::Smbus, &REFUSED_31).is_none());
    let second = hello.on_frame(Bus::Ipmb, &REFUSED_31);
    expect(&rt, is_sent(Ok(second), IPMB_63.as_slice()));
    expect(&rt, hello.open_bus() == Some(Bus::Ipmb));
    expect(&rt, !hello.is_answered());
    expect(&rt, hello.on_frame(Bus::Ipmb, &REFUSED_63).is_none());
    expect(&rt, hello.is_answered());
    expect(&rt, hello.open_bus().is_none());
}

/// A manager whose requests go on with number 40 greets with 7 first.
#[test]
fn greeting_goes_by_the_next_number(rt: HostRuntime) {
    let mut hello = greeting(Bus::Ipmb, 40);
    expect(&rt, is_sent(hello.start(), IPMB_7.as_slice()));
    expect(&rt, hello.start().is_err());
}

/// A request is sent again as often as it may be, and then once more where it is heeded again.
/// Until then no answer is taken.
#[test]
fn smbus_is_greeted_again_after_a_silence(rt: HostRuntime) {
    let mut hello = greeting(Bus::Smbus, 0);
    expect(&rt, hello.quiet().is_err());
    expect(&rt, is_sent(hello.start(), SMBUS_15.as_slice()));
    expect(&rt, hello.again().is_err());
    expect(&rt, hello.on_frame(Bus::Smbus, &BUSY_15).is_none());
    expect(&rt, is_sent(hello.quiet(), SMBUS_15.as_slice()));
    expect(&rt, matches!(hello.quiet(), Ok(None)));
    expect(&rt, hello.on_frame(Bus::Smbus, &REFUSED_15).is_none());
    expect(&rt, hello.open_bus() == Some(Bus::Smbus));
    expect(&rt, hello.quiet().is_err());
    expect(&rt, is_sent(hello.again(), SMBUS_15.as_slice()));
    let second = hello.on_frame(Bus::Smbus, &REFUSED_15);
    expect(&rt, is_sent(Ok(second), SMBUS_24.as_slice()));
    expect(&rt, !hello.is_answered());
}
