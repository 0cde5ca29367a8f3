//! Bytes, their check bytes, addresses, and bounded numbers.
ghost use Rattle.std.specs.Prelude.{◌+◌, ◌≤◌, length};

use super::player::{expect_equal, expect_told};
use pldm_base::crc32;
use std::process::Abort;
use two_wire::{Address, Buffer, Bytes, Code, Data, Lun, NetFn, check_byte, code, pec};

const CHECKS: &str = "
story the check bytes of heads and bodies
sum 20 18 -> C8
sum 2C 00 01 -> D3
sum -> 00

story the packet error codes of the nine digits and a packet
pec 31 32 33 34 35 36 37 38 39 -> F4
pec 20 0F 08 31 01 00 08 C8 00 80 02 -> 50
pec -> 00
";

#[test]
fn the_check_bytes_of_heads_bodies_and_packets(rt: HostRuntime) {
    expect_told(&rt, rt.alloc(), CHECKS);
    expect_equal(&rt, check_byte(&[0x20, 0x18]), 0xC8);
    expect_equal(&rt, pec(b"123456789"), 0xF4);
    expect_equal(&rt, crc32(b"123456789"), 0xCBF4_3926);
}

/// The codes are these bytes.
fn expect_codes(rt: &impl Abort, codes: &[Code], bytes: &[u8]) {
    for (code, byte) in codes.iter().zip(bytes) {
        expect_equal(rt, code.value(), *byte);
    }
}

#[test]
fn codes_are_those_of_the_standards(rt: HostRuntime) {
    let ipmi = [
        0x80, 0xC0, 0xC1, 0xC2, 0xC4, 0xC5, 0xC7, 0xC9, 0xCA, 0xCB, 0xCC,
    ];
    expect_codes(&rt, &code::of_ipmi(), &ipmi);
    let pldm = [
        0x01, 0x02, 0x03, 0x04, 0x05, 0x20, 0x80, 0x81, 0x83, 0x85, 0x88,
    ];
    expect_codes(&rt, &code::of_pldm(), &pldm);
}

/// Through the trait alone.
fn add<B: Buffer>(to: &mut B)
    requires { length (B.bytes to.old) + 3 ≤ B.capacity }
{
    to.push(4);
    to.extend_from_slice(&[5, 6]);
}

#[test]
fn bytes_grow_at_their_end(rt: HostRuntime) {
    let mut bytes = Bytes::<6>::new();
    assert!(rt; bytes.is_empty());
    bytes.push(1);
    bytes.extend_from_slice(&[2, 3]);
    expect_equal(&rt, bytes.len(), 3);
    add(&mut bytes);
    expect_equal(&rt, bytes.as_slice(), [1, 2, 3, 4, 5, 6].as_slice());
    assert!(rt; bytes.copy().is(&[1, 2, 3, 4, 5, 6]) && !bytes.is(&[1, 2]));
}

#[test]
fn bytes_are_replaced(rt: HostRuntime) {
    let mut bytes = Bytes::<6>::from_slice(&[1, 2]);
    bytes.replace(&[5, 6, 7, 8]);
    expect_equal(&rt, bytes.as_slice(), [5, 6, 7, 8].as_slice());
    bytes.replace(&[9]);
    expect_equal(&rt, bytes.as_slice(), [9].as_slice());
}

#[test]
fn addresses_and_numbers_keep_their_value(rt: HostRuntime) {
    expect_equal(&rt, Address::new(0x2C).unwrap().byte(), 0x2C);
    assert!(rt; Address::new(0x2D).is_none());
    expect_equal(&rt, Lun::new(3).number(), 3);
    expect_equal(&rt, NetFn::new(0x06).number(), 0x06);
}

#[test]
fn codes_and_data_keep_their_value(rt: HostRuntime) {
    expect_equal(&rt, Code::new(0x80).unwrap().value(), 0x80);
    assert!(rt; Code::new(0).is_none());
    expect_equal(&rt, code::INVALID_LENGTH.value(), 0xC7);
    let data = Data::<4>::new(&[1, 2, 3, 4][1..3]);
    expect_equal(&rt, data.as_slice(), [2, 3].as_slice());
}
