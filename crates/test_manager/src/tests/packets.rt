//! A manager whose requests go over SMBus. It goes on from a list of such requests.
use super::expect_equal;
use super::player::expect_told;
use super::scene::{list, names, other_names};
use std::alloc::Global;
use std::process::Abort;
use two_wire::Bus;
use undo_core::{Manager, Phase, ResumeFault, Sent, Why};
use undo_plans::Names;

const PACKETS: &str = "
story a reply is joined from its packets
# Request 31, the last of the list, has 70 bytes of data: two packets under tag 7.
list 1 -> Halted 2 Stop
shows -> open none undo 2 next 4 31
undo -> 200F452D010A0B8F019F0307101112131415161718191A1B1C1D1E1F202122232425262728292A2B2C2D2E2F303132333435363738393A3B3C3D3E3F404142434445464748494A4BE9 200F0F2D010A0B5F4C4D4E4F50515253545547 Undoing 1
shows -> open Smbus undo 2 next 4 31
quiet -> 200F452D010A0B8F019F0307101112131415161718191A1B1C1D1E1F202122232425262728292A2B2C2D2E2F303132333435363738393A3B3C3D3E3F404142434445464748494A4BE9 200F0F2D010A0B5F4C4D4E4F50515253545547 Undoing 1
# Messages of one packet under tag 7 that aren't the reply.
# Instance 30, type 2, command 08h.
smbus 2C0F0A21010B0AC7011E03070036 -> Undoing 1
smbus 2C0F0A21010B0AC7011F0207004B -> Undoing 1
smbus 2C0F0A21010B0AC7011F030800E3 -> Undoing 1
# A request, a datagram, another version of the header.
smbus 2C0F0A21010B0AC7019F03070011 -> Undoing 1
smbus 2C0F0A21010B0AC7015F030700BB -> Undoing 1
smbus 2C0F0A21010B0AC7011F430700A6 -> Undoing 1
# A control message, and one without a completion code.
smbus 2C0F0A21010B0AC7001F03070042 -> Undoing 1
smbus 2C0F0921010B0AC7011F0307D9 -> Undoing 1
# The codes of a busy controller.
smbus 2C0F0A21010B0AC7011F0307C06E -> Undoing 1
smbus 2C0F0A21010B0AC7011F0307043C -> Undoing 1
# To another endpoint.
smbus 2C0F0A21010D0AC7011F0307004A -> Undoing 1
# The reply has 155 bytes in three packets. The last behind the first is out of sequence, and ends the assembly.
smbus 2C0F4521010B0A17ABACADAEAFA0A1A2A3A4A5A6A7A8A9AAABACADAEAFA0A1A2A3A4A5A6A7A8A9AAABACADAEAFA0A1A2A3A4A5A6A7A8A9AAABACADAEAFA0A1A2A3A4A5A6A7A8A9AA41 -> Undoing 1
smbus 2C0F4521010B0A87011F030700A0A1A2A3A4A5A6A7A8A9AAABACADAEAFA0A1A2A3A4A5A6A7A8A9AAABACADAEAFA0A1A2A3A4A5A6A7A8A9AAABACADAEAFA0A1A2A3A4A5A6A7A8A9AAD1 -> Undoing 1
smbus 2C0F2021010B0A67ABACADAEAFA0A1A2A3A4A5A6A7A8A9AAABACADAEAFA0A1A2A3A4A5CD -> Undoing 1
smbus 2C0F4521010B0A17ABACADAEAFA0A1A2A3A4A5A6A7A8A9AAABACADAEAFA0A1A2A3A4A5A6A7A8A9AAABACADAEAFA0A1A2A3A4A5A6A7A8A9AAABACADAEAFA0A1A2A3A4A5A6A7A8A9AA41 -> Undoing 1
smbus 2C0F2021010B0A67ABACADAEAFA0A1A2A3A4A5A6A7A8A9AAABACADAEAFA0A1A2A3A4A5CD -> Undoing 1
# Nothing that isn't from the controller to the manager under tag 7 disturbs what waits. Nothing of it reaches the assembler.
smbus 2C0F4521010B0A87011F030700A0A1A2A3A4A5A6A7A8A9AAABACADAEAFA0A1A2A3A4A5A6A7A8A9AAABACADAEAFA0A1A2A3A4A5A6A7A8A9AAABACADAEAFA0A1A2A3A4A5A6A7A8A9AAD1 -> Undoing 1
# Tag 6.
smbus 2C0F0A21010B0AC6011F03070009 -> Undoing 1
# From another address, and to another.
smbus 2C0F0A31010B0AC7011F030700B2 -> Undoing 1
smbus 2E0F0A21010B0AC7011F0307000F -> Undoing 1
# From another endpoint.
smbus 2C0F0A21010B0CC7011F030700EC -> Undoing 1
# The tag is its sender's.
smbus 2C0F0A21010B0ACF011F0307006F -> Undoing 1
# A wrong packet error code.
smbus 2C0F0A21010B0AC7011F03070021 -> Undoing 1
ipmb 2C0F4521010B0A87011F030700A0A1A2A3A4A5A6A7A8A9AAABACADAEAFA0A1A2A3A4A5A6A7A8A9AAABACADAEAFA0A1A2A3A4A5A6A7A8A9AAABACADAEAFA0A1A2A3A4A5A6A7A8A9AAD1 -> Undoing 1
smbus 2C0F4521010B0A17ABACADAEAFA0A1A2A3A4A5A6A7A8A9AAABACADAEAFA0A1A2A3A4A5A6A7A8A9AAABACADAEAFA0A1A2A3A4A5A6A7A8A9AAABACADAEAFA0A1A2A3A4A5A6A7A8A9AA41 -> Undoing 1
# Tag 6.
smbus 2C0F0A21010B0AC6011F03070009 -> Undoing 1
# From another address, and to another.
smbus 2C0F0A31010B0AC7011F030700B2 -> Undoing 1
smbus 2E0F0A21010B0AC7011F0307000F -> Undoing 1
# From another endpoint.
smbus 2C0F0A21010B0CC7011F030700EC -> Undoing 1
# The tag is its sender's.
smbus 2C0F0A21010B0ACF011F0307006F -> Undoing 1
# A wrong packet error code.
smbus 2C0F0A21010B0AC7011F03070021 -> Undoing 1
ipmb 2C0F4521010B0A17ABACADAEAFA0A1A2A3A4A5A6A7A8A9AAABACADAEAFA0A1A2A3A4A5A6A7A8A9AAABACADAEAFA0A1A2A3A4A5A6A7A8A9AAABACADAEAFA0A1A2A3A4A5A6A7A8A9AA41 -> Undoing 1
# Request 32, the first of the list, goes under tag 0 and instance 0.
smbus 2C0F2021010B0A67ABACADAEAFA0A1A2A3A4A5A6A7A8A9AAABACADAEAFA0A1A2A3A4A5CD -> 200F0E2D010A0BC8018002390500010102DF Undoing 0
shows -> open Smbus undo 2 next 4 0
smbus 2C0F0A21010B0AC001000239000E -> Undone
shows -> open none undo 2 next 4 1

story a refusal over SMBus ends the undo
list 1 -> Halted 2 Stop
undo -> 200F452D010A0B8F019F0307101112131415161718191A1B1C1D1E1F202122232425262728292A2B2C2D2E2F303132333435363738393A3B3C3D3E3F404142434445464748494A4BE9 200F0F2D010A0B5F4C4D4E4F50515253545547 Undoing 1
smbus 2C0F0A21010B0AC7011F030781AE -> UndoRefused 1 81

story an unsettled request joins no packet
list 1 -> Halted 2 Stop
undo -> 200F452D010A0B8F019F0307101112131415161718191A1B1C1D1E1F202122232425262728292A2B2C2D2E2F303132333435363738393A3B3C3D3E3F404142434445464748494A4BE9 200F0F2D010A0B5F4C4D4E4F50515253545547 Undoing 1
smbus 2C0F4521010B0A87011F030700A0A1A2A3A4A5A6A7A8A9AAABACADAEAFA0A1A2A3A4A5A6A7A8A9AAABACADAEAFA0A1A2A3A4A5A6A7A8A9AAABACADAEAFA0A1A2A3A4A5A6A7A8A9AAD1 -> Undoing 1
quiet -> 200F452D010A0B8F019F0307101112131415161718191A1B1C1D1E1F202122232425262728292A2B2C2D2E2F303132333435363738393A3B3C3D3E3F404142434445464748494A4BE9 200F0F2D010A0B5F4C4D4E4F50515253545547 Undoing 1
quiet -> Unsettled 1
smbus 2C0F4521010B0A17ABACADAEAFA0A1A2A3A4A5A6A7A8A9AAABACADAEAFA0A1A2A3A4A5A6A7A8A9AAABACADAEAFA0A1A2A3A4A5A6A7A8A9AAABACADAEAFA0A1A2A3A4A5A6A7A8A9AA41 -> Unsettled 1
again -> 200F452D010A0B8F019F0307101112131415161718191A1B1C1D1E1F202122232425262728292A2B2C2D2E2F303132333435363738393A3B3C3D3E3F404142434445464748494A4BE9 200F0F2D010A0B5F4C4D4E4F50515253545547 Undoing 1
smbus 2C0F2021010B0A67ABACADAEAFA0A1A2A3A4A5A6A7A8A9AAABACADAEAFA0A1A2A3A4A5CD -> Undoing 1
";

#[test]
fn replies_are_joined_from_packets(rt: HostRuntime) {
    expect_told(&rt, rt.alloc(), PACKETS);
}

/// A manager that goes on from the list of two requests with these names, or why there is none.
fn resumed(
    rt: &impl Abort,
    alloc: Global,
    names_of: Option<Names>,
) -> Result<Manager, ResumeFault> {
    let list = list(alloc, names_of).expect(rt, "memory");
    Manager::resume(alloc, list, names(), 1)
}

/// The request goes over SMBus. It has this number and so many frames.
fn expect_sent(rt: &impl Abort, sent: &Sent, request: u16, frames: usize) {
    expect_equal(rt, sent.bus, Bus::Smbus);
    expect_equal(rt, sent.request, request);
    expect_equal(rt, sent.frames.len(), frames);
}

/// The manager's undo list has two requests and these names.
fn expect_list(rt: &impl Abort, manager: &Manager, names: Option<Names>) {
    expect_equal(rt, manager.undo_list().requests.len(), 2);
    expect_equal(rt, manager.undo_list().names, names);
}

/// The manager is told to undo, and sends this.
fn undone(rt: &impl Abort, manager: &mut Manager) -> Sent {
    let sent = manager.undo().expect(rt, "the phase of an undo");
    sent.expect(rt, "a request")
}

#[test]
fn a_manager_goes_on_from_a_list(rt: HostRuntime) {
    let mut manager = resumed(&rt, rt.alloc(), None).expect(&rt, "a manager");
    expect_equal(&rt, manager.phase(), Phase::Halted(2, Why::Stop));
    expect_list(&rt, &manager, None);
    expect_sent(&rt, &undone(&rt, &mut manager), 31, 2);
    expect_equal(&rt, manager.phase(), Phase::Undoing(1));
    expect_list(&rt, &manager, None);
}

#[test]
fn a_manager_goes_on_from_a_list_with_its_names(rt: HostRuntime) {
    let named = resumed(&rt, rt.alloc(), Some(names()));
    let mut manager = named.expect(&rt, "a manager");
    expect_list(&rt, &manager, Some(names()));
    expect_sent(&rt, &undone(&rt, &mut manager), 31, 2);
    expect_list(&rt, &manager, Some(names()));
}

#[test]
fn a_manager_goes_on_from_no_list_with_other_names(rt: HostRuntime) {
    let refused = resumed(&rt, rt.alloc(), Some(other_names()));
    expect_equal(&rt, refused.err(), Some(ResumeFault::OtherNames));
}
