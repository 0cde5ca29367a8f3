//! What is wrong with what others do.
ghost use Rattle.std.specs.Prelude.{◌≡◌, ◌≤◌, length};
ghost use Rattle.two_wire.specs.Sizes.{most_message_bytes};
ghost use Rattle.undo_plans.specs.declared.names.Names.{Names as AnyNames};
ghost use Rattle.bmc_core.specs.PortSteps.{asked_in};
ghost use Rattle.model_lab.specs.Faults.{first_of, is_own, message_changes};
ghost use Rattle.model_lab.specs.Meaning.{request_of};
ghost use Rattle.lab_run.specs.Checked.{TellsNoise, TellsIdle, request_checks, message_checks};

use crate::ages::is_still_open;
use bmc_board::is_changing;
use cfg_records::Asked;
use ipmb_frame::read_frame;
use mctp_net::read_packet;
use model_bus::PLDM_MESSAGE_TYPE;
use model_lab::Fault;
use pldm_base::{PldmBytes, read_pldm};
use text_lines::{OtherMessage, OtherRequest};
use two_wire::{Bus, Bytes};
use undo_plans::Names;

/// What is wrong with noise.
pub fn noise_fault(on: Bus, bytes: &[u8]) -> Option<Fault>
    ensures { TellsNoise on bytes.now result }
{
    let reads = match on {
        Bus::Ipmb => read_frame(bytes).is_ok(),
        Bus::Smbus => read_packet(bytes).is_ok(),
    };
    if reads { Some(Fault::Forged) } else { None }
}

/// What is wrong with forgetting a requester's window, where a request of the manager is open on that bus or on none.
pub fn idle_fault(names: &Names, on: Bus, requester: u8, opened_on: Option<Bus>) -> Option<Fault>
    ensures { TellsIdle names.now on requester opened_on result }
{
    if is_still_open(names, on, requester, opened_on) {
        Some(Fault::StillOpen)
    } else {
        None
    }
}

/// What a request asks of the board.
fn asked(request: &OtherRequest) -> Asked
    ensures { (names : AnyNames) → result ≡ asked_in (request_of names request.now) }
{
    Asked::Ipmi {
        from: request.requester.address.byte(),
        net_fn: request.net_fn,
        lun: request.responder,
        command: request.command,
        body: request.body.copy(),
    }
}

/// Whether the manager or the controller is known so on the bus.
fn is_own(on: Bus, names: &Names, from: u8) -> bool
    ensures { result ≡ is_own on names.now from }
{
    match on {
        Bus::Ipmb => from == names.own_address.byte() || from == names.peer_address.byte(),
        Bus::Smbus => from == names.own_eid || from == names.peer_eid,
    }
}

/// What is wrong with another requester's request but for want of room.
pub fn request_fault(names: &Names, request: &OtherRequest) -> Option<Fault>
    ensures { result ≡ first_of (request_checks names.now request.now) }
{
    if is_changing(&asked(request)) {
        return Some(Fault::Changing);
    }
    if is_own(Bus::Ipmb, names, request.requester.address.byte()) {
        return Some(Fault::Impersonates);
    }
    None
}

/// Whether a message's bytes are a PLDM request whose command sets the configuration.
fn message_changes(from: u8, bytes: &[u8]) -> bool
    requires { length bytes.now ≤ most_message_bytes }
    ensures { result ≡ message_changes from bytes.now }
{
    let [kind, rest @ ..] = bytes else {
        return false;
    };
    if *kind != PLDM_MESSAGE_TYPE {
        return false;
    }
    match read_pldm(&PldmBytes::new(rest)) {
        Ok(request) => is_changing(&Asked::Pldm {
            from,
            kind: request.header.pldm_type,
            command: request.header.command,
            body: Bytes::from_slice(request.body.as_slice()),
        }),
        Err(_) => false,
    }
}

/// What is wrong with another requester's message but for want of room.
pub fn message_fault(names: &Names, message: &OtherMessage) -> Option<Fault>
    ensures { result ≡ first_of (message_checks names.now message.now) }
{
    if message_changes(message.from, message.body.as_slice()) {
        return Some(Fault::Changing);
    }
    if is_own(Bus::Smbus, names, message.from) {
        return Some(Fault::Impersonates);
    }
    None
}
