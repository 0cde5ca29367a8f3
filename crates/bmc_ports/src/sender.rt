//! Whom a frame comes from.
ghost use Rattle.std.specs.Prelude.{◌≡◌, ◌↔◌, ℕ, Some};
ghost use Rattle.two_wire.specs.declared.Bus.TheVariants as bus;
ghost use Rattle.bmc_ports.specs.Senders.{IsFrom, IsHeardFrom, sender_of};

use ipmb_frame::{Msg, read_frame};
use mctp_net::read_packet;
use two_wire::{Bus, Frame};

/// The address that a message comes from.
fn message_sender(message: &Msg<'_>) -> u8
    ensures { result ≡ sender_of message.now }
{
    match message {
        Msg::Request(request) => request.header.requester.address.byte(),
        Msg::Response(response) => response.header.responder.address.byte(),
    }
}

/// The address that a frame of IPMB comes from.
fn ipmb_sender(frame: &[u8]) -> Option<u8>
    ensures { (who : ℕ) → (result ≡ Some who) ↔ IsFrom bus.Ipmb who frame.now }
{
    match read_frame(frame) {
        Ok(message) => Some(message_sender(&message)),
        Err(_) => None,
    }
}

/// The endpoint that a packet comes from.
fn smbus_sender(frame: &[u8]) -> Option<u8>
    ensures { (who : ℕ) → (result ≡ Some who) ↔ IsFrom bus.Smbus who frame.now }
{
    match read_packet(frame) {
        Ok(packet) => Some(packet.envelope.source_eid),
        Err(_) => None,
    }
}

/// The requester that a frame comes from. What is no frame of the bus comes from nobody.
fn sender(on: Bus, frame: &[u8]) -> Option<u8>
    ensures { (who : ℕ) → (result ≡ Some who) ↔ IsFrom on who frame.now }
{
    match on {
        Bus::Ipmb => ipmb_sender(frame),
        Bus::Smbus => smbus_sender(frame),
    }
}

/// The requester from which a turn that heard this heard a frame.
pub(crate) fn heard_from(on: Bus, heard: &Option<Frame>) -> Option<u8>
    ensures { (who : ℕ) → (result ≡ Some who) ↔ IsHeardFrom on who heard.now }
{
    match heard {
        Some(frame) => sender(on, frame.as_slice()),
        None => None,
    }
}
