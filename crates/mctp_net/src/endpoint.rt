//! An endpoint, and what it answers to control requests.
ghost use Rattle.std.specs.Prelude.{◌≡◌, ◌<◌, ◌≤◌, length};
ghost use Rattle.std.specs.Option.{SomeIff, option_map, option_map_or};
ghost use Rattle.mctp_net.specs.Control.{reply_to, eid_after, request_of, shown_for, taken_eid as taken, shown_to as without};

use crate::ControlFault;
use std::marker::Model;
use two_wire::Bytes;
use two_wire::circles::INSTANCES;

/// An endpoint's own identifier. 00h stands for any endpoint, 01h to 07h are reserved, and FFh is broadcast (DSP0236,
/// "Special endpoint IDs").
#[derive(Clone, Copy, PartialEq, Eq)]
pub struct EndpointId {
    byte: u8,
}

impl Model for EndpointId {
    ghost use Rattle.std.specs.Prelude.{ℕ, ◌<◌, ◌≤◌};

    ghost Value = { ℕ };

    ghost view = { λ e. e.byte };

    ghost invariant = { λ e. (8 ≤ e.byte) × (e.byte < 255) };

    ghost inverse = { λ n. record { byte = n } };
}

impl EndpointId {
    /// The identifier of this byte, or nothing where no endpoint may have it.
    pub fn new(byte: u8) -> Option<EndpointId>
        ensures { SomeIff result ((8 ≤ byte) × (byte < 255)) byte }
    {
        if byte < 8 || byte == 0xFF {
            return None;
        }
        Some(EndpointId { byte })
    }

    /// The byte.
    pub fn byte(self) -> u8
        ensures value { result ≡ self }
        ensures low { 8 ≤ result }
        ensures high { result < 255 }
    {
        self.byte
    }
}

/// An endpoint.
#[derive(Clone, Copy, PartialEq, Eq)]
pub struct Endpoint {
    eid: EndpointId,
}

impl Model for Endpoint {
    ghost use Rattle.std.specs.Prelude.{ℕ};

    ghost Value = { ℕ };

    ghost view = { λ e. e.eid };

    ghost inverse = { λ n. record { eid = n } };
}

/// The body of the reply to a control request: 00h, the instance, the command, the completion code and, where that is
/// 00h, the command's data.
pub type ControlReply = Bytes<7>;

impl Endpoint {
    /// An endpoint with this identifier.
    pub fn new(eid: EndpointId) -> Endpoint
        ensures { result ≡ eid }
    {
        Endpoint { eid }
    }

    /// The endpoint's identifier.
    pub fn eid(&self) -> EndpointId
        ensures { result ≡ self.now }
    {
        self.eid
    }

    /// The body of the reply to the message of this body, or nothing where that isn't a control request (DSP0236, "MCTP
    /// control protocol").
    pub fn control(&mut self, body: &[u8]) -> Option<ControlReply>
        ensures reply { result ≡ option_map (reply_to self.old) (request_of body.now) }
        ensures after { self.new
            ≡ option_map_or (λ r. eid_after self.old r.command r.content)
            (request_of body.now) self.old }
    {
        let [kind, numbers, command, content @ ..] = body else {
            return None;
        };
        if *kind != 0x00 || numbers >> 6 != 2 {
            return None;
        }
        Some(self.reply(numbers % INSTANCES, *command, content))
    }

    // The body of the reply to a request of this instance.
    fn reply(&mut self, instance: u8, command: u8, content: &[u8]) -> ControlReply
        ensures reply { result
            ≡ reply_to self.old
            (record { instance = instance; command = command; content = content.now }) }
        ensures after { self.new ≡ eid_after self.old command content.now }
    {
        let mut reply = ControlReply::new();
        reply.push(0x00);
        reply.push(instance);
        reply.push(command);
        match self.answer(command, content) {
            Ok(shown) => {
                reply.push(0x00);
                reply.extend_from_slice(shown.as_slice());
            }
            Err(fault) => reply.push(fault as u8),
        }
        reply
    }

    // What is shown for a command with these data.
    fn answer(&mut self, command: u8, content: &[u8]) -> Result<Bytes<3>, ControlFault>
        ensures shown { result ≡ shown_for self.old command content.now }
        ensures after { self.new ≡ eid_after self.old command content.now }
    {
        match command {
            SET_ENDPOINT_ID => {
                let eid = taken_eid(content)?;
                self.eid = eid;
                Ok(Bytes::from_slice(&[0x00, eid.byte(), 0x00]))
            }
            GET_ENDPOINT_ID => shown_to(content, &[self.eid.byte(), 0x00, 0x00]),
            GET_MESSAGE_TYPE_SUPPORT => shown_to(content, &[1, 0x01]),
            _ => Err(ControlFault::UnsupportedCommand),
        }
    }
}

const SET_ENDPOINT_ID: u8 = 0x01;

const GET_ENDPOINT_ID: u8 = 0x02;

const GET_MESSAGE_TYPE_SUPPORT: u8 = 0x05;

// The identifier that Set Endpoint ID gives. Bits 7:2 of the operation are ignored; 0 sets and 1 forces it.
fn taken_eid(content: &[u8]) -> Result<EndpointId, ControlFault>
    ensures { result ≡ taken content.now }
{
    let [operation, byte] = content else {
        return Err(ControlFault::InvalidLength);
    };
    if operation & 3 > 1 {
        return Err(ControlFault::InvalidData);
    }
    EndpointId::new(*byte).ok_or(ControlFault::InvalidData)
}

// What a command without data shows.
fn shown_to(content: &[u8], shown: &[u8]) -> Result<Bytes<3>, ControlFault>
    requires { length shown.now ≤ 3 }
    ensures { result ≡ without content.now shown.now }
{
    if content.is_empty() {
        Ok(Bytes::from_slice(shown))
    } else {
        Err(ControlFault::InvalidLength)
    }
}
