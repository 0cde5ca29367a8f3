//! Requests and replies, without their frames.
ghost use Rattle.std.specs.Prelude.{◌≡◌, ◌+◌, ◌<◌, ◌≤◌, ◌^◌, ◌↔◌, [], length, IsTrue};
ghost use Rattle.two_wire.specs.Sizes.{most_ipmi_request_data, most_pldm_request_data, most_pldm_reply_data};
ghost use Rattle.record_base.specs.Requests.{byte_at, bytes_at};

use two_wire::size::{MOST_IPMI_REQUEST_DATA, MOST_PLDM_REPLY_DATA, MOST_PLDM_REQUEST_DATA};
use two_wire::{Below, Bytes, Code, Lun, NetFn};

/// A request and its sender: an IPMB address, or the EID of an endpoint.
#[derive(Debug, PartialEq, Eq, Drop)]
pub enum Asked {
    /// IPMI: network function, logical unit of the controller, command and data.
    Ipmi {
        from: u8,
        net_fn: NetFn,
        lun: Lun,
        command: u8,
        body: Bytes<{ MOST_IPMI_REQUEST_DATA }>,
    },
    /// PLDM: type, command and data.
    Pldm {
        from: u8,
        kind: Below<64>,
        command: u8,
        body: Bytes<{ MOST_PLDM_REQUEST_DATA }>,
    },
}

/// A reply: its completion code, 00h after the board has carried out the request, and its data.
#[derive(Debug, PartialEq, Eq, Drop)]
pub struct Answered {
    pub code: u8,
    pub body: Bytes<{ MOST_PLDM_REPLY_DATA }>,
}

impl Answered {
    /// The reply to a request that the board has carried out.
    pub fn done(body: &[u8]) -> Self
        requires { length body.now ≤ most_pldm_reply_data }
        ensures { result ≡ record { code = 0; body = body.now } }
    {
        Answered {
            code: 0,
            body: Bytes::from_slice(body),
        }
    }

    /// The reply to a request that the board has refused.
    pub fn refused(code: Code) -> Self
        ensures { result ≡ record { code = code; body = [] } }
    {
        Answered {
            code: code.value(),
            body: Bytes::new(),
        }
    }

    /// A copy of the reply.
    pub fn copy(&self) -> Self
        ensures { result ≡ self.now }
    {
        Answered {
            code: self.code,
            body: self.body.copy(),
        }
    }

    /// Whether both replies are the same.
    pub fn is(&self, other: &Answered) -> bool
        ensures { IsTrue result ↔ (self.now ≡ other.now) }
    {
        self.code == other.code && self.body.is(other.body.as_slice())
    }
}

/// The byte at a place of a request's data, 00h where it is missing.
pub fn byte_at(body: &[u8], place: usize) -> u8
    ensures { result ≡ byte_at body.now place }
{
    match body.get(place) {
        Some(byte) => *byte,
        None => 0,
    }
}

/// The bytes of a request's data from a place on, 00h where they are missing.
pub fn bytes_at<const N: usize>(body: &[u8], place: usize) -> [u8; N]
    requires { place + N < 2 ^ 32 }
    ensures { result ≡ bytes_at N body.now place }
{
    let mut bytes = [0; N];
    for i in 0..N {
        bytes[i] = byte_at(body, place + i);
    }
    bytes
}

impl Asked {
    ghost use Rattle.record_base.specs.Requests.{ipmi_request, pldm_request};

    /// The IPMI request of this network function and command, with these bytes of data. It has no sender, and goes to logical
    /// unit 0.
    pub fn ipmi(net_fn: NetFn, command: u8, bytes: &[u8]) -> Self
        requires { length bytes.now ≤ most_ipmi_request_data }
        ensures { result ≡ ipmi_request net_fn command bytes.now }
    {
        Asked::Ipmi {
            from: 0,
            net_fn,
            lun: Lun::new(0),
            command,
            body: Bytes::from_slice(bytes),
        }
    }

    /// The PLDM request of this type and command, with these bytes of data. It has no sender.
    pub fn pldm(kind: Below<64>, command: u8, bytes: &[u8]) -> Self
        requires { length bytes.now ≤ most_pldm_request_data }
        ensures { result ≡ pldm_request kind command bytes.now }
    {
        Asked::Pldm {
            from: 0,
            kind,
            command,
            body: Bytes::from_slice(bytes),
        }
    }

    /// A copy of the request.
    pub fn copy(&self) -> Self
        ensures { result ≡ self.now }
    {
        match self {
            Asked::Ipmi {
                from,
                net_fn,
                lun,
                command,
                body,
            } => Asked::Ipmi {
                from: *from,
                net_fn: *net_fn,
                lun: *lun,
                command: *command,
                body: body.copy(),
            },
            Asked::Pldm {
                from,
                kind,
                command,
                body,
            } => Asked::Pldm {
                from: *from,
                kind: *kind,
                command: *command,
                body: body.copy(),
            },
        }
    }

    /// Whether both requests are the same.
    pub fn is(&self, other: &Asked) -> bool
        ensures { IsTrue result ↔ (self.now ≡ other.now) }
    {
        self == other
    }
}
