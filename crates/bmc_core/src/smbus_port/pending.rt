//! Requests that a port has heard, where they lie, and as they wait for an answer.
ghost use Rattle.std.specs.Prelude.{◌≡◌, ◌≤◌, length};
ghost use Rattle.two_wire.specs.Sizes.{most_message_bytes};
ghost use Rattle.pldm_base.specs.Message.{request_bytes};
ghost use Rattle.bmc_core.specs.Heard.{request_of};
ghost use Rattle.bmc_board.specs.Asking.{as_asked};
ghost use Rattle.bmc_core.specs.SmbusHeard.{asking, asked_of, behind_first};
ghost use Rattle.bmc_core.specs.SmbusShown.{pldm_reading, request_in, pending_of};

use crate::window_request::WindowRequest;
use bmc_board::AskedRef;
use cfg_records::Asked;
use mctp_net::Envelope;
use pldm_base::{Header, PldmRequest, write_pldm};
use std::marker::Model;
use two_wire::circles::INSTANCES;
use two_wire::size::MOST_PLDM_REQUEST_DATA;
use two_wire::{Bytes, Data};

/// Request bit 1, datagram bit 0 and the ignored bit 0, with instance 0 (DSP0240).
const REQUEST: u8 = 0x80;

/// A request of PLDM, where it lies in its message.
#[derive(Drop)]
pub(super) struct RequestInMessage<'a> {
    /// The envelope of its message.
    pub envelope: Envelope,
    pub request: PldmRequest<'a>,
    /// The request's bytes behind the first: the type, the command and the data.
    rest: &'a [u8],
}

impl<'a> Model for RequestInMessage<'a> {
    ghost use Rattle.std.specs.Prelude.{◌≡◌};
    ghost use Rattle.bmc_core.specs.SmbusHeard.{InMessage, behind_first};

    ghost Value = { InMessage };

    ghost view = { λ r. record { envelope = r.envelope; request = r.request } };

    ghost invariant = { λ r. r.rest.now ≡ behind_first r.request };
}

impl<'a> RequestInMessage<'a> {
    /// The request, with its bytes behind the first.
    pub fn new(envelope: Envelope, request: PldmRequest<'a>, rest: &'a [u8]) -> Self
        requires { rest.now ≡ behind_first request }
        ensures { result ≡ record { envelope = envelope; request = request.entry } }
    {
        RequestInMessage {
            envelope,
            request,
            rest,
        }
    }

    /// The request as the windows keep it, with the ignored bit 0.
    pub fn kept(&self) -> WindowRequest<'_, { INSTANCES }>
        ensures is { request_of pldm_reading result ≡ asking self.now }
        ensures room { length result.rest.now ≤ most_message_bytes }
    {
        let header = self.request.header;
        let _data = self.request.body.as_slice();
        WindowRequest {
            requester: self.envelope.source_eid,
            number: header.instance,
            first: REQUEST + header.instance.number(),
            rest: self.rest,
        }
    }

    /// What it asks of the board.
    #[inline(always)]
    pub fn asked(&self) -> AskedRef<'_>
        ensures { as_asked result ≡ asked_of self.now }
    {
        let Header {
            pldm_type,
            command,
            ..
        } = self.request.header;
        let from = self.envelope.source_eid;
        AskedRef::Pldm {
            from,
            kind: pldm_type,
            command,
            body: Data::new(self.request.body.as_slice()),
        }
    }

    /// A copy that waits for an answer.
    pub fn pending(&self) -> SmbusPending
        ensures { result ≡ pending_of self.now }
    {
        SmbusPending {
            envelope: self.envelope,
            header: self.request.header,
            body: Bytes::from_slice(self.request.body.as_slice()),
        }
    }
}

/// A request that waits for an answer of the board. The caller gives it back to the port together with that answer.
#[derive(Drop)]
pub struct SmbusPending {
    /// The envelope of the message, which says where the reply goes.
    envelope: Envelope,
    header: Header,
    /// The command's data.
    body: Bytes<{ MOST_PLDM_REQUEST_DATA }>,
}

impl SmbusPending {
    /// What it asks of the board.
    pub fn asked(&self) -> Asked
        ensures { result ≡ asked_of (request_in self.now) }
    {
        Asked::Pldm {
            from: self.envelope.source_eid,
            kind: self.header.pldm_type,
            command: self.header.command,
            body: self.body.copy(),
        }
    }

    /// The request's bytes, with the ignored bit 0.
    pub(super) fn bytes(&self) -> Bytes<255>
        ensures { result ≡ request_bytes (request_in self.now).request }
    {
        let mut bytes = Bytes::new();
        write_pldm(&self.as_request(), &mut bytes);
        bytes
    }

    fn as_request(&self) -> PldmRequest<'_>
        ensures { result ≡ (request_in self.now).request }
    {
        PldmRequest {
            header: self.header,
            body: Data::new(self.body.as_slice()),
        }
    }

    /// The request, where these are its bytes.
    pub(super) fn request<'a>(&'a self, bytes: &'a Bytes<255>) -> RequestInMessage<'a>
        requires { bytes.now ≡ request_bytes (request_in self.now).request }
        ensures { result ≡ request_in self.now }
    {
        RequestInMessage::new(self.envelope, self.as_request(), &bytes.as_slice()[1..])
    }
}
