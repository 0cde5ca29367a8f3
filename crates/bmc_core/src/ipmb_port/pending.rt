//! Requests that a port has heard, where they lie, and as they wait for an answer.
ghost use Rattle.std.specs.Prelude.{◌≡◌, ◌≤◌, length, drop};
ghost use Rattle.ipmb_frame.specs.Grammar.{request_bytes};
ghost use Rattle.bmc_core.specs.Heard.{request_of};
ghost use Rattle.bmc_board.specs.Asking.{as_asked};
ghost use Rattle.bmc_core.specs.Bytes.{heard_in};
ghost use Rattle.bmc_core.specs.PortSteps.{asked_in};
ghost use Rattle.bmc_core.specs.IpmbShown.{reading, HasUnits};

use crate::window_request::WindowRequest;
use bmc_board::AskedRef;
use cfg_records::Asked;
use ipmb_frame::{Header, Request};
use std::marker::Model;
use two_wire::circles::SEQUENCE_NUMBERS;
use two_wire::size::MOST_IPMI_REQUEST_DATA;
use two_wire::{Bytes, Data};

/// A request, where it lies in its frame.
#[derive(Drop)]
pub(super) struct RequestInFrame<'a> {
    request: Request<'a>,
    /// The request's bytes behind the first that is compared.
    rest: &'a [u8],
}

impl<'a> Model for RequestInFrame<'a> {
    ghost use Rattle.std.specs.Prelude.{◌≡◌, drop};
    ghost use Rattle.ipmb_frame.specs.declared.message.Request.{Request as AnyRequest};
    ghost use Rattle.ipmb_frame.specs.Grammar.{request_bytes};

    ghost Value = { AnyRequest };

    ghost view = { λ r. r.request };

    ghost invariant = { λ r. r.rest.now ≡ drop 1 (request_bytes r.request) };
}

impl<'a> RequestInFrame<'a> {
    /// The request, with its bytes behind the first that is compared.
    pub fn new(request: Request<'a>, rest: &'a [u8]) -> Self
        requires { rest.now ≡ drop 1 (request_bytes request) }
        ensures { result ≡ request.entry }
    {
        RequestInFrame { request, rest }
    }

    pub fn header(&self) -> &Header
        ensures { result.now ≡ self.now.header }
    {
        &self.request.header
    }

    /// What it asks of the board.
    #[inline(always)]
    pub fn asked(&self) -> AskedRef<'_>
        ensures { as_asked result ≡ asked_in self.now }
    {
        let header = &self.request.header;
        AskedRef::Ipmi {
            from: header.requester.address.byte(),
            net_fn: header.net_fn,
            lun: header.responder.lun,
            command: header.command,
            body: Data::new(self.request.body.as_slice()),
        }
    }

    /// The request as the windows keep it.
    pub fn kept(&self) -> WindowRequest<'_, { SEQUENCE_NUMBERS }>
        ensures is { request_of reading result ≡ heard_in self.now }
        ensures room { length result.rest.now ≤ 27 }
        ensures units { HasUnits self.now.header }
    {
        let header = &self.request.header;
        let _data = self.request.body.as_slice();
        let _requester = header.requester.lun.number();
        WindowRequest {
            requester: header.requester.address.byte(),
            number: header.sequence,
            first: header.net_fn.number() << 2 | header.responder.lun.number(),
            rest: self.rest,
        }
    }

    /// A copy that waits for an answer.
    pub fn pending(&self) -> IpmbPending
        ensures { result ≡ self.now }
    {
        IpmbPending {
            header: self.request.header,
            body: Bytes::from_slice(self.request.body.as_slice()),
        }
    }
}

/// A request that waits for an answer of the board, and isn't kept yet. Contracts see it as that request.
#[derive(Drop)]
pub struct IpmbPending {
    header: Header,
    /// The command's data.
    body: Bytes<{ MOST_IPMI_REQUEST_DATA }>,
}

impl Model for IpmbPending {
    ghost use Rattle.ipmb_frame.specs.declared.message.Request.{Request as AnyRequest};

    ghost Value = { AnyRequest };

    ghost view = { λ p. record { header = p.header; body = p.body } };

    ghost inverse = { λ r. record { header = r.header; body = r.body } };
}

impl IpmbPending {
    /// What it asks of the board.
    pub fn asked(&self) -> Asked
        ensures { result ≡ asked_in self.now }
    {
        Asked::Ipmi {
            from: self.header.requester.address.byte(),
            net_fn: self.header.net_fn,
            lun: self.header.responder.lun,
            command: self.header.command,
            body: self.body.copy(),
        }
    }

    /// The request's bytes behind the first that is compared.
    pub(super) fn rest(&self) -> Bytes<27>
        ensures { result ≡ drop 1 (request_bytes self.now) }
    {
        let mut rest = Bytes::new();
        rest.push(self.header.sequence.number() << 2 | self.header.requester.lun.number());
        rest.push(self.header.command);
        rest.extend_from_slice(self.body.as_slice());
        rest
    }

    /// The request, where these are its bytes.
    pub(super) fn request<'a>(&'a self, rest: &'a Bytes<27>) -> RequestInFrame<'a>
        requires { rest.now ≡ drop 1 (request_bytes self.now) }
        ensures { result ≡ self.now }
    {
        let request = Request {
            header: self.header,
            body: Data::new(self.body.as_slice()),
        };
        RequestInFrame::new(request, rest.as_slice())
    }
}
