//! A request that undoes a step, where it lies.
ghost use Rattle.std.specs.Prelude.{◌≡◌, ◌≤◌, ◌<◌, length, IfSome};
ghost use Rattle.bios_attr.specs.EntryParts.{first_request, with_body, request_at as request_of_place};
ghost use Rattle.undo_plans.specs.Fitting.{data_of, from_nobody, most_of, FitsMessages, most_requests};
ghost use Rattle.undo_plans.specs.Requests.{meant, request_of, request_at, RequestLies};

use crate::pldm_undo::PldmUndo;
use record_base::Asked;
use two_wire::size::MOST_IPMI_REQUEST_DATA;
use two_wire::{Below, Bytes, Data, Lun, NetFn};

/// How many requests carry one out at most: one for each part of the longest entry of an attribute.
pub const MOST_REQUESTS: u8 = 6;

/// A request that undoes a step, without a sender. Its data lie where somebody else keeps them, as in `Requests`.
#[derive(Debug, Drop)]
pub enum UndoRequest<'a> {
    /// IPMI: network function, logical unit of the controller, command and data.
    Ipmi {
        net_fn: NetFn,
        lun: Lun,
        command: u8,
        body: Data<'a, { MOST_IPMI_REQUEST_DATA }>,
    },
    /// PLDM.
    Pldm(PldmUndo<'a>),
}

/// What a request is, beside its data.
#[derive(Clone, Copy)]
pub(crate) enum Head {
    IpmiHead {
        net_fn: NetFn,
        lun: Lun,
        command: u8,
    },
    PldmHead {
        kind: Below<64>,
        command: u8,
    },
}

/// A request without its data, and where these lie.
#[derive(Clone, Copy)]
pub(crate) struct Mark {
    pub(crate) head: Head,
    pub(crate) start: usize,
    pub(crate) end: usize,
}

impl<'a> UndoRequest<'a> {
    /// The request, which lies in a value of its own, without its sender.
    pub fn of(asked: &'a Asked) -> Self
        ensures request { meant result ≡ from_nobody asked.now }
        ensures fits { length (data_of asked.now) ≤ most_of asked.now }
    {
        match asked {
            Asked::Ipmi { body, .. } => UndoRequest::with(asked, body.as_slice()),
            Asked::Pldm { body, .. } => UndoRequest::with(asked, body.as_slice()),
        }
    }

    /// The request with other data, without its sender.
    pub fn with(asked: &Asked, body: &'a [u8]) -> Self
        requires { FitsMessages (with_body asked.now body.now) }
        ensures { meant result ≡ from_nobody (with_body asked.now body.now) }
    {
        match asked {
            Asked::Ipmi {
                net_fn,
                lun,
                command,
                ..
            } => UndoRequest::Ipmi {
                net_fn: *net_fn,
                lun: *lun,
                command: *command,
                body: Data::new(body),
            },
            Asked::Pldm { kind, command, .. } => UndoRequest::Pldm(PldmUndo {
                kind: *kind,
                command: *command,
                body: Data::new(body),
            }),
        }
    }

    /// The request's data.
    pub fn body(&self) -> &'a [u8]
        ensures { result.now ≡ data_of (meant self.now) }
    {
        match self {
            UndoRequest::Ipmi { body, .. } => body.as_slice(),
            UndoRequest::Pldm(request) => request.body.as_slice(),
        }
    }

    /// The one of this place, counted from 0, among the requests that carry it out: itself alone, or one for each part of an attribute's entry.
    /// There is none past the last.
    pub fn request(&self, place: u8) -> Option<Asked>
        ensures request { result ≡ request_of_place (meant self.now) place }
        ensures few { IfSome result (λ _. place < most_requests) }
    {
        match self {
            UndoRequest::Ipmi {
                net_fn,
                lun,
                command,
                body,
            } => {
                if place != 0 {
                    return None;
                }
                Some(Asked::Ipmi {
                    from: 0,
                    net_fn: *net_fn,
                    lun: *lun,
                    command: *command,
                    body: Bytes::from_slice(body.as_slice()),
                })
            }
            UndoRequest::Pldm(request) => request.request(place),
        }
    }

    /// The first of the requests that carry it out.
    pub fn first(&self) -> Asked
        ensures { result ≡ first_request (meant self.now) }
    {
        self.request(0).unwrap()
    }

    /// What it is beside its data, and these.
    pub(crate) fn parts(&self) -> (Head, &'a [u8])
        ensures parts { request_of result.0 result.1.now ≡ meant self.now }
        ensures body { result.1.now ≡ data_of (meant self.now) }
        ensures fits { FitsMessages (request_of result.0 result.1.now) }
    {
        match self {
            UndoRequest::Ipmi {
                net_fn,
                lun,
                command,
                body,
            } => {
                let head = Head::IpmiHead {
                    net_fn: *net_fn,
                    lun: *lun,
                    command: *command,
                };
                (head, body.as_slice())
            }
            UndoRequest::Pldm(request) => {
                let head = Head::PldmHead {
                    kind: request.kind,
                    command: request.command,
                };
                (head, request.body.as_slice())
            }
        }
    }
}

impl Head {
    /// The request of these data.
    fn request<'a>(self, body: &'a [u8]) -> UndoRequest<'a>
        requires { FitsMessages (request_of self body.now) }
        ensures { meant result ≡ request_of self body.now }
    {
        match self {
            Head::IpmiHead {
                net_fn,
                lun,
                command,
            } => UndoRequest::Ipmi {
                net_fn,
                lun,
                command,
                body: Data::new(body),
            },
            Head::PldmHead { kind, command } => UndoRequest::Pldm(PldmUndo {
                kind,
                command,
                body: Data::new(body),
            }),
        }
    }
}

impl Mark {
    /// The request, whose data lie among these bytes.
    pub(crate) fn request<'a>(&self, bytes: &'a [u8]) -> UndoRequest<'a>
        requires { RequestLies bytes.now self.now }
        ensures { meant result ≡ request_at bytes.now self.now }
    {
        self.head.request(&bytes[self.start..self.end])
    }
}
