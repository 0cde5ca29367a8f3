//! What was asked and answered, without its bytes, and where these lie.
ghost use Rattle.std.specs.Prelude.{◌≡◌, ◌≤◌, List, ℕ, length};
ghost use Rattle.two_wire.specs.Sizes.{most_pldm_reply_data};
ghost use Rattle.bmc_shared.specs.Entries.{call_of, event_of, exchanged, most_request, EntryLies};

use crate::event::{Call, Event};
use bmc_board::{AskedRef, Bench, NoSensor};
use record_base::{Answered, Asked};
use two_wire::{Below, Bytes, Lun, NetFn};

/// What a call is, beside the bytes of its request and its reply.
#[derive(Clone, Copy)]
pub(crate) enum Head {
    /// An IPMI request, and its completion code.
    IpmiAsked {
        from: u8,
        net_fn: NetFn,
        lun: Lun,
        command: u8,
        code: u8,
    },
    /// A PLDM request, and its completion code.
    PldmAsked {
        from: u8,
        kind: Below<64>,
        command: u8,
        code: u8,
    },
    /// What happened beside requests, with the board's answer.
    Happened {
        bench: Bench,
        answered: Result<(), NoSensor>,
    },
}

impl Head {
    /// The head of the call of this request with a reply of this code, and the request's data.
    pub(crate) fn of<'a>(asked: &AskedRef<'a>, code: u8) -> (Head, &'a [u8])
        ensures call { (body : List ℕ) →
            call_of result.0 result.1.now body ≡ exchanged asked.now code body }
        ensures fits { length result.1.now ≤ most_request result.0 }
    {
        match asked {
            AskedRef::Ipmi {
                from,
                net_fn,
                lun,
                command,
                body,
            } => {
                let head = Head::IpmiAsked {
                    from: *from,
                    net_fn: *net_fn,
                    lun: *lun,
                    command: *command,
                    code,
                };
                (head, body.as_slice())
            }
            AskedRef::Pldm {
                from,
                kind,
                command,
                body,
            } => {
                let head = Head::PldmAsked {
                    from: *from,
                    kind: *kind,
                    command: *command,
                    code,
                };
                (head, body.as_slice())
            }
        }
    }

    /// The call of these bytes.
    fn call(self, request: &[u8], reply: &[u8]) -> Call
        requires request { length request.now ≤ most_request self }
        requires reply { length reply.now ≤ most_pldm_reply_data }
        ensures { result ≡ call_of self request.now reply.now }
    {
        match self {
            Head::IpmiAsked {
                from,
                net_fn,
                lun,
                command,
                code,
            } => Call::Exchanged {
                asked: Asked::Ipmi {
                    from,
                    net_fn,
                    lun,
                    command,
                    body: Bytes::from_slice(request),
                },
                answered: Answered {
                    code,
                    body: Bytes::from_slice(reply),
                },
            },
            Head::PldmAsked {
                from,
                kind,
                command,
                code,
            } => Call::Exchanged {
                asked: Asked::Pldm {
                    from,
                    kind,
                    command,
                    body: Bytes::from_slice(request),
                },
                answered: Answered {
                    code,
                    body: Bytes::from_slice(reply),
                },
            },
            Head::Happened { bench, answered } => Call::Benched { bench, answered },
        }
    }
}

/// A call without its bytes, the number of the seat that made it, and where its bytes lie.
#[derive(Clone, Copy)]
pub(crate) struct Mark {
    pub(crate) seat: u8,
    pub(crate) head: Head,
    /// Where its request begins.
    pub(crate) request: usize,
    /// Where its reply begins, which follows the request.
    pub(crate) reply: usize,
    pub(crate) end: usize,
}

impl Mark {
    /// A mark. Which event it is of doesn't matter.
    pub(crate) fn blank() -> Mark {
        Mark {
            seat: 0,
            head: Head::Happened {
                bench: Bench::Tick,
                answered: Ok(()),
            },
            request: 0,
            reply: 0,
            end: 0,
        }
    }

    /// The event, whose bytes lie among these.
    pub(crate) fn event(&self, bytes: &[u8]) -> Event
        requires { EntryLies (length bytes.now) self.now }
        ensures { result ≡ event_of bytes.now self.now }
    {
        Event {
            seat: self.seat,
            call: self.head.call(
                &bytes[self.request..self.reply],
                &bytes[self.reply..self.end],
            ),
        }
    }
}
