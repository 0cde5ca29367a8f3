//! Whether a request repeats another.
ghost use Rattle.std.specs.Prelude.{◌≡◌, ◌<◌, ◌↔◌, IsTrue};
ghost use Rattle.ipmb_frame.specs.Grammar.{request_bytes};

use crate::{Header, Party, Request};

/// Whether two requests have the same bytes but for their addresses and checksums: netFn, sequence number, both logical
/// units, command and data.
pub fn same_request(a: &Request<'_>, b: &Request<'_>) -> bool
    ensures { IsTrue result ↔ (request_bytes a.now ≡ request_bytes b.now) }
{
    let to_same_unit = same_unit(a.header.responder, b.header.responder);
    let from_same_unit = same_unit(a.header.requester, b.header.requester);
    to_same_unit
        && from_same_unit
        && same_numbers(a.header, b.header)
        && a.body.as_slice() == b.body.as_slice()
}

/// Whether both are of one logical unit's number.
fn same_unit(a: Party, b: Party) -> bool
    ensures same { IsTrue result ↔ (a.lun ≡ b.lun) }
    ensures first { a.lun < 4 }
    ensures second { b.lun < 4 }
{
    a.lun == b.lun
}

/// Whether both have the same numbers.
fn same_numbers(a: Header, b: Header) -> bool
    ensures { IsTrue result
        ↔ ((a.net_fn ≡ b.net_fn) × (a.sequence ≡ b.sequence) × (a.command ≡ b.command)) }
{
    a.net_fn == b.net_fn && a.sequence == b.sequence && a.command == b.command
}
