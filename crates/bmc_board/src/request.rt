//! Requests, to the commands of the tables.
ghost use Rattle.std.specs.Prelude.{◌≡◌, ℕ};
ghost use Rattle.bmc_board.specs.Request.{asked_of, asked_by, asked_at, IsReadFrom, requester};

use crate::command::{Command, Line, is_pldm_type, line_of, pldm_line_of};
use cfg_records::Asked;
use two_wire::{Below, Code, Lun, NetFn, code};

/// What refuses a command that isn't listed, and one whose data has a length that it doesn't take.
#[derive(Clone, Copy)]
pub struct Refusals {
    pub unlisted: Code,
    pub not_allowed: Code,
}

const IPMI: Refusals = Refusals {
    unlisted: code::INVALID_COMMAND,
    not_allowed: code::INVALID_LENGTH,
};

const PLDM: Refusals = Refusals {
    unlisted: code::PLDM_UNSUPPORTED_COMMAND,
    not_allowed: code::PLDM_INVALID_LENGTH,
};

/// The line's command, where it takes data of this length, or what refuses it.
#[inline(always)]
fn command_at(refusals: Refusals, line: Option<Line>, body: &[u8]) -> Result<Command, Code>
    ensures { (from : ℕ) → asked_of from result body.now
        ≡ asked_at from refusals line body.now }
{
    let Some(line) = line else {
        return Err(refusals.unlisted);
    };
    if !line.lengths.allow(body) {
        return Err(refusals.not_allowed);
    }
    Ok(line.command)
}

/// The command of an IPMI request, or the first code that refuses it: the logical unit comes first, then the command, then the
/// length of its data. Who asks makes no difference to it.
pub fn read_ipmi(lun: Lun, net_fn: NetFn, number: u8, body: &[u8]) -> Result<Command, Code>
    ensures { IsReadFrom (λ from. Asked.Ipmi from net_fn lun number body.now) body.now result }
{
    if lun.number() != 0 {
        return Err(code::INVALID_FOR_LUN);
    }
    command_at(IPMI, line_of(net_fn.number(), number), body)
}

/// The command of a PLDM request, or the first code that refuses it: the type comes first, then the command, then the length of
/// its data. Who asks makes no difference to it.
pub fn read_pldm(kind: Below<64>, number: u8, body: &[u8]) -> Result<Command, Code>
    ensures { IsReadFrom (λ from. Asked.Pldm from kind number body.now) body.now result }
{
    let kind = kind.number();
    if !is_pldm_type(kind) {
        return Err(code::PLDM_INVALID_TYPE);
    }
    command_at(PLDM, pldm_line_of(kind, number), body)
}

/// Who asks: an IPMB address, or an endpoint's EID.
pub fn requester(asked: &Asked) -> u8
    ensures { result ≡ requester asked.now }
{
    match asked {
        Asked::Ipmi { from, .. } | Asked::Pldm { from, .. } => *from,
    }
}

/// The command of a request, or the first code that refuses it, and the request's data.
pub fn read_request(asked: &Asked) -> (Result<Command, Code>, &[u8])
    ensures { asked_of (requester asked.now) result.0 result.1.now ≡ asked_by asked.now }
{
    match asked {
        Asked::Ipmi {
            lun,
            net_fn,
            command,
            body,
            ..
        } => {
            let body = body.as_slice();
            (read_ipmi(*lun, *net_fn, *command, body), body)
        }
        Asked::Pldm {
            kind,
            command,
            body,
            ..
        } => {
            let body = body.as_slice();
            (read_pldm(*kind, *command, body), body)
        }
    }
}
