//! The request that words name by its bytes.
ghost use Rattle.std.specs.Prelude.{◌≡◌, ◌⊎◌, ℕ, List, Err, IfOk, IfErr, IfSome, IfNone, map, string_bytes};
ghost use Rattle.std.specs.Option.{option_copied};
ghost use Rattle.record_base.specs.declared.message.Asked.{Asked as AnyAsked};
ghost use Rattle.bmc_lab.specs.Request.{AsksForRequest, IsIpmiOf, IsPldmOf, IsRequestOf, SpellBytes, SpellsPart};

use crate::asked::bus_named;
use app_base::Status;
use hex::FromHexError;
use record_base::Asked;
use std::alloc::{AllocError, Global};
use two_wire::size::{MOST_IPMI_REQUEST_DATA, MOST_PLDM_REQUEST_DATA};
use two_wire::{Below, Bus, NetFn};

/// The bytes that a word spells, two hexadecimal digits each, or `None` where it spells none.
fn word_bytes(alloc: Global, word: &str) -> Result<Option<Vec<u8>>, AllocError>
    ensures some { IfOk result (λ found.
        IfSome found (λ bytes. SpellsPart word.now bytes.items)) }
    ensures none { IfOk result (λ found.
        IfNone found ((bytes : List ℕ) → ¬ SpellsPart word.now bytes)) }
{
    match hex::decode(alloc, word) {
        Ok(bytes) if bytes.is_empty() => Ok(None),
        Ok(bytes) => Ok(Some(bytes)),
        Err(FromHexError::OutOfMemory) => Err(AllocError),
        Err(_) => Ok(None),
    }
}

/// The bytes that the words spell, one behind another, or `None` where one of them spells none.
fn spelled_bytes(alloc: Global, words: &[String]) -> Result<Option<Vec<u8>>, AllocError>
    ensures some { IfOk result (λ found.
        IfSome found (λ bytes. SpellBytes (map string_bytes words.now) bytes.items)) }
    ensures none { IfOk result (λ found.
        IfNone found ((bytes : List ℕ) → ¬ SpellBytes (map string_bytes words.now) bytes)) }
{
    let mut all = Vec::new(alloc);
    for word in words {
        let Some(bytes) = word_bytes(alloc, word.as_str())? else {
            return Ok(None);
        };
        all.extend_from_slice(bytes.as_slice())?;
    }
    Ok(Some(all))
}

/// The IPMI request of this network function and command with these data, where IPMB carries one.
fn ipmi_request(net_fn: u8, command: u8, body: &[u8]) -> Option<Asked>
    ensures some { IfSome result (IsIpmiOf net_fn command body.now) }
    ensures none { IfNone result ((asked : AnyAsked) → ¬ IsIpmiOf net_fn command body.now asked) }
{
    if net_fn >= 64 || net_fn % 2 == 1 || body.len() > MOST_IPMI_REQUEST_DATA {
        return None;
    }
    Some(Asked::ipmi(NetFn::new(net_fn), command, body))
}

/// The PLDM request of this type and command with these data, where a message carries one.
fn pldm_request(kind: u8, command: u8, body: &[u8]) -> Option<Asked>
    ensures some { IfSome result (IsPldmOf kind command body.now) }
    ensures none { IfNone result ((asked : AnyAsked) → ¬ IsPldmOf kind command body.now asked) }
{
    if kind >= 64 || body.len() > MOST_PLDM_REQUEST_DATA {
        return None;
    }
    Some(Asked::pldm(Below::new(kind), command, body))
}

/// The request of these bytes on the bus: the network function or the type, the command, and the data. `None` where the bus carries no such request.
fn request_of(bus: Bus, bytes: &[u8]) -> Option<Asked>
    ensures some { IfSome result (IsRequestOf bus bytes.now) }
    ensures none { IfNone result ((asked : AnyAsked) → ¬ IsRequestOf bus bytes.now asked) }
{
    let [first, command, body @ ..] = bytes else {
        return None;
    };
    match bus {
        Bus::Ipmb => ipmi_request(*first, *command, body),
        Bus::Smbus => pldm_request(*first, *command, body),
    }
}

/// The request that the words BUS and BYTE.. name, or `RefusedWords` where they name none. `word` is `None` where BUS is left out.
pub fn asked_request(alloc: Global, word: Option<&str>, words: &[String]) -> Result<Asked, Status>
    ensures asked { IfOk result (AsksForRequest (option_copied word.entry)
        (map string_bytes words.now)) }
    ensures refused { result ≡ Err Status.RefusedWords → (asked : AnyAsked)
        → ¬ AsksForRequest (option_copied word.entry) (map string_bytes words.now) asked }
    ensures faults { IfErr result
        (λ status. (status ≡ Status.RefusedWords) ⊎ (status ≡ Status.Memory)) }
{
    let bus = bus_named(word)?;
    match spelled_bytes(alloc, words) {
        Ok(Some(bytes)) => request_of(bus, bytes.as_slice()).ok_or(Status::RefusedWords),
        Ok(None) => Err(Status::RefusedWords),
        Err(_) => Err(Status::Memory),
    }
}
