//! The lines of requests.
ghost use Rattle.std.specs.Prelude.{◌≡◌, ◌≢◌, ℕ, List, IfOk, IfSome, IfNone, MatchOption};
ghost use Rattle.record_base.specs.declared.message.Asked.{Asked as AnyAsked};
ghost use Rattle.record_base.specs.declared.op.Op.{Op as AnyOp};
ghost use Rattle.record_kinds.specs.Series.{set_whole};
ghost use Rattle.two_wire.specs.declared.Bus.{Bus as AnyBus};
ghost use Rattle.undo_plans.specs.Requests.{meant};
ghost use Rattle.text_lines.specs.UndoText.{BeginsWith, name_of, bus_of};
ghost use Rattle.text_journal.specs.JournalLines.{bytes_of, IsRequest, IsBytesLine};

use crate::line::first_bytes;
use crate::step::{RequestHead, step_in};
use record_base::Op;
use std::alloc::{AllocError, Global};
use two_wire::size::MOST_IPMI_REQUEST_DATA;
use two_wire::{Below, Bus, Data, Lun, NetFn};
use undo_plans::{PldmUndo, UndoRequest};

/// The name of a bus on a line, and the space behind it.
pub(crate) fn bus_words(bus: Bus) -> &'static str
    ensures { result.now ≡ name_of bus }
{
    match bus {
        Bus::Ipmb => "ipmb ",
        Bus::Smbus => "smbus ",
    }
}

/// A request as a line spells it: its bus, and its bytes.
#[derive(Drop)]
pub(crate) struct SpeltRequest {
    pub(crate) bus: Bus,
    pub(crate) bytes: Vec<u8>,
}

/// The request on this bus that the text's first line spells, and the text behind that line.
fn first_on(alloc: Global, bus: Bus, text: &str) -> Result<Option<(SpeltRequest, &str)>, AllocError>
    ensures { IfOk result (λ found. MatchOption found
        ((more bytes : List ℕ)
        → ¬ BeginsWith (λ line. IsBytesLine (name_of bus) line bytes) text.now more)
        (λ it. BeginsWith (λ line. IsBytesLine (name_of it.0.bus) line it.0.bytes.items)
        text.now it.1.now)) }
{
    let Some(found) = first_bytes(alloc, bus_words(bus), text)? else {
        return Ok(None);
    };
    let spelt = SpeltRequest {
        bus,
        bytes: found.0,
    };
    Ok(Some((spelt, found.1)))
}

/// The request that the text's first line spells, and the text behind that line.
pub(crate) fn first_spelt(
    alloc: Global,
    text: &str,
) -> Result<Option<(SpeltRequest, &str)>, AllocError>
    ensures { IfOk result (λ found. MatchOption found
        ((more bytes : List ℕ) (bus : AnyBus)
        → ¬ BeginsWith (λ line. IsBytesLine (name_of bus) line bytes) text.now more)
        (λ it. BeginsWith (λ line. IsBytesLine (name_of it.0.bus) line it.0.bytes.items)
        text.now it.1.now)) }
{
    match first_on(alloc, Bus::Ipmb, text)? {
        Some(found) => Ok(Some(found)),
        None => first_on(alloc, Bus::Smbus, text),
    }
}

/// The IPMI request of these bytes: a network function with a logical unit, a command and data.
fn ipmi(bytes: &[u8]) -> Option<UndoRequest<'_>>
    ensures some { IfSome result (λ request. IsRequest (meant request)
        × (bus_of (meant request) ≡ name_of Bus.Ipmb) × (bytes_of (meant request) ≡ bytes.now)) }
    ensures none { IfNone result ((asked : AnyAsked) → IsRequest asked
        → bus_of asked ≡ name_of Bus.Ipmb → bytes_of asked ≢ bytes.now) }
{
    let [first, command, body @ ..] = bytes else {
        return None;
    };
    if *first % 8 >= 4 || body.len() > MOST_IPMI_REQUEST_DATA {
        return None;
    }
    Some(UndoRequest::Ipmi {
        net_fn: NetFn::new(*first / 4),
        lun: Lun::new(*first % 4),
        command: *command,
        body: Data::new(body),
    })
}

/// The PLDM request of these bytes: a type, a command and data.
fn pldm(bytes: &[u8]) -> Option<UndoRequest<'_>>
    ensures some { IfSome result (λ request. IsRequest (meant request)
        × (bus_of (meant request) ≡ name_of Bus.Smbus) × (bytes_of (meant request) ≡ bytes.now)) }
    ensures none { IfNone result ((asked : AnyAsked) → IsRequest asked
        → bus_of asked ≡ name_of Bus.Smbus → bytes_of asked ≢ bytes.now) }
{
    let [kind, command, body @ ..] = bytes else {
        return None;
    };
    if *kind >= 64 {
        return None;
    }
    match PldmUndo::new(Below::new(*kind), *command, body) {
        Some(request) => Some(UndoRequest::Pldm(request)),
        None => None,
    }
}

impl SpeltRequest {
    /// The step that the request carries out, where it carries one out.
    pub(crate) fn step(&self) -> Option<Op<'_>>
        ensures some { IfSome result (λ op. (bus_of (set_whole op) ≡ name_of self.now.bus)
            × (bytes_of (set_whole op) ≡ self.now.bytes.items)) }
        ensures none { IfNone result ((op : AnyOp) → bus_of (set_whole op) ≡ name_of self.now.bus
            → bytes_of (set_whole op) ≢ self.now.bytes.items) }
    {
        let [first, command, body @ ..] = self.bytes.as_slice() else {
            return None;
        };
        let head = RequestHead {
            bus: self.bus,
            first: *first,
            command: *command,
        };
        step_in(head, body)
    }

    /// The request that undoes a step, where it is one.
    pub(crate) fn request(&self) -> Option<UndoRequest<'_>>
        ensures some { IfSome result (λ request. IsRequest (meant request)
            × (bus_of (meant request) ≡ name_of self.now.bus)
            × (bytes_of (meant request) ≡ self.now.bytes.items)) }
        ensures none { IfNone result ((asked : AnyAsked) → IsRequest asked
            → bus_of asked ≡ name_of self.now.bus → bytes_of asked ≢ self.now.bytes.items) }
    {
        match self.bus {
            Bus::Ipmb => ipmi(self.bytes.as_slice()),
            Bus::Smbus => pldm(self.bytes.as_slice()),
        }
    }
}
