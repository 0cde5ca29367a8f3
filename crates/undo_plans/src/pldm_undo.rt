//! A request over SMBus that undoes a step, where it lies.
ghost use Rattle.std.specs.Prelude.{◌≡◌, ◌≤◌, ◌<◌, length, IfSome, IfNone};
ghost use Rattle.two_wire.specs.Sizes.{most_pldm_request_data};
ghost use Rattle.record_base.specs.declared.message.Asked.TheVariants as asked_as;
ghost use Rattle.bios_attr.specs.EntryParts.{is_in_parts, request_at};
ghost use Rattle.undo_plans.specs.Fitting.{most_of, most_requests};

use bios_attr::bios_attribute::{BIOS, SET_CURRENT_VALUE};
use bios_attr::entry_parts::{BEFORE_PART, MOST_ENTRY, goes_in_parts, part_at};
use record_base::Asked;
use record_base::value::DATA_CAPACITY;
use two_wire::size::MOST_PLDM_REQUEST_DATA;
use two_wire::{Below, Bytes, Data};

/// The most bytes of data of a request that undoes a step over SMBus.
pub const MOST_UNDO_DATA: usize = DATA_CAPACITY;

/// A request that undoes a step over SMBus: its type, its command and its data. It sets an attribute whose entry goes in parts, or it fits a
/// message.
#[derive(Debug, Drop)]
pub struct PldmUndo<'a> {
    pub kind: Below<64>,
    pub command: u8,
    pub body: Data<'a, { MOST_UNDO_DATA }>,
    pub ghost fits: { length body ≤ most_of (asked_as.Pldm 0 kind command body) },
}

/// Whether a request over SMBus sets an attribute, and goes in parts.
fn is_in_parts(kind: Below<64>, command: u8, body: &[u8]) -> bool
    ensures { result ≡ is_in_parts (asked_as.Pldm 0 kind command body.now) }
{
    kind.number() == BIOS && command == SET_CURRENT_VALUE && goes_in_parts(body)
}

/// How many bytes of data a request over SMBus may have that begins like these.
fn most_bytes(kind: Below<64>, command: u8, body: &[u8]) -> usize
    ensures { result ≡ most_of (asked_as.Pldm 0 kind command body.now) }
{
    if is_in_parts(kind, command, body) {
        BEFORE_PART + MOST_ENTRY
    } else {
        MOST_PLDM_REQUEST_DATA
    }
}

impl<'a> PldmUndo<'a> {
    /// The request of this type, this command and these data, or nothing where the data are too many.
    pub fn new(kind: Below<64>, command: u8, body: &'a [u8]) -> Option<Self>
        ensures some { IfSome result (λ request.
            asked_as.Pldm 0 request.kind request.command request.body
            ≡ asked_as.Pldm 0 kind command body.now) }
        ensures none { IfNone result
            (most_of (asked_as.Pldm 0 kind command body.now) < length body.now) }
    {
        if body.len() > most_bytes(kind, command, body) {
            return None;
        }
        Some(PldmUndo {
            kind,
            command,
            body: Data::new(body),
        })
    }

    /// The request with other data, as a value of its own.
    fn with(&self, body: &[u8]) -> Asked
        requires { length body.now ≤ most_pldm_request_data }
        ensures { result ≡ asked_as.Pldm 0 self.now.kind self.now.command body.now }
    {
        Asked::Pldm {
            from: 0,
            kind: self.kind,
            command: self.command,
            body: Bytes::from_slice(body),
        }
    }

    /// The one of this place, counted from 0, among the requests that carry it out.
    pub fn request(&self, place: u8) -> Option<Asked>
        ensures request { result ≡ request_at
            (asked_as.Pldm 0 self.now.kind self.now.command self.now.body) place }
        ensures few { IfSome result (λ _. place < most_requests) }
    {
        let body = self.body.as_slice();
        if is_in_parts(self.kind, self.command, body) {
            let part = part_at(body, place)?;
            return Some(self.with(part.as_slice()));
        }
        if place == 0 {
            Some(self.with(body))
        } else {
            None
        }
    }
}
