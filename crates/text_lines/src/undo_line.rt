//! The lines of an undo text.
ghost use Rattle.std.specs.Prelude.{◌≡◌, ◌≢◌, ◌++◌, ◌∷◌, [], ◌<◌, ℕ, List, true, false, None, IfOk, IfSome, IfNone, OnOk, Ok, MatchOption, length, codes, string_bytes};
ghost use Rattle.std.specs.Fmt.{decimal};
ghost use Rattle.hex.specs.Hex.{IsBytes, encode_upper};
ghost use Rattle.text_lines.specs.Cuts.{ended};
ghost use Rattle.record_base.specs.declared.message.Asked.{Asked as AnyAsked};
ghost use Rattle.undo_plans.specs.declared.undo_list.NextNumbers.{NextNumbers as AnyNumbers};
ghost use Rattle.two_wire.specs.declared.Bus.{Bus as AnyBus};
ghost use Rattle.undo_plans.specs.Requests.{meant};
ghost use Rattle.undo_plans.specs.Steps.{most_steps};
ghost use Rattle.text_lines.specs.UndoText.{IsPlain, IsNumbersLine, SpellsRequestOf, IsRequestLine, BeginsWith, name_of, line_of};

use crate::cut::{behind, first_line, first_word};
use crate::decimals::plain_number;
use crate::spelt::bytes;
use std::alloc::{AllocError, Global};
use two_wire::size::MOST_IPMI_REQUEST_DATA;
use two_wire::{Below, Bus, Data, Lun, NetFn};
use undo_plans::{NextNumbers, PldmUndo, Requests, UndoRequest};

/// The line of the numbers of the next requests, up to the first number.
const NEXT_IPMB: &str = "next ipmb ";

/// What stands between the two numbers, behind the first space.
const NEXT_SMBUS: &str = "smbus ";

/// The number below `END` that the word is in decimal digits without leading zeros.
fn below<const END: u8>(word: &str) -> Option<Below<END>>
    ensures some { IfSome result (λ number. (word.now ≡ decimal number) × (number < END)) }
    ensures none { IfNone result ((number : ℕ) → number < END → word.now ≢ decimal number) }
{
    let Some(number) = plain_number(word) else {
        return None;
    };
    if number >= u32::from(END) {
        return None;
    }
    Some(Below::new(number as u8))
}

/// The numbers that the line has.
fn numbers(line: &str) -> Option<NextNumbers>
    ensures some { IfSome result (λ next. IsNumbersLine line.now next) }
    ensures none { IfNone result ((next : AnyNumbers) → ¬ IsNumbersLine line.now next) }
{
    let Some(numbers) = behind(NEXT_IPMB, line) else {
        return None;
    };
    let Some(parts) = first_word(numbers) else {
        return None;
    };
    let Some(last) = behind(NEXT_SMBUS, parts.1) else {
        return None;
    };
    let Some(ipmb) = below(parts.0) else {
        return None;
    };
    let Some(smbus) = below(last) else {
        return None;
    };
    Some(NextNumbers { ipmb, smbus })
}

/// The numbers on the first line of the text, and the text behind that line.
pub fn first_numbers(text: &str) -> Option<(NextNumbers, &str)>
    ensures some { IfSome result (λ found.
        BeginsWith (λ line. IsNumbersLine line found.0) text.now found.1.now) }
    ensures none { IfNone result ((more : List ℕ) (next : AnyNumbers)
        → ¬ BeginsWith (λ line. IsNumbersLine line next) text.now more) }
{
    let Some(parts) = first_line(text) else {
        return None;
    };
    match numbers(parts.0) {
        Some(next) => Some((next, parts.1)),
        None => None,
    }
}

/// The IPMI request of these bytes: a network function with logical unit 0, a command and data.
fn ipmi(bytes: &[u8]) -> Option<UndoRequest<'_>>
    ensures some { IfSome result (λ request.
        SpellsRequestOf (codes "ipmb ") bytes.now (meant request)) }
    ensures none { IfNone result ((asked : AnyAsked)
        → ¬ SpellsRequestOf (codes "ipmb ") bytes.now asked) }
{
    let [first, command, body @ ..] = bytes else {
        return None;
    };
    if *first % 8 != 0 || body.len() > MOST_IPMI_REQUEST_DATA {
        return None;
    }
    Some(UndoRequest::Ipmi {
        net_fn: NetFn::new(*first / 4),
        lun: Lun::new(0),
        command: *command,
        body: Data::new(body),
    })
}

/// The PLDM request of these bytes: a type, a command and data.
fn pldm(bytes: &[u8]) -> Option<UndoRequest<'_>>
    ensures some { IfSome result (λ request.
        SpellsRequestOf (codes "smbus ") bytes.now (meant request)) }
    ensures none { IfNone result ((asked : AnyAsked)
        → ¬ SpellsRequestOf (codes "smbus ") bytes.now asked) }
{
    let [kind, command, body @ ..] = bytes else {
        return None;
    };
    if *kind >= 64 {
        return None;
    }
    match PldmUndo::new(Below::new(*kind), *command, body) {
        Some(request) => Some(UndoRequest::Pldm(request)),
        None => None,
    }
}

/// The request of the bus of these bytes.
fn request(bus: Bus, bytes: &[u8]) -> Option<UndoRequest<'_>>
    ensures some { IfSome result (λ request.
        SpellsRequestOf (name_of bus) bytes.now (meant request)) }
    ensures none { IfNone result ((asked : AnyAsked)
        → ¬ SpellsRequestOf (name_of bus) bytes.now asked) }
{
    match bus {
        Bus::Ipmb => ipmi(bytes),
        Bus::Smbus => pldm(bytes),
    }
}

/// The bus that the line names, and the digits behind its name.
fn digits(line: &str) -> Option<(Bus, &str)>
    ensures some { IfSome result (λ found. line.now ≡ name_of found.0 ++ found.1.now) }
    ensures none { IfNone result ((bus : AnyBus) (rest : List ℕ) → line.now ≢ name_of bus ++ rest) }
{
    if let Some(digits) = behind("ipmb ", line) {
        return Some((Bus::Ipmb, digits));
    }
    match behind("smbus ", line) {
        Some(digits) => Some((Bus::Smbus, digits)),
        None => None,
    }
}

/// Adds the request that the line is of, and tells whether it is of one.
fn add_line(alloc: Global, line: &str, requests: &mut Requests) -> Result<bool, AllocError>
    requires few { length requests.old.members < most_steps }
    requires none { requests.old.waiting ≡ None }
    ensures added { result ≡ Ok true → (asked : AnyAsked) × IsRequestLine line.now asked
        × (requests.new.members ≡ requests.old.members ++ asked ∷ []) }
    ensures refused { result ≡ Ok false → (asked : AnyAsked) → ¬ IsRequestLine line.now asked }
    ensures none { requests.new.waiting ≡ None }
{
    let Some((bus, digits)) = digits(line) else {
        return Ok(false);
    };
    let Some(bytes) = bytes(alloc, digits)? else {
        return Ok(false);
    };
    let Some(request) = request(bus, bytes.as_slice()) else {
        return Ok(false);
    };
    requests.add(&request)?;
    Ok(true)
}

/// Adds the request on the first line of the text, and gives the text behind that line, or nothing where that line is of no request.
pub fn add_first<'a>(
    alloc: Global,
    text: &'a str,
    requests: &mut Requests,
) -> Result<Option<&'a str>, AllocError>
    requires few { length requests.old.members < most_steps }
    requires none { requests.old.waiting ≡ None }
    ensures lines { IfOk result (λ found. MatchOption found ((more : List ℕ) (asked : AnyAsked)
        → ¬ BeginsWith (λ line. IsRequestLine line asked) text.now more)
        (λ rest. (asked : AnyAsked) × (requests.new.members ≡ requests.old.members ++ asked ∷ [])
        × BeginsWith (λ line. IsRequestLine line asked) text.now rest.now)) }
    ensures none { requests.new.waiting ≡ None }
{
    let Some(cut) = first_line(text) else {
        return Ok(None);
    };
    if add_line(alloc, cut.0, requests)? {
        Ok(Some(cut.1))
    } else {
        Ok(None)
    }
}

/// Adds a line: the bus's name, and bytes in upper-case hexadecimal.
fn push_line(
    alloc: Global,
    text: &mut String,
    bus: &str,
    first: u8,
    command: u8,
    body: &[u8],
) -> Result<(), AllocError>
    ensures text { OnOk result (string_bytes text.new
        ≡ string_bytes text.old ++ ended (bus.now ++ encode_upper (first ∷ command ∷ body.now))) }
    ensures bytes { IsBytes (first ∷ command ∷ body.now) }
{
    let named = hex::encode_upper(alloc, [first, command])?;
    let digits = hex::encode_upper(alloc, body)?;
    writeln!(text, "{bus}{named}{digits}")
}

/// Adds the line of a request.
pub fn push_request(
    alloc: Global,
    text: &mut String,
    request: &UndoRequest<'_>,
) -> Result<(), AllocError>
    ensures text { OnOk result (string_bytes text.new
        ≡ string_bytes text.old ++ ended (line_of (meant request.now))) }
    ensures lines { IsPlain (meant request.now)
        → IsRequestLine (line_of (meant request.now)) (meant request.now) }
{
    match request {
        UndoRequest::Ipmi {
            net_fn,
            command,
            body,
            ..
        } => push_line(
            alloc,
            text,
            "ipmb ",
            net_fn.number() * 4,
            *command,
            body.as_slice(),
        ),
        UndoRequest::Pldm(request) => push_line(
            alloc,
            text,
            "smbus ",
            request.kind.number(),
            request.command,
            request.body.as_slice(),
        ),
    }
}
