//! What steps meet on a board, in words.
ghost use Rattle.std.specs.Prelude.{◌≡◌, ◌<◌, ◌≤◌, ◌++◌, OnOk, Some, length, slice_get, string_bytes};
ghost use Rattle.record_base.specs.declared.op.Op.{Op as AnyOp};
ghost use Rattle.bmc_core.specs.Wires.{bus_of};
ghost use Rattle.record_kinds.specs.Limits.{get_asked};
ghost use Rattle.bmc_lab.specs.FindingWords.{finding_line, finding_lines, finding_told, finding_words};

use crate::finding::Finding;
use record_base::{Asked, Key, RecordKind};
use record_kinds::Limits;
use record_words::{RecordName, Way, op_in_words, push_named};
use report_words::{BoardNames, NamedCode};
use std::alloc::AllocError;
use two_wire::{Bus, Code};
use undo_plans::Steps;

/// The bus on which the request goes.
fn bus_of(asked: &Asked) -> Bus
    ensures { result ≡ bus_of asked.now }
{
    match asked {
        Asked::Ipmi { .. } => Bus::Ipmb,
        Asked::Pldm { .. } => Bus::Smbus,
    }
}

/// A code that refuses a request on the record, as its bus names it.
fn refusal(key: &Key, code: Code) -> NamedCode
    ensures bus { result.bus ≡ bus_of (get_asked key.now) }
    ensures code { result.code ≡ code }
{
    let asked = Limits::get_asked(key);
    NamedCode {
        bus: bus_of(&asked),
        code: code.value(),
    }
}

/// Adds what the step of this place meets, in words, by the number of its sensor or attribute.
fn push_told(
    text: &mut String,
    steps: &Steps,
    place: usize,
    finding: &Finding,
) -> Result<(), AllocError>
    requires { place < length steps.now }
    ensures { (op : AnyOp) → slice_get steps.now place ≡ Some op → OnOk result
        (string_bytes text.new ≡ string_bytes text.old ++ finding_told op finding.now) }
{
    let _steps = steps.len();
    let op = steps.get(place).unwrap();
    let key = Limits::key(&op);
    let name = RecordName(key);
    match finding {
        Finding::GetRefused(code) => {
            let code = refusal(&key, *code);
            write!(text, "{name}: the board hasn't it ({code})")
        }
        Finding::NotRestorable => write!(text, "{name}: can't be taken back"),
        Finding::Refused(code) => {
            let words = op_in_words(Way::There, &op, None);
            let code = refusal(&key, *code);
            write!(text, "{words}: would be refused ({code})")
        }
        Finding::Done(shown) => {
            let back = Limits::inverse(&op, shown.as_slice());
            let words = op_in_words(Way::There, &op, back.as_ref());
            write!(text, "{words}")
        }
    }
}

/// Adds what the step of this place meets, with the name of its sensor or attribute.
fn push_finding(
    text: &mut String,
    names: &BoardNames,
    steps: &Steps,
    place: usize,
    finding: &Finding,
) -> Result<(), AllocError>
    requires { place < length steps.now }
    ensures { (op : AnyOp) → slice_get steps.now place ≡ Some op → OnOk result
        (string_bytes text.new
        ≡ string_bytes text.old ++ finding_words names.now op finding.now) }
{
    let _steps = steps.len();
    let alloc = *text.allocator();
    let mut told = String::new(alloc);
    push_told(&mut told, steps, place, finding)?;
    let op = steps.get(place).unwrap();
    let key = Limits::key(&op);
    push_named(alloc, text, &key, names.name_of(&key), told.as_str())
}

/// Adds the line of the step of this place.
fn push_line(
    text: &mut String,
    names: &BoardNames,
    name: &str,
    steps: &Steps,
    place: usize,
    finding: &Finding,
) -> Result<(), AllocError>
    requires { place < length steps.now }
    ensures { (op : AnyOp) → slice_get steps.now place ≡ Some op → OnOk result
        (string_bytes text.new
        ≡ string_bytes text.old ++ finding_line names.now name.now place op finding.now) }
{
    write!(text, "{name}: step {place}: ")?;
    push_finding(text, names, steps, place, finding)?;
    text.push_str("\n")
}

/// Adds a line for each step of the plan of this name: what it meets on a board that gives these names, of which there is one for each.
pub fn push_findings(
    text: &mut String,
    names: &BoardNames,
    name: &str,
    steps: &Steps,
    findings: &[Finding],
) -> Result<(), AllocError>
    requires { length findings.now ≤ length steps.now }
    ensures { OnOk result (string_bytes text.new ≡ string_bytes text.old
        ++ finding_lines names.now name.now 0 steps.now findings.now) }
{
    for (place, finding) in findings.iter().enumerate() {
        push_line(text, names, name, steps, place, finding)?;
    }
    Ok(())
}
