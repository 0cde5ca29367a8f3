//! Writing the text of a journal.
ghost use Rattle.std.specs.Prelude.{◌≡◌, ◌++◌, ◌∷◌, ◌<◌, ◌≤◌, ◌^◌, length, IfOk, OnOk, string_bytes, codes};
ghost use Rattle.std.specs.Option.{option_map};
ghost use Rattle.std.specs.List.{AllByRecursion, flat_map};
ghost use Rattle.hex.specs.Hex.{encode_upper};
ghost use Rattle.text_lines.specs.Cuts.{ended};
ghost use Rattle.text_lines.specs.UndoText.{name_of};
ghost use Rattle.undo_plans.specs.Requests.{meant};
ghost use Rattle.undo_plans.specs.Steps.{most_steps};
ghost use Rattle.undo_plans.specs.Journals.{kept_of};
ghost use Rattle.text_journal.specs.JournalLines.{IsBytesLine, IsNamesLine, IsRequestLine, IsStepLine, IsSpelt, names_bytes, stage_line, stage_step};
ghost use Rattle.text_journal.specs.JournalText.{IsTextOf};
ghost use Rattle.text_journal.specs.Written.{text_of, bytes_line, listed_line, request_line, step_line, head_lines, step_lines, undo_lines, waiting_lines, replies_line, state_lines, IsListed, HasHead, IsWaitingLine, HasState};

use crate::request::bus_words;
use crate::stage::{StageWord, part_of, step_of};
use crate::step::RequestHead;
use record_base::{Op, RecordKind};
use record_kinds::Limits;
use std::alloc::{AllocError, Global};
use two_wire::Bus;
use undo_plans::{Counts, JournalView, KeptStage, Names, Requests, Steps, UndoRequest};

/// Adds these bytes in upper-case hexadecimal, two digits for each.
fn push_digits(text: &mut String, bytes: &[u8]) -> Result<(), AllocError>
    ensures { OnOk result (string_bytes text.new
        ≡ string_bytes text.old ++ encode_upper bytes.now) }
{
    for place in 0..bytes.len() {
        let byte = bytes[place];
        write!(text, "{byte:02X}")?;
    }
    Ok(())
}

/// Adds a line of these words and these bytes.
fn push_bytes(text: &mut String, words: &str, bytes: &[u8]) -> Result<(), AllocError>
    ensures text { OnOk result (string_bytes text.new
        ≡ string_bytes text.old ++ ended (bytes_line words.now bytes.now)) }
    ensures line { IsBytesLine words.now (bytes_line words.now bytes.now) bytes.now }
{
    text.push_str(words)?;
    push_digits(text, bytes)?;
    text.push_str("\n")
}

/// Adds a line of the bus's name, these two bytes, and others behind them.
fn push_headed(
    text: &mut String,
    bus: Bus,
    first: u8,
    command: u8,
    body: &[u8],
) -> Result<(), AllocError>
    ensures text { OnOk result (string_bytes text.new ≡ string_bytes text.old
        ++ ended (bytes_line (name_of bus) (first ∷ command ∷ body.now))) }
    ensures line { IsBytesLine (name_of bus)
        (bytes_line (name_of bus) (first ∷ command ∷ body.now)) (first ∷ command ∷ body.now) }
{
    text.push_str(bus_words(bus))?;
    push_digits(text, &[first, command])?;
    push_digits(text, body)?;
    text.push_str("\n")
}

/// Adds the line of a step.
#[tactic(auto, using(crate::proofs::WrittenBytes::step_spelt))]
fn push_step(text: &mut String, op: &Op<'_>) -> Result<(), AllocError>
    ensures text { OnOk result (string_bytes text.new
        ≡ string_bytes text.old ++ ended (step_line op.now)) }
    ensures line { IsStepLine (step_line op.now) op.now }
{
    let head = RequestHead::of(op);
    let whole = Limits::set_data(op);
    push_headed(text, head.bus, head.first, head.command, whole.as_slice())
}

/// Adds the line of a request that undoes a step.
fn push_request(text: &mut String, request: &UndoRequest<'_>) -> Result<(), AllocError>
    ensures text { OnOk result (string_bytes text.new
        ≡ string_bytes text.old ++ ended (request_line (meant request.now))) }
    ensures line { IsRequestLine (request_line (meant request.now)) (meant request.now) }
{
    match request {
        UndoRequest::Ipmi {
            net_fn,
            lun,
            command,
            body,
        } => {
            let function = net_fn.number();
            let unit = lun.number();
            let first = function * 4 + unit;
            push_headed(text, Bus::Ipmb, first, *command, body.as_slice())
        }
        UndoRequest::Pldm(request) => {
            let kind = request.kind.number();
            push_headed(
                text,
                Bus::Smbus,
                kind,
                request.command,
                request.body.as_slice(),
            )
        }
    }
}

/// Adds a line of these words and these names.
fn push_names(text: &mut String, words: &str, names: &Names) -> Result<(), AllocError>
    ensures text { OnOk result (string_bytes text.new
        ≡ string_bytes text.old ++ ended (bytes_line words.now (names_bytes names.now))) }
    ensures line { IsNamesLine words.now (bytes_line words.now (names_bytes names.now)) names.now }
{
    let bytes = [
        names.own_address.byte(),
        names.peer_address.byte(),
        names.own_wire.byte(),
        names.peer_wire.byte(),
        names.own_eid,
        names.peer_eid,
    ];
    push_bytes(text, words, &bytes)
}

/// Adds the line of the names in the list.
fn push_listed(text: &mut String, listed: &Option<Names>) -> Result<(), AllocError>
    ensures text { OnOk result (string_bytes text.new
        ≡ string_bytes text.old ++ ended (listed_line listed.now)) }
    ensures line { IsListed listed.now }
{
    match listed {
        None => text.push_str("unlisted\n"),
        Some(names) => push_names(text, "listed ", names),
    }
}

/// Adds the lines of the steps.
fn push_steps(text: &mut String, steps: &Steps) -> Result<(), AllocError>
    ensures text { OnOk result (string_bytes text.new
        ≡ string_bytes text.old ++ flat_map ended (step_lines steps.now)) }
    ensures lines { OnOk result (AllByRecursion (λ op. IsStepLine (step_line op) op) steps.now) }
    ensures few { OnOk result (length steps.now ≤ most_steps) }
{
    let count = steps.len();
    writeln!(text, "steps {count}")?;
    let mut place = 0;
    while place < count {
        let op = steps.get(place).unwrap();
        push_step(text, &op)?;
        place += 1;
    }
    Ok(())
}

/// Adds the lines of the requests that undo.
fn push_undo(text: &mut String, requests: &Requests) -> Result<(), AllocError>
    ensures text { OnOk result (string_bytes text.new
        ≡ string_bytes text.old ++ flat_map ended (undo_lines requests.now.members)) }
    ensures lines { OnOk result (AllByRecursion (λ asked. IsRequestLine (request_line asked) asked)
        requests.now.members) }
    ensures few { OnOk result (length requests.now.members ≤ most_steps) }
{
    let count = requests.len();
    writeln!(text, "undo {count}")?;
    let mut place = 0;
    while place < count {
        let request = requests.get(place).unwrap();
        push_request(text, &request)?;
        place += 1;
    }
    Ok(())
}

/// Adds the line that counts the requests that wait, and that of the one that does.
fn push_waiting(text: &mut String, waiting: &Option<UndoRequest<'_>>) -> Result<(), AllocError>
    ensures text { OnOk result (string_bytes text.new ≡ string_bytes text.old
        ++ flat_map ended (waiting_lines (option_map meant waiting.now))) }
    ensures line { OnOk result (IsWaitingLine (option_map meant waiting.now)) }
{
    match waiting {
        None => text.push_str("waiting 0\n"),
        Some(request) => {
            text.push_str("waiting 1\n")?;
            push_request(text, request)
        }
    }
}

/// Adds the line of the stage.
fn push_stage(text: &mut String, stage: &KeptStage) -> Result<(), AllocError>
    ensures text { OnOk result (string_bytes text.new
        ≡ string_bytes text.old ++ ended (stage_line stage.now)) }
    ensures spelt { stage_step stage.now < 2 ^ 32 → IsSpelt stage.now }
{
    let word = StageWord::of(stage).spelt();
    let step = step_of(stage);
    let part = part_of(stage);
    writeln!(text, "{word}{step} {part}")
}

/// Adds the line of the replies.
fn push_replies(text: &mut String, replies: &[u8]) -> Result<(), AllocError>
    ensures text { OnOk result (string_bytes text.new
        ≡ string_bytes text.old ++ ended (replies_line replies.now)) }
    ensures line { IsBytesLine (codes "replies ")
        (bytes_line (codes "replies ") replies.now) replies.now }
{
    if replies.is_empty() {
        return text.push_str("no replies\n");
    }
    push_bytes(text, "replies ", replies)
}

/// Adds the lines in front of the steps.
fn push_head(text: &mut String, journal: &JournalView<'_>) -> Result<(), AllocError>
    ensures text { OnOk result (string_bytes text.new
        ≡ string_bytes text.old ++ flat_map ended (head_lines (kept_of journal.now))) }
    ensures lines { OnOk result (HasHead (kept_of journal.now)) }
{
    let retries = journal.retries;
    writeln!(text, "journal 1\nretries {retries}")?;
    push_names(text, "names ", journal.names)?;
    push_listed(text, journal.listed)
}

/// Adds the lines behind the lists.
fn push_state(text: &mut String, journal: &JournalView<'_>) -> Result<(), AllocError>
    ensures text { OnOk result (string_bytes text.new
        ≡ string_bytes text.old ++ flat_map ended (state_lines (kept_of journal.now))) }
    ensures lines { OnOk result (HasState (kept_of journal.now)) }
{
    push_stage(text, &journal.stage)?;
    let told = if journal.stopped { "stop" } else { "go" };
    let Counts { ipmb, smbus } = journal.counts;
    writeln!(text, "{told}\ncounts {ipmb} {smbus}")?;
    push_replies(text, journal.replies)
}

/// Writes the text of the journal in the place of what the string says: what `read_journal` reads as a journal that says the same. The string
/// keeps its room, and takes memory only where the text is longer than that.
pub fn write_journal_into(text: &mut String, journal: &JournalView<'_>) -> Result<(), AllocError>
    ensures text { OnOk result (string_bytes text.new ≡ text_of (kept_of journal.now)) }
    ensures stands { OnOk result (IsTextOf (string_bytes text.new) (kept_of journal.now)) }
{
    text.clear();
    push_head(text, journal)?;
    push_steps(text, journal.steps)?;
    push_undo(text, journal.requests)?;
    push_waiting(text, &journal.waiting())?;
    push_state(text, journal)?;
    Ok(())
}

/// The text of the journal, in a string of its own.
pub fn write_journal(alloc: Global, journal: &JournalView<'_>) -> Result<String, AllocError>
    ensures text { IfOk result (λ text. string_bytes text ≡ text_of (kept_of journal.now)) }
    ensures stands { IfOk result (λ text. IsTextOf (string_bytes text) (kept_of journal.now)) }
{
    let mut text = String::new(alloc);
    write_journal_into(&mut text, journal)?;
    Ok(text)
}
