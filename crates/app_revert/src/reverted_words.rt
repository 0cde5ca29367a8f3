//! What `bmcnet revert` says at its end: what is so, and what to call next.
ghost use Rattle.std.specs.List.{flat_map};
ghost use Rattle.std.specs.Option.{option_map};
ghost use Rattle.std.specs.Prelude.{◌≡◌, ◌++◌, IfOk, OnOk, string_bytes};
ghost use Rattle.app_revert.specs.Sentences.{EndsInLooked, line_of, looked_words, name_in};
ghost use Rattle.app_revert.specs.Sentences.{sight_words};

use crate::looking::{Sight, Sighting};
use crate::reading::Unfit;
use crate::reverting::{RevertWords, Reverted};
use app_apply::sentences::{
    push_code, push_revert, push_standing, push_unanswered, push_unsettled,
};
use app_apply::{Outcome, Reach};
use app_look::KnownNames;
use record_base::Key;
use record_words::{RecordName, push_named, undo_in_words};
use std::alloc::{AllocError, Global};
use two_wire::{Bus, Code};
use undo_core::{Manager, Phase};
use undo_plans::UndoRequest;

/// Adds how many requests there are.
fn push_requests(text: &mut String, count: usize) -> Result<(), AllocError> {
    match count {
        1 => text.push_str("1 step"),
        _ => write!(text, "{count} steps"),
    }
}

/// Adds that all was taken back, and where what was lies now.
fn push_undone(text: &mut String, manager: &Manager, file: &str) -> Result<(), AllocError> {
    text.push_str("taken back: ")?;
    push_requests(text, manager.undo_list().requests.len())?;
    writeln!(
        text,
        "; {file}.done has the requests that did it, and {file} is empty"
    )
}

/// The bus on which a request goes that takes back.
pub(crate) fn bus_of_request(request: &UndoRequest<'_>) -> Bus {
    match request {
        UndoRequest::Ipmi { .. } => Bus::Ipmb,
        UndoRequest::Pldm(_) => Bus::Smbus,
    }
}

/// Adds that the controller refused to take back the step of this place.
fn push_refused(
    text: &mut String,
    manager: &Manager,
    place: usize,
    code: Code,
    file: &str,
    reach: &Reach,
) -> Result<(), AllocError> {
    let number = place as u128 + 1;
    write!(text, "step {number} can't be taken back")?;
    if let Some(request) = manager.undo_list().requests.get(place) {
        write!(text, ": refused ")?;
        push_code(text, bus_of_request(&request), code)?;
        write!(text, ", {}", undo_in_words(&request))?;
    }
    text.push_str("; ")?;
    push_standing(text, place.saturating_add(1))?;
    let those = if place == 0 { "it" } else { "them" };
    write!(text, ", and {file} has what takes {those} back: ")?;
    push_revert(text, file, reach)?;
    text.push_str("\n")
}

/// Adds what is so where the manager that takes back is in this phase.
fn push_back(
    text: &mut String,
    manager: &Manager,
    phase: Phase,
    file: &str,
    reach: &Reach,
) -> Result<(), AllocError> {
    match phase {
        Phase::Undone => push_undone(text, manager, file),
        Phase::UndoRefused(place, code) => push_refused(text, manager, place, code, file, reach),
        _ => push_unsettled(text, manager, file, reach),
    }
}

/// Adds why nothing more was taken back.
fn push_unreverted(
    text: &mut String,
    outcome: Outcome,
    file: &str,
    reach: &Reach,
) -> Result<(), AllocError> {
    match outcome {
        Outcome::Empty => {
            return writeln!(text, "{file} has nothing to take back; nothing was sent");
        }
        Outcome::Unmade => {
            return writeln!(text, "{file} can't be written; nothing was sent");
        }
        Outcome::Ungreeted(why) => {
            push_unanswered(text, why, reach)?;
            text.push_str("; nothing was taken back")?;
        }
        Outcome::NoLink => text.push_str("no socket could be had; nothing was taken back")?,
        Outcome::Unkept => write!(text, "{file} couldn't be written any more")?,
        Outcome::Held | Outcome::Occupied(_) | Outcome::Ended(_, _) => return Ok(()),
    }
    text.push_str("; to go on: ")?;
    push_revert(text, file, reach)?;
    text.push_str("\n")
}

/// Adds that FILE or FILE`.done` couldn't be written behind a manager that is in this phase.
fn push_unkept_back(
    text: &mut String,
    phase: Phase,
    file: &str,
    reach: &Reach,
) -> Result<(), AllocError> {
    match phase {
        Phase::Undone => write!(
            text,
            "all is taken back, but {file}.done or {file} couldn't be written; to write them: "
        )?,
        _ => write!(text, "{file} couldn't be written; to go on: ")?,
    }
    push_revert(text, file, reach)?;
    text.push_str("\n")
}

/// What a look showed.
fn sight_words(sight: Sight) -> &'static str
    ensures { result.now ≡ sight_words sight }
{
    match sight {
        Sight::AsBefore => "is as before",
        Sight::Differs => "isn't as before: somebody else set it, or the controller lost it",
        Sight::Unseen => "couldn't be looked at: no answer",
    }
}

/// The name of the record's sensor or attribute, where it is among those that were read.
fn name_in<'a>(names: &'a KnownNames, key: &Key) -> Option<&'a [u8]>
    ensures { option_map (λ name. name.now) result ≡ name_in names.now key.now }
{
    match names {
        Ok(names) => names.of(key),
        Err(AllocError) => None,
    }
}

/// Adds a line for a record that isn't as before, or that couldn't be looked at, with the name of its sensor or attribute where that is known.
fn push_sighting(
    alloc: Global,
    text: &mut String,
    sighting: &Sighting,
    names: &KnownNames,
) -> Result<(), AllocError>
    ensures { OnOk result (string_bytes text.new ≡ string_bytes text.old
        ++ line_of names.now sighting.now) }
{
    let key = &sighting.key;
    let record = RecordName(*key);
    let sight = sight_words(sighting.sight);
    let said = format!(in alloc; "{record} {sight}\n")?;
    push_named(alloc, text, key, name_in(names, key), said.as_str())
}

/// Adds the lines of these.
fn push_sightings(
    alloc: Global,
    text: &mut String,
    sightings: &[Sighting],
    names: &KnownNames,
) -> Result<(), AllocError>
    ensures { OnOk result (string_bytes text.new ≡ string_bytes text.old
        ++ flat_map (line_of names.now) sightings.now) }
{
    for sighting in sightings {
        push_sighting(alloc, text, sighting, names)?;
    }
    Ok(())
}

/// Adds what the looks told.
fn push_looked(alloc: Global, text: &mut String, reverted: &Reverted) -> Result<(), AllocError>
    ensures { OnOk result (string_bytes text.new ≡ string_bytes text.old
        ++ looked_words reverted.now.looked reverted.now.names) }
{
    let looked = &reverted.looked;
    if looked.unseen && looked.sightings.len() == 0 {
        return text.push_str("no record could be looked at: no answer\n");
    }
    push_sightings(alloc, text, looked.sightings.as_slice(), &reverted.names)
}

/// What is said of what was taken back. At its end stands what the looks told.
pub fn revert_text(
    alloc: Global,
    words: &RevertWords,
    reverted: &Reverted,
) -> Result<String, AllocError>
    ensures { IfOk result (λ text. EndsInLooked reverted.now (string_bytes text)) }
{
    let mut text = String::new(alloc);
    let (file, reach) = (words.file.as_str(), &words.reach);
    match reverted.outcome {
        Outcome::Ended(phase, Ok(())) => {
            push_back(&mut text, &reverted.manager, phase, file, reach)?;
        }
        Outcome::Ended(phase, Err(_)) => push_unkept_back(&mut text, phase, file, reach)?,
        outcome => push_unreverted(&mut text, outcome, file, reach)?,
    }
    push_looked(alloc, &mut text, reverted)?;
    Ok(text)
}

/// What is said of a file that nothing can be taken back by.
pub fn unfit_text(alloc: Global, file: &str, why: Unfit) -> Result<String, AllocError> {
    match why {
        Unfit::Line(line) => format!(in alloc;
            "{file}: line {line} is none of a journal or an undo text; nothing was sent\n"
        ),
        Unfit::Retries => format!(in alloc;
            "{file}: its retries are more than a manager can have; nothing was sent\n"
        ),
        Unfit::OtherNames => format!(in alloc;
            "{file} is of a manager or a controller at other addresses; nothing was sent\n"
        ),
        Unfit::Memory => Err(AllocError),
    }
}
