//! What `bmcnet revert` leaves of FILE: what was taken back, and what is still to be.
ghost use Rattle.std.specs.Prelude.{◌≡◌, ◌<◌, ◌≤◌, ◌⊎◌, IfOk, Ok, OnErr, length, suc, take};
ghost use Rattle.undo_plans.specs.Steps.{most_steps};
ghost use Rattle.text_lines.specs.UndoText.{text_of};
ghost use Rattle.app_journal.specs.Beside.{GivesUndo, IsOwn};
ghost use Rattle.app_revert.specs.Revert.{IsEmptied, IsFirstOf};
ghost use Rattle.app_revert.specs.Revert.{Leaves, LeavesBehind, LeavesIn, LeavesRefused};
ghost use Rattle.app_revert.specs.Revert.{LeavesUndone, MakesRoom};
ghost use Rattle.app_revert.specs.Revert.{PutsDone};
ghost use Rattle.app_revert.specs.Revert.{done_of, kept_phase};

use app_apply::Outcome;
use app_apply::guarding::put_aside;
use app_base::text_of;
use app_journal::{UndoFiles, WriteFault, WritesFiles, is_free};
use std::alloc::{AllocError, Global};
use text_lines::write_undo;
use undo_core::{Manager, Phase};
use undo_plans::{Requests, UndoList};

/// Has FILE get the undo text of a list, by its name alone.
fn put_list<F: WritesFiles>(
    alloc: Global,
    files: &mut F,
    beside: &UndoFiles,
    list: &UndoList,
) -> Result<Result<(), WriteFault>, AllocError>
    ensures put { IfOk result (λ answer. GivesUndo F.WritesFiles beside.now (text_of list.now)
        files.old answer files.new) }
    ensures memory { OnErr result (files.new ≡ files.old) }
{
    beside.put_undo(alloc, files, list)
}

/// A list that goes on from another, without a request.
fn empty_list(alloc: Global, list: &UndoList) -> Result<UndoList, AllocError>
    ensures { IfOk result (IsEmptied list.now) }
{
    Ok(UndoList {
        requests: Requests::open(alloc, 0, 0)?,
        next: list.next,
        names: list.names,
    })
}

/// How many requests of a list there are up to the one of this place.
fn count_to(list: &Requests, place: usize) -> usize
    ensures count { ((result ≡ suc place) × (place < length list.now.members))
        ⊎ ((result ≡ length list.now.members) × (length list.now.members ≤ place)) }
    ensures within { result ≤ length list.now.members }
    ensures few { result ≤ most_steps }
{
    if place < list.len() {
        place + 1
    } else {
        list.len()
    }
}

/// The requests of a list up to the one of this place.
fn requests_to(alloc: Global, list: &Requests, place: usize) -> Result<Requests, AllocError>
    ensures { IfOk result (λ requests. requests.members ≡ take (suc place) list.now.members) }
{
    let mut requests = Requests::open(alloc, 0, 0)?;
    for at in 0..count_to(list, place) {
        let request = list.get(at).unwrap();
        requests.add(&request)?;
    }
    Ok(requests)
}

/// A list of those, which goes on from this one.
fn first_requests(alloc: Global, list: &UndoList, place: usize) -> Result<UndoList, AllocError>
    ensures { IfOk result (IsFirstOf list.now (suc place)) }
{
    let requests = requests_to(alloc, &list.requests, place)?;
    Ok(UndoList {
        requests,
        next: list.next,
        names: list.names,
    })
}

/// Has the file of this word get a free number behind its name, where there is one, so that the word names none.
fn make_room<F: WritesFiles>(
    alloc: Global,
    files: &mut F,
    word: &str,
) -> Result<Result<(), WriteFault>, AllocError>
    ensures { MakesRoom F.WritesFiles word.now result files.old files.new }
{
    if is_free(&*files, word)? {
        return Ok(Ok(()));
    }
    match put_aside(alloc, files, word)? {
        Some(_name) => Ok(Ok(())),
        None => Ok(Err(WriteFault)),
    }
}

/// The words of FILE`.done` and those beside it.
fn done_files(alloc: Global, beside: &UndoFiles) -> Result<UndoFiles, AllocError>
    ensures { IfOk result (IsOwn (done_of beside.now)) }
{
    let undo = beside.undo.as_str();
    let name = format!(in alloc; "{undo}.done")?;
    UndoFiles::of_journal(alloc, name.as_str())
}

/// Writes the text to FILE`.done`. One that is there gets a free number behind its name.
fn put_done<F: WritesFiles>(
    alloc: Global,
    files: &mut F,
    beside: &UndoFiles,
    text: &str,
) -> Result<Result<(), WriteFault>, AllocError>
    ensures { PutsDone F.WritesFiles beside.now text.now result files.old files.new }
{
    let done = done_files(alloc, beside)?;
    match make_room(alloc, files, done.undo.as_str())? {
        Ok(()) => Ok(done.put(files, text)),
        Err(why) => Ok(Err(why)),
    }
}

/// Has FILE`.done` get what was taken back, and then FILE an empty list.
fn finish_undone<F: WritesFiles>(
    alloc: Global,
    files: &mut F,
    beside: &UndoFiles,
    list: &UndoList,
) -> Result<Result<(), WriteFault>, AllocError>
    ensures { LeavesUndone F.WritesFiles beside.now list.now result files.old files.new }
{
    let text = write_undo(alloc, list)?;
    let empty = empty_list(alloc, list)?;
    match put_done(alloc, files, beside, text.as_str()) {
        Ok(Ok(())) => put_list(alloc, files, beside, &empty),
        Ok(Err(why)) => Ok(Err(why)),
        Err(why) => Err(why),
    }
}

/// Has FILE get what is still to be taken back, up to the request of this place.
fn finish_refused<F: WritesFiles>(
    alloc: Global,
    files: &mut F,
    beside: &UndoFiles,
    list: &UndoList,
    place: usize,
) -> Result<Result<(), WriteFault>, AllocError>
    ensures { LeavesRefused F.WritesFiles beside.now list.now place result files.old files.new }
{
    let rest = first_requests(alloc, list, place)?;
    put_list(alloc, files, beside, &rest)
}

/// Leaves FILE as it is to be once the manager is in this phase.
fn finish<F: WritesFiles>(
    alloc: Global,
    files: &mut F,
    beside: &UndoFiles,
    manager: &Manager,
    phase: &Phase,
) -> Result<Result<(), WriteFault>, AllocError>
    ensures { Leaves F.WritesFiles beside.now manager.now phase.now result files.old files.new }
{
    match phase {
        Phase::Undone => finish_undone(alloc, files, beside, manager.undo_list()),
        Phase::UndoRefused(place, _) => {
            finish_refused(alloc, files, beside, manager.undo_list(), *place)
        }
        _ => Ok(Ok(())),
    }
}

/// The phase of a manager that came to an end, and whose journal was kept.
fn kept_phase(outcome: &Outcome) -> Option<Phase>
    ensures { result ≡ kept_phase outcome.now }
{
    match outcome {
        Outcome::Ended(phase, Ok(())) => Some(*phase),
        _ => None,
    }
}

/// What came of a manager in this phase, whose files were kept or weren't.
fn left_in(phase: Phase, kept: Result<(), WriteFault>) -> Outcome
    ensures { result ≡ Outcome.Ended phase kept }
{
    Outcome::Ended(phase, kept)
}

/// Leaves FILE as it is to be once a manager is in this phase, whose journal was kept.
pub(crate) fn leave_in<F: WritesFiles>(
    alloc: Global,
    files: &mut F,
    beside: &UndoFiles,
    manager: &Manager,
    phase: Phase,
) -> Result<Outcome, AllocError>
    ensures { LeavesIn F.WritesFiles beside.now manager.now phase result files.old files.new }
{
    match finish(alloc, files, beside, manager, &phase) {
        Ok(kept) => Ok(left_in(phase, kept)),
        Err(AllocError) => Err(AllocError),
    }
}

/// Leaves FILE as it is to be where this came of a manager whose journal was kept.
pub(crate) fn leave<F: WritesFiles>(
    alloc: Global,
    files: &mut F,
    beside: &UndoFiles,
    manager: &Manager,
    outcome: Outcome,
) -> Result<Outcome, AllocError>
    ensures { LeavesBehind F.WritesFiles beside.now manager.now outcome result
        files.old files.new }
{
    match kept_phase(&outcome) {
        Some(phase) => leave_in(alloc, files, beside, manager, phase),
        None => Ok(outcome),
    }
}
