//! What a board shows of a record.
ghost use Rattle.std.specs.Prelude.{◌≡◌, ◌≢◌, ◌≤◌, IfOk, IfErr, length, map};
ghost use Rattle.undo_plans.specs.Fitting.{most_requests};
ghost use Rattle.undo_plans.specs.Showing.{shown_by};
ghost use Rattle.bios_attr.specs.EntryParts.{joined as joined_of};
ghost use Rattle.record_kinds.specs.Series.{Reads};
ghost use Rattle.bmc_board.specs.State.{state_of};
ghost use Rattle.bmc_lab.specs.Answers.{AnswersAll, RefusesGet, Shows, body_of, next_behind, whole_of};

use bios_attr::bios_attribute::START_AND_END;
use bios_attr::entry_parts::{ends, entry_in, goes_on};
use bmc_board::{Board, Records};
use pldm_base::PART_LENGTH;
use record_base::{Answered, Asked, Key, RecordKind};
use record_kinds::Limits;
use std::alloc::{AllocError, Global};
use two_wire::Code;
use undo_plans::{MOST_REQUESTS, shown_alone};

/// The request for the next part of a record, behind so many replies to its Get of which this is the last.
fn next_part(key: &Key, count: u8, body: &[u8]) -> Option<Asked>
    ensures { result ≡ next_behind key.now count body.now }
{
    if !goes_on(count, body) {
        return None;
    }
    Limits::get_next(key, PART_LENGTH as u32 * u32::from(count))
}

/// The replies to a record's Get, or the code that refuses it.
fn replies_to(
    alloc: Global,
    board: &mut Board<Records>,
    key: &Key,
) -> Result<Result<Vec<Answered>, Code>, AllocError>
    ensures replies { IfOk result (λ got. IfOk got
        (λ replies. AnswersAll board.old.setup (Reads key.now) (map body_of replies.items)
        (state_of board.old) (state_of board.new))) }
    ensures few { IfOk result (λ got. IfOk got
        (λ replies. length replies.items ≤ most_requests)) }
    ensures refused { IfOk result (λ got. IfErr got
        (λ code. RefusesGet board.old.setup key.now
        (state_of board.old) code (state_of board.new))) }
    ensures setup { board.new.setup ≡ board.old.setup }
{
    let mut replies = Vec::new(alloc);
    let mut asked = Limits::get_asked(key);
    for before in 0..MOST_REQUESTS {
        let reply = board.answer(&asked);
        if let Some(code) = Code::new(reply.code) {
            return Ok(Err(code));
        }
        let next = next_part(key, before + 1, reply.body.as_slice());
        replies.push(reply)?;
        let Some(next) = next else {
            return Ok(Ok(replies));
        };
        asked = next;
    }
    Ok(Ok(replies))
}

/// The data with the parts of an entry that these replies show.
fn whole(alloc: Global, replies: &[Answered]) -> Result<Vec<u8>, AllocError>
    ensures { IfOk result (λ shown. shown.items ≡ whole_of (map body_of replies.now)) }
{
    let mut shown = Vec::from_slice(alloc, &[0, 0, 0, 0, START_AND_END])?;
    for reply in replies {
        shown.extend_from_slice(entry_in(reply.body.as_slice()))?;
    }
    Ok(shown)
}

/// What replies to a Get that goes in parts show together: the entry, where the last of them shows its last part.
fn joined(alloc: Global, replies: &[Answered]) -> Result<Vec<u8>, AllocError>
    requires several { length replies.now ≢ 1 }
    requires few { length replies.now ≤ most_requests }
    ensures { IfOk result (λ shown. shown.items ≡ joined_of (map body_of replies.now)) }
{
    let Some(last) = replies.last() else {
        return Ok(Vec::new(alloc));
    };
    if !ends(replies.len() as u8, last.body.as_slice()) {
        return Ok(Vec::new(alloc));
    }
    whole(alloc, replies)
}

/// What the replies to a record's Get show together.
fn shown_of(alloc: Global, key: &Key, replies: &[Answered]) -> Result<Vec<u8>, AllocError>
    requires { length replies.now ≤ most_requests }
    ensures { IfOk result (λ shown. shown.items ≡ shown_by key.now (map body_of replies.now)) }
{
    if let [only] = replies {
        return Vec::from_slice(alloc, shown_alone(key, only.body.as_slice()));
    }
    joined(alloc, replies)
}

/// What the board shows of a record, or the code with which it refuses its Get.
pub(crate) fn got(
    alloc: Global,
    board: &mut Board<Records>,
    key: &Key,
) -> Result<Result<Vec<u8>, Code>, AllocError>
    ensures shown { IfOk result (λ got. IfOk got
        (λ shown. Shows board.old.setup key.now
        (state_of board.old) shown.items (state_of board.new))) }
    ensures refused { IfOk result (λ got. IfErr got
        (λ code. RefusesGet board.old.setup key.now
        (state_of board.old) code (state_of board.new))) }
    ensures setup { board.new.setup ≡ board.old.setup }
{
    match replies_to(alloc, board, key)? {
        Ok(replies) => Ok(Ok(shown_of(alloc, key, replies.as_slice())?)),
        Err(code) => Ok(Err(code)),
    }
}
