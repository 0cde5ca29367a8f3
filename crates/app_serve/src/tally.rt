//! What is told of a board that was served.
ghost use Rattle.std.specs.Prelude.{◌≡◌, ◌↔◌, ◌++◌, Bool, IfOk, IsTrue, length, string_bytes};
ghost use Rattle.std.specs.List.{flat_map};
ghost use Rattle.text_lines.specs.Cuts.{ended};
ghost use Rattle.cfg_records.specs.declared.board_file.BoardFile.{BoardFile as AnyFile};
ghost use Rattle.cfg_records.specs.Boards.{pairs_of};
ghost use Rattle.bmc_board.specs.State.{state_of, opened};
ghost use Rattle.app_base.specs.declared.console.Stream.TheVariants.{Output};
ghost use Rattle.cfg_records.specs.Changed.{changed_in};
ghost use Rattle.report_words.specs.Changes.{IsListOf, listed};
ghost use Rattle.app_serve.specs.Run.{end_status};
ghost use Rattle.app_serve.specs.Served.{IsListedBoard, most_events, text_of};

use crate::board::{ClosedBoard, MOST_EVENTS};
use app_base::{Report, Status, records_status};
use bmc_board::{Board, Records};
use cfg_records::{BoardFile, Key, StartValue, changed_count};
use report_words::ChangeList;
use std::alloc::{AllocError, Global};
use text_lines::push_records;

/// A board that is to be served, and the records that it begins with.
#[derive(Drop)]
pub struct Begun {
    pub start: Vec<(Key, StartValue)>,
    pub board: Board<Records>,
}

/// The board of a file, as it begins.
pub fn begin(alloc: Global, file: BoardFile) -> Result<Begun, AllocError>
    ensures start { IfOk result (λ begun. begun.start.items ≡ pairs_of file) }
    ensures setup { IfOk result (λ begun. begun.board.setup ≡ file) }
    ensures state { IfOk result (λ begun. state_of begun.board ≡ opened file) }
{
    let start = match file.records(alloc) {
        Ok(start) => start,
        Err(why) => {
            drop(file);
            return Err(why);
        }
    };
    match Board::of_file(alloc, file) {
        Ok(board) => Ok(Begun { start, board }),
        Err(why) => {
            drop(start);
            Err(why)
        }
    }
}

/// How many events the histories of a board have, and how many records are no longer what they were at its start.
#[derive(Clone, Copy)]
pub struct Tally {
    pub events: usize,
    pub changed: usize,
}

impl Tally {
    /// Whether there are as many events as one history may have.
    pub(crate) fn is_full(&self) -> bool
        ensures { IsTrue result ↔ (self.now.events ≡ most_events) }
    {
        self.events == MOST_EVENTS
    }
}

/// The line that tells that the room of the one history is over, and how to go on then.
pub(crate) const ROOM_LINE: &[u8] = b"bmcnet: room is over: 4096 events; serve --periods goes on\n";

/// What is counted of a board that was served so many events, by the records that it began with.
pub(crate) fn count(start: &[(Key, StartValue)], board: &Board<Records>, events: usize) -> Tally
    ensures events { result.events ≡ events }
    ensures changed { result.changed
        ≡ changed_in (state_of board.now).records start.now }
{
    Tally {
        events,
        changed: changed_count(board.store(), start),
    }
}

/// What is counted of a board that was served with one history.
pub fn tally_of(start: &[(Key, StartValue)], served: &ClosedBoard) -> Tally
    ensures events { result.events ≡ length served.now.history }
    ensures changed { result.changed
        ≡ changed_in (state_of served.now.board).records start.now }
{
    count(start, &served.board, served.history.len())
}

/// What a board that is to be served begins with, as what is told of it at its end needs.
#[derive(Drop)]
pub(crate) struct FirstState {
    pub start: Vec<(Key, StartValue)>,
    pub list: ChangeList,
}

/// A board that is to be served, and what it begins with.
#[derive(Drop)]
pub(crate) struct ListedBoard {
    pub first: FirstState,
    pub board: Board<Records>,
}

/// The board of a file, as it begins, with a list of its changed records, where that is asked for.
pub(crate) fn begin_listed(
    alloc: Global,
    file: BoardFile,
    listed: bool,
) -> Result<ListedBoard, AllocError>
    ensures { IfOk result (IsListedBoard listed file) }
{
    let list = match ChangeList::of(alloc, listed, &file) {
        Ok(list) => list,
        Err(why) => {
            drop(file);
            return Err(why);
        }
    };
    match begin(alloc, file) {
        Ok(Begun { start, board }) => Ok(ListedBoard {
            first: FirstState { start, list },
            board,
        }),
        Err(why) => {
            drop(list);
            Err(why)
        }
    }
}

/// What is told of a board that was served: what is counted of it, and the lines of its changed records, where these are asked for.
#[derive(Drop)]
pub(crate) struct ServeAccount {
    pub tally: Tally,
    pub changes: String,
}

/// What is told of a board that was served for these events, by what it began with.
pub(crate) fn account(
    alloc: Global,
    first: &FirstState,
    board: &Board<Records>,
    events: usize,
) -> Result<ServeAccount, AllocError>
    ensures events { IfOk result (λ account. account.tally.events ≡ events) }
    ensures changed { IfOk result (λ account. account.tally.changed
        ≡ changed_in (state_of board.now).records first.now.start.items) }
    ensures changes { IfOk result (λ account. (asked : Bool) (file : AnyFile)
        → IsListOf asked file first.now.list → string_bytes account.changes
        ≡ flat_map ended (listed asked file (state_of board.now).records)) }
{
    let mut changes = String::new(alloc);
    first.list.push(&mut changes, board.store())?;
    Ok(ServeAccount {
        tally: count(first.start.as_slice(), board, events),
        changes,
    })
}

/// How a run ends that served a board, of whose records so many have another value: well, or strictly.
fn end_status(strict: bool, changed: usize) -> Status
    ensures { result ≡ end_status strict changed }
{
    if strict {
        records_status(changed)
    } else {
        Status::Success
    }
}

/// The lines that tell of it.
pub(crate) fn report(
    alloc: Global,
    account: &ServeAccount,
    strict: bool,
) -> Result<Report, AllocError>
    ensures stream { IfOk result (λ report. report.stream ≡ Output) }
    ensures text { IfOk result (λ report. string_bytes report.text
        ≡ text_of account.now.tally.events account.now.tally.changed
        ++ string_bytes account.now.changes) }
    ensures status { IfOk result (λ report. report.status
        ≡ end_status strict account.now.tally.changed) }
{
    let mut text = String::new(alloc);
    let Tally { events, changed } = account.tally;
    writeln!(text, "served {events}")?;
    push_records(&mut text, changed)?;
    text.push_str(account.changes.as_str())?;
    Ok(Report::output(text, end_status(strict, changed)))
}
