//! `bmcnet pair`: a controller and a manager in one process, over UDP.
ghost use Rattle.std.specs.Prelude.{◌≡◌, ◌++◌, Bool, IfOk, IfErr, OnOk, string_bytes};
ghost use Rattle.std.specs.List.{flat_map};
ghost use Rattle.text_lines.specs.Cuts.{ended};
ghost use Rattle.cfg_records.specs.declared.board_file.BoardFile.{BoardFile as AnyFile};
ghost use Rattle.undo_plans.specs.declared.plan.Plan.{Plan as AnyPlan};
ghost use Rattle.report_words.specs.Changes.{IsListOf};
ghost use Rattle.app_base.specs.declared.console.Stream.TheVariants.{Output};
ghost use Rattle.app_base.specs.Ending.{RunEnds, ReportTells};
ghost use Rattle.app_base.specs.Files.{FirstUnread};
ghost use Rattle.app_base.specs.Refusals.{SaysUnless, is_loose};
ghost use Rattle.app_pair.specs.Paired.{CountsChanged, IsReady, RunsAndUndoes, TellsPair, changed_on, last_line, listed_on, status_by, status_of, text_of};
ghost use Rattle.app_pair.specs.PairRun.{ArePairTexts, PrintsPair, PrintsPairOfFiles, SaysPair, words_of};

use crate::inputs::{Inputs, is_memory, read_inputs, refusal};
use crate::links::{BusLinks, controller_ends, manager_ends};
use crate::side::{Controller, Driver, Paired, Phases, pair_over};
use app_base::files::refuse;
use app_base::{
    Console, NamedText, ReadFault, Report, ReportFault, Status, TextFiles, end_run, end_status,
    files_refusal, halts, text_of,
};
use app_run::{open_manager, push_phase};
use app_serve::{Begun, ClosedBoard, begin, controller_ports, tally_of};
use cfg_records::{BoardFile, Key, StartValue};
use report_words::ChangeList;
use std::alloc::{AllocError, Global};
use std::io;
use std::net::Net;
use std::sync::Wait;
use std::thread::Threads;
use text_lines::push_records;
use undo_plans::Plan;

/// What a pair is asked for beside its board and its plan.
#[derive(Clone, Copy)]
pub struct PairOptions {
    /// How many turns each worker makes, and the manager for its plan and for its undo.
    pub turns: u32,
    /// Whether the status says what came of the plan, and files with a key that nothing reads, or without a step, are refused.
    pub strict: bool,
    /// Whether each record that changed is told, behind how many did.
    pub list: bool,
}

/// What the words of `bmcnet pair` ask for.
#[derive(Drop)]
pub struct PairWords {
    /// The word of the board file.
    pub board: String,
    /// The word of the plan.
    pub plan: String,
    pub options: PairOptions,
}

/// The texts of the two files.
#[derive(Drop)]
struct Texts {
    board: String,
    plan: String,
}

/// What is told of a pair: the manager's phases, and, where the serving came to an end, how many records changed, and the lines that list them.
#[derive(Drop)]
struct Account {
    phases: Phases,
    changed: Option<usize>,
    list: String,
}

/// The controller's ports, and its ends of the links.
fn open_controller<R: Net>(rt: &R, alloc: Global) -> Result<Controller, ReportFault> {
    let Ok(ends) = controller_ends(rt) else {
        return Err(ReportFault::Stopped);
    };
    match controller_ports(alloc) {
        Ok(ports) => Ok(Controller { ports, ends }),
        Err(AllocError) => {
            drop(ends);
            Err(ReportFault::Memory)
        }
    }
}

/// A manager of the plan, and its ends of the links, which send to the controller's.
fn open_driver<R: Net>(
    rt: &R,
    alloc: Global,
    plan: Plan,
    controller: &BusLinks,
) -> Result<Driver, ReportFault>
    ensures { IfOk result (IsReady plan) }
{
    let Ok(ends) = manager_ends(rt, controller) else {
        drop(plan);
        return Err(ReportFault::Stopped);
    };
    match open_manager(alloc, plan) {
        Ok(manager) => Ok(Driver { manager, ends }),
        Err(AllocError) => {
            drop(ends);
            Err(ReportFault::Memory)
        }
    }
}

/// Both sides of the links, with a controller's ports and a manager of the plan.
fn open_sides<R: Net>(
    rt: &R,
    alloc: Global,
    plan: Plan,
) -> Result<(Controller, Driver), ReportFault>
    ensures { IfOk result (λ sides. IsReady plan sides.1) }
{
    let controller = match open_controller(rt, alloc) {
        Ok(controller) => controller,
        Err(why) => {
            drop(plan);
            return Err(why);
        }
    };
    match open_driver(rt, alloc, plan, &controller.ends) {
        Ok(driver) => Ok((controller, driver)),
        Err(why) => {
            drop(controller);
            Err(why)
        }
    }
}

/// How many of these records have another value on a board that was served, if it was.
pub fn changed_of(start: &[(Key, StartValue)], served: &Option<ClosedBoard>) -> Option<usize>
    ensures { result ≡ changed_on start.now served.now }
{
    match served {
        Some(served) => Some(tally_of(start, served).changed),
        None => None,
    }
}

/// The lines that list the changed records of a board that was served, where they are asked for.
fn list_of(
    alloc: Global,
    list: &ChangeList,
    served: &Option<ClosedBoard>,
) -> Result<String, AllocError>
    ensures { (asked : Bool) (file : AnyFile) → IsListOf asked file list.now
        → IfOk result (λ text. string_bytes text
        ≡ flat_map ended (listed_on asked file served.now)) }
{
    let mut text = String::new(alloc);
    if let Some(served) = served {
        list.push(&mut text, served.board.store())?;
    }
    Ok(text)
}

/// What is told of a pair whose board began with these records. Both are let go.
fn account_of(
    alloc: Global,
    start: Vec<(Key, StartValue)>,
    list: &ChangeList,
    paired: Paired,
) -> Result<Account, AllocError>
    ensures phases { IfOk result (λ account. account.phases ≡ paired.phases) }
    ensures changed { IfOk result
        (λ account. account.changed ≡ changed_on start.items paired.served) }
    ensures list { (asked : Bool) (file : AnyFile) → IsListOf asked file list.now
        → IfOk result (λ account. string_bytes account.list
        ≡ flat_map ended (listed_on asked file paired.served)) }
{
    let phases = paired.phases;
    let changed = changed_of(start.as_slice(), &paired.served);
    drop(start);
    let listed = list_of(alloc, list, &paired.served);
    drop(paired);
    Ok(Account {
        phases,
        changed,
        list: listed?,
    })
}

/// Serves the board beside the manager, and counts what came of it.
fn count<R: Threads + Wait + Sync>(
    rt: &R,
    alloc: Global,
    file: BoardFile,
    list: &ChangeList,
    sides: (Controller, Driver),
    turns: u32,
) -> Result<Account, ReportFault>
    ensures phases { (plan : AnyPlan) → IsReady plan sides.1
        → IfOk result (λ account.
        RunsAndUndoes plan turns account.phases.run account.phases.undone) }
    ensures changed { (asked : Bool) → IsListOf asked file list.now
        → IfOk result (λ account.
        CountsChanged asked file account.changed (string_bytes account.list)) }
{
    let (controller, driver) = sides;
    let Ok(begun) = begin(alloc, file) else {
        drop(controller);
        drop(driver);
        return Err(ReportFault::Memory);
    };
    let Begun { start, board } = begun;
    match pair_over(rt, alloc, board, controller, driver, turns) {
        Ok(paired) => Ok(account_of(alloc, start, list, paired)?),
        Err(why) => {
            drop(start);
            Err(why)
        }
    }
}

/// How the run of such an account ends.
fn status(changed: Option<usize>) -> Status
    ensures { result ≡ status_of changed }
{
    match changed {
        Some(_) => Status::Success,
        None => Status::Stopped,
    }
}

/// How the run of such an account ends, strictly or not.
fn status_by(strict: bool, account: &Account) -> Status
    ensures { result ≡ status_by strict account.now.phases.run account.now.phases.undone
        account.now.changed }
{
    match account.changed {
        Some(changed) if strict => {
            let Phases { run, undone } = account.phases;
            end_status(undone, halts(run), changed)
        }
        changed => status(changed),
    }
}

/// Adds the line of the records, where it is known how many changed.
fn push_changed(text: &mut String, changed: Option<usize>) -> Result<(), AllocError>
    ensures { OnOk result (string_bytes text.new ≡ string_bytes text.old ++ last_line changed) }
{
    match changed {
        Some(changed) => push_records(text, changed),
        None => Ok(()),
    }
}

/// The lines of the account.
fn account_report(alloc: Global, strict: bool, account: &Account) -> Result<Report, AllocError>
    ensures stream { IfOk result (λ report. report.stream ≡ Output) }
    ensures text { IfOk result (λ report. string_bytes report.text
        ≡ text_of account.now.phases.run account.now.phases.undone account.now.changed
        (string_bytes account.now.list)) }
    ensures status { IfOk result (λ report. report.status
        ≡ status_by strict account.now.phases.run account.now.phases.undone account.now.changed) }
{
    let Phases { run, undone } = account.phases;
    let mut text = String::new(alloc);
    push_phase(&mut text, run)?;
    push_phase(&mut text, undone)?;
    push_changed(&mut text, account.changed)?;
    text.push_str(account.list.as_str())?;
    Ok(Report::output(text, status_by(strict, account)))
}

/// What is said of a board and a plan.
fn paired_report<R: Net + Threads + Wait + Sync>(
    rt: &R,
    alloc: Global,
    inputs: Inputs,
    options: PairOptions,
) -> Result<Report, ReportFault>
    ensures stream { IfOk result (λ report. report.stream ≡ Output) }
    ensures told { IfOk result (λ report. TellsPair inputs.file inputs.plan options
        (string_bytes report.text) report.status) }
{
    let Inputs { file, plan } = inputs;
    let sides = match open_sides(rt, alloc, plan) {
        Ok(sides) => sides,
        Err(why) => {
            drop(file);
            return Err(why);
        }
    };
    let list = match ChangeList::of(alloc, options.list, &file) {
        Ok(list) => list,
        Err(AllocError) => {
            drop(file);
            drop(sides);
            return Err(ReportFault::Memory);
        }
    };
    let account = count(rt, alloc, file, &list, sides, options.turns)?;
    Ok(account_report(alloc, options.strict, &account)?)
}

/// What is said of a board and a plan that were read of these texts, unless the run is strict and one of them is refused so.
fn read_report<R: Net + Threads + Wait + Sync>(
    rt: &R,
    alloc: Global,
    board: NamedText<'_>,
    plan: NamedText<'_>,
    inputs: Inputs,
    options: PairOptions,
) -> Result<Report, ReportFault>
    ensures { ReportTells (SaysUnless
        (is_loose options.strict board.entry.text.now plan.entry.text.now inputs.plan)
        (SaysPair inputs options)) result }
{
    match files_refusal(alloc, options.strict, board, plan, &inputs.plan)? {
        Some(report) => Ok(report),
        None => paired_report(rt, alloc, inputs, options),
    }
}

/// What is said of the two texts.
fn texts_report<R: Net + Threads + Wait + Sync>(
    rt: &R,
    alloc: Global,
    board: NamedText<'_>,
    plan: NamedText<'_>,
    options: PairOptions,
) -> Result<Report, ReportFault>
    ensures { ReportTells
        (PrintsPair board.entry.text.now plan.entry.text.now options) result }
{
    match read_inputs(alloc, board.text, plan.text) {
        Ok(inputs) => read_report(rt, alloc, board, plan, inputs, options),
        Err(why) if is_memory(&why) => Err(ReportFault::Memory),
        Err(why) => Ok(refusal(alloc, why)?),
    }
}

/// Runs and undoes the plan of one text on the board of the other, and says what came of it.
fn pair_texts<W: io::Write, E: io::Write, R: Net + Threads + Wait + Sync>(
    rt: &R,
    alloc: Global,
    board: NamedText<'_>,
    plan: NamedText<'_>,
    options: PairOptions,
    console: &mut Console<W, E>,
) -> u8
    ensures { RunEnds W.contents E.contents
        (PrintsPair board.entry.text.now plan.entry.text.now options)
        console.old console.new result }
{
    let report = texts_report(rt, alloc, board, plan, options);
    let status = end_run(&report, console);
    drop(report);
    status
}

/// The texts of the files, or the first that isn't read.
fn texts_of<'a, F: TextFiles>(files: &F, words: &'a PairWords) -> Result<Texts, ReadFault<'a>>
    ensures texts { IfOk result (λ texts. ArePairTexts (F.gives files.now) (words_of words.now)
        (string_bytes texts.board) (string_bytes texts.plan)) }
    ensures unread { IfErr result (λ unread. FirstUnread (F.gives files.now)
        (words_of words.now) unread.word.now unread.why) }
{
    let board = text_of(files, words.board.as_str())?;
    let plan = text_of(files, words.plan.as_str())?;
    Ok(Texts { board, plan })
}

/// Serves the board of a file in threads, runs a plan on it over UDP beside them, undoes it, and writes to standard output in which phase the
/// manager was after either, and whether records of the served board are changed, and with `list` which. Where the plan neither ended nor halted,
/// nothing is undone and the second phase is the first. It gives the status: 0, or 3 with `file`, `board` or `plan` and the fault on standard error
/// where a file can't be read or holds no board or no plan, 4 and no line where a link or the first thread can't be had, 4 behind the phases where a
/// worker's thread can't be had or the board isn't closed, 5 with `memory` on standard error where memory was refused, and 6 where a write failed.
/// With `strict` it is 10 in place of 0 where the plan halted, 11 where a request is open or unsettled, 12 where one that undoes was refused, and
/// 13 where records are changed although all is undone; and 3, with what `bmclab check` tells of them on standard error, where a file has keys that
/// nothing reads, or the plan has no step.
pub fn pair<F: TextFiles, W: io::Write, E: io::Write, R: Net + Threads + Wait + Sync>(
    rt: &R,
    alloc: Global,
    files: &F,
    words: &PairWords,
    console: &mut Console<W, E>,
) -> u8
    ensures { RunEnds W.contents E.contents
        (PrintsPairOfFiles (F.gives files.now) (words_of words.now) words.now.options)
        console.old console.new result }
{
    match texts_of(files, words) {
        Ok(Texts { board, plan }) => {
            let named_board = NamedText {
                word: words.board.as_str(),
                text: board.as_str(),
            };
            let named_plan = NamedText {
                word: words.plan.as_str(),
                text: plan.as_str(),
            };
            let status = pair_texts(rt, alloc, named_board, named_plan, words.options, console);
            drop(board);
            drop(plan);
            status
        }
        Err(unread) => refuse(alloc, &unread, console),
    }
}
