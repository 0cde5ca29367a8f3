//! `bmcnet undo`: what a plan did to a controller is taken back over UDP.
ghost use Rattle.std.specs.Prelude.{◌≡◌, ◌↔◌, [], false, IfOk, Ok, Err, string_bytes};
ghost use Rattle.model_lab.specs.Meaning.{lab_names};
ghost use Rattle.undo_core.specs.Shown.{AreOthers};
ghost use Rattle.app_base.specs.Ending.{ReportTells};
ghost use Rattle.app_run.specs.declared.undoing.ListEnd.TheVariants.{Reverted as HasReverted};
ghost use Rattle.app_run.specs.Told.{MayTellResumed, TellsOfNames, TellsResumed, TellsUndoFile};
ghost use Rattle.app_run.specs.Told.{TellsUndoOf, TellsUndoText};
ghost use Rattle.app_run.specs.Undo.{EndsListed, IsResumed, ListEnds, MadeEnds, RemovesUndone, SaysLine};
ghost use Rattle.app_run.specs.Undo.{SaysOthers, TextEnds, UnbarredEnds, UndoEndsIn, UndoEndsOf, UndoesFrom};

use crate::driven::{RemakeFault, resume_manager};
use crate::greeting::Greetings;
use crate::lines::{names_refusal, undo_refusal};
use crate::observer::{ProgressWriter, RunWatch};
use crate::progress::{PlanOutline, Progress};
use crate::reverting::{Reverted, is_journal, say_reverted, undo_journal, undo_over};
use crate::running::{tell_unkept, unmade};
use app_base::files::refuse;
use app_base::{Console, Report, ReportFault, TextFiles, end_run, text_of};
use app_journal::{
    JournalKeeper, JournalTexts, Standing, UndoFiles, WriteFault, WritesFiles, hold_files,
};
use std::alloc::{AllocError, Global};
use std::io;
use std::net::Net;
use text_lines::{UndoFault, read_undo};
use undo_core::{Manager, Phase};
use undo_plans::UndoList;

/// What the words of `bmcnet undo` ask for.
#[derive(Drop)]
pub struct UndoWords {
    /// The word of the undo text.
    pub undo: String,
    /// The UDP port of the controller's end of IPMB.
    pub ipmb_port: u16,
    /// The UDP port of the end of SMBus.
    pub smbus_port: u16,
    /// How many turns the manager makes.
    pub turns: u32,
    /// How many milliseconds of quiet end a turn.
    pub wait_ms: u32,
    /// Whether the buses that are used are greeted before the undo begins. Behind a request that is settled they never are.
    pub greet: bool,
    /// Whether the status says what came of the undo.
    pub strict: bool,
}

/// What came of the undo of a list.
#[derive(Clone, Copy)]
pub enum ListEnd {
    /// The list has names that aren't the lab's.
    OtherNames,
    /// The file of the journal has something to take back that the list hasn't, or can't be made.
    Barred,
    /// The manager came to this, and where it took all back, the file of its journal was removed so.
    Reverted(Reverted, Result<(), WriteFault>),
}

/// A manager that goes on from a list of so many requests, in its phase, and the greetings before it is called.
#[derive(Drop)]
struct Resumed {
    manager: Manager,
    phase: Phase,
    steps: usize,
    greetings: Greetings,
}

// ---- the undo of a list

/// Has a manager take back what its list says, while its journal, whose texts these are, is kept in the file beside, and the line of its progress is
/// written.
fn undo_told<F: WritesFiles, P: io::Write, R: Net>(
    rt: &R,
    alloc: Global,
    files: &mut F,
    beside: &UndoFiles,
    texts: JournalTexts,
    resumed: Resumed,
    words: &UndoWords,
    progress: &mut Progress<P>,
) -> Result<Reverted, ReportFault>
    ensures undoes { UndoesFrom F.takes F.renames beside.now resumed words.now.turns result
        (string_bytes texts.last) files.old files.new }
    ensures told { TellsResumed P.contents [] resumed.steps resumed.manager
        progress.old progress.new }
{
    let mut texts = texts;
    let Resumed {
        mut manager,
        phase,
        steps,
        greetings,
    } = resumed;
    let course = PlanOutline { steps, kinds: &[] };
    let mut watch = RunWatch {
        keeper: JournalKeeper {
            files,
            beside: &*beside,
            texts: &mut texts,
        },
        teller: ProgressWriter {
            alloc,
            progress,
            course,
        },
    };
    let came = undo_over(rt, &mut manager, phase, words, &greetings, &mut watch);
    watch.end();
    came
}

/// Removes the file of the journal of a manager that took all back. Else it does nothing.
fn remove_undone<F: WritesFiles>(
    files: &mut F,
    beside: &UndoFiles,
    came: &Reverted,
) -> Result<(), WriteFault>
    ensures { RemovesUndone F.removes beside.now came.now files.old result files.new }
{
    match came {
        Reverted::Ended(Ok(Phase::Undone)) => beside.remove_part(files),
        _ => Ok(()),
    }
}

/// What came of the undo of a list whose manager came to this, and the file of its journal was removed so.
fn listed(came: Reverted, gone: Result<(), WriteFault>) -> Result<ListEnd, ReportFault>
    ensures { result ≡ Ok (HasReverted came gone) }
{
    Ok(ListEnd::Reverted(came, gone))
}

/// Makes the file of the journal, with that of a manager that goes on from a list. Then it takes that back, and where it took all back, the file is
/// removed.
fn undo_made<F: WritesFiles, P: io::Write, R: Net>(
    rt: &R,
    alloc: Global,
    files: &mut F,
    beside: &UndoFiles,
    resumed: Resumed,
    words: &UndoWords,
    progress: &mut Progress<P>,
) -> Result<ListEnd, ReportFault>
    ensures ends { MadeEnds F.WritesFiles beside.now resumed words.now.turns result
        files.old files.new }
    ensures told { MayTellResumed P.contents [] resumed.steps resumed.manager
        progress.old progress.new }
{
    let Ok(texts) = JournalTexts::of(alloc, &resumed.manager) else {
        drop(resumed);
        return Err(ReportFault::Memory);
    };
    if let Err(WriteFault) = beside.put(files, texts.last.as_str()) {
        drop(resumed);
        return Ok(ListEnd::Barred);
    }
    match undo_told(rt, alloc, files, beside, texts, resumed, words, progress) {
        Ok(came) => {
            let gone = remove_undone(files, beside, &came);
            listed(came, gone)
        }
        Err(why) => Err(why),
    }
}

/// A manager that goes on from a list, and what is known of it.
fn resume(alloc: Global, list: UndoList, greet: bool) -> Result<Resumed, RemakeFault>
    ensures resumed { IfOk result (IsResumed list greet) }
    ensures others { (result ≡ Err RemakeFault.OtherNames) ↔ AreOthers lab_names list.names }
{
    let steps = list.requests.len();
    let greetings = Greetings::before_undo(greet, &list);
    match resume_manager(alloc, list) {
        Ok(manager) => Ok(Resumed {
            phase: manager.phase(),
            manager,
            steps,
            greetings,
        }),
        Err(why) => Err(why),
    }
}

/// Undoes a list, whose text this is, unless the file of the journal has something to take back that the list hasn't.
fn undo_unbarred<F: TextFiles + WritesFiles, P: io::Write, R: Net>(
    rt: &R,
    alloc: Global,
    files: &mut F,
    held: &UndoFiles,
    text: &str,
    resumed: Resumed,
    words: &UndoWords,
    progress: &mut Progress<P>,
) -> Result<ListEnd, ReportFault>
    ensures ends { UnbarredEnds F.TextFiles F.WritesFiles held.now text.now resumed
        words.now.turns result files.old files.new }
    ensures told { MayTellResumed P.contents [] resumed.steps resumed.manager
        progress.old progress.new }
{
    let standing = match held.standing(alloc, &*files, text) {
        Ok(standing) => standing,
        Err(AllocError) => {
            drop(resumed);
            return Err(ReportFault::Memory);
        }
    };
    match standing {
        Standing::Nothing => undo_made(rt, alloc, files, held, resumed, words, progress),
        _ => {
            drop(resumed);
            Ok(ListEnd::Barred)
        }
    }
}

/// Undoes a list, whose text this is, in a file that is held.
fn undo_list<F: TextFiles + WritesFiles, P: io::Write, R: Net>(
    rt: &R,
    alloc: Global,
    files: &mut F,
    held: &UndoFiles,
    text: &str,
    list: UndoList,
    words: &UndoWords,
    progress: &mut Progress<P>,
) -> Result<ListEnd, ReportFault>
    ensures ends { ListEnds F.TextFiles F.WritesFiles held.now text.now list words.now result
        files.old files.new }
    ensures told { TellsOfNames P.contents list progress.old progress.new }
{
    match resume(alloc, list, words.greet) {
        Ok(resumed) => undo_unbarred(rt, alloc, files, held, text, resumed, words, progress),
        Err(RemakeFault::OtherNames) => Ok(ListEnd::OtherNames),
        Err(RemakeFault::Memory) => Err(ReportFault::Memory),
    }
}

// ---- what is said

/// What is said of a list that has other names.
fn others_report(alloc: Global) -> Result<Report, ReportFault>
    ensures { ReportTells SaysOthers result }
{
    Ok(names_refusal(alloc)?)
}

/// Says what came of a manager that goes on from a list, and of the file of its journal.
fn say_undone<W: io::Write, E: io::Write>(
    alloc: Global,
    words: &UndoWords,
    came: Reverted,
    gone: Result<(), WriteFault>,
    console: &mut Console<W, E>,
) -> u8
    ensures { EndsListed W.contents E.contents words.now (Ok (HasReverted came gone))
        console.old console.new result }
{
    match gone {
        Ok(()) => say_reverted(alloc, words, Ok(came), console),
        Err(WriteFault) => tell_unkept(alloc, Phase::Undone, words.undo.as_str(), console),
    }
}

/// Says what came of the undo of a list in the file that the words name.
fn say_listed<W: io::Write, E: io::Write>(
    alloc: Global,
    words: &UndoWords,
    end: Result<ListEnd, ReportFault>,
    console: &mut Console<W, E>,
) -> u8
    ensures { EndsListed W.contents E.contents words.now end console.old console.new result }
{
    match end {
        Ok(ListEnd::Reverted(came, gone)) => say_undone(alloc, words, came, gone, console),
        Ok(ListEnd::OtherNames) => end_run(&others_report(alloc), console),
        Ok(ListEnd::Barred) => end_run(&unmade(alloc, words.undo.as_str()), console),
        Err(why) => end_run(&Err(why), console),
    }
}

/// What is said of a text that is no undo text.
fn line_report(alloc: Global, why: UndoFault) -> Result<Report, ReportFault>
    ensures { ReportTells (SaysLine why) result }
{
    match why {
        UndoFault::Memory => Err(ReportFault::Memory),
        UndoFault::Line(_) => Ok(undo_refusal(alloc, why)?),
    }
}

/// Undoes what this text says, in a file that is held: a journal, or an undo text. It says what came of it.
fn undo_text<F: TextFiles + WritesFiles, W: io::Write, E: io::Write, P: io::Write, R: Net>(
    rt: &R,
    alloc: Global,
    files: &mut F,
    held: &UndoFiles,
    text: &str,
    words: &UndoWords,
    progress: &mut Progress<P>,
    console: &mut Console<W, E>,
) -> u8
    ensures ends { TextEnds W.contents E.contents F.TextFiles F.WritesFiles held.now text.now
        words.now files.old files.new console.old console.new result }
    ensures told { TellsUndoText P.contents text.now progress.old progress.new }
{
    if is_journal(text) {
        return undo_journal(rt, alloc, files, held, text, words, progress, console);
    }
    match read_undo(alloc, text) {
        Ok(list) => {
            let end = undo_list(rt, alloc, files, held, text, list, words, progress);
            say_listed(alloc, words, end, console)
        }
        Err(why) => end_run(&line_report(alloc, why), console),
    }
}

/// Undoes what the file says that is held, and that the words name, and says what came of it.
fn undo_held<F: TextFiles + WritesFiles, W: io::Write, E: io::Write, P: io::Write, R: Net>(
    rt: &R,
    alloc: Global,
    files: &mut F,
    held: &UndoFiles,
    words: &UndoWords,
    progress: &mut Progress<P>,
    console: &mut Console<W, E>,
) -> u8
    ensures ends { UndoEndsIn W.contents E.contents F.TextFiles F.WritesFiles held.now words.now
        files.old files.new console.old console.new result }
    ensures told { TellsUndoFile P.contents (F.gives files.old) (string_bytes words.now.undo)
        progress.old progress.new }
{
    match text_of(&*files, words.undo.as_str()) {
        Ok(text) => undo_text(
            rt,
            alloc,
            files,
            held,
            text.as_str(),
            words,
            progress,
            console,
        ),
        Err(unread) => refuse(alloc, &unread, console),
    }
}

/// Undoes the list of the file that the words name, on the controller at their two ports, and writes to standard output in which phase the
/// manager is then. It sends a request again up to three times. Where the words ask for it, each bus on which requests of the list go is greeted
/// before, as `run` does for the list's next numbers. Where the line of its progress is written, that tells of each step and is ended
/// before the phase is said.
///
/// Before anything else is done the file is held, where the word's links lead, so that one process at a time uses it: `run` holds the same one, and
/// the undo of the journal beside it does. Then the file beside it, `.part`, is made with the journal of the manager that goes on from the list. It
/// has the manager's journal whenever frames go out, as that of a run has. Once all was taken back it is removed; behind any other end it stays. The
/// file itself is never changed. Where `.part` has something to take back that isn't the list, or is no journal, nothing is sent. Of a FIFO or a
/// device nothing is held, and there is no journal.
///
/// It gives the status: 0, or 3 with `file` or `undo` and the fault on standard error where the file can't be held or read, or is no undo text, or
/// where `.part` is in the way or can't be made, or doesn't take the journal while a request is open; `undo OtherNames` where its list has names that
/// aren't the lab's; 3 with the phase and `file` behind it where `.part` can't be removed; 4 and no line where a link can't be had, 5 with `memory`
/// on standard error where memory was refused, and 6 where a write of these failed.
///
/// With `strict` it is 11 in place of 0 where a request is open or unsettled, or a greeting wasn't answered, and 12 where a request that undoes was
/// refused. Of a journal whose manager began nothing there is nothing to take back, and it stays 0. Which records are changed behind it an undo can't
/// know, so 13 is never its status.
///
/// Of a journal, the open request is settled first, if one is open: it is sent again, for as many turns. Where the plan is over then, it is taken back:
/// behind a greeting, where the words ask for it and no request was open. Before frames go out, the journal's own file gets the journal by its name alone. Where it doesn't,
/// while a request is open, nothing is sent any more, and standard error has `file` and the word, with the status 3. A journal with a bad line is
/// refused with 3 and `journal` and the line.
pub fn undo<F: TextFiles + WritesFiles, W: io::Write, E: io::Write, P: io::Write, R: Net>(
    rt: &R,
    alloc: Global,
    files: &mut F,
    words: &UndoWords,
    progress: &mut Progress<P>,
    console: &mut Console<W, E>,
) -> u8
    ensures ends { UndoEndsOf W.contents E.contents F.TextFiles F.WritesFiles words.now
        files.old files.new console.old console.new result }
    ensures told { TellsUndoOf P.contents F.TextFiles F.WritesFiles (string_bytes words.now.undo)
        files.old progress.old progress.new }
    ensures untold { progress.old.on ≡ false → progress.new ≡ progress.old }
{
    let word = words.undo.as_str();
    match hold_files(alloc, files, word) {
        Ok(Some(held)) => undo_held(rt, alloc, files, &held, words, progress, console),
        Ok(None) => end_run(&unmade(alloc, word), console),
        Err(AllocError) => end_run(&Err(ReportFault::Memory), console),
    }
}
