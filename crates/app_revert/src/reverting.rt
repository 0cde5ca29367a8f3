//! `bmcnet revert`: what FILE says is taken back on a controller, and FILE keeps the journal of that meanwhile.
ghost use Rattle.std.specs.Prelude.{◌≡◌, ◌≤◌, ◌||◌, IfOk, Ok, false, length, true, string_bytes};
ghost use Rattle.text_lines.specs.UndoText.{text_of};
ghost use Rattle.app_base.specs.Ending.{RunEnds};
ghost use Rattle.app_apply.specs.Ends.{SaysOn, stream_for};
ghost use Rattle.undo_core.specs.Journals.{kept_by};
ghost use Rattle.app_journal.specs.Standing.{IsStanding};
ghost use Rattle.app_revert.specs.Looks.{doubts};
ghost use Rattle.app_revert.specs.Revert.{IsReverted, LacksPort, NeedsSmbus};
ghost use Rattle.app_revert.specs.Revert.{Looks};
ghost use Rattle.app_revert.specs.Revert.{RevertCome, RevertEnd, Reverts, RevertsMade};
ghost use Rattle.app_revert.specs.Revert.{RevertEndsIn, RevertEndsOf, RevertEndsOn, RevertEndsOver};
ghost use Rattle.app_revert.specs.Revert.{is_on_smbus, is_undone};
ghost use Rattle.app_revert.specs.Statuses.{status_behind};

use crate::leaving::{leave, leave_in};
use crate::looking::{Looked, doubt_of, look_behind};
use crate::reading::manager_of;
use crate::reverted_json::{held_json, revert_json};
use crate::reverted_words::{revert_text, unfit_text};
use crate::taking::take_back_kept;
use app_apply::applying::{say, say_on, stream_for};
use app_apply::guarding::{hold_own, is_nothing};
use app_apply::refusing::{say_refused, say_unread};
use app_apply::sentences::{held_text, port_text};
use app_apply::{Outcome, Reach};
use app_base::{Console, ReportFault, Status, Stream, TextFiles, end_run, text_of};
use app_journal::{JournalTexts, Standing, UndoFiles, WriteFault, WritesFiles, standing_in};
use app_look::KnownNames;
use app_run::{Progress, requests_use};
use report_words::Names;
use std::alloc::{AllocError, Global};
use std::io;
use std::net::Net;
use two_wire::Bus;
use undo_core::{Manager, Phase};
use undo_plans::{KeptStage, Requests};

/// What the words of `bmcnet revert` ask for.
#[derive(Drop)]
pub struct RevertWords {
    /// The word of FILE: a journal, or an undo text.
    pub file: String,
    /// Where the controller is.
    pub reach: Reach,
    /// Whether what came of it is said as an object in a line of standard output.
    pub json: bool,
}

/// What came of taking back.
#[derive(Drop)]
pub struct Reverted {
    pub manager: Manager,
    pub outcome: Outcome,
    /// What the looks behind it told. Where not all was taken back, there were none.
    pub looked: Looked,
    /// The names of the sensors and attributes whose records aren't as before, as far as they could be read.
    pub names: KnownNames,
}

impl Reverted {
    /// How a call ends of which this came.
    fn status(&self) -> Status
        ensures { result ≡ status_behind self.now.outcome
            self.now.looked.differs self.now.looked.unseen }
    {
        match (self.looked.differs, self.looked.unseen) {
            (true, _) => Status::Halted,
            (false, true) => Status::Unsettled,
            (false, false) => self.outcome.status(),
        }
    }
}

/// Takes back what a manager did, while the journal of this text is kept in FILE, and leaves FILE as it is to be then.
fn revert_kept<F: WritesFiles, P: io::Write, R: Net>(
    rt: &R,
    alloc: Global,
    files: &mut F,
    beside: &UndoFiles,
    texts: &mut JournalTexts,
    manager: &mut Manager,
    reach: &Reach,
    progress: &mut Progress<P>,
) -> Result<Outcome, AllocError>
    ensures reverts { Reverts F.WritesFiles beside.now reach.now.again manager.old manager.new
        (string_bytes texts.old.last) result files.old files.new }
    ensures untold { progress.old.on ≡ false → progress.new ≡ progress.old }
{
    let outcome = take_back_kept(rt, alloc, files, beside, texts, manager, reach, progress);
    leave(alloc, files, beside, &*manager, outcome)
}

/// Has FILE get the journal of a manager, and takes back what that did.
fn revert_made<F: WritesFiles, P: io::Write, R: Net>(
    rt: &R,
    alloc: Global,
    files: &mut F,
    beside: &UndoFiles,
    manager: &mut Manager,
    reach: &Reach,
    progress: &mut Progress<P>,
) -> Result<Outcome, AllocError>
    ensures reverts { RevertsMade F.WritesFiles beside.now reach.now.again
        manager.old manager.new result files.old files.new }
    ensures untold { progress.old.on ≡ false → progress.new ≡ progress.old }
{
    let mut texts = JournalTexts::of(alloc, &*manager)?;
    match beside.put(files, texts.last.as_str()) {
        Ok(()) => revert_kept(
            rt, alloc, files, beside, &mut texts, manager, reach, progress,
        ),
        Err(WriteFault) => Ok(Outcome::Unmade),
    }
}

/// Whether all that a manager did was taken back.
fn is_undone(manager: &Manager) -> bool
    ensures { result ≡ is_undone (kept_by manager.now).stage }
{
    matches!(manager.journal().stage, KeptStage::Undone)
}

/// Takes back what a manager did, of which FILE has this standing.
fn revert_standing<F: WritesFiles, P: io::Write, R: Net>(
    rt: &R,
    alloc: Global,
    files: &mut F,
    beside: &UndoFiles,
    standing: Standing,
    manager: &mut Manager,
    reach: &Reach,
    progress: &mut Progress<P>,
) -> Result<Outcome, AllocError>
    ensures ends { RevertEnd F.WritesFiles beside.now reach.now.again standing
        manager.old manager.new result files.old files.new }
    ensures untold { progress.old.on ≡ false → progress.new ≡ progress.old }
{
    if is_undone(&*manager) {
        return leave_in(alloc, files, beside, &*manager, Phase::Undone);
    }
    if is_nothing(standing) {
        return Ok(Outcome::Empty);
    }
    revert_made(rt, alloc, files, beside, manager, reach, progress)
}

/// Whether the bus is SMBus.
fn is_on_smbus(bus: Option<Bus>) -> bool
    ensures { result ≡ is_on_smbus bus }
{
    matches!(bus, Some(Bus::Smbus))
}

/// Whether one of both is so.
fn either(one: bool, other: bool) -> bool
    ensures { result ≡ (one || other) }
{
    one || other
}

/// Whether requests of the manager go on SMBus.
fn needs_smbus(manager: &Manager) -> bool
    ensures { NeedsSmbus manager.now result }
{
    let open = is_on_smbus(manager.open_bus());
    let listed = requests_use(&manager.undo_list().requests, Bus::Smbus);
    either(open, listed)
}

/// Whether they do, and no port of that is known.
fn lacks_port(manager: &Manager, reach: &Reach) -> bool
    ensures { LacksPort manager.now reach.now result }
{
    if reach.smbus_port.is_some() {
        return false;
    }
    needs_smbus(manager)
}

/// Looks at each record, where all was taken back, and reads the names of those that aren't as before.
fn look_after<R: Net>(
    rt: &R,
    alloc: Global,
    manager: &Manager,
    outcome: &Outcome,
    doubt: &Requests,
    reach: &Reach,
) -> Result<(Looked, KnownNames), AllocError>
    requires { length doubt.now.members ≤ 1 }
    ensures { IfOk result (λ told.
        Looks reach.now.again manager.now doubt.now.members outcome.now told.0 told.1) }
{
    match outcome {
        Outcome::Ended(Phase::Undone, Ok(())) => {
            look_behind(rt, alloc, manager.undo_list(), doubt, reach)
        }
        _ => Ok((Looked::none(alloc), Ok(Names::new(alloc)))),
    }
}

/// What came of a manager, of the looks behind that, and of the names behind these.
fn reverted_as<R: Net>(
    rt: &R,
    alloc: Global,
    manager: Manager,
    outcome: Outcome,
    doubt: &Requests,
    reach: &Reach,
) -> Result<Reverted, AllocError>
    requires { length doubt.now.members ≤ 1 }
    ensures { IfOk result (IsReverted reach.now.again manager doubt.now.members outcome) }
{
    match look_after(rt, alloc, &manager, &outcome, doubt, reach) {
        Ok((looked, names)) => Ok(Reverted {
            manager,
            outcome,
            looked,
            names,
        }),
        Err(why) => {
            drop(manager);
            Err(why)
        }
    }
}

/// Takes back what a manager did, of which FILE has this standing, and looks behind that at each record, and at that of the step in doubt. Behind the
/// looks it reads the names of those that aren't as before.
fn revert_doubted<F: WritesFiles, P: io::Write, R: Net>(
    rt: &R,
    alloc: Global,
    files: &mut F,
    beside: &UndoFiles,
    standing: Standing,
    mut manager: Manager,
    doubt: &Requests,
    reach: &Reach,
    progress: &mut Progress<P>,
) -> Result<Reverted, AllocError>
    requires { doubt.now.members ≡ doubts manager }
    ensures comes { RevertCome F.WritesFiles beside.now reach.now.again standing manager result
        files.old files.new }
    ensures untold { progress.old.on ≡ false → progress.new ≡ progress.old }
{
    let came = revert_standing(
        rt,
        alloc,
        files,
        beside,
        standing,
        &mut manager,
        reach,
        progress,
    );
    match came {
        Ok(outcome) => reverted_as(rt, alloc, manager, outcome, doubt, reach),
        Err(why) => {
            drop(manager);
            Err(why)
        }
    }
}

/// The same, where memory for the doubt may be refused before.
fn revert_looked<F: WritesFiles, P: io::Write, R: Net>(
    rt: &R,
    alloc: Global,
    files: &mut F,
    beside: &UndoFiles,
    standing: Standing,
    manager: Manager,
    reach: &Reach,
    progress: &mut Progress<P>,
) -> Result<Reverted, AllocError>
    ensures comes { RevertCome F.WritesFiles beside.now reach.now.again standing manager result
        files.old files.new }
    ensures untold { progress.old.on ≡ false → progress.new ≡ progress.old }
{
    match doubt_of(alloc, &manager) {
        Ok(doubt) => revert_doubted(
            rt, alloc, files, beside, standing, manager, &doubt, reach, progress,
        ),
        Err(why) => {
            drop(manager);
            Err(why)
        }
    }
}

/// What is said of what was taken back: an object, or else sentences.
fn text_for(alloc: Global, words: &RevertWords, reverted: &Reverted) -> Result<String, AllocError> {
    if words.json {
        revert_json(alloc, words, reverted)
    } else {
        revert_text(alloc, words, reverted)
    }
}

/// Takes back what a manager did, that is made of FILE, and says what came of it.
fn revert_over<F: TextFiles + WritesFiles, W: io::Write, E: io::Write, P: io::Write, R: Net>(
    rt: &R,
    alloc: Global,
    files: &mut F,
    beside: &UndoFiles,
    standing: Standing,
    manager: Manager,
    words: &RevertWords,
    progress: &mut Progress<P>,
    console: &mut Console<W, E>,
) -> u8
    ensures ends { RevertEndsOver W.contents E.contents F.TextFiles F.WritesFiles
        beside.now standing manager words.now files.old files.new
        console.old console.new result }
    ensures untold { progress.old.on ≡ false → progress.new ≡ progress.old }
{
    let reach = &words.reach;
    if lacks_port(&manager, reach) {
        drop(manager);
        let why = port_text(alloc, words.file.as_str());
        return say_refused(alloc, words.json, why, Status::RefusedWords, console);
    }
    match revert_looked(rt, alloc, files, beside, standing, manager, reach, progress) {
        Ok(reverted) => {
            let status = reverted.status();
            let text = text_for(alloc, words, &reverted);
            say_on(text, stream_for(words.json), status, console)
        }
        Err(AllocError) => end_run(&Err(ReportFault::Memory), console),
    }
}

/// Takes back what this text in FILE says, which has this standing, and says what came of it.
fn revert_by<F: TextFiles + WritesFiles, W: io::Write, E: io::Write, P: io::Write, R: Net>(
    rt: &R,
    alloc: Global,
    files: &mut F,
    beside: &UndoFiles,
    standing: Standing,
    text: &str,
    words: &RevertWords,
    progress: &mut Progress<P>,
    console: &mut Console<W, E>,
) -> u8
    requires { IsStanding standing text.now }
    ensures ends { RevertEndsOn W.contents E.contents F.TextFiles F.WritesFiles
        beside.now text.now words.now files.old files.new console.old console.new result }
    ensures untold { progress.old.on ≡ false → progress.new ≡ progress.old }
{
    match manager_of(alloc, text) {
        Ok(manager) => revert_over(
            rt, alloc, files, beside, standing, manager, words, progress, console,
        ),
        Err(unfit) => {
            let why = unfit_text(alloc, words.file.as_str(), unfit);
            say_refused(alloc, words.json, why, Status::RefusedFile, console)
        }
    }
}

/// Takes back what this text in FILE says, and says what came of it.
fn revert_on<F: TextFiles + WritesFiles, W: io::Write, E: io::Write, P: io::Write, R: Net>(
    rt: &R,
    alloc: Global,
    files: &mut F,
    beside: &UndoFiles,
    text: &str,
    words: &RevertWords,
    progress: &mut Progress<P>,
    console: &mut Console<W, E>,
) -> u8
    ensures ends { RevertEndsOn W.contents E.contents F.TextFiles F.WritesFiles
        beside.now text.now words.now files.old files.new console.old console.new result }
    ensures untold { progress.old.on ≡ false → progress.new ≡ progress.old }
{
    match standing_in(alloc, text) {
        Ok(standing) => revert_by(
            rt, alloc, files, beside, standing, text, words, progress, console,
        ),
        Err(AllocError) => end_run(&Err(ReportFault::Memory), console),
    }
}

/// Takes back what FILE says, which is held, and says what came of it.
fn revert_held<F: TextFiles + WritesFiles, W: io::Write, E: io::Write, P: io::Write, R: Net>(
    rt: &R,
    alloc: Global,
    files: &mut F,
    beside: &UndoFiles,
    words: &RevertWords,
    progress: &mut Progress<P>,
    console: &mut Console<W, E>,
) -> u8
    ensures ends { RevertEndsIn W.contents E.contents F.TextFiles F.WritesFiles
        beside.now words.now files.old files.new console.old console.new result }
    ensures untold { progress.old.on ≡ false → progress.new ≡ progress.old }
{
    match text_of(&*files, beside.undo.as_str()) {
        Ok(text) => revert_on(
            rt,
            alloc,
            files,
            beside,
            text.as_str(),
            words,
            progress,
            console,
        ),
        Err(unread) => say_unread(alloc, words.json, &unread, console),
    }
}

/// Says that FILE can't be held, with an object or else a sentence, and gives the status.
fn say_held<W: io::Write, E: io::Write>(
    alloc: Global,
    words: &RevertWords,
    console: &mut Console<W, E>,
) -> u8
    ensures { RunEnds W.contents E.contents
        (SaysOn (stream_for words.now.json) Status.RefusedFile) console.old console.new result }
{
    if words.json {
        let object = held_json(alloc, words);
        say_on(object, Stream::Output, Status::RefusedFile, console)
    } else {
        let text = held_text(alloc, words.file.as_str());
        say(text, Status::RefusedFile, console)
    }
}

/// Takes back what FILE says, on the controller at the ports of the words, and says what came of it.
pub fn revert<F: TextFiles + WritesFiles, W: io::Write, E: io::Write, P: io::Write, R: Net>(
    rt: &R,
    alloc: Global,
    files: &mut F,
    words: &RevertWords,
    progress: &mut Progress<P>,
    console: &mut Console<W, E>,
) -> u8
    ensures ends { RevertEndsOf W.contents E.contents F.TextFiles F.WritesFiles
        (string_bytes words.now.file) words.now files.old files.new
        console.old console.new result }
    ensures untold { progress.old.on ≡ false → progress.new ≡ progress.old }
{
    match hold_own(alloc, files, words.file.as_str()) {
        Ok(Some(beside)) => revert_held(rt, alloc, files, &beside, words, progress, console),
        Ok(None) => say_held(alloc, words, console),
        Err(AllocError) => end_run(&Err(ReportFault::Memory), console),
    }
}
