//! `bmcnet undo` of a journal: its open request is settled, and what its manager did is taken back, while the journal's file keeps the journal.
ghost use Rattle.std.specs.Prelude.{◌≡◌, ◌↔◌, true, Ok, IfErr, IfOk, OnErr, OnOk, string_bytes};
ghost use Rattle.app_base.specs.declared.console.Stream.TheVariants.{Error};
ghost use Rattle.app_base.specs.declared.status.Status.TheVariants.{RefusedFile};
ghost use Rattle.app_base.specs.Ending.{ReportTells};
ghost use Rattle.app_journal.specs.declared.reviving.ReviveFault.{ReviveFault as AnyFault};
ghost use Rattle.undo_plans.specs.Journals.{kept_of as kept_of_view};
ghost use Rattle.model_undo.specs.declared.call.Call.TheVariants.{Undo};
ghost use Rattle.app_base.specs.declared.ending.ReportFault.TheVariants.{Stopped as HasStopped};
ghost use Rattle.model_lab.specs.Meaning.{lab_names};
ghost use Rattle.undo_core.specs.Shown.{CallStep, Represents};
ghost use Rattle.wire_links.specs.Counted.{none_counted};
ghost use Rattle.bmc_ports.specs.Conversation.{links};
ghost use Rattle.bmc_ports.specs.Driving.{both};
ghost use Rattle.bmc_ports.specs.Observing.{permit_at};
ghost use Rattle.app_run.specs.Course.{RunCourse};
ghost use Rattle.app_run.specs.Driven.{DrivenState, GoesAgain, is_over as over_in};
ghost use Rattle.app_run.specs.Reverting.{GoesOn, MayRevert, Reverts, RunsKept, Undoes};
ghost use Rattle.app_run.specs.Reverting.{call_for, greets_behind, left_ungreeted, settles_none};
ghost use Rattle.app_run.specs.Ends.{SaysPhase};
ghost use Rattle.app_run.specs.JournalUndo.{EndsReverted, IsJournal, IsOwnOf, JournalEnds};
ghost use Rattle.app_run.specs.Told.{LooksOnRecall, LooksOnRevert, MayLookOn, MayTellRevert, TellsJournal, steps_of};
ghost use Rattle.app_run.specs.JournalUndo.{SaysEnd, SaysJournalFault, journal_line};
ghost use Rattle.app_run.specs.Strict.{undone_status};

use crate::greeting::{GreetFault, Greetings, Unanswered, greet_first};
use crate::lines::{names_refusal, phase_report, tell_ungreeted};
use crate::links::{BusLinks, open_ends};
use crate::observer::{ProgressWriter, RunWatch};
use crate::progress::{PlanOutline, Progress, kinds_of};
use crate::running::unmade;
use crate::strict::undone_status;
use crate::undoing::UndoWords;
use app_base::{Console, Report, ReportFault, Status, end_run};
use app_journal::{JournalKeeper, JournalTexts, ReviveFault, UndoFiles, WritesFiles, revive_text};
use bmc_ports::{DriveEnd, KeptBack, Observer, drive_observed};
use std::alloc::{AllocError, Global};
use std::io;
use std::net::Net;
use text_journal::JournalTextFault;
use text_lines::behind;
use undo_core::{Manager, Phase, Sent, WrongPhase};
use undo_plans::{JournalView, KeptStage};
use wire_links::Link;

/// What the manager of a journal is called for.
#[derive(Clone, Copy)]
pub(crate) enum Recall {
    /// Its open request is heeded again.
    Settle,
    /// What it did is taken back.
    Undo,
}

/// What came of a manager that was made of a journal.
#[derive(Clone, Copy)]
pub enum Reverted {
    /// It came to this end.
    Ended(DriveEnd),
    /// Its request was settled in this phase. This greeting wasn't answered, and the manager did nothing else.
    Ungreeted(Phase, Unanswered),
}

impl Recall {
    /// The call.
    fn call(self, manager: &mut Manager) -> Result<Option<Sent>, WrongPhase>
        ensures { CallStep (call_for self) manager.old manager.new result }
    {
        match self {
            Recall::Settle => manager.again(),
            Recall::Undo => manager.undo(),
        }
    }
}

/// Calls a manager so, and drives it, while a watch looks at it.
fn recall_watched<A: Link, B: Link, T: Observer>(
    manager: &mut Manager,
    recall: Recall,
    ipmb: &mut A,
    smbus: &mut B,
    turns: u32,
    watch: &mut T,
) -> DriveEnd
    ensures goes { (before : DrivenState) → Represents lab_names manager.old before
        → GoesAgain 0 (call_for recall) turns before manager.new result
        (both (A.counts_of ipmb.old) (B.counts_of smbus.old))
        (both (A.counts_of ipmb.new) (B.counts_of smbus.new)) }
    ensures seen { RunCourse T.sees A.Link B.Link (call_for recall) manager.old manager.new
        (links ipmb.old smbus.old) (links ipmb.new smbus.new) (permit_at result)
        watch.old watch.new }
{
    match recall.call(manager) {
        Ok(first) => drive_observed(manager, first, ipmb, smbus, turns, watch),
        Err(WrongPhase) => Ok(manager.phase()),
    }
}

/// The same over these links, while its journal is kept and the line of its progress is written.
fn recall_over<F: WritesFiles, P: io::Write>(
    manager: &mut Manager,
    recall: Recall,
    ends: BusLinks,
    turns: u32,
    watch: &mut RunWatch<F, P>,
) -> DriveEnd
    requires ipmb { ends.ipmb.counts ≡ none_counted }
    requires smbus { ends.smbus.counts ≡ none_counted }
    ensures runs { RunsKept F.takes F.renames watch.old.keeper.beside.now (call_for recall)
        turns manager.old manager.new result (string_bytes watch.old.keeper.texts.now.last)
        (string_bytes watch.new.keeper.texts.now.last)
        watch.old.keeper.files.now watch.new.keeper.files.now }
    ensures told { LooksOnRecall P.contents watch.old.teller.course.kinds.now
        watch.old.teller.course.steps
        (call_for recall) manager.old manager.new
        watch.old.teller.progress.now watch.new.teller.progress.now }
    ensures same_words { watch.new.keeper.beside ≡ watch.old.keeper.beside }
    ensures same_course { watch.new.teller.course ≡ watch.old.teller.course }
    ensures same_files { watch.new.keeper.files.ghost_name
        ≡ watch.old.keeper.files.ghost_name }
    ensures same_line { watch.new.teller.progress.ghost_name
        ≡ watch.old.teller.progress.ghost_name }
{
    let BusLinks {
        mut ipmb,
        mut smbus,
    } = ends;
    recall_watched(manager, recall, &mut ipmb, &mut smbus, turns, watch)
}

/// The same over links of its own to the ports that the words name. Where one can't be had, nothing is done.
fn recall_on<F: WritesFiles, P: io::Write, R: Net>(
    rt: &R,
    manager: &mut Manager,
    recall: Recall,
    words: &UndoWords,
    watch: &mut RunWatch<F, P>,
) -> Result<DriveEnd, ReportFault>
    ensures runs { IfOk result (λ end. RunsKept F.takes F.renames
        watch.old.keeper.beside.now (call_for recall) words.now.turns
        manager.old manager.new end
        (string_bytes watch.old.keeper.texts.now.last)
        (string_bytes watch.new.keeper.texts.now.last)
        watch.old.keeper.files.now watch.new.keeper.files.now) }
    ensures stopped { IfErr result (λ why. why ≡ HasStopped) }
    ensures same_text { OnErr result (string_bytes watch.new.keeper.texts.now.last
        ≡ string_bytes watch.old.keeper.texts.now.last) }
    ensures same { OnErr result
        (watch.new.keeper.files.now ≡ watch.old.keeper.files.now) }
    ensures told { OnOk result (LooksOnRecall P.contents watch.old.teller.course.kinds.now
        watch.old.teller.course.steps
        (call_for recall) manager.old manager.new
        watch.old.teller.progress.now watch.new.teller.progress.now) }
    ensures untold { OnErr result
        (watch.new.teller.progress.now ≡ watch.old.teller.progress.now) }
    ensures same_words { watch.new.keeper.beside ≡ watch.old.keeper.beside }
    ensures same_course { watch.new.teller.course ≡ watch.old.teller.course }
    ensures same_files { watch.new.keeper.files.ghost_name
        ≡ watch.old.keeper.files.ghost_name }
    ensures same_line { watch.new.teller.progress.ghost_name
        ≡ watch.old.teller.progress.ghost_name }
{
    let ends = open_ends(rt, words.ipmb_port, words.smbus_port, words.wait_ms);
    let Some(ends) = ends else {
        return Err(ReportFault::Stopped);
    };
    Ok(recall_over(manager, recall, ends, words.turns, watch))
}

/// What comes of a greeting that failed, before a manager in this phase was told to undo.
fn unfit_to_undo(phase: Phase, fault: GreetFault) -> Result<Reverted, ReportFault>
    ensures { result ≡ left_ungreeted phase fault }
{
    match fault {
        GreetFault::NoLink => Err(ReportFault::Stopped),
        GreetFault::Unanswered(why) => Ok(Reverted::Ungreeted(phase, why)),
    }
}

/// Greets the controller, and has a manager take back what it did, whose plan is over in this phase.
pub(crate) fn undo_over<F: WritesFiles, P: io::Write, R: Net>(
    rt: &R,
    manager: &mut Manager,
    phase: Phase,
    words: &UndoWords,
    greetings: &Greetings,
    watch: &mut RunWatch<F, P>,
) -> Result<Reverted, ReportFault>
    ensures undoes { Undoes F.takes F.renames watch.old.keeper.beside.now greetings.now
        words.now.turns manager.old phase result
        (string_bytes watch.old.keeper.texts.now.last)
        (string_bytes watch.new.keeper.texts.now.last)
        watch.old.keeper.files.now watch.new.keeper.files.now }
    ensures told { MayLookOn P.contents watch.old.teller.course.kinds.now
        watch.old.teller.course.steps Undo manager.old
        watch.old.teller.progress.now watch.new.teller.progress.now }
    ensures same_words { watch.new.keeper.beside ≡ watch.old.keeper.beside }
    ensures same_course { watch.new.teller.course ≡ watch.old.teller.course }
    ensures same_files { watch.new.keeper.files.ghost_name
        ≡ watch.old.keeper.files.ghost_name }
    ensures same_line { watch.new.teller.progress.ghost_name
        ≡ watch.old.teller.progress.ghost_name }
{
    let greeted = greet_first(
        rt,
        greetings,
        words.ipmb_port,
        words.smbus_port,
        words.wait_ms,
        words.turns,
    );
    match greeted {
        Ok(()) => match recall_on(rt, manager, Recall::Undo, words, watch) {
            Ok(end) => Ok(Reverted::Ended(end)),
            Err(why) => Err(why),
        },
        Err(fault) => unfit_to_undo(phase, fault),
    }
}

/// Whether the plan ended or halted, so that it can be taken back.
fn is_over(phase: &Phase) -> bool
    ensures { result ≡ over_in phase.now }
{
    matches!(phase, Phase::Done | Phase::Halted(_, _))
}

/// What comes of a manager that ends in this phase.
fn ended_in(phase: Phase) -> Result<Reverted, ReportFault>
    ensures { result ≡ Ok (Reverted.Ended (Ok phase)) }
{
    Ok(Reverted::Ended(Ok(phase)))
}

/// Goes on with a manager whose open request was settled, and that is in this phase.
fn go_on_in<F: WritesFiles, P: io::Write, R: Net>(
    rt: &R,
    manager: &mut Manager,
    greet: bool,
    phase: Phase,
    words: &UndoWords,
    watch: &mut RunWatch<F, P>,
) -> Result<Reverted, ReportFault>
    ensures goes { GoesOn F.takes F.renames watch.old.keeper.beside.now greet words.now.turns
        manager.old (Ok phase) result (string_bytes watch.old.keeper.texts.now.last)
        (string_bytes watch.new.keeper.texts.now.last)
        watch.old.keeper.files.now watch.new.keeper.files.now }
    ensures told { MayLookOn P.contents watch.old.teller.course.kinds.now
        watch.old.teller.course.steps Undo manager.old
        watch.old.teller.progress.now watch.new.teller.progress.now }
    ensures same_words { watch.new.keeper.beside ≡ watch.old.keeper.beside }
    ensures same_course { watch.new.teller.course ≡ watch.old.teller.course }
    ensures same_files { watch.new.keeper.files.ghost_name
        ≡ watch.old.keeper.files.ghost_name }
    ensures same_line { watch.new.teller.progress.ghost_name
        ≡ watch.old.teller.progress.ghost_name }
{
    if !is_over(&phase) {
        return ended_in(phase);
    }
    let greetings = Greetings::before_undo(greet, manager.undo_list());
    undo_over(rt, manager, phase, words, &greetings, watch)
}

/// Goes on with a manager whose open request was settled to this end.
fn go_on<F: WritesFiles, P: io::Write, R: Net>(
    rt: &R,
    manager: &mut Manager,
    greet: bool,
    end: DriveEnd,
    words: &UndoWords,
    watch: &mut RunWatch<F, P>,
) -> Result<Reverted, ReportFault>
    ensures goes { GoesOn F.takes F.renames watch.old.keeper.beside.now greet words.now.turns
        manager.old end result (string_bytes watch.old.keeper.texts.now.last)
        (string_bytes watch.new.keeper.texts.now.last)
        watch.old.keeper.files.now watch.new.keeper.files.now }
    ensures told { MayLookOn P.contents watch.old.teller.course.kinds.now
        watch.old.teller.course.steps Undo manager.old
        watch.old.teller.progress.now watch.new.teller.progress.now }
    ensures same_words { watch.new.keeper.beside ≡ watch.old.keeper.beside }
    ensures same_course { watch.new.teller.course ≡ watch.old.teller.course }
    ensures same_files { watch.new.keeper.files.ghost_name
        ≡ watch.old.keeper.files.ghost_name }
    ensures same_line { watch.new.teller.progress.ghost_name
        ≡ watch.old.teller.progress.ghost_name }
{
    match end {
        Ok(phase) => go_on_in(rt, manager, greet, phase, words, watch),
        Err(kept) => Ok(Reverted::Ended(Err(kept))),
    }
}

/// Whether no request of a manager is open, so that nothing is settled.
pub fn settles_none(manager: &Manager) -> bool
    ensures { result ≡ settles_none manager.now }
{
    !matches!(manager.journal().stage, KeptStage::Open { .. })
}

/// Whether the controller is greeted before a manager that was made of a journal takes back what it did.
fn greets_behind(words: &UndoWords, manager: &Manager) -> bool
    ensures { result ≡ greets_behind words.now manager.now }
{
    words.greet && settles_none(manager)
}

/// Settles the open request of a manager that was made of a journal, and has it take back what it did. Where it had one the controller isn't greeted:
/// it would forget what it answered, and carry out a late copy of that. Meanwhile its journal is kept, and the line of its progress is written.
fn revert<F: WritesFiles, P: io::Write, R: Net>(
    rt: &R,
    mut manager: Manager,
    words: &UndoWords,
    watch: &mut RunWatch<F, P>,
) -> Result<Reverted, ReportFault>
    ensures reverts { Reverts F.takes F.renames watch.old.keeper.beside.now words.now manager
        result (string_bytes watch.old.keeper.texts.now.last)
        (string_bytes watch.new.keeper.texts.now.last)
        watch.old.keeper.files.now watch.new.keeper.files.now }
    ensures told { LooksOnRevert P.contents watch.old.teller.course.kinds.now
        watch.old.teller.course.steps manager
        watch.old.teller.progress.now watch.new.teller.progress.now }
    ensures same_words { watch.new.keeper.beside ≡ watch.old.keeper.beside }
    ensures same_course { watch.new.teller.course ≡ watch.old.teller.course }
    ensures same_files { watch.new.keeper.files.ghost_name
        ≡ watch.old.keeper.files.ghost_name }
    ensures same_line { watch.new.teller.progress.ghost_name
        ≡ watch.old.teller.progress.ghost_name }
{
    let greet = greets_behind(words, &manager);
    match recall_on(rt, &mut manager, Recall::Settle, words, watch) {
        Ok(end) => go_on(rt, &mut manager, greet, end, words, watch),
        Err(why) => Err(why),
    }
}

// ---- what is said

/// Whether the text begins as that of a journal does.
pub fn is_journal(text: &str) -> bool
    ensures { (result ≡ true) ↔ IsJournal text.now }
{
    behind("journal 1\n", text).is_some()
}

/// What is said of a journal that is refused for this.
fn line_refusal(alloc: Global, line: usize) -> Result<Report, AllocError>
    ensures stream { IfOk result (λ report. report.stream ≡ Error) }
    ensures text { IfOk result (λ report. string_bytes report.text
        ≡ journal_line (AnyFault.Line line)) }
    ensures status { IfOk result (λ report. report.status ≡ RefusedFile) }
{
    let why = JournalTextFault::Line(line);
    let mut text = String::new(alloc);
    writeln!(text, "journal {why}")?;
    Ok(Report::complaint(text, Status::RefusedFile))
}

/// What is said of one whose manager sends a request again more often than any can.
fn retries_refusal(alloc: Global) -> Result<Report, AllocError>
    ensures stream { IfOk result (λ report. report.stream ≡ Error) }
    ensures text { IfOk result (λ report. string_bytes report.text
        ≡ journal_line AnyFault.Retries) }
    ensures status { IfOk result (λ report. report.status ≡ RefusedFile) }
{
    Ok(Report::complaint(
        String::from_str(alloc, "journal Retries\n")?,
        Status::RefusedFile,
    ))
}

/// What is said of the text of a journal that no manager is made of.
fn journal_refusal(alloc: Global, why: ReviveFault) -> Result<Report, ReportFault>
    ensures { ReportTells (SaysJournalFault why) result }
{
    let report = match why {
        ReviveFault::Line(line) => line_refusal(alloc, line),
        ReviveFault::Retries => retries_refusal(alloc),
        ReviveFault::OtherNames => names_refusal(alloc),
        ReviveFault::Memory => return Err(ReportFault::Memory),
    };
    match report {
        Ok(report) => Ok(report),
        Err(AllocError) => Err(ReportFault::Memory),
    }
}

/// What is said of a manager that came to this phase.
fn reached(alloc: Global, strict: bool, phase: Phase) -> Result<Report, ReportFault>
    ensures { ReportTells (SaysPhase phase (undone_status strict phase)) result }
{
    Ok(phase_report(alloc, phase, undone_status(strict, phase))?)
}

/// What is said of a manager that came to this end: its phase, or the file that didn't take the journal.
fn end_report(alloc: Global, words: &UndoWords, end: DriveEnd) -> Result<Report, ReportFault>
    ensures { ReportTells (SaysEnd words.now end) result }
{
    match end {
        Ok(phase) => reached(alloc, words.strict, phase),
        Err(KeptBack) => unmade(alloc, words.undo.as_str()),
    }
}

/// Says what came of a manager whose journal is kept for the file that the words name.
pub(crate) fn say_reverted<W: io::Write, E: io::Write>(
    alloc: Global,
    words: &UndoWords,
    reverted: Result<Reverted, ReportFault>,
    console: &mut Console<W, E>,
) -> u8
    ensures { EndsReverted W.contents E.contents words.now reverted
        console.old console.new result }
{
    match reverted {
        Ok(Reverted::Ended(end)) => end_run(&end_report(alloc, words, end), console),
        Ok(Reverted::Ungreeted(phase, why)) => {
            tell_ungreeted(alloc, phase, why, words.strict, console)
        }
        Err(why) => end_run(&Err(why), console),
    }
}

/// What a journal's undo keeps: the words beside its file, and its texts.
#[derive(Drop)]
struct Kept {
    beside: UndoFiles,
    texts: JournalTexts,
}

/// The words beside a journal's own file, which is one of these.
fn own_files(alloc: Global, held: &UndoFiles) -> Result<UndoFiles, AllocError>
    ensures { IfOk result (IsOwnOf held.now) }
{
    let word = held.undo.as_str();
    if held.is_stream {
        return UndoFiles::of_stream(alloc, word);
    }
    UndoFiles::of_journal(alloc, word)
}

/// That of the journal of this text, and of this manager, in a file that is held.
fn kept_of(
    alloc: Global,
    held: &UndoFiles,
    text: &str,
    manager: &Manager,
) -> Result<Kept, AllocError>
    ensures beside { IfOk result (λ kept. IsOwnOf held.now kept.beside) }
    ensures text { IfOk result (λ kept. string_bytes kept.texts.last ≡ text.now) }
{
    let beside = own_files(alloc, held)?;
    let texts = JournalTexts::of_file(alloc, text, manager)?;
    Ok(Kept { beside, texts })
}

/// How many steps are told of a manager that was made of a journal.
fn steps_of(journal: &JournalView) -> usize
    ensures { result ≡ steps_of (kept_of_view journal.now) }
{
    let steps = journal.steps.len();
    if steps == 0 {
        journal.requests.len()
    } else {
        steps
    }
}

/// Has what the journal of this manager says taken back, while the file that these words are beside keeps it, and the line of its progress is
/// written.
fn revert_told<F: WritesFiles, P: io::Write, R: Net>(
    rt: &R,
    alloc: Global,
    files: &mut F,
    manager: Manager,
    kept: Kept,
    words: &UndoWords,
    progress: &mut Progress<P>,
) -> Result<Reverted, ReportFault>
    ensures reverts { MayRevert F.takes F.renames kept.beside words.now manager result
        (string_bytes kept.texts.last) files.old files.new }
    ensures told { MayTellRevert P.contents manager progress.old progress.new }
{
    let Kept { beside, mut texts } = kept;
    let journal = manager.journal();
    let steps = steps_of(&journal);
    let Ok(kinds) = kinds_of(alloc, journal.steps) else {
        drop(manager);
        return Err(ReportFault::Memory);
    };
    let course = PlanOutline {
        steps,
        kinds: kinds.as_slice(),
    };
    let mut watch = RunWatch {
        keeper: JournalKeeper {
            files,
            beside: &beside,
            texts: &mut texts,
        },
        teller: ProgressWriter {
            alloc,
            progress,
            course,
        },
    };
    let came = revert(rt, manager, words, &mut watch);
    watch.end();
    came
}

/// Has what the journal of this text says taken back, while the file that is held keeps it, and says what came of it, by this word of the file.
pub(crate) fn undo_journal<F: WritesFiles, W: io::Write, E: io::Write, P: io::Write, R: Net>(
    rt: &R,
    alloc: Global,
    files: &mut F,
    held: &UndoFiles,
    text: &str,
    words: &UndoWords,
    progress: &mut Progress<P>,
    console: &mut Console<W, E>,
) -> u8
    ensures ends { JournalEnds W.contents E.contents F.takes F.renames held.now text.now words.now
        files.old files.new console.old console.new result }
    ensures told { TellsJournal P.contents text.now progress.old progress.new }
{
    let manager = match revive_text(alloc, text) {
        Ok(manager) => manager,
        Err(why) => return end_run(&journal_refusal(alloc, why), console),
    };
    match kept_of(alloc, held, text, &manager) {
        Ok(kept) => {
            let reverted = revert_told(rt, alloc, files, manager, kept, words, progress);
            say_reverted(alloc, words, reverted, console)
        }
        Err(AllocError) => {
            drop(manager);
            end_run(&Err(ReportFault::Memory), console)
        }
    }
}
