//! `bmcnet run`: a plan on a controller over UDP.
ghost use Rattle.std.specs.Prelude.{◌≡◌, ◌⊎◌, false, Ok, string_bytes};
ghost use Rattle.app_base.specs.Ending.{RunEnds, ReportTells};
ghost use Rattle.app_run.specs.declared.running.Outcome.TheVariants.{Ran as HasRun};
ghost use Rattle.app_run.specs.Ends.{PrintsNothing, SaysFile, SaysPhase};
ghost use Rattle.app_run.specs.Outcome.{KeepsRan, StaysGreeted, first_fault};
ghost use Rattle.app_run.specs.Told.{TellsFile};
ghost use Rattle.app_run.specs.Run.{EndsBy, EndsUnkept, RunEndsOf};
ghost use Rattle.app_run.specs.Strict.{ran_status};

use crate::greeting::{GreetFault, Unanswered, greet_first};
use crate::kept_run::{Ran, keep, run_over};
use crate::lines::{phase_report, tell_both, tell_ungreeted};
use crate::links::open_ends;
use crate::preparing::{Prepared, Ready, prepare};
use crate::progress::Progress;
use crate::strict::ran_status;
use app_base::{Console, Report, ReportFault, Status, TextFiles, end_run};
use app_journal::{ReviveFault, UndoFiles, WriteFault, WritesFiles};
use std::alloc::Global;
use std::io;
use std::net::Net;
use undo_core::Phase;

/// What the words of `bmcnet run` ask for.
#[derive(Drop)]
pub struct RunWords {
    /// The word of the plan.
    pub plan: String,
    /// The UDP port of the controller's end of IPMB.
    pub ipmb_port: u16,
    /// The UDP port of the end of SMBus.
    pub smbus_port: u16,
    /// How many turns the manager makes.
    pub turns: u32,
    /// The word of the file that gets the undo text.
    pub undo: String,
    /// How many milliseconds of quiet end a turn.
    pub wait_ms: u32,
    /// How often the manager is called again that is unsettled.
    pub again: u32,
    /// How many turns to wait before the run begins.
    pub forget: Option<u32>,
    /// Whether the buses that are used are greeted before the run begins.
    pub greet: bool,
    /// Whether a journal that has something to take back is put aside.
    pub replace: bool,
    /// Whether the status says what came of the plan, and a plan with a key that nothing reads, or without a step, is refused.
    pub strict: bool,
}

/// What came of a run.
#[derive(Clone, Copy)]
pub enum Outcome {
    /// The run left the manager in this phase. Its journal was kept, and where the plan ended or halted its list, or a file can't be written, get its
    /// name or be removed.
    Ran(Phase, Result<(), WriteFault>),
    /// The file of the journal can't be made.
    Unmade,
    /// This greeting wasn't answered, and the manager, in this phase, did nothing.
    Ungreeted(Phase, Unanswered),
}

/// The first of two answers that is a fault.
fn first_fault(
    first: Result<(), WriteFault>,
    last: Result<(), WriteFault>,
) -> Result<(), WriteFault>
    ensures { result ≡ first_fault first last }
{
    match first {
        Ok(()) => last,
        Err(why) => Err(why),
    }
}

/// What comes of a run of which a greeting failed. Its manager did nothing.
fn leave_ungreeted(ready: Ready, fault: GreetFault) -> Result<Outcome, ReportFault>
    ensures { StaysGreeted ready.manager fault result }
{
    let phase = ready.manager.phase();
    drop(ready);
    match fault {
        GreetFault::NoLink => Err(ReportFault::Stopped),
        GreetFault::Unanswered(why) => Ok(Outcome::Ungreeted(phase, why)),
    }
}

/// Says in which phase the manager is, and that its list couldn't be written to the file of this word. Both lines are made before one is
/// written.
pub(crate) fn tell_unkept<W: io::Write, E: io::Write>(
    alloc: Global,
    phase: Phase,
    word: &str,
    console: &mut Console<W, E>,
) -> u8
    ensures { RunEnds W.contents E.contents PrintsNothing console.old console.new result
        ⊎ EndsUnkept W.contents E.contents phase word.now console.old console.new result }
{
    let line = phase_report(alloc, phase, Status::Success);
    let complaint = Report::of_file(alloc, word);
    match (line, complaint) {
        (Ok(line), Ok(complaint)) => tell_both(&line, &complaint, console),
        _ => end_run(&Err(ReportFault::Memory), console),
    }
}

/// What is said of a run that left the manager in this phase.
fn reached(alloc: Global, strict: bool, phase: Phase) -> Result<Report, ReportFault>
    ensures { ReportTells (SaysPhase phase (ran_status strict phase)) result }
{
    Ok(phase_report(alloc, phase, ran_status(strict, phase))?)
}

/// What is said of a file that can't be made, by the word that names the one beside it.
pub(crate) fn unmade(alloc: Global, word: &str) -> Result<Report, ReportFault>
    ensures { ReportTells (SaysFile word.now) result }
{
    Ok(Report::of_file(alloc, word)?)
}

/// Says in which phase a run left the manager, and of its list where that isn't kept, and gives the status.
fn say_ran<W: io::Write, E: io::Write>(
    alloc: Global,
    words: &RunWords,
    phase: Phase,
    kept: Result<(), WriteFault>,
    console: &mut Console<W, E>,
) -> u8
    ensures { EndsBy W.contents E.contents words.now (Ok (HasRun phase kept))
        console.old console.new result }
{
    match kept {
        Ok(()) => end_run(&reached(alloc, words.strict, phase), console),
        Err(WriteFault) => tell_unkept(alloc, phase, words.undo.as_str(), console),
    }
}

/// Says what came of a run, and gives the status.
fn say<W: io::Write, E: io::Write>(
    alloc: Global,
    words: &RunWords,
    outcome: Outcome,
    console: &mut Console<W, E>,
) -> u8
    ensures { EndsBy W.contents E.contents words.now (Ok outcome) console.old console.new result }
{
    match outcome {
        Outcome::Ran(phase, kept) => say_ran(alloc, words, phase, kept, console),
        Outcome::Unmade => end_run(&unmade(alloc, words.undo.as_str()), console),
        Outcome::Ungreeted(phase, why) => {
            tell_ungreeted(alloc, phase, why, words.strict, console)
        }
    }
}

/// Says what came of a run, or that nothing can be said of that, and gives the status.
pub(crate) fn say_outcome<W: io::Write, E: io::Write>(
    alloc: Global,
    words: &RunWords,
    outcome: Result<Outcome, ReportFault>,
    console: &mut Console<W, E>,
) -> u8
    ensures { EndsBy W.contents E.contents words.now outcome console.old console.new result }
{
    match outcome {
        Ok(outcome) => say(alloc, words, outcome, console),
        Err(why) => end_run(&Err(why), console),
    }
}

// ---- a run

/// Keeps the list of a manager that ran a plan, and gives what comes of the run.
fn outcome_of<F: WritesFiles>(
    alloc: Global,
    files: &mut F,
    beside: &UndoFiles,
    came: Result<Ran, ReviveFault>,
) -> Result<Outcome, ReportFault>
    ensures { KeepsRan F.WritesFiles beside.now came result files.old files.new }
{
    let ran = match came {
        Ok(ran) => ran,
        Err(_) => return Err(ReportFault::Memory),
    };
    let last = keep(alloc, files, beside, &ran);
    let Ran {
        manager,
        phase,
        kept,
    } = ran;
    drop(manager);
    match last {
        Ok(last) => Ok(Outcome::Ran(phase, first_fault(kept, last))),
        Err(_) => Err(ReportFault::Memory),
    }
}

/// Runs the plan of the file that the words name, on the controller at their two ports, and writes to standard output in which phase the manager is
/// then. Before anything is done with the file of the word UNDO, and before a link is had, it is held, where the word's links lead, so that one
/// process at a time uses it. Where it can't be held, or the file beside it, `.part`, has something to take back that it hasn't itself, or is no
/// journal, nothing is done. Where the words ask for it, such a `.part` is put aside, and standard error has `aside` and its new name. Of a FIFO or a
/// device nothing is held, and no file lies beside it: it gets the list, and there is no journal.
///
/// Else `.part` is made. It has the manager's journal whenever frames go out, by a writing of `.next` and a renaming wherever that has changed. Where
/// the journal can't be kept, the frames don't go out: a manager is made again of the last text that was put, and is called to try again, for as many
/// turns. Where the plan ended or halted, UNDO gets the list, by `.next` as well, and then `.part` is removed. The phase is said behind that, so that
/// no failed output costs the list. Where the line of its progress is written, that tells of each step and is ended before the phase is said. A write
/// of it that fails costs nothing but the rest of it.
///
/// Where the words ask for it, each bus on which requests of the steps go is greeted before the plan is begun, over links of its own and in as
/// many turns at most. Where a greeting isn't answered nothing is begun: the phase is that of the manager that did nothing, standard error has
/// `no answer on` or `busy on` and the bus behind it, and the status is 0.
///
/// It gives the status: 0, or 3 with `file` or `plan` and the fault on standard error where the plan's file can't be read or holds no plan, also 3
/// with `file` and the word UNDO on standard error where the file can't be claimed, or `.part` can't be made, and behind the phase on standard output
/// where the journal or the undo text can't be kept, or `.part` can't be removed, 4 and no line where a link can't be had, 5 with `memory` on
/// standard error where memory was refused, and 6 where a write to either stream failed.
///
/// With `strict` it is 10 in place of 0 where the plan halted, and 11 where a request is open or unsettled, or a greeting wasn't answered; and 3, with
/// what `bmclab check` tells of it on standard error, where the plan has a key that nothing reads, or no step: then no file is held, and nothing sent.
/// Which records are changed behind it a run can't know, and it undoes nothing, so 12 and 13 are never its status.
pub fn run<F: TextFiles + WritesFiles, W: io::Write, E: io::Write, P: io::Write, R: Net>(
    rt: &R,
    alloc: Global,
    files: &mut F,
    words: &RunWords,
    progress: &mut Progress<P>,
    console: &mut Console<W, E>,
) -> u8
    ensures ends { RunEndsOf W.contents E.contents F.TextFiles F.WritesFiles
        (string_bytes words.now.plan) words.now files.old files.new console.old console.new result }
    ensures told { TellsFile P.contents (F.gives files.old) (string_bytes words.now.plan)
        progress.old progress.new }
    ensures untold { progress.old.on ≡ false → progress.new ≡ progress.old }
{
    let prepared = match prepare(rt, alloc, files, words, console) {
        Ok(prepared) => prepared,
        Err(status) => return status,
    };
    let Prepared { ready, beside } = prepared;
    let greeted = greet_first(
        rt,
        &ready.greetings,
        words.ipmb_port,
        words.smbus_port,
        words.wait_ms,
        words.turns,
    );
    if let Err(fault) = greeted {
        let outcome = leave_ungreeted(ready, fault);
        return say_outcome(alloc, words, outcome, console);
    }
    let ends = open_ends(rt, words.ipmb_port, words.smbus_port, words.wait_ms);
    let Some(ends) = ends else {
        drop(ready);
        return say_outcome(alloc, words, Err(ReportFault::Stopped), console);
    };
    let came = run_over(alloc, files, &beside, ready, ends, words, progress);
    let outcome = outcome_of(alloc, files, &beside, came);
    say_outcome(alloc, words, outcome, console)
}
