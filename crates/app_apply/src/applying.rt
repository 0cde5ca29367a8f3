//! A plan is run on a controller, and FILE has at each moment what takes it back.
ghost use Rattle.std.specs.Prelude.{◌≡◌, IfOk, OnErr, false, true, string_bytes};
ghost use Rattle.app_base.specs.Ending.{RunEnds};
ghost use Rattle.app_run.specs.Driven.{is_over as over_in};
ghost use Rattle.app_apply.specs.Apply.{ApplyEnd, Begins, BeginsIn, Ends, GoesGreeted, KeepsList};
ghost use Rattle.app_apply.specs.Apply.{IsUnmade, MayRun, NeverSettles, Settles};
ghost use Rattle.app_apply.specs.Apply.{first_fault, ungreeted_by};
ghost use Rattle.app_apply.specs.Ends.{SaysOn, SaysWith, lacks_port, stream_for};

use crate::applied_json::apply_json;
use crate::applied_words::apply_text;
use crate::driving::Calling;
use crate::guarding::{Guard, Guarded, take_file};
use crate::kept_calls::{MOST_TURNS, Reach, call_on};
use crate::outcome::Outcome;
use app_base::{Console, Report, ReportFault, Status, Stream, TextFiles, end_run};
use app_journal::{JournalKeeper, UndoFiles, WriteFault, WritesFiles};
use app_run::{
    GreetFault, PlanOutline, Progress, ProgressWriter, Ready, RunWatch, greet_first, make_ready,
    revive_last, steps_use,
};
use bmc_ports::KeptBack;
use report_words::Names;
use std::alloc::{AllocError, Global};
use std::io;
use std::net::Net;
use two_wire::Bus;
use undo_core::{Manager, Phase};
use undo_plans::Plan;

/// What the words of `bmcnet apply` ask for.
#[derive(Drop)]
pub struct ApplyWords {
    /// The word of the plan.
    pub plan: String,
    /// The word of FILE, which gets what takes the plan back.
    pub file: String,
    /// Whether FILE is put aside where it has something to take back.
    pub replace: bool,
    /// Where the controller is.
    pub reach: Reach,
    /// Whether what came of the plan is said as an object in a line of standard output.
    pub json: bool,
}

/// A manager that ran its plan: its phase, and whether its journal was kept at each look.
#[derive(Clone, Copy)]
struct Ran {
    phase: Phase,
    kept: Result<(), WriteFault>,
}

/// What came of a plan: the manager, and the word under which lies now what FILE had.
#[derive(Drop)]
pub struct Applied {
    pub manager: Manager,
    pub outcome: Outcome,
    pub aside: Option<String>,
}

/// Has the manager that is made of the last text of the journal settle what is open, while its journal is kept. It takes the place of the one whose
/// journal couldn't be.
fn settle<F: WritesFiles, P: io::Write, R: Net>(
    rt: &R,
    alloc: Global,
    manager: &mut Manager,
    reach: &Reach,
    watch: &mut RunWatch<F, P>,
) -> Result<(), AllocError>
    ensures settles { IfOk result (λ done. Settles F.WritesFiles watch.old.keeper.beside.now
        reach.now.again manager.new
        (string_bytes watch.old.keeper.texts.now.last)
        (string_bytes watch.new.keeper.texts.now.last)
        watch.old.keeper.files.now watch.new.keeper.files.now) }
    ensures fault { OnErr result (IsUnmade (string_bytes watch.old.keeper.texts.now.last)) }
    ensures same { OnErr result (watch.new.keeper.files.now ≡ watch.old.keeper.files.now) }
    ensures untold { watch.old.teller.progress.now.on ≡ false
        → watch.new.teller.progress.now ≡ watch.old.teller.progress.now }
    ensures same_words { watch.new.keeper.beside ≡ watch.old.keeper.beside }
    ensures same_files { watch.new.keeper.files.ghost_name ≡ watch.old.keeper.files.ghost_name }
    ensures same_line { watch.new.teller.progress.ghost_name
        ≡ watch.old.teller.progress.ghost_name }
{
    match revive_last(alloc, &watch.keeper) {
        Ok(revived) => *manager = revived,
        Err(_) => return Err(AllocError),
    }
    let _end = call_on(rt, manager, Calling::Settle, reach, watch);
    Ok(())
}

/// Begins a manager's plan, and drives it. Where its journal can't be kept, the manager that is made of the last text of that takes its place, and
/// settles what is open. It gives nothing where a link can't be had.
fn run_out<F: WritesFiles, P: io::Write, R: Net>(
    rt: &R,
    alloc: Global,
    manager: &mut Manager,
    reach: &Reach,
    watch: &mut RunWatch<F, P>,
) -> Result<Option<Ran>, AllocError>
    ensures runs { IfOk result (MayRun F.WritesFiles watch.old.keeper.beside.now
        reach.now.again manager.old manager.new
        (string_bytes watch.old.keeper.texts.now.last)
        (string_bytes watch.new.keeper.texts.now.last)
        watch.old.keeper.files.now watch.new.keeper.files.now) }
    ensures refused { OnErr result (NeverSettles F.WritesFiles watch.old.keeper.beside.now
        reach.now.again manager.old (string_bytes watch.old.keeper.texts.now.last)
        watch.old.keeper.files.now watch.new.keeper.files.now) }
    ensures untold { watch.old.teller.progress.now.on ≡ false
        → watch.new.teller.progress.now ≡ watch.old.teller.progress.now }
    ensures same_words { watch.new.keeper.beside ≡ watch.old.keeper.beside }
    ensures same_files { watch.new.keeper.files.ghost_name ≡ watch.old.keeper.files.ghost_name }
    ensures same_line { watch.new.teller.progress.ghost_name
        ≡ watch.old.teller.progress.ghost_name }
{
    match call_on(rt, manager, Calling::Start, reach, watch) {
        None => Ok(None),
        Some(Ok(phase)) => Ok(Some(Ran {
            phase,
            kept: Ok(()),
        })),
        Some(Err(KeptBack)) => {
            settle(rt, alloc, manager, reach, watch)?;
            Ok(Some(Ran {
                phase: manager.phase(),
                kept: Err(WriteFault),
            }))
        }
    }
}

/// Whether the plan ended or halted.
pub(crate) fn is_over(phase: Phase) -> bool
    ensures { result ≡ over_in phase }
{
    matches!(phase, Phase::Done | Phase::Halted(_, _))
}

/// Has FILE get the undo text of the manager's list, where the plan ended or halted.
fn keep_list<F: WritesFiles>(
    alloc: Global,
    keeper: &mut JournalKeeper<F>,
    manager: &Manager,
    phase: Phase,
) -> Result<Result<(), WriteFault>, AllocError>
    ensures kept { IfOk result (λ answer. KeepsList F.WritesFiles keeper.old.beside.now
        (over_in phase) manager.now keeper.old.files.now answer keeper.new.files.now) }
    ensures memory { OnErr result ((over_in phase ≡ true)
        × (keeper.new.files.now ≡ keeper.old.files.now)) }
    ensures same_files { keeper.new.files.ghost_name ≡ keeper.old.files.ghost_name }
{
    if !is_over(phase) {
        return Ok(Ok(()));
    }
    let list = manager.undo_list();
    keeper.beside.put_undo(alloc, keeper.files, list)
}

/// The first of two answers that is a fault.
fn first_fault(
    first: Result<(), WriteFault>,
    last: Result<(), WriteFault>,
) -> Result<(), WriteFault>
    ensures { result ≡ first_fault first last }
{
    match first {
        Ok(()) => last,
        Err(why) => Err(why),
    }
}

/// Has a manager run its plan, and FILE get its list, while these look at it.
fn run_and_keep<F: WritesFiles, P: io::Write, R: Net>(
    rt: &R,
    alloc: Global,
    manager: &mut Manager,
    reach: &Reach,
    watch: &mut RunWatch<F, P>,
) -> Result<Outcome, AllocError>
    ensures ends { Ends F.WritesFiles watch.old.keeper.beside.now reach.now.again
        manager.old manager.new (string_bytes watch.old.keeper.texts.now.last) result
        watch.old.keeper.files.now watch.new.keeper.files.now }
    ensures untold { watch.old.teller.progress.now.on ≡ false
        → watch.new.teller.progress.now ≡ watch.old.teller.progress.now }
    ensures same_files { watch.new.keeper.files.ghost_name ≡ watch.old.keeper.files.ghost_name }
    ensures same_line { watch.new.teller.progress.ghost_name
        ≡ watch.old.teller.progress.ghost_name }
{
    let Some(ran) = run_out(rt, alloc, manager, reach, watch)? else {
        return Ok(Outcome::NoLink);
    };
    let last = keep_list(alloc, &mut watch.keeper, &*manager, ran.phase)?;
    Ok(Outcome::Ended(ran.phase, first_fault(ran.kept, last)))
}

/// The same of a manager that is ready, while its journal is kept in the file that these words are beside.
fn run_kept<F: WritesFiles, P: io::Write, R: Net>(
    rt: &R,
    alloc: Global,
    files: &mut F,
    beside: &UndoFiles,
    ready: &mut Ready,
    reach: &Reach,
    progress: &mut Progress<P>,
) -> Result<Outcome, AllocError>
    ensures ends { Ends F.WritesFiles beside.now reach.now.again
        ready.old.manager ready.new.manager
        (string_bytes ready.old.texts.last) result files.old files.new }
    ensures untold { progress.old.on ≡ false → progress.new ≡ progress.old }
{
    let kinds = ready.kinds.as_slice();
    let mut watch = RunWatch {
        keeper: JournalKeeper {
            files,
            beside: &*beside,
            texts: &mut ready.texts,
        },
        teller: ProgressWriter {
            alloc,
            progress,
            course: PlanOutline {
                steps: kinds.len(),
                kinds,
            },
        },
    };
    run_and_keep(rt, alloc, &mut ready.manager, reach, &mut watch)
}

/// What comes of a greeting that failed.
pub fn ungreeted(fault: GreetFault) -> Outcome
    ensures { result ≡ ungreeted_by fault }
{
    match fault {
        GreetFault::NoLink => Outcome::NoLink,
        GreetFault::Unanswered(why) => Outcome::Ungreeted(why),
    }
}

/// Greets the controller on each bus that the plan uses. Where each greeting was answered, the manager runs its plan, and FILE gets its list.
fn greet_and_run<F: WritesFiles, P: io::Write, R: Net>(
    rt: &R,
    alloc: Global,
    files: &mut F,
    beside: &UndoFiles,
    ready: &mut Ready,
    reach: &Reach,
    progress: &mut Progress<P>,
) -> Result<Outcome, AllocError>
    ensures goes { GoesGreeted F.WritesFiles beside.now ready.old.greetings reach.now.again
        ready.old.manager ready.new.manager
        (string_bytes ready.old.texts.last) result files.old files.new }
    ensures untold { progress.old.on ≡ false → progress.new ≡ progress.old }
{
    let greeted = greet_first(
        rt,
        &ready.greetings,
        reach.ipmb_port,
        reach.smbus_or_none(),
        reach.wait_ms,
        MOST_TURNS,
    );
    match greeted {
        Ok(()) => run_kept(rt, alloc, files, beside, ready, reach, progress),
        Err(fault) => Ok(ungreeted(fault)),
    }
}

/// Has FILE get the journal of a manager that did nothing, before anything is sent.
fn begin<F: WritesFiles, P: io::Write, R: Net>(
    rt: &R,
    alloc: Global,
    files: &mut F,
    beside: &UndoFiles,
    ready: &mut Ready,
    reach: &Reach,
    progress: &mut Progress<P>,
) -> Result<Outcome, AllocError>
    ensures begins { Begins F.WritesFiles beside.now ready.old.greetings reach.now.again
        ready.old.manager ready.new.manager
        (string_bytes ready.old.texts.last) result files.old files.new }
    ensures untold { progress.old.on ≡ false → progress.new ≡ progress.old }
{
    match beside.put(files, ready.texts.last.as_str()) {
        Ok(()) => greet_and_run(rt, alloc, files, beside, ready, reach, progress),
        Err(WriteFault) => Ok(Outcome::Unmade),
    }
}

/// The manager of a plan that came to its end, and what came of it.
fn applied_as(ready: Ready, outcome: Outcome, aside: Option<String>) -> Applied
    ensures manager { result.manager ≡ ready.manager }
    ensures outcome { result.outcome ≡ outcome }
    ensures aside { result.aside ≡ aside }
{
    let Ready {
        manager,
        kinds,
        greetings: _,
        texts,
    } = ready;
    drop(kinds);
    drop(texts);
    Applied {
        manager,
        outcome,
        aside,
    }
}

/// The same of a manager that is ready, for which FILE is taken.
fn begin_ready<F: WritesFiles, P: io::Write, R: Net>(
    rt: &R,
    alloc: Global,
    files: &mut F,
    guarded: Guarded,
    mut ready: Ready,
    reach: &Reach,
    progress: &mut Progress<P>,
) -> Result<Applied, AllocError>
    ensures begins { BeginsIn F.WritesFiles ready.greetings reach.now.again ready.manager
        (string_bytes ready.texts.last) guarded result files.old files.new }
    ensures untold { progress.old.on ≡ false → progress.new ≡ progress.old }
{
    let Guarded { beside, aside } = guarded;
    match begin(rt, alloc, files, &beside, &mut ready, reach, progress) {
        Ok(outcome) => Ok(applied_as(ready, outcome, aside)),
        Err(why) => Err(why),
    }
}

/// Takes FILE, and has a manager run the plan.
pub fn carry_out<F: TextFiles + WritesFiles, P: io::Write, R: Net>(
    rt: &R,
    alloc: Global,
    files: &mut F,
    plan: Plan,
    words: &ApplyWords,
    progress: &mut Progress<P>,
) -> Result<Applied, AllocError>
    ensures comes { ApplyEnd F.TextFiles F.WritesFiles plan words.now result files.old files.new }
    ensures untold { progress.old.on ≡ false → progress.new ≡ progress.old }
{
    let ready = make_ready(alloc, plan, true)?;
    match take_file(alloc, files, words.file.as_str(), words.replace)? {
        Guard::Taken(guarded) => begin_ready(
            rt,
            alloc,
            files,
            guarded,
            ready,
            &words.reach,
            progress,
        ),
        Guard::Held => Ok(applied_as(ready, Outcome::Held, None)),
        Guard::Occupied(standing) => Ok(applied_as(ready, Outcome::Occupied(standing), None)),
    }
}

/// Says this on the stream, and gives this status.
pub fn say_on<W: io::Write, E: io::Write>(
    text: Result<String, AllocError>,
    stream: Stream,
    status: Status,
    console: &mut Console<W, E>,
) -> u8
    ensures { RunEnds W.contents E.contents (SaysOn stream status)
        console.old console.new result }
{
    match text {
        Ok(text) => {
            let report = Report {
                stream,
                text,
                status,
            };
            end_run(&Ok(report), console)
        }
        Err(AllocError) => end_run(&Err(ReportFault::Memory), console),
    }
}

/// Says on standard error this, and gives this status.
pub fn say<W: io::Write, E: io::Write>(
    text: Result<String, AllocError>,
    status: Status,
    console: &mut Console<W, E>,
) -> u8
    ensures { RunEnds W.contents E.contents (SaysWith status) console.old console.new result }
{
    say_on(text, Stream::Error, status, console)
}

/// Where it is said what came of a plan: on standard output as an object, or else on standard error.
pub fn stream_for(json: bool) -> Stream
    ensures { result ≡ stream_for json }
{
    if json { Stream::Output } else { Stream::Error }
}

/// What is said of a plan, as far as these names are known: an object, or else a sentence.
pub fn text_for(
    alloc: Global,
    words: &ApplyWords,
    applied: &Applied,
    names: &Names,
) -> Result<String, AllocError> {
    if words.json {
        apply_json(alloc, words, applied, names)
    } else {
        apply_text(alloc, words, applied, names)
    }
}

/// Whether requests of the plan go on SMBus, and no port of that is known.
pub fn lacks_port(plan: &Plan, reach: &Reach) -> bool
    ensures { result ≡ lacks_port plan.now reach.now }
{
    reach.smbus_port.is_none() && steps_use(&plan.steps, Bus::Smbus)
}
