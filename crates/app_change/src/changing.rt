//! `bmcnet apply`: a plan's file is read, refused or run, and what came of it is said. With its options of a plan those steps alone are run that
//! change something, and all of it or none.
ghost use Rattle.std.specs.Prelude.{◌≡◌, IfErr, IfOk, false, string_bytes};
ghost use Rattle.app_base.specs.Ending.{RunEnds};
ghost use Rattle.app_apply.specs.Ends.{SaysOn, stream_for};
ghost use Rattle.app_apply.specs.Statuses.{status_of};
ghost use Rattle.app_change.specs.KeepLook.{FailsFor};
ghost use Rattle.app_change.specs.Ends.{AppliesOrNone, AppliesTo, ChangeEndsOf, ChangeEndsOn};
ghost use Rattle.app_change.specs.Ends.{ChangeEndsOver, ChangesBy, ChangesFrom, ChangesKept, ChangesTo};
ghost use Rattle.app_change.specs.Ends.{EndsUnlooked, GoesBack, IsBackOf, IsStatusBehind, LooksFirst, TellsFirst};
ghost use Rattle.app_change.specs.Ends.{is_halted};
ghost use Rattle.app_change.specs.Looks.{KeepsChanges, way_of};

use crate::keep_look::{NamedSteps, keep_by_look};
use crate::keeping::Narrowed;
use crate::looking::{status_unlooked, way_of};
use crate::narrowed_json::{left_out_json, unchanged_json, unlooked_json};
use crate::narrowed_words::{left_out_text, unchanged_text, unlooked_text};
use app_apply::applying::{carry_out, lacks_port, say_on, stream_for, text_for};
use app_apply::refusing::{say_refused, say_unread};
use app_apply::sentences::port_text;
use app_apply::{Applied, ApplyWords, Outcome, Reach, StrictFault, strict_plan};
use app_base::{Console, ReportFault, Status, TextFiles, end_run, text_of};
use app_journal::WritesFiles;
use app_look::LookFault;
use app_revert::{RevertWords, revert};
use app_run::Progress;
use report_words::Names;
use std::alloc::{AllocError, Global};
use std::io;
use std::net::Net;
use undo_core::Phase;
use undo_plans::Plan;

/// What the words of `bmcnet apply` ask for, with its options.
#[derive(Drop)]
pub struct ChangeWords {
    pub apply: ApplyWords,
    /// Whether the controller is looked at first, and those steps alone are carried out that change something.
    pub only_changes: bool,
    /// Whether what was done is taken back at once where the plan halts.
    pub all_or_none: bool,
}

/// A plan, and the names of its sensors and attributes, as far as a look before it told them.
#[derive(Drop)]
struct NamedPlan {
    plan: Plan,
    names: Names,
}

/// The plan of the steps that are kept.
#[derive(Drop)]
struct KeptPlan {
    named: NamedPlan,
    /// The places of the other steps in the whole plan, counted from 0.
    left_out: Vec<usize>,
}

/// What was said of a plan.
#[derive(Clone, Copy)]
struct Told {
    /// The status of that.
    status: u8,
    /// Whether the plan halted.
    halted: bool,
}

// ---- a plan

/// Says this where what came of a plan is said, and gives this status.
fn say_for<W: io::Write, E: io::Write>(
    text: Result<String, AllocError>,
    json: bool,
    status: Status,
    console: &mut Console<W, E>,
) -> u8
    ensures { RunEnds W.contents E.contents (SaysOn (stream_for json) status)
        console.old console.new result }
{
    say_on(text, stream_for(json), status, console)
}

/// Says what came of a plan, as far as these names are known.
fn say_applied<W: io::Write, E: io::Write>(
    alloc: Global,
    words: &ApplyWords,
    applied: &Applied,
    names: &Names,
    console: &mut Console<W, E>,
) -> u8
    ensures { RunEnds W.contents E.contents (SaysOn (stream_for words.now.json)
        (status_of applied.now.outcome)) console.old console.new result }
{
    let status = applied.outcome.status();
    let text = text_for(alloc, words, applied, names);
    say_for(text, words.json, status, console)
}

/// Whether the plan halted.
fn is_halted(outcome: &Outcome) -> bool
    ensures { result ≡ is_halted outcome.now }
{
    matches!(outcome, Outcome::Ended(Phase::Halted(_, _), _))
}

/// Runs a plan, and says what came of it.
fn apply_over<F: TextFiles + WritesFiles, W: io::Write, E: io::Write, P: io::Write, R: Net>(
    rt: &R,
    alloc: Global,
    files: &mut F,
    named: NamedPlan,
    words: &ApplyWords,
    progress: &mut Progress<P>,
    console: &mut Console<W, E>,
) -> Told
    ensures ends { AppliesTo W.contents E.contents F.TextFiles F.WritesFiles named.plan words.now
        result.halted files.old files.new console.old console.new result.status }
    ensures untold { progress.old.on ≡ false → progress.new ≡ progress.old }
{
    let NamedPlan { plan, names } = named;
    match carry_out(rt, alloc, files, plan, words, progress) {
        Ok(applied) => {
            let status = say_applied(alloc, words, &applied, &names, console);
            let halted = is_halted(&applied.outcome);
            Told { status, halted }
        }
        Err(AllocError) => Told {
            status: end_run(&Err(ReportFault::Memory), console),
            halted: false,
        },
    }
}

// ---- all or none

/// What takes back what these words left.
fn words_back(alloc: Global, words: &ApplyWords) -> Result<RevertWords, AllocError>
    ensures { IfOk result (IsBackOf words.now) }
{
    Ok(RevertWords {
        file: String::from_str(alloc, words.file.as_str())?,
        reach: words.reach,
        json: words.json,
    })
}

/// The status of a plan that halted, by that of what took it back.
fn status_behind(reverted: u8) -> u8
    ensures { IsStatusBehind reverted result }
{
    if reverted == u8::from(Status::Success) {
        u8::from(Status::Halted)
    } else {
        reverted
    }
}

/// Takes back what a plan left, where it halted. Else the call ends as it did.
fn go_back<F: TextFiles + WritesFiles, W: io::Write, E: io::Write, P: io::Write, R: Net>(
    rt: &R,
    alloc: Global,
    files: &mut F,
    told: Told,
    back: &RevertWords,
    progress: &mut Progress<P>,
    console: &mut Console<W, E>,
) -> u8
    ensures ends { GoesBack W.contents E.contents F.TextFiles F.WritesFiles
        told.halted back.now told.status files.old files.new
        console.old console.new result }
    ensures untold { progress.old.on ≡ false → progress.new ≡ progress.old }
{
    if told.halted {
        let reverted = revert(rt, alloc, files, back, progress, console);
        status_behind(reverted)
    } else {
        told.status
    }
}

/// Runs a plan, says what came of it, and takes it back where it halted. What would take it back is known before.
fn apply_or_none<F: TextFiles + WritesFiles, W: io::Write, E: io::Write, P: io::Write, R: Net>(
    rt: &R,
    alloc: Global,
    files: &mut F,
    named: NamedPlan,
    words: &ApplyWords,
    progress: &mut Progress<P>,
    console: &mut Console<W, E>,
) -> u8
    ensures ends { AppliesOrNone W.contents E.contents F.TextFiles F.WritesFiles named.plan
        words.now files.old files.new console.old console.new result }
    ensures untold { progress.old.on ≡ false → progress.new ≡ progress.old }
{
    match words_back(alloc, words) {
        Ok(back) => {
            let told = apply_over(rt, alloc, files, named, words, progress, console);
            go_back(rt, alloc, files, told, &back, progress, console)
        }
        Err(AllocError) => {
            drop(named);
            end_run(&Err(ReportFault::Memory), console)
        }
    }
}

/// Runs a plan, all of it or none where that is asked for.
fn change_to<F: TextFiles + WritesFiles, W: io::Write, E: io::Write, P: io::Write, R: Net>(
    rt: &R,
    alloc: Global,
    files: &mut F,
    named: NamedPlan,
    words: &ChangeWords,
    progress: &mut Progress<P>,
    console: &mut Console<W, E>,
) -> u8
    ensures ends { ChangesTo W.contents E.contents F.TextFiles F.WritesFiles named.plan words.now
        files.old files.new console.old console.new result }
    ensures untold { progress.old.on ≡ false → progress.new ≡ progress.old }
{
    if words.all_or_none {
        apply_or_none(rt, alloc, files, named, &words.apply, progress, console)
    } else {
        apply_over(rt, alloc, files, named, &words.apply, progress, console).status
    }
}

// ---- only changes

/// What is said of the steps that are left out.
fn text_left_out(alloc: Global, json: bool, left: &[usize]) -> Result<String, AllocError> {
    if json {
        left_out_json(alloc, left)
    } else {
        left_out_text(alloc, left)
    }
}

/// What is said where no step is kept.
fn text_unchanged(alloc: Global, json: bool, steps: usize) -> Result<String, AllocError> {
    if json {
        unchanged_json(alloc, steps)
    } else {
        unchanged_text(alloc, steps)
    }
}

/// Says which steps are left out, and runs the plan of the others. Where that can't be said nothing is done.
fn change_others<F: TextFiles + WritesFiles, W: io::Write, E: io::Write, P: io::Write, R: Net>(
    rt: &R,
    alloc: Global,
    files: &mut F,
    kept: KeptPlan,
    words: &ChangeWords,
    progress: &mut Progress<P>,
    console: &mut Console<W, E>,
) -> u8
    ensures ends { TellsFirst W.contents E.contents F.TextFiles F.WritesFiles kept.named.plan
        words.now files.old files.new console.old console.new result }
    ensures untold { progress.old.on ≡ false → progress.new ≡ progress.old }
{
    let KeptPlan { named, left_out } = kept;
    let json = words.apply.json;
    let text = text_left_out(alloc, json, left_out.as_slice());
    let first = say_for(text, json, Status::Success, console);
    if first != u8::from(Status::Success) {
        drop(named);
        return first;
    }
    change_to(rt, alloc, files, named, words, progress, console)
}

/// Runs the plan of the kept steps, which are some, of so many steps.
fn change_kept<F: TextFiles + WritesFiles, W: io::Write, E: io::Write, P: io::Write, R: Net>(
    rt: &R,
    alloc: Global,
    files: &mut F,
    kept: KeptPlan,
    steps: usize,
    words: &ChangeWords,
    progress: &mut Progress<P>,
    console: &mut Console<W, E>,
) -> u8
    ensures ends { ChangesKept W.contents E.contents F.TextFiles F.WritesFiles kept.named.plan
        steps words.now files.old files.new console.old console.new result }
    ensures untold { progress.old.on ≡ false → progress.new ≡ progress.old }
{
    if kept.named.plan.steps.len() == steps {
        let KeptPlan { named, .. } = kept;
        return change_to(rt, alloc, files, named, words, progress, console);
    }
    change_others(rt, alloc, files, kept, words, progress, console)
}

/// Runs the plan of the kept steps, of so many. Where there is none, that is said.
fn change_by<F: TextFiles + WritesFiles, W: io::Write, E: io::Write, P: io::Write, R: Net>(
    rt: &R,
    alloc: Global,
    files: &mut F,
    kept: KeptPlan,
    steps: usize,
    words: &ChangeWords,
    progress: &mut Progress<P>,
    console: &mut Console<W, E>,
) -> u8
    ensures ends { ChangesBy W.contents E.contents F.TextFiles F.WritesFiles kept.named.plan
        steps words.now files.old files.new console.old console.new result }
    ensures untold { progress.old.on ≡ false → progress.new ≡ progress.old }
{
    if kept.named.plan.steps.len() == 0 {
        drop(kept);
        let text = text_unchanged(alloc, words.apply.json, steps);
        return say_for(text, words.apply.json, Status::Success, console);
    }
    change_kept(rt, alloc, files, kept, steps, words, progress, console)
}

/// What is said where the look failed.
fn text_unlooked(
    alloc: Global,
    plan: &Plan,
    words: &ApplyWords,
    why: &LookFault,
) -> Result<String, AllocError> {
    if words.json {
        unlooked_json(alloc, plan, why)
    } else {
        unlooked_text(alloc, plan, &words.reach, why)
    }
}

/// Says why the look failed.
fn say_unlooked<W: io::Write, E: io::Write>(
    alloc: Global,
    plan: &Plan,
    words: &ApplyWords,
    why: &LookFault,
    console: &mut Console<W, E>,
) -> u8
    ensures { EndsUnlooked W.contents E.contents words.now.json why.now
        console.old console.new result }
{
    match status_unlooked(why) {
        Some(status) => {
            let text = text_unlooked(alloc, plan, words, why);
            say_for(text, words.json, status, console)
        }
        None => end_run(&Err(ReportFault::Memory), console),
    }
}

/// Looks at the controller, and keeps the steps that change something, with the plan's retries.
fn keep_changes<R: Net>(
    rt: &R,
    alloc: Global,
    plan: &Plan,
    reach: &Reach,
) -> Result<KeptPlan, LookFault>
    ensures kept { IfOk result (λ kept.
        KeepsChanges (way_of plan.now reach.now) plan.now kept.named.plan) }
    ensures fault { IfErr result (FailsFor (way_of plan.now reach.now) plan.now.steps) }
{
    let way = way_of(plan, reach);
    match keep_by_look(rt, alloc, &way, &plan.steps) {
        Ok(steps) => {
            let NamedSteps { narrowed, names } = steps;
            let Narrowed { kept, left_out } = narrowed;
            let plan = Plan {
                steps: kept,
                retries: plan.retries,
            };
            let names = names.unwrap_or(Names::new(alloc));
            let named = NamedPlan { plan, names };
            Ok(KeptPlan { named, left_out })
        }
        Err(why) => Err(why),
    }
}

/// Looks at the controller first, and runs the plan of the steps that change something.
fn look_first<F: TextFiles + WritesFiles, W: io::Write, E: io::Write, P: io::Write, R: Net>(
    rt: &R,
    alloc: Global,
    files: &mut F,
    plan: &Plan,
    words: &ChangeWords,
    progress: &mut Progress<P>,
    console: &mut Console<W, E>,
) -> u8
    ensures ends { LooksFirst W.contents E.contents F.TextFiles F.WritesFiles plan.now words.now
        files.old files.new console.old console.new result }
    ensures untold { progress.old.on ≡ false → progress.new ≡ progress.old }
{
    match keep_changes(rt, alloc, plan, &words.apply.reach) {
        Ok(kept) => {
            let steps = plan.steps.len();
            change_by(rt, alloc, files, kept, steps, words, progress, console)
        }
        Err(why) => say_unlooked(alloc, plan, &words.apply, &why, console),
    }
}

// ---- a plan's file

/// Runs a plan by the options.
fn change_from<F: TextFiles + WritesFiles, W: io::Write, E: io::Write, P: io::Write, R: Net>(
    rt: &R,
    alloc: Global,
    files: &mut F,
    plan: Plan,
    words: &ChangeWords,
    progress: &mut Progress<P>,
    console: &mut Console<W, E>,
) -> u8
    ensures ends { ChangesFrom W.contents E.contents F.TextFiles F.WritesFiles plan words.now
        files.old files.new console.old console.new result }
    ensures untold { progress.old.on ≡ false → progress.new ≡ progress.old }
{
    if words.only_changes {
        look_first(rt, alloc, files, &plan, words, progress, console)
    } else {
        let names = Names::new(alloc);
        let named = NamedPlan { plan, names };
        change_to(rt, alloc, files, named, words, progress, console)
    }
}

/// Runs a plan that is taken, where the ports that it needs are known.
fn change_over<F: TextFiles + WritesFiles, W: io::Write, E: io::Write, P: io::Write, R: Net>(
    rt: &R,
    alloc: Global,
    files: &mut F,
    plan: Plan,
    words: &ChangeWords,
    progress: &mut Progress<P>,
    console: &mut Console<W, E>,
) -> u8
    ensures ends { ChangeEndsOver W.contents E.contents F.TextFiles F.WritesFiles plan words.now
        files.old files.new console.old console.new result }
    ensures untold { progress.old.on ≡ false → progress.new ≡ progress.old }
{
    if lacks_port(&plan, &words.apply.reach) {
        drop(plan);
        let why = port_text(alloc, "the plan");
        return say_refused(alloc, words.apply.json, why, Status::RefusedWords, console);
    }
    change_from(rt, alloc, files, plan, words, progress, console)
}

/// Runs the plan of this text.
fn change_on<F: TextFiles + WritesFiles, W: io::Write, E: io::Write, P: io::Write, R: Net>(
    rt: &R,
    alloc: Global,
    files: &mut F,
    text: &str,
    words: &ChangeWords,
    progress: &mut Progress<P>,
    console: &mut Console<W, E>,
) -> u8
    ensures ends { ChangeEndsOn W.contents E.contents F.TextFiles F.WritesFiles
        text.now words.now files.old files.new console.old console.new result }
    ensures untold { progress.old.on ≡ false → progress.new ≡ progress.old }
{
    match strict_plan(alloc, words.apply.plan.as_str(), text) {
        Ok(plan) => change_over(rt, alloc, files, plan, words, progress, console),
        Err(StrictFault::Memory) => end_run(&Err(ReportFault::Memory), console),
        Err(StrictFault::Refused(why)) => say_refused(
            alloc,
            words.apply.json,
            Ok(why),
            Status::RefusedFile,
            console,
        ),
    }
}

/// Runs the plan of the file that the words name, by their options.
pub fn change<F: TextFiles + WritesFiles, W: io::Write, E: io::Write, P: io::Write, R: Net>(
    rt: &R,
    alloc: Global,
    files: &mut F,
    words: &ChangeWords,
    progress: &mut Progress<P>,
    console: &mut Console<W, E>,
) -> u8
    ensures ends { ChangeEndsOf W.contents E.contents F.TextFiles F.WritesFiles
        (string_bytes words.now.apply.plan) words.now files.old files.new
        console.old console.new result }
    ensures untold { progress.old.on ≡ false → progress.new ≡ progress.old }
{
    match text_of(&*files, words.apply.plan.as_str()) {
        Ok(text) => change_on(rt, alloc, files, text.as_str(), words, progress, console),
        Err(unread) => say_unread(alloc, words.apply.json, &unread, console),
    }
}
