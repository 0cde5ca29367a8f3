//! What is ready before a manager runs its plan: the plan, the files, and the first journal.
ghost use Rattle.std.specs.Prelude.{◌≡◌, ℕ, Bool, false, List, IfOk, IfErr, OnOk, Ok, Err, map, string_bytes};
ghost use Rattle.plan_file.specs.Kinds.{kind_of};
ghost use Rattle.plan_file.specs.PlanHolds.{ReadsPlan};
ghost use Rattle.model_lab.specs.Meaning.{lab_names};
ghost use Rattle.undo_core.specs.Shown.{Represents};
ghost use Rattle.app_base.specs.declared.console.Stream.TheVariants.{Error};
ghost use Rattle.app_base.specs.declared.status.Status.TheVariants.{Success};
ghost use Rattle.app_base.specs.Ending.{ReportTells, RunEnds};
ghost use Rattle.app_journal.specs.declared.claiming.Claim.TheVariants as claim;
ghost use Rattle.app_journal.specs.Keeping.{IsJournalText};
ghost use Rattle.app_run.specs.Driven.{opened_with};
ghost use Rattle.app_run.specs.Greeted.{greetings_before_run};
ghost use Rattle.app_run.specs.Lines.{aside_line};
ghost use Rattle.app_run.specs.Outcome.{RunEnd};
ghost use Rattle.app_run.specs.Prepared.{EndsPlanless, EndsUnclaimed, HasPlan, IsMade, IsPrepared};
ghost use Rattle.app_run.specs.Run.{AsideIsTold, ClaimsFor, RunEndsOf, SaysFault, TellsAside};
ghost use Rattle.app_run.specs.Strict.{SaysRefused, is_refused};

use crate::driven::open_manager;
use crate::greeting::Greetings;
use crate::lines::plan_refusal;
use crate::links::sit_out;
use crate::progress::kinds_of;
use crate::running::{Outcome, RunWords, say_outcome, unmade};
use crate::strict::refusal_of;
use app_base::files::refuse;
use app_base::{Console, Ending, Report, ReportFault, Status, TextFiles, end_run, text_of};
use app_journal::{Claim, JournalTexts, Taken, UndoFiles, WriteFault, WritesFiles, claim_files};
use plan_file::{Kind, PlanFault, read_plan};
use std::alloc::{AllocError, Global};
use std::io;
use std::net::Net;
use undo_core::Manager;
use undo_plans::Plan;

/// A manager of a plan, the kinds of the plan's steps, the greetings before it is called, and the texts of its journal.
#[derive(Drop)]
pub struct Ready {
    pub manager: Manager,
    pub kinds: Vec<Kind>,
    pub greetings: Greetings,
    pub texts: JournalTexts,
}

/// One whose journal has its file, beside the one of the undo text.
#[derive(Drop)]
pub(crate) struct Prepared {
    pub ready: Ready,
    pub beside: UndoFiles,
}

// ---- the plan

/// What is said of a text that is no plan.
fn refusal(alloc: Global, why: PlanFault) -> Result<Report, ReportFault>
    ensures { (strict : Bool) (text : List ℕ) → ReadsPlan text (Err why)
        → ReportTells (SaysFault strict text) result }
{
    Ok(plan_refusal(alloc, why)?)
}

/// A plan that was read of this text; or the status of a strict run that refuses it, once that is said.
fn fit_plan<W: io::Write, E: io::Write>(
    alloc: Global,
    words: &RunWords,
    text: &str,
    plan: Plan,
    console: &mut Console<W, E>,
) -> Result<Plan, u8>
    ensures same { IfOk result (λ fit. fit ≡ plan) }
    ensures fits { OnOk result (is_refused words.now.strict text.now plan ≡ false) }
    ensures untold { OnOk result (console.new ≡ console.old) }
    ensures refused { IfErr result (RunEnds W.contents E.contents
        (SaysRefused (is_refused words.now.strict text.now plan)) console.old console.new) }
{
    match refusal_of(alloc, words, text, &plan) {
        Ok(None) => Ok(plan),
        Ok(Some(report)) => {
            drop(plan);
            Err(end_run(&Ok(report), console))
        }
        Err(AllocError) => {
            drop(plan);
            Err(end_run(&Err(ReportFault::Memory), console))
        }
    }
}

/// The plan of the file that the words name; or the status of a run that has none, or refuses it strictly, once that is said.
fn plan_in<F: TextFiles, W: io::Write, E: io::Write>(
    alloc: Global,
    files: &F,
    words: &RunWords,
    console: &mut Console<W, E>,
) -> Result<Plan, u8>
    ensures has { IfOk result (HasPlan (F.gives files.now) words.now) }
    ensures untold { OnOk result (console.new ≡ console.old) }
    ensures planless { IfErr result (EndsPlanless W.contents E.contents (F.gives files.now)
        words.now console.old console.new) }
{
    let text = match text_of(files, words.plan.as_str()) {
        Ok(text) => text,
        Err(unread) => return Err(refuse(alloc, &unread, console)),
    };
    match read_plan(alloc, text.as_str()) {
        Ok(plan) => fit_plan(alloc, words, text.as_str(), plan, console),
        Err(PlanFault::Memory) => Err(end_run(&Err(ReportFault::Memory), console)),
        Err(why) => Err(end_run(&refusal(alloc, why), console)),
    }
}

// ---- the files

/// What is said of a journal that was put aside: the word that names it now.
fn aside_report(alloc: Global, name: &str) -> Result<Report, AllocError>
    ensures stream { IfOk result (λ report. report.stream ≡ Error) }
    ensures text { IfOk result (λ report. string_bytes report.text ≡ aside_line name.now) }
    ensures status { IfOk result (λ report. report.status ≡ Success) }
{
    let mut text = String::new(alloc);
    writeln!(text, "aside {name}")?;
    Ok(Report::complaint(text, Status::Success))
}

/// Says what was put aside, if something was, and gives the status.
fn tell_aside<W: io::Write, E: io::Write>(
    alloc: Global,
    aside: &Option<String>,
    console: &mut Console<W, E>,
) -> Status
    ensures { AsideIsTold W.contents E.contents aside.now console.old console.new result }
{
    match aside {
        None => Status::Success,
        Some(name) => Ending::of(&aside_report(alloc, name.as_str())).write(console),
    }
}

/// Claims the files of the undo text, and says what was put aside; or gives the status of a run that doesn't get them.
fn claimed<F: TextFiles + WritesFiles, W: io::Write, E: io::Write>(
    alloc: Global,
    files: &mut F,
    words: &RunWords,
    console: &mut Console<W, E>,
) -> Result<Taken, u8>
    ensures claims { IfOk result (λ taken. ClaimsFor F.TextFiles F.WritesFiles words.now
        (Ok (claim.Taken taken)) files.old files.new) }
    ensures told { IfOk result (λ taken. TellsAside W.contents E.contents taken.aside
        console.old console.new) }
    ensures unclaimed { IfErr result (EndsUnclaimed W.contents E.contents F.TextFiles F.WritesFiles
        words.now files.old files.new console.old console.new) }
{
    let word = words.undo.as_str();
    let taken = match claim_files(alloc, files, word, words.replace) {
        Ok(Claim::Taken(taken)) => taken,
        Ok(Claim::Refused) => return Err(end_run(&unmade(alloc, word), console)),
        Err(AllocError) => return Err(end_run(&Err(ReportFault::Memory), console)),
    };
    match tell_aside(alloc, &taken.aside, console) {
        Status::Success => Ok(taken),
        status => {
            drop(taken);
            Err(u8::from(status))
        }
    }
}

// ---- the first journal

/// A manager of this plan, that is ready to begin, and whether the controller is greeted before.
pub fn make_ready(alloc: Global, plan: Plan, greet: bool) -> Result<Ready, AllocError>
    ensures manager { IfOk result (λ ready.
        Represents lab_names ready.manager (opened_with plan)) }
    ensures kinds { IfOk result (λ ready. ready.kinds.items ≡ map kind_of plan.steps) }
    ensures greetings { IfOk result (λ ready. ready.greetings ≡ greetings_before_run greet plan) }
    ensures text { IfOk result (λ ready.
        IsJournalText (string_bytes ready.texts.last) ready.manager) }
{
    let greetings = Greetings::before_run(greet, &plan);
    let kinds = match kinds_of(alloc, &plan.steps) {
        Ok(kinds) => kinds,
        Err(why) => {
            drop(plan);
            return Err(why);
        }
    };
    let manager = match open_manager(alloc, plan) {
        Ok(manager) => manager,
        Err(why) => {
            drop(kinds);
            return Err(why);
        }
    };
    match JournalTexts::of(alloc, &manager) {
        Ok(texts) => Ok(Ready {
            manager,
            kinds,
            greetings,
            texts,
        }),
        Err(why) => {
            drop(kinds);
            drop(manager);
            Err(why)
        }
    }
}

/// Makes the file of the journal, with that of a manager of this plan that did nothing; or gives what comes of a run for which it isn't made.
fn made<F: WritesFiles>(
    alloc: Global,
    files: &mut F,
    plan: Plan,
    beside: UndoFiles,
    words: &RunWords,
) -> Result<Prepared, Result<Outcome, ReportFault>>
    ensures made { IfOk result (λ prepared.
        IsMade F.WritesFiles plan beside words.now prepared files.old files.new) }
    ensures unmade { IfErr result (λ outcome.
        RunEnd F.WritesFiles plan beside words.now outcome files.old files.new) }
{
    let Ok(ready) = make_ready(alloc, plan, words.greet) else {
        drop(beside);
        return Err(Err(ReportFault::Memory));
    };
    match beside.put(files, ready.texts.last.as_str()) {
        Ok(()) => Ok(Prepared { ready, beside }),
        Err(WriteFault) => {
            drop(ready);
            drop(beside);
            Err(Ok(Outcome::Unmade))
        }
    }
}

/// Lets go by the turns that the words ask for before a run. It gives whether it could.
fn wait_first<R: Net>(rt: &R, words: &RunWords) -> bool {
    let Some(turns) = words.forget else {
        return true;
    };
    match sit_out(rt, words.wait_ms, turns) {
        Ok(()) => true,
        Err(_) => false,
    }
}

/// Makes all ready that a run needs before it has links: the plan is read, the files are claimed, and that of the journal is made. Then it lets go by
/// the turns that the words ask for. Or it gives the status of a run that ends before, once what is to say of that is said.
pub(crate) fn prepare<F: TextFiles + WritesFiles, W: io::Write, E: io::Write, R: Net>(
    rt: &R,
    alloc: Global,
    files: &mut F,
    words: &RunWords,
    console: &mut Console<W, E>,
) -> Result<Prepared, u8>
    ensures prepared { IfOk result (λ prepared. IsPrepared W.contents E.contents
        F.TextFiles F.WritesFiles words.now prepared files.old files.new console.old console.new) }
    ensures ends { IfErr result (RunEndsOf W.contents E.contents F.TextFiles F.WritesFiles
        (string_bytes words.now.plan) words.now files.old files.new console.old console.new) }
{
    let plan = match plan_in(alloc, &*files, words, console) {
        Ok(plan) => plan,
        Err(status) => return Err(status),
    };
    let taken = match claimed(alloc, files, words, console) {
        Ok(taken) => taken,
        Err(status) => {
            drop(plan);
            return Err(status);
        }
    };
    let Taken { beside, aside } = taken;
    drop(aside);
    let prepared = match made(alloc, files, plan, beside, words) {
        Ok(prepared) => prepared,
        Err(outcome) => return Err(say_outcome(alloc, words, outcome, console)),
    };
    if !wait_first(rt, words) {
        drop(prepared);
        return Err(say_outcome(alloc, words, Err(ReportFault::Stopped), console));
    }
    Ok(prepared)
}
