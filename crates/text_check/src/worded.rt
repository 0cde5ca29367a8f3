//! What is told of a text in words: what the steps of a plan do, and what the requests that undo them put back.
ghost use Rattle.std.specs.Prelude.{◌≡◌, ◌≢◌, ◌++◌, ◌≤◌, OnOk, length, string_bytes};
ghost use Rattle.text_lines.specs.Cuts.{ended};
ghost use Rattle.undo_plans.specs.Journals.{kept_in};
ghost use Rattle.record_words.specs.RequestWords.{undo_words_of};
ghost use Rattle.text_check.specs.Telling.{Tells};
ghost use Rattle.text_check.specs.Worded.{AreJournalLines, AreStepLines, AreUndoLines, AreWords, step_line, undo_line};

use crate::staged::{left_at, push_stage, push_waiting};
use crate::text_form::TextForm;
use file_faults::Source;
use plan_file::{PlanFault, read_plan};
use record_base::Op;
use record_words::{UndoInWords, Way, op_in_words, undo_in_words};
use std::alloc::{AllocError, Global};
use text_journal::{JournalTextFault, read_journal};
use text_lines::{UndoFault, read_undo};
use undo_plans::{Contents, Requests, Steps};

/// Adds the line of a step of this place.
fn push_step(text: &mut String, name: &str, step: usize, op: &Op<'_>) -> Result<(), AllocError>
    ensures { OnOk result (string_bytes text.new
        ≡ string_bytes text.old ++ ended (step_line name.now step op.now)) }
{
    let words = op_in_words(Way::There, op, None);
    writeln!(text, "{name}: step {step}: {words}")
}

/// Adds a line for each step of a plan.
fn push_steps(text: &mut String, name: &str, steps: &Steps) -> Result<(), AllocError>
    ensures { OnOk result (Tells (AreStepLines name.now steps.now)
        (string_bytes text.old) (string_bytes text.new)) }
{
    let count = steps.len();
    let mut place = 0;
    while place < count {
        let op = steps.get(place).unwrap();
        push_step(text, name, place, &op)?;
        place += 1;
    }
    Ok(())
}

/// Adds the line of a request that undoes the step of this place.
fn push_back(
    text: &mut String,
    name: &str,
    step: usize,
    words: &UndoInWords<'_>,
) -> Result<(), AllocError>
    ensures { OnOk result (string_bytes text.new
        ≡ string_bytes text.old ++ ended (undo_line name.now step (undo_words_of words.now))) }
{
    writeln!(text, "{name}: undo of step {step}: {words}")
}

/// Adds a line for each of the first so many requests that undo, that of the last first.
fn push_undo(
    text: &mut String,
    name: &str,
    requests: &Requests,
    count: usize,
) -> Result<(), AllocError>
    requires { count ≤ length requests.now.members }
    ensures { OnOk result (Tells (AreUndoLines name.now count requests.now.members)
        (string_bytes text.old) (string_bytes text.new)) }
{
    let mut place = count;
    while place > 0 {
        place -= 1;
        let request = requests.get(place).unwrap();
        let words = undo_in_words(&request);
        push_back(text, name, place, &words)?;
    }
    Ok(())
}

/// Adds how far the manager of a journal is, and what is taken back.
fn push_journal(text: &mut String, name: &str, contents: &Contents) -> Result<(), AllocError>
    ensures { OnOk result (Tells (AreJournalLines name.now (kept_in contents.now))
        (string_bytes text.old) (string_bytes text.new)) }
{
    push_stage(text, name, contents)?;
    push_waiting(text, name, contents)?;
    let requests = &contents.requests;
    let count = left_at(contents.stage, requests.len());
    push_undo(text, name, requests, count)
}

/// Adds the lines of an undo text: what its requests put back, the last first.
fn tell_undo(alloc: Global, text: &mut String, source: Source<'_>) -> Result<(), AllocError>
    ensures { OnOk result
        (Tells (AreWords TextForm.Undo source.entry.name.now source.entry.file.now)
        (string_bytes text.old) (string_bytes text.new)) }
{
    match read_undo(alloc, source.file) {
        Ok(list) => push_undo(text, source.name, &list.requests, list.requests.len()),
        Err(UndoFault::Memory) => Err(AllocError),
        Err(UndoFault::Line(_)) => Ok(()),
    }
}

/// Adds those of a journal: how far the manager is, and what is taken back.
fn tell_journal(alloc: Global, text: &mut String, source: Source<'_>) -> Result<(), AllocError>
    ensures { OnOk result
        (Tells (AreWords TextForm.Journal source.entry.name.now source.entry.file.now)
        (string_bytes text.old) (string_bytes text.new)) }
{
    match read_journal(alloc, source.file) {
        Ok(journal) => push_journal(text, source.name, &journal.contents),
        Err(JournalTextFault::Memory) => Err(AllocError),
        Err(JournalTextFault::Line(_)) => Ok(()),
    }
}

/// Nothing is told of a plan that isn't read, unless memory was refused.
fn unread_plan(why: PlanFault) -> Result<(), AllocError>
    ensures { OnOk result (why ≢ PlanFault.Memory) }
{
    match why {
        PlanFault::Memory => Err(AllocError),
        _ => Ok(()),
    }
}

/// Adds those of a plan: what its steps do.
fn tell_plan(alloc: Global, text: &mut String, source: Source<'_>) -> Result<(), AllocError>
    ensures { OnOk result
        (Tells (AreWords TextForm.Plan source.entry.name.now source.entry.file.now)
        (string_bytes text.old) (string_bytes text.new)) }
{
    match read_plan(alloc, source.file) {
        Ok(plan) => push_steps(text, source.name, &plan.steps),
        Err(why) => unread_plan(why),
    }
}

/// Adds the lines of a text of this form that say in words what it holds, if it is good: what the steps of a plan do, what an undo text puts back,
/// or how far the manager of a journal is and what is taken back.
pub(crate) fn tell_words(
    alloc: Global,
    text: &mut String,
    source: Source<'_>,
    form: TextForm,
) -> Result<(), AllocError>
    ensures { OnOk result (Tells (AreWords form source.entry.name.now source.entry.file.now)
        (string_bytes text.old) (string_bytes text.new)) }
{
    match form {
        TextForm::Undo => tell_undo(alloc, text, source),
        TextForm::Journal => tell_journal(alloc, text, source),
        TextForm::Plan => tell_plan(alloc, text, source),
        TextForm::Board | TextForm::Readings | TextForm::Schedule | TextForm::Empty => Ok(()),
    }
}
