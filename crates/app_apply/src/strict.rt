//! A plan that is taken strictly: each of its keys is read, and it has a step.
ghost use Rattle.std.specs.Prelude.{◌≢◌, IfErr, IfOk, Ok, []};
ghost use Rattle.plan_file.specs.PlanHolds.{ReadsPlan};
ghost use Rattle.text_check.specs.Outcomes.{IsPlanOutcome};
ghost use Rattle.app_apply.specs.Strict.{IsStrictPlan, RefusesPlan};

use file_faults::{Sheet, Source};
use plan_file::read_plan;
use std::alloc::{AllocError, Global};
use text_check::{Outcome, TextForm, checked, form_or};
use undo_plans::Plan;

/// Why a text isn't taken as a plan.
#[derive(Debug, Drop)]
pub enum StrictFault {
    /// Memory was refused.
    Memory,
    /// It isn't one; the lines say why.
    Refused(String),
}

/// What a text of this form is called.
fn form_words(form: TextForm) -> &'static str {
    match form {
        TextForm::Undo => "an undo text",
        TextForm::Journal => "a journal",
        TextForm::Board => "a board file",
        TextForm::Plan => "a plan",
        TextForm::Readings => "readings",
        TextForm::Schedule => "a schedule",
        TextForm::Empty => "an empty file",
    }
}

/// Adds what the text looks like, where that is no plan.
fn tell_looks(alloc: Global, sheet: &mut Sheet, source: Source<'_>) -> Result<(), AllocError> {
    match form_or(alloc, None, source.file)? {
        TextForm::Plan => Ok(()),
        looks => {
            let (name, looks) = (source.name, form_words(looks));
            writeln!(sheet.text, "{name}: it looks like {looks}")
        }
    }
}

/// What `bmclab check` tells of the text as of a plan, and what came of that.
fn looked_at(alloc: Global, sheet: &mut Sheet, source: Source<'_>) -> Result<Outcome, AllocError>
    ensures { IfOk result (IsPlanOutcome source.entry.file.now) }
{
    let outcome = checked(alloc, sheet, source, TextForm::Plan)?;
    tell_looks(alloc, sheet, source)?;
    Ok(outcome)
}

/// The refusal by what is told.
fn refused(sheet: Sheet) -> StrictFault {
    StrictFault::Refused(sheet.into_text())
}

/// The plan of a text each of whose keys is read, where it has a step.
fn fine_plan(alloc: Global, source: Source<'_>, sheet: Sheet) -> Result<Plan, StrictFault>
    ensures reads { IfOk result (λ plan. ReadsPlan source.entry.file.now (Ok plan)) }
    ensures some { IfOk result (λ plan. plan.steps ≢ []) }
    ensures refused { IfErr result (RefusesPlan source.entry.file.now) }
{
    let Ok(plan) = read_plan(alloc, source.file) else {
        drop(sheet);
        return Err(StrictFault::Memory);
    };
    if plan.steps.len() == 0 {
        drop(plan);
        return Err(refused(sheet));
    }
    drop(sheet);
    Ok(plan)
}

/// The plan of this text, in a file of this name. A text that isn't that of a plan, one of which a key is read by nothing, and one without a step
/// are refused, with the lines of `bmclab check`.
pub fn strict_plan(alloc: Global, name: &str, text: &str) -> Result<Plan, StrictFault>
    ensures plan { IfOk result (IsStrictPlan text.now) }
    ensures refused { IfErr result (RefusesPlan text.now) }
{
    let source = Source { name, file: text };
    let mut sheet = Sheet::new(alloc);
    match looked_at(alloc, &mut sheet, source) {
        Ok(Outcome::Fine) => fine_plan(alloc, source, sheet),
        Ok(Outcome::Told) => Err(refused(sheet)),
        Ok(Outcome::Refused) => Err(refused(sheet)),
        Err(AllocError) => Err(StrictFault::Memory),
    }
}
