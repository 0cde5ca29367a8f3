//! Files that are refused strictly: with a key that nothing reads, and plans without a step.
ghost use Rattle.std.specs.Prelude.{◌≡◌, IfOk, string_bytes};
ghost use Rattle.file_words.specs.Escapes.{escaped};
ghost use Rattle.app_base.specs.Refusals.{RefusedIf, is_loose, is_loose_board, is_loose_plan};

use crate::report::Report;
use crate::status::Status;
use file_faults::{Sheet, Source};
use file_words::push_escaped;
use std::alloc::{AllocError, Global};
use text_check::{push_steps, told_board, told_plan};
use undo_plans::Plan;

/// The word as lines show it: in printable ASCII.
fn shown_name(alloc: Global, word: &str) -> Result<String, AllocError>
    ensures { IfOk result (λ name. string_bytes name ≡ escaped word.now) }
{
    let mut name = String::new(alloc);
    push_escaped(&mut name, word)?;
    Ok(name)
}

/// The refusal of a file of which these lines are told, where one is.
fn refusal_of(sheet: Sheet, is_told: bool) -> Option<Report>
    ensures { RefusedIf is_told result }
{
    if !is_told {
        return None;
    }
    Some(Report::complaint(sheet.into_text(), Status::RefusedFile))
}

/// A file: the word that names it, and its text.
#[derive(Clone, Copy)]
pub struct NamedText<'a> {
    pub word: &'a str,
    pub text: &'a str,
}

/// What is said of a board file that has a key that is unknown or not used: what `bmclab check` tells of these keys.
pub fn board_refusal(alloc: Global, board: NamedText<'_>) -> Result<Option<Report>, AllocError>
    ensures { IfOk result (RefusedIf (is_loose_board board.entry.text.now)) }
{
    let shown = shown_name(alloc, board.word)?;
    let mut sheet = Sheet::new(alloc);
    let source = Source {
        name: shown.as_str(),
        file: board.text,
    };
    let told = told_board(alloc, &mut sheet, source)?;
    Ok(refusal_of(sheet, told))
}

/// What is said of a plan that was read of a text, where it has no step, or its text has a key that is unknown or not used: what `bmclab check` tells
/// of these.
pub fn plan_refusal(
    alloc: Global,
    named: NamedText<'_>,
    plan: &Plan,
) -> Result<Option<Report>, AllocError>
    ensures { IfOk result (RefusedIf (is_loose_plan named.entry.text.now plan.now)) }
{
    let shown = shown_name(alloc, named.word)?;
    let mut sheet = Sheet::new(alloc);
    let source = Source {
        name: shown.as_str(),
        file: named.text,
    };
    let is_empty = plan.steps.len() == 0;
    if is_empty {
        push_steps(&mut sheet.text, source.name, 0, plan.retries.number())?;
    }
    let told = told_plan(alloc, &mut sheet, source)?;
    Ok(refusal_of(sheet, is_empty || told))
}

/// What is said of a board file, or else of a plan that was read of its text, where the run is strict and one of them is refused so.
pub fn files_refusal(
    alloc: Global,
    strict: bool,
    board: NamedText<'_>,
    named: NamedText<'_>,
    plan: &Plan,
) -> Result<Option<Report>, AllocError>
    ensures { IfOk result (RefusedIf
        (is_loose strict board.entry.text.now named.entry.text.now plan.now)) }
{
    if !strict {
        return Ok(None);
    }
    match board_refusal(alloc, board)? {
        Some(report) => Ok(Some(report)),
        None => plan_refusal(alloc, named, plan),
    }
}
