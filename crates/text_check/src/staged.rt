//! How far the manager of a journal is, in words.
ghost use Rattle.std.specs.Prelude.{◌≡◌, ◌++◌, ◌≤◌, None, OnOk, Some, string_bytes};
ghost use Rattle.text_lines.specs.Cuts.{ended};
ghost use Rattle.undo_plans.specs.Journals.{kept_in};
ghost use Rattle.record_words.specs.RequestWords.{undo_words_of};
ghost use Rattle.text_check.specs.Staged.{AreStageLines, AreWaitingLines, IsOf, got, left_at, made, part_words, set_at, stage_line, stage_words, step_words, task_words, undo_at, up_to, waiting_line, why_words};
ghost use Rattle.text_check.specs.Telling.{Tells};

use model_undo::Why;
use record_base::{Op, RecordKind};
use record_kinds::Limits;
use record_words::{InWords, RecordName, UndoInWords, Way, op_in_words, undo_in_words};
use std::alloc::AllocError;
use std::fmt;
use undo_plans::{Contents, KeptStage, KeptTask};

/// What is said of the step at which a manager is.
#[derive(Drop)]
pub(crate) enum StepWords<'a> {
    Nothing,
    /// The record that it gets.
    Record(RecordName),
    /// What it makes of one.
    Op(InWords<'a>),
    /// What the request puts back that undoes it.
    Back(UndoInWords<'a>),
}

impl fmt::Display for StepWords<'_> {
    ghost output = { λ it. Some (step_words it) };

    fn fmt<W: fmt::Write>(&self, f: &mut fmt::Formatter<W>) -> fmt::Result {
        match self {
            StepWords::Nothing => Ok(()),
            StepWords::Record(name) => write!(f, ", {name}"),
            StepWords::Op(words) => write!(f, ", {words}"),
            StepWords::Back(words) => write!(f, ", {words}"),
        }
    }
}

/// The record that the step gets.
fn got(op: Option<Op<'_>>) -> StepWords<'static>
    ensures { step_words result ≡ got op.entry }
{
    match op {
        Some(op) => StepWords::Record(RecordName(Limits::key(&op))),
        None => StepWords::Nothing,
    }
}

/// What the step makes of a record.
fn made<'a>(op: Option<Op<'a>>) -> StepWords<'a>
    ensures { step_words result ≡ made op.entry }
{
    match op {
        Some(op) => StepWords::Op(op_in_words(Way::There, &op, None)),
        None => StepWords::Nothing,
    }
}

/// The step whose undo is open, or was refused.
fn undo_at(stage: KeptStage) -> Option<usize>
    ensures { result ≡ undo_at stage }
{
    match stage {
        KeptStage::Open {
            task: KeptTask::Undo(step),
            ..
        } => Some(step),
        KeptStage::UndoRefused(step, _) => Some(step),
        _ => None,
    }
}

/// What is said of the step at which the manager is, where no undo is open, and none was refused.
fn of_step(contents: &Contents) -> StepWords<'_>
    requires { undo_at contents.now.stage ≡ None }
    ensures { IsOf (kept_in contents.now) contents.now.stage (step_words result) }
{
    match contents.stage {
        KeptStage::Open {
            task: KeptTask::Get(step),
            ..
        } => got(contents.steps.get(step)),
        KeptStage::Open {
            task: KeptTask::Set(step),
            ..
        } => made(contents.steps.get(step)),
        KeptStage::Halted(step, _) => made(contents.steps.get(step)),
        _ => StepWords::Nothing,
    }
}

/// A task.
#[derive(Clone, Copy)]
struct Task(KeptTask);

impl fmt::Display for Task {
    ghost output = { λ it. Some (task_words it.0) };

    fn fmt<W: fmt::Write>(&self, f: &mut fmt::Formatter<W>) -> fmt::Result {
        match self.0 {
            KeptTask::Get(step) => write!(f, "Get of step {step}"),
            KeptTask::Set(step) => write!(f, "Set of step {step}"),
            KeptTask::Undo(step) => write!(f, "undo of step {step}"),
        }
    }
}

/// How many of a task's requests were answered.
#[derive(Clone, Copy)]
struct Answered(u8);

impl fmt::Display for Answered {
    ghost output = { λ it. Some (part_words it.0) };

    fn fmt<W: fmt::Write>(&self, f: &mut fmt::Formatter<W>) -> fmt::Result {
        match self.0 {
            0 => Ok(()),
            part => write!(f, " ({part} of its requests answered)"),
        }
    }
}

/// Why a plan halted.
#[derive(Clone, Copy)]
struct Halt(Why);

impl fmt::Display for Halt {
    ghost output = { λ it. Some (why_words it.0) };

    fn fmt<W: fmt::Write>(&self, f: &mut fmt::Formatter<W>) -> fmt::Result {
        match self.0 {
            Why::Stop => f.write_str("a stop came before it"),
            Why::Refused(code) => {
                let code = code.value();
                write!(f, "its Set was refused, {:X}{:X}h", code / 16, code % 16)
            }
            Why::NotRestorable => f.write_str("no Set brings back what its Get showed"),
            Why::GetRefused(code) => {
                let code = code.value();
                write!(f, "its Get was refused, {:X}{:X}h", code / 16, code % 16)
            }
        }
    }
}

/// How far a manager is, with what is said of its step.
#[derive(Drop)]
struct Staged<'a> {
    stage: KeptStage,
    of: StepWords<'a>,
}

impl fmt::Display for Staged<'_> {
    ghost output = { λ it. Some (stage_words it.stage (step_words it.of)) };

    fn fmt<W: fmt::Write>(&self, f: &mut fmt::Formatter<W>) -> fmt::Result {
        let of = &self.of;
        match self.stage {
            KeptStage::Fresh => f.write_str("fresh"),
            KeptStage::Open { task, part } => {
                let task = Task(task);
                let answered = Answered(part);
                write!(f, "open: {task}{of}{answered}")
            }
            KeptStage::Done => f.write_str("done"),
            KeptStage::Halted(step, why) => {
                let why = Halt(why);
                write!(f, "halted at step {step}{of}: {why}")
            }
            KeptStage::Undone => f.write_str("undone"),
            KeptStage::UndoRefused(step, code) => {
                let code = code.value();
                write!(
                    f,
                    "refused: undo of step {step}{of}: {:X}{:X}h",
                    code / 16,
                    code % 16
                )
            }
        }
    }
}

/// Adds the line of how far the manager is.
fn push_staged(text: &mut String, name: &str, staged: &Staged<'_>) -> Result<(), AllocError>
    ensures { OnOk result (string_bytes text.new ≡ string_bytes text.old
        ++ ended (stage_line name.now staged.now.stage (step_words staged.now.of))) }
{
    writeln!(text, "{name}: {staged}")
}

/// Adds the line of how far the manager of a journal is, whose undo of this step is open or was refused.
fn push_undo_stage(
    text: &mut String,
    name: &str,
    contents: &Contents,
    step: usize,
) -> Result<(), AllocError>
    requires { undo_at contents.now.stage ≡ Some step }
    ensures { OnOk result (Tells (AreStageLines name.now (kept_in contents.now))
        (string_bytes text.old) (string_bytes text.new)) }
{
    let stage = contents.stage;
    match contents.requests.get(step) {
        Some(request) => {
            let of = StepWords::Back(undo_in_words(&request));
            push_staged(text, name, &Staged { stage, of })
        }
        None => {
            let of = StepWords::Nothing;
            push_staged(text, name, &Staged { stage, of })
        }
    }
}

/// Adds the line of how far the manager of a journal is, whose undo is neither open nor refused.
fn push_other_stage(text: &mut String, name: &str, contents: &Contents) -> Result<(), AllocError>
    requires { undo_at contents.now.stage ≡ None }
    ensures { OnOk result (Tells (AreStageLines name.now (kept_in contents.now))
        (string_bytes text.old) (string_bytes text.new)) }
{
    let staged = Staged {
        stage: contents.stage,
        of: of_step(contents),
    };
    push_staged(text, name, &staged)
}

/// Adds the line of how far the manager of a journal is.
pub(crate) fn push_stage(
    text: &mut String,
    name: &str,
    contents: &Contents,
) -> Result<(), AllocError>
    ensures { OnOk result (Tells (AreStageLines name.now (kept_in contents.now))
        (string_bytes text.old) (string_bytes text.new)) }
{
    match undo_at(contents.stage) {
        Some(step) => push_undo_stage(text, name, contents, step),
        None => push_other_stage(text, name, contents),
    }
}

/// Adds the line of a request that undoes the step whose Set is open.
fn push_if_set(
    text: &mut String,
    name: &str,
    step: usize,
    words: &UndoInWords<'_>,
) -> Result<(), AllocError>
    ensures { OnOk result (string_bytes text.new ≡ string_bytes text.old
        ++ ended (waiting_line name.now step (undo_words_of words.now))) }
{
    writeln!(
        text,
        "{name}: undo of step {step} if its Set was carried out: {words}"
    )
}

/// The step whose Set is open.
fn set_at(stage: KeptStage) -> Option<usize>
    ensures { result ≡ set_at stage }
{
    match stage {
        KeptStage::Open {
            task: KeptTask::Set(step),
            ..
        } => Some(step),
        _ => None,
    }
}

/// Adds the line of the request that undoes the step whose Set is open, where one is.
pub(crate) fn push_waiting(
    text: &mut String,
    name: &str,
    contents: &Contents,
) -> Result<(), AllocError>
    ensures { OnOk result (Tells (AreWaitingLines name.now (set_at contents.now.stage)
        contents.now.requests.waiting) (string_bytes text.old) (string_bytes text.new)) }
{
    let Some(step) = set_at(contents.stage) else {
        return Ok(());
    };
    let Some(request) = contents.requests.waiting() else {
        return Ok(());
    };
    let words = undo_in_words(&request);
    push_if_set(text, name, step, &words)
}

/// Of so many the first up to this place.
fn up_to(place: usize, count: usize) -> usize
    ensures value { result ≡ up_to place count }
    ensures few { result ≤ count }
{
    if place < count { place + 1 } else { count }
}

/// How many of so many requests that undo are still to be sent.
pub(crate) fn left_at(stage: KeptStage, count: usize) -> usize
    ensures value { result ≡ left_at stage count }
    ensures few { result ≤ count }
{
    match stage {
        KeptStage::Open {
            task: KeptTask::Undo(step),
            ..
        } => up_to(step, count),
        KeptStage::UndoRefused(step, _) => up_to(step, count),
        KeptStage::Undone => 0,
        _ => count,
    }
}
