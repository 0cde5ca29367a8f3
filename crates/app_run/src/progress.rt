//! The line on a terminal that tells how far a manager is.
ghost use Rattle.std.specs.Prelude.{◌≡◌, ◌≢◌, ◌++◌, true, IfOk, OnOk, None, Some, map, string_bytes};
ghost use Rattle.plan_file.specs.Kinds.{kind_of};
ghost use Rattle.app_run.specs.Progress.{EndsLine, MayTell, WritesProgress, has_line, line_of};
ghost use Rattle.app_run.specs.Progress.{retry_of, step_of, what_of, word_at};

use plan_file::Kind;
use std::alloc::{AllocError, Global};
use std::io;
use undo_core::Phase;
use undo_plans::Steps;

/// Where a manager is, as a line tells it.
#[derive(Clone, Copy)]
pub struct Snapshot {
    pub phase: Phase,
    /// How often the open request was sent again.
    pub resent: u8,
}

/// What lies before a manager.
#[derive(Clone, Copy)]
pub struct PlanOutline<'a> {
    /// How many steps it does, or undoes.
    pub steps: usize,
    /// The kinds of a plan's steps. Of a list that undoes one none is known.
    pub kinds: &'a [Kind],
}

/// A line that is written over again and again, where its writer is a terminal.
#[derive(Drop)]
pub struct Progress<P> {
    pub writer: P,
    /// Whether it is written: the writer is a terminal, and no write to it failed.
    pub(crate) on: bool,
    /// What the line says, where it was written and isn't ended.
    pub(crate) said: Option<Snapshot>,
}

/// The kinds of a plan's steps, in their order.
pub(crate) fn kinds_of(alloc: Global, steps: &Steps) -> Result<Vec<Kind>, AllocError>
    ensures { IfOk result (λ kinds. kinds.items ≡ map kind_of steps.now) }
{
    let mut kinds = Vec::new(alloc);
    for place in 0..steps.len() {
        let op = steps.get(place).unwrap();
        kinds.push(Kind::of(&op))?;
    }
    Ok(kinds)
}

/// Whether a line tells of this phase.
fn has_line(phase: Phase) -> bool
    ensures { result ≡ has_line phase }
{
    matches!(
        phase,
        Phase::Getting(_) | Phase::Setting(_) | Phase::Undoing(_) | Phase::Unsettled(_)
    )
}

/// Whether a moment has a line, and another one than that which says this.
fn is_news(said: Option<Snapshot>, now: &Snapshot) -> bool
    ensures { result ≡ true → (has_line now.now.phase ≡ true) × (said ≢ Some now.now) }
{
    let Snapshot { phase, resent } = *now;
    if !has_line(phase) {
        return false;
    }
    match said {
        Some(told) => told.phase != phase || told.resent != resent,
        None => true,
    }
}

/// What plans call the kind of this step.
fn word_at(kinds: &[Kind], step: usize) -> &'static str
    ensures { result.now ≡ word_at kinds.now step }
{
    match kinds.get(step) {
        Some(kind) => kind.word(),
        None => "",
    }
}

/// Adds which step it is, of how many. The first one is step 1.
fn push_step(text: &mut String, step: usize, steps: usize) -> Result<(), AllocError>
    ensures { OnOk result (string_bytes text.new ≡ string_bytes text.old ++ step_of step steps) }
{
    let number = step as u128 + 1;
    write!(text, "step {number} of {steps}")
}

/// Adds what is asked in this phase.
fn push_what(text: &mut String, course: PlanOutline, phase: Phase) -> Result<(), AllocError>
    ensures { OnOk result (string_bytes text.new
        ≡ string_bytes text.old ++ what_of course.entry.kinds.now course.entry.steps phase) }
{
    match phase {
        Phase::Getting(step) => {
            push_step(text, step, course.steps)?;
            write!(text, ": get {}", word_at(course.kinds, step))
        }
        Phase::Setting(step) => {
            push_step(text, step, course.steps)?;
            write!(text, ": set {}", word_at(course.kinds, step))
        }
        Phase::Undoing(step) => {
            write!(text, "undoing ")?;
            push_step(text, step, course.steps)
        }
        Phase::Unsettled(step) => {
            push_step(text, step, course.steps)?;
            write!(text, ": no reply")
        }
        _ => Ok(()),
    }
}

/// Adds which time it is asked again, if it is.
fn push_retry(text: &mut String, resent: u8) -> Result<(), AllocError>
    ensures { OnOk result (string_bytes text.new ≡ string_bytes text.old ++ retry_of resent) }
{
    if resent == 0 {
        return Ok(());
    }
    write!(text, ", retry {resent}")
}

/// The line of a moment, from the terminal's left edge on. What the terminal had behind it there is erased.
fn line(alloc: Global, course: PlanOutline, now: &Snapshot) -> Result<String, AllocError>
    ensures { IfOk result (λ text. string_bytes text
        ≡ line_of course.entry.kinds.now course.entry.steps now.now) }
{
    let mut text = String::new(alloc);
    write!(text, "\r")?;
    push_what(&mut text, course, now.phase)?;
    push_retry(&mut text, now.resent)?;
    write!(text, "\u{1b}[K")?;
    Ok(text)
}

impl<P: io::Write> Progress<P> {
    /// Nothing is written yet, and nothing ever where the writer is no terminal.
    pub fn new(writer: P, is_terminal: bool) -> Progress<P>
        ensures writer { result.writer ≡ writer }
        ensures on { result.on ≡ is_terminal }
        ensures said { result.said ≡ None }
    {
        Progress {
            writer,
            on: is_terminal,
            said: None,
        }
    }

    /// Writes this, after which the line says so. Where that fails, nothing is written from then on.
    fn put(&mut self, text: &[u8], said: Option<Snapshot>)
        ensures { WritesProgress P.contents text.now said self.old self.new }
    {
        self.said = said;
        match self.writer.write_all(text) {
            Ok(()) => (),
            Err(_) => self.on = false,
        }
    }

    /// Writes the line of this moment over the one that is there, where the two differ.
    pub(crate) fn show(&mut self, alloc: Global, course: PlanOutline, now: Snapshot)
        ensures { MayTell P.contents course.entry.kinds.now course.entry.steps
            now self.old self.new }
    {
        if !self.on {
            return;
        }
        if !is_news(self.said, &now) {
            return;
        }
        // A line that memory is refused for isn't written.
        let Ok(text) = line(alloc, course, &now) else {
            return;
        };
        self.put(text.as_bytes(), Some(now));
    }

    /// Ends the line, where one was written.
    pub(crate) fn end_line(&mut self)
        ensures { EndsLine P.contents self.old self.new }
    {
        if self.on && self.said.is_some() {
            self.put(b"\n", None);
        }
    }
}
