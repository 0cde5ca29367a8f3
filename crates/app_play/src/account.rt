//! What a play tells.
ghost use Rattle.std.specs.Prelude.{◌≡◌, ◌++◌, ℕ, List, IfOk, OnOk, string_bytes};
ghost use Rattle.std.specs.List.{flat_map};
ghost use Rattle.text_lines.specs.Cuts.{ended};
ghost use Rattle.app_play.specs.Lines.{ending, premised, start_lines, text_of};
ghost use Rattle.app_play.specs.Strict.{listed_text};

use crate::lines::{push_frames, push_premise, push_stopped};
use lab_play::Stopped;
use lab_run::SentFrame;
use std::alloc::{AllocError, Global};
use text_lines::{push_records, push_requests};
use undo_core::Phase;
use undo_plans::Requests;

/// What is told of a play, after its last event or before the one that the lab didn't take.
#[derive(Clone, Copy)]
pub struct Account<'a> {
    /// The manager's phase.
    pub phase: Phase,
    /// The frames that were sent, each at its number.
    pub frames: &'a [SentFrame],
    /// The requests that undo the steps that were done, in the order of the steps.
    pub undo: &'a Requests,
    /// How many records are no longer what they were at the start.
    pub changed: usize,
    /// The place, from 1, of the first event that broke the premise on packets.
    pub broken: Option<usize>,
    /// Why not all events were taken.
    pub stopped: Option<Stopped>,
}

impl Account<'_> {
    /// The lines of the account: the phase, how many frames there are, how many requests undo the plan and each of them, and whether
    /// records are changed. Then, where they are asked for, come the frames and what is said of the premise on packets, and at last the
    /// fault of an event.
    pub fn text(&self, alloc: Global, frames: bool, premises: bool) -> Result<String, AllocError>
        ensures { IfOk result (λ text. string_bytes text ≡ text_of frames premises self.now) }
    {
        let mut text = String::new(alloc);
        self.push_start(alloc, &mut text)?;
        if frames {
            push_frames(alloc, &mut text, self.frames)?;
        }
        self.push_end(&mut text, premises)?;
        Ok(text)
    }

    /// The lines of the account, with the lines of this text behind that of the records.
    pub(crate) fn listed_text(
        &self,
        alloc: Global,
        list: &str,
        frames: bool,
        premises: bool,
    ) -> Result<String, AllocError>
        ensures { (lines : List (List ℕ)) → list.now ≡ flat_map ended lines
            → IfOk result (λ text. string_bytes text
            ≡ listed_text lines frames premises self.now) }
    {
        let mut text = String::new(alloc);
        self.push_start(alloc, &mut text)?;
        text.push_str(list)?;
        if frames {
            push_frames(alloc, &mut text, self.frames)?;
        }
        self.push_end(&mut text, premises)?;
        Ok(text)
    }

    /// Adds the lines before the frames.
    fn push_start(&self, alloc: Global, text: &mut String) -> Result<(), AllocError>
        ensures { OnOk result (string_bytes text.new
            ≡ string_bytes text.old ++ flat_map ended (start_lines self.now)) }
    {
        let phase = self.phase;
        let sent = self.frames.len();
        let requests = self.undo.len();
        writeln!(text, "phase {phase}")?;
        writeln!(text, "frames {sent}")?;
        writeln!(text, "undo {requests}")?;
        push_requests(alloc, text, self.undo)?;
        push_records(text, self.changed)
    }

    /// Adds the lines behind the frames.
    fn push_end(&self, text: &mut String, premises: bool) -> Result<(), AllocError>
        ensures { OnOk result (string_bytes text.new
            ≡ string_bytes text.old ++ flat_map ended
            (premised premises self.now.broken self.now.stopped ++ ending self.now.stopped)) }
    {
        if premises {
            push_premise(text, self.broken, self.stopped)?;
        }
        match self.stopped {
            Some(stopped) => push_stopped(text, stopped),
            None => Ok(()),
        }
    }
}
