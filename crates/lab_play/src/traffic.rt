//! Frames on their way, and what comes next.
use crate::chance::{Chances, Dice};
use crate::others::other_event;
use crate::schedule_drawing::delivery;
use lab_run::{Lab, SentFrame, Way};
use model_undo::Call;
use std::alloc::{AllocError, Global};
use std::collections::VecDeque;
use text_lines::Event;
use undo_core::Phase;

/// The most frames that come before one that is late.
const MOST_PAST: u32 = 4;

/// No lab sends so many frames.
const MOST_NUMBER: u32 = 1_000_000;

/// A frame that lets others past.
#[derive(Clone, Copy)]
struct Held {
    number: u32,
    /// How many frames still come before it.
    past: u32,
}

/// The frames that are on their way, what is drawn, and where the schedule stands.
#[derive(Drop)]
pub(crate) struct Traffic {
    dice: Dice,
    chances: Chances,
    /// Whether the plan is to be undone.
    undo: bool,
    /// How many of the lab's frames were sent on their way, or lost.
    seen: u32,
    /// The numbers of those that come next, in their order.
    queue: VecDeque<u32>,
    held: VecDeque<Held>,
    /// Whether somebody else asked last.
    spoken: bool,
}

impl Traffic {
    /// Nothing is on its way.
    pub fn new(alloc: Global, undo: bool, chances: Chances) -> Traffic {
        Traffic {
            dice: Dice::new(chances.seed),
            chances,
            undo,
            seen: 0,
            queue: VecDeque::new(alloc),
            held: VecDeque::new(alloc),
            spoken: false,
        }
    }

    /// The frame of this number is on its way, in its turn or later.
    fn send(&mut self, number: u32) -> Result<(), AllocError> {
        if self.dice.happens(self.chances.delay) {
            let past = 1 + self.dice.below(MOST_PAST);
            self.held.push_back(Held { number, past })?;
        } else {
            self.queue.push_back(number)?;
        }
        Ok(())
    }

    /// A frame was sent: it is lost, or on its way, once or twice. One that goes to others isn't waited for.
    fn sent(&mut self, number: u32, frame: &SentFrame) -> Result<(), AllocError> {
        if frame.way.is(Way::ToOthers) || self.dice.happens(self.chances.lose) {
            return Ok(());
        }
        self.send(number)?;
        if self.dice.happens(self.chances.repeat) {
            self.send(number)?;
        }
        Ok(())
    }

    /// Looks at what the lab sent since the last look.
    fn look(&mut self, frames: &[SentFrame]) -> Result<(), AllocError> {
        for number in self.seen..MOST_NUMBER {
            let Some(frame) = frames.get(number as usize) else {
                break;
            };
            self.sent(number, frame)?;
            self.seen = number + 1;
        }
        Ok(())
    }

    /// A frame comes: those that let it past wait for one frame less, and those that wait for none are next.
    fn release(&mut self) -> Result<(), AllocError> {
        for _ in 0..self.held.len() {
            let Some(Held { number, past }) = self.held.pop_front() else {
                break;
            };
            if past > 1 {
                let past = past - 1;
                self.held.push_back(Held { number, past })?;
            } else {
                self.queue.push_back(number)?;
            }
        }
        Ok(())
    }

    /// The frame that comes next, if one comes in its turn.
    fn next_frame(&mut self, frames: &[SentFrame]) -> Result<Option<Event>, AllocError> {
        let Some(number) = self.queue.pop_front() else {
            return Ok(None);
        };
        self.release()?;
        Ok(delivery(frames, number))
    }

    /// The first of the frames that let others past, if there is one.
    fn late_frame(&mut self, frames: &[SentFrame]) -> Option<Event> {
        let Held { number, .. } = self.held.pop_front()?;
        delivery(frames, number)
    }

    /// What the manager is called to do where no frame comes in its turn. Where nothing is open it isn't called.
    fn next_call(&self, phase: &Phase) -> Option<Event> {
        match phase {
            Phase::Fresh => Some(Event::Calls(Call::Start)),
            Phase::Getting(_) | Phase::Setting(_) | Phase::Undoing(_) => {
                Some(Event::Calls(Call::Quiet))
            }
            Phase::Unsettled(_) => Some(Event::Calls(Call::Again)),
            Phase::Done | Phase::Halted(..) => self.undo_call(),
            Phase::Undone | Phase::UndoRefused(..) => None,
        }
    }

    /// The call that undoes the plan, if it is to be undone.
    fn undo_call(&self) -> Option<Event> {
        if self.undo {
            Some(Event::Calls(Call::Undo))
        } else {
            None
        }
    }

    /// Somebody else asks, if one does now: never twice with nothing between.
    fn next_other(&mut self, alloc: Global) -> Result<Option<Event>, AllocError> {
        if self.spoken || !self.dice.happens(self.chances.others) {
            self.spoken = false;
            return Ok(None);
        }
        self.spoken = true;
        other_event(alloc, &mut self.dice)
    }

    /// What happens next in the lab: somebody else asks, a frame comes, or the manager is called. Once nothing is open and no frame is on its way,
    /// nothing does.
    pub fn next(&mut self, alloc: Global, lab: &Lab) -> Result<Option<Event>, AllocError> {
        let frames = lab.frames();
        self.look(frames)?;
        if let Some(event) = self.next_other(alloc)? {
            return Ok(Some(event));
        }
        if let Some(event) = self.next_frame(frames)? {
            return Ok(Some(event));
        }
        if self.held.is_empty() || self.dice.below(2) == 0 {
            if let Some(event) = self.next_call(&lab.phase()) {
                return Ok(Some(event));
            }
        }
        Ok(self.late_frame(frames))
    }
}
