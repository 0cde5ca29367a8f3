//! Which frames came to an end.
ghost use Rattle.std.specs.Prelude.{◌≡◌, ◌-◌, ◌==◌, ◌||◌, [], ℕ, List, false, get_or, OnOk, IfOk, IfSome, IfNone};
ghost use Rattle.lab_run.specs.declared.note.Note.{Note as AnyNote};
ghost use Rattle.app_play.specs.Arrivals.{delivers, lost_from, HoldsNotes};

use lab_run::Note;
use std::alloc::{AllocError, Global};
use text_lines::Event;

/// For each number whether a frame of it came.
#[derive(Drop)]
pub(crate) struct Arrivals {
    came: Vec<bool>,
}

/// The number of the frame that the event delivers.
fn delivered(event: &Event) -> Option<u32>
    ensures some { IfSome result (λ n. (number : ℕ) → delivers number event.now ≡ (n == number)) }
    ensures none { IfNone result ((number : ℕ) → delivers number event.now ≡ false) }
{
    match event {
        Event::ToBmc(number) | Event::ToMgr(number) => Some(*number),
        _ => None,
    }
}

impl Arrivals {
    /// None came.
    pub(crate) fn new(alloc: Global) -> Arrivals
        ensures { HoldsNotes result [] }
    {
        Arrivals {
            came: Vec::new(alloc),
        }
    }

    /// All that came at these events.
    pub(crate) fn of(alloc: Global, notes: &[Note]) -> Result<Arrivals, AllocError>
        ensures { IfOk result (λ arrivals. HoldsNotes arrivals notes.now) }
    {
        let mut arrivals = Arrivals::new(alloc);
        for note in notes {
            arrivals.add(note.event)?;
        }
        Ok(arrivals)
    }

    /// Whether the frame of this number came.
    pub(crate) fn has(&self, number: usize) -> bool
        ensures { result ≡ get_or self.now.came.items number false }
    {
        match self.came.get(number) {
            Some(came) => *came,
            None => false,
        }
    }

    /// The frame of this number came.
    fn mark(&mut self, number: u32) -> Result<(), AllocError>
        ensures { OnOk result
            ((n : ℕ) → get_or self.new.came.items n false
            ≡ ((number == n) || get_or self.old.came.items n false)) }
    {
        let place = number as usize;
        if self.came.len() <= place {
            self.came.resize(place + 1, false)?;
        }
        self.came[place] = true;
        Ok(())
    }

    /// The event happens.
    pub(crate) fn add(&mut self, event: &Event) -> Result<(), AllocError>
        ensures { OnOk result
            ((n : ℕ) → get_or self.new.came.items n false
            ≡ (delivers n event.now || get_or self.old.came.items n false)) }
    {
        match delivered(event) {
            Some(number) => self.mark(number),
            None => Ok(()),
        }
    }

    /// How many frames, from this number on up to before that one, didn't come.
    pub(crate) fn lost(&self, from: usize, to: usize) -> usize
        ensures { (notes : List AnyNote) → HoldsNotes self.now notes
            → result ≡ lost_from notes from (to - from) }
    {
        (from..to).filter(|number| !self.has(*number)).count()
    }
}
