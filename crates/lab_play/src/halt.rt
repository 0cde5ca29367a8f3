//! Where a plan halted, and how many of its steps were tried.
ghost use Rattle.std.specs.Prelude.{◌≡◌, IfSome, IfNone, None};
ghost use Rattle.lab_play.specs.Halts.{IsFirstHalt, halted_at, is_halted, tried_by, tried_in};

use lab_run::Note;
use model_undo::Phase;

/// A halt of a plan.
#[derive(Clone, Copy)]
pub struct Halt {
    /// The place of the event at which it came, counted from 1.
    pub place: usize,
    /// The phase behind that event.
    pub phase: Phase,
}

/// Whether the plan is halted in this phase.
fn is_halted(phase: Phase) -> bool
    ensures { result ≡ is_halted phase }
{
    matches!(phase, Phase::Halted(_, _))
}

/// The first event behind which the plan is halted, counted from 0.
fn halted_at(notes: &[Note]) -> Option<usize>
    ensures { result ≡ halted_at notes.now }
{
    notes.iter().position(|note| is_halted(note.phase))
}

/// The first halt of a play with these notes.
pub fn first_halt(notes: &[Note]) -> Option<Halt>
    ensures halt { IfSome result (IsFirstHalt notes.now) }
    ensures none { IfNone result (halted_at notes.now ≡ None) }
{
    let before = halted_at(notes)?;
    let note = &notes[before];
    Some(Halt {
        place: before + 1,
        phase: note.phase,
    })
}

/// How many steps were tried where the manager is in this phase: those before the open one, and that.
fn tried_in(phase: Phase) -> usize
    ensures { result ≡ tried_in phase }
{
    match phase {
        Phase::Getting(step) | Phase::Setting(step) => step.saturating_add(1),
        _ => 0,
    }
}

/// How many of a plan's steps were tried in a play with these notes: a request of each was sent.
pub fn tried_steps(notes: &[Note]) -> usize
    ensures { result ≡ tried_by notes.now }
{
    notes
        .iter()
        .fold(0, |most, note| most.max(tried_in(note.phase)))
}
