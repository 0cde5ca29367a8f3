//! What holds of the texts of schedules.
ghost use Rattle.std.specs.Prelude.{◌≡◌, List, ℕ};
ghost use Rattle.text_lines.specs.declared.event.Event.{Event};
ghost use Rattle.text_lines.specs.ScheduleText.{lines_of};
ghost use Rattle.text_lines.specs.Schedule.{AreLinesOf, IsFirstBad};

/// A text says at most one list of events.
pub fn one_schedule()
    ensures { (text : List ℕ) (events others : List Event) → AreLinesOf (lines_of text) events
        → AreLinesOf (lines_of text) others → events ≡ others }
{}

/// A text with a bad line says no events, and has one first bad line.
pub fn refused_or_told()
    ensures refused { (text : List ℕ) (events : List Event) (number : ℕ)
        → AreLinesOf (lines_of text) events → ¬ IsFirstBad (lines_of text) number }
    ensures first { (text : List ℕ) (number other : ℕ) → IsFirstBad (lines_of text) number
        → IsFirstBad (lines_of text) other → number ≡ other }
{}
