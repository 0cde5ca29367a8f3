//! The lines of a schedule in which its events stand.
ghost use Rattle.std.specs.Prelude.{◌≡◌};
ghost use Rattle.text_lines.specs.Schedule.{is_skipped};

/// A line of a schedule.
#[derive(Clone, Copy)]
pub struct EventLine<'a> {
    /// Its number, counted from 1.
    pub number: usize,
    pub text: &'a str,
}

/// Whether a line is skipped: it's blank, or a comment.
fn is_skipped(line: &str) -> bool
    ensures { result ≡ is_skipped line.now }
{
    line.is_empty() || line.starts_with('#')
}

/// The line of the event of this place, counted from 1: the one that so many lines that say something end with.
pub fn event_line(schedule: &str, place: usize) -> Option<EventLine<'_>> {
    let mut left = place;
    for (number, text) in schedule.split('\n').enumerate() {
        if is_skipped(text) {
            continue;
        }
        if left <= 1 {
            let number = number.saturating_add(1);
            return Some(EventLine { number, text });
        }
        left -= 1;
    }
    None
}
