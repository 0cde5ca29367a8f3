//! A timetable that is gone through once, or again and again.
ghost use Rattle.std.specs.Prelude.{◌≡◌, ◌↔◌, false, true, None, option_map, IsTrue};
ghost use Rattle.bmc_ports.specs.Timing.{event_at};

use crate::timetable::{Timed, Timetable};

/// How long a tick of a board's clock is, in milliseconds.
pub const TICK_MS: u64 = 100;

/// A timetable, and whether it begins anew once it is over. Its places are counted on from round to round.
#[derive(Clone, Copy)]
pub struct Agenda<'a> {
    pub table: Timetable<'a>,
    /// Whether its list begins anew: a round lasts until the last event of the list, and a tick at least.
    pub repeats: bool,
}

/// How many milliseconds a round of this list lasts.
fn round_ms(list: &[Timed]) -> u64 {
    match list.last() {
        Some(last) => last.at_ms.max(TICK_MS),
        None => TICK_MS,
    }
}

/// This happens so many rounds of the list later.
fn rounds_later(list: &[Timed], timed: Timed, rounds: u64) -> Timed
    ensures { result.event ≡ timed.event }
{
    let before = rounds.saturating_mul(round_ms(list));
    Timed {
        at_ms: before.saturating_add(timed.at_ms),
        event: timed.event,
    }
}

/// What happens at this place of a list that is gone through again and again, and when.
fn repeated(list: &[Timed], place: usize) -> Option<Timed>
    ensures { option_map (λ timed. timed.event) result ≡ event_at true list.now place }
{
    if list.is_empty() {
        return None;
    }
    let rounds = (place / list.len()) as u64;
    let timed = list[place % list.len()];
    Some(rounds_later(list, timed, rounds))
}

/// What happens at this place of a list that is gone through once, and when.
fn listed(list: &[Timed], place: usize) -> Option<Timed>
    ensures { option_map (λ timed. timed.event) result ≡ event_at false list.now place }
{
    match list.get(place) {
        Some(timed) => Some(*timed),
        None => None,
    }
}

impl<'a> Agenda<'a> {
    /// A timetable that is gone through once.
    pub fn once(table: Timetable<'a>) -> Self
        ensures table { result.table ≡ table.entry }
        ensures repeats { result.repeats ≡ false }
    {
        Agenda {
            table,
            repeats: false,
        }
    }

    /// A timetable that begins anew whenever it is over.
    pub fn again(table: Timetable<'a>) -> Self
        ensures table { result.table ≡ table.entry }
        ensures repeats { result.repeats ≡ true }
    {
        Agenda {
            table,
            repeats: true,
        }
    }

    /// What happens at this place, and when; or nothing, where nothing is left there.
    pub fn entry(&self, place: usize) -> Option<Timed>
        ensures { option_map (λ timed. timed.event) result
            ≡ event_at self.now.repeats self.now.table.list.now place }
    {
        if self.repeats {
            repeated(self.table.list, place)
        } else {
            listed(self.table.list, place)
        }
    }

    /// Whether nothing of it is left.
    pub fn is_over(&self) -> bool
        ensures { IsTrue result
            ↔ (event_at self.now.repeats self.now.table.list.now self.now.table.next ≡ None) }
    {
        self.entry(self.table.next).is_none()
    }

    /// The same agenda, of which the event at this place is next.
    pub fn from(&self, next: usize) -> Self
        ensures list { result.table.list ≡ self.now.table.list }
        ensures next { result.table.next ≡ next }
        ensures start { result.table.start ≡ self.now.table.start }
        ensures repeats { result.repeats ≡ self.now.repeats }
    {
        Agenda {
            table: self.table.from(next),
            repeats: self.repeats,
        }
    }
}
