//! The scanner, which waits for the time of each event of an agenda, and has it happen.
ghost use Rattle.std.specs.Prelude.{◌≡◌, ◌≢◌, ◌↔◌, false, true, None};
ghost use Rattle.bmc_ports.specs.Timing.{GainsCalls, event_at};
ghost use Rattle.bmc_ports.specs.declared.timetable.TimedEnd.TheVariants.{Over, Full};

use crate::agenda::Agenda;
use crate::event_room::EventRoom;
use crate::timetable::{Stops, TimedEnd, Timetable};
use bmc_shared::{Opening, PeriodFull, Seat, Shared};
use cfg_records::Store;
use std::sync::Wait;
use std::thread::sleep;
use std::time::{Clock, Duration, Instant};

/// The longest sleep before the scanner looks whether it's to stop, in milliseconds.
const NAP_MS: u64 = 20;

/// The next nap before so many milliseconds after the start. None, where they are over, or where the clock can't be read.
fn next_nap<R: Clock>(rt: &R, start: Option<Instant>, at_ms: u64) -> Option<Duration> {
    let passed = start?.elapsed(rt).ok()?;
    let left = Duration::from_millis(at_ms).saturating_sub(passed);
    if left.is_zero() {
        return None;
    }
    Some(left.min(Duration::from_millis(NAP_MS)))
}

/// Sleeps in naps until so many milliseconds after the start. Gives whether it wasn't told to stop.
fn wait_until<R: Wait + Clock>(
    rt: &R,
    start: Option<Instant>,
    at_ms: u64,
    stops: Stops<'_>,
) -> bool {
    for _ in rt.forever() {
        if stops.are_set() {
            return false;
        }
        match next_nap(rt, start, at_ms) {
            Some(nap) => sleep(rt, nap),
            None => return true,
        }
    }
    unreachable!()
}

/// Why a scanner ends that is told to stop, or comes to the last place that is counted.
fn stopped(agenda: &Agenda<'_>) -> TimedEnd
    ensures over { (result ≡ Over)
        ↔ (event_at agenda.now.repeats agenda.now.table.list.now agenda.now.table.next ≡ None) }
    ensures room { result ≢ Full }
{
    if agenda.is_over() {
        TimedEnd::Over
    } else {
        TimedEnd::Stopped
    }
}

/// Has all happen that is left of the agenda, each at its time or as soon after it as the lock is free, until it's told to stop, or until
/// the board's history is full. What found no room is next then. Each event is counted.
pub(crate) fn happen_by_agenda<J: Opening, S: Store + Drop, R: Wait + Clock>(
    rt: &R,
    shared: &Shared<J, S>,
    seat: &mut Seat<J>,
    agenda: &mut Agenda<'_>,
    stops: Stops<'_>,
    room: &EventRoom,
) -> TimedEnd
    ensures gains { GainsCalls agenda.old.repeats agenda.old.table.list.now
        agenda.old.table.next agenda.new.table.next
        seat.old.calls.items seat.new.calls.items }
    ensures over { (result ≡ Over)
        ↔ (event_at agenda.old.repeats agenda.old.table.list.now agenda.new.table.next ≡ None) }
    ensures marked { result ≡ Full → seat.new.refused ≡ true }
    ensures mark { result ≢ Full → seat.new.refused ≡ seat.old.refused }
    ensures number { seat.new.number ≡ seat.old.number }
    ensures list { agenda.new.table.list ≡ agenda.old.table.list }
    ensures start { agenda.new.table.start ≡ agenda.old.table.start }
    ensures repeats { agenda.new.repeats ≡ agenda.old.repeats }
{
    for place in agenda.table.next..usize::MAX {
        let Some(timed) = agenda.entry(place) else {
            return TimedEnd::Over;
        };
        if !wait_until(rt, agenda.table.start, timed.at_ms, stops) {
            return TimedEnd::Stopped;
        }
        match shared.bench(rt, seat, timed.event) {
            Ok(_) => agenda.table.next = place + 1,
            Err(PeriodFull) => return TimedEnd::Full,
        }
        if room.bring(1) {
            return stopped(agenda);
        }
    }
    stopped(agenda)
}

/// The same of a timetable that is gone through once.
pub fn happen_in_time<J: Opening, S: Store + Drop, R: Wait + Clock>(
    rt: &R,
    shared: &Shared<J, S>,
    seat: &mut Seat<J>,
    table: &mut Timetable<'_>,
    stops: Stops<'_>,
) -> TimedEnd
    ensures gains { GainsCalls false table.old.list.now table.old.next table.new.next
        seat.old.calls.items seat.new.calls.items }
    ensures over { (result ≡ Over) ↔ (event_at false table.old.list.now table.new.next ≡ None) }
    ensures marked { result ≡ Full → seat.new.refused ≡ true }
    ensures mark { result ≢ Full → seat.new.refused ≡ seat.old.refused }
    ensures number { seat.new.number ≡ seat.old.number }
    ensures list { table.new.list ≡ table.old.list }
    ensures start { table.new.start ≡ table.old.start }
{
    let mut agenda = Agenda::once(*table);
    let room = EventRoom::new(0, None);
    let end = happen_by_agenda(rt, shared, seat, &mut agenda, stops, &room);
    *table = agenda.table;
    end
}
