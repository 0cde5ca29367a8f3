//! Two port workers and a scanner that are lent what they work with, round by round, and give it back.
ghost use Rattle.std.specs.Prelude.{◌≡◌, ◌⊎◌, ◌↔◌, ◌-◌, ◌^◌, min, IsTrue, IfOk};
ghost use Rattle.bmc_shared.specs.Seated.{calls_made};
ghost use Rattle.bmc_ports.specs.Lending.{AreBack, HaveCalledEnough, once_through};
ghost use Rattle.bmc_ports.specs.Slices.{IsDone, NoRoom};

use crate::agenda::Agenda;
use crate::at_once::{NoThread, TrioReturn, run_three};
use crate::event_room::EventRoom;
use crate::lane::Lanes;
use crate::scanner_play::{ScannerLoan, ScannerPlay, ScannerReturn};
use crate::slices::{Serving, WorkerLoan, WorkerReturn};
use crate::stop_signal::{StopRules, StopSignal};
use crate::timetable::{TimedEnd, Timetable};
use bmc_board::Records;
use bmc_shared::{End, Gate, Opening, Seats, Shared};
use std::sync::Wait;
use std::sync::atomic::AtomicBool;
use std::thread::Threads;
use std::time::Clock;
use wire_links::Link;

/// What two workers and a scanner give back, and why each ended.
#[derive(Drop)]
pub struct RunResult<J: Opening, A, B> {
    pub seats: Seats<J>,
    pub lanes: Lanes<A, B>,
    /// The place of the first of the agenda that hasn't happened.
    pub next: usize,
    pub first_end: End,
    pub second_end: End,
    pub scanner_end: TimedEnd,
}

/// What two workers and a scanner gave back.
fn give_back<J: Opening, A: Drop, B: Drop>(
    run: TrioReturn<ScannerReturn<J>, WorkerReturn<J, A>, WorkerReturn<J, B>>,
) -> RunResult<J, A, B>
    requires first { run.first.lent.seat.number ≡ 0 }
    requires second { run.second.lent.seat.number ≡ 1 }
    requires third { run.scanner.seat.number ≡ 2 }
    ensures first { (result.seats.first ≡ run.first.lent.seat)
        × (result.lanes.first ≡ run.first.lent.lane) }
    ensures second { (result.seats.second ≡ run.second.lent.seat)
        × (result.lanes.second ≡ run.second.lent.lane) }
    ensures scanner { (result.seats.scanner ≡ run.scanner.seat) × (result.next ≡ run.scanner.next) }
    ensures first_end { result.first_end ≡ run.first.end }
    ensures second_end { result.second_end ≡ run.second.end }
    ensures scanner_end { result.scanner_end ≡ run.scanner.end }
{
    let TrioReturn {
        scanner,
        first,
        second,
    } = run;
    RunResult {
        seats: Seats {
            first: first.lent.seat,
            second: second.lent.seat,
            scanner: scanner.seat,
        },
        lanes: Lanes {
            first: first.lent.lane,
            second: second.lent.lane,
        },
        next: scanner.next,
        first_end: first.end,
        second_end: second.end,
        scanner_end: scanner.end,
    }
}

/// How many calls the seats made together, or the largest number for all above it.
fn count_calls<J: Opening>(seats: &Seats<J>) -> usize
    ensures { result ≡ min (calls_made seats.now) (2 ^ 64 - 1) }
{
    let ports = seats
        .first
        .calls()
        .len()
        .saturating_add(seats.second.calls().len());
    ports.saturating_add(seats.scanner.calls().len())
}

/// Lends both workers their ports, and the scanner what is left of the agenda, once, until all three end.
fn run_once<'a, J, A, B, G, R>(
    rt: &'a R,
    shared: &'a Shared<J, Records>,
    seats: Seats<J>,
    lanes: Lanes<A, B>,
    agenda: Agenda<'a>,
    gate: &'a G,
    rules: StopRules<'a>,
) -> Result<RunResult<J, A, B>, NoThread>
where
    J: Opening + Send + Sync,
    A: Link + Send + Drop,
    B: Link + Send + Drop,
    G: Gate + Sync,
    R: Threads + Wait + Clock + Sync,
    ensures { IfOk result
        (λ run. AreBack A.Link B.Link seats lanes agenda.entry run) }
{
    let room = EventRoom::new(count_calls(&seats), rules.events);
    let Seats {
        first: first_seat,
        second: second_seat,
        scanner,
    } = seats;
    let Lanes {
        first: first_lane,
        second: second_lane,
    } = lanes;
    let bell = StopSignal::new(rules, (first_lane.quiet, second_lane.quiet), room);
    let first_rope = bell.first();
    let second_rope = bell.second();
    let first = Serving {
        rt,
        shared,
        lent: WorkerLoan {
            seat: first_seat,
            lane: first_lane,
        },
        gate,
        rope: first_rope,
    };
    let second = Serving {
        rt,
        shared,
        lent: WorkerLoan {
            seat: second_seat,
            lane: second_lane,
        },
        gate,
        rope: second_rope,
    };
    let beside = !agenda.is_over();
    let script = ScannerLoan {
        seat: scanner,
        agenda,
    };
    let playing = ScannerPlay {
        rt,
        shared,
        script,
        bell: &bell,
    };
    match run_three(rt, beside, playing, first, second, bell.over()) {
        Ok(run) => Ok(give_back(run)),
        Err(why) => Err(why),
    }
}

impl<J: Opening, A: Drop, B: Drop> RunResult<J, A, B> {
    /// Whether a worker or the scanner found no room.
    fn is_full(&self) -> bool
        ensures { IsTrue result ↔ NoRoom self.now.first_end self.now.second_end
            self.now.scanner_end }
    {
        self.first_end == End::Full
            || self.second_end == End::Full
            || self.scanner_end == TimedEnd::Full
    }

    /// Whether the seats made as many calls as end it, where a number does.
    fn has_called_enough(&self, most: Option<usize>) -> bool
        ensures { IsTrue result → HaveCalledEnough most self.now.seats }
    {
        match most {
            Some(most) => most <= count_calls(&self.seats),
            None => false,
        }
    }

    /// Whether there was no room, the serving is over, or as much was called as ends it.
    fn is_done(&self, rules: StopRules<'_>) -> bool
        ensures done { IsTrue result → IsDone rules.entry.quiet self.now.first_end
            self.now.second_end self.now.scanner_end self.now.lanes
            ⊎ HaveCalledEnough rules.entry.events self.now.seats }
        ensures ends { IsDone rules.entry.quiet self.now.first_end self.now.second_end
            self.now.scanner_end self.now.lanes → IsTrue result }
    {
        self.is_full() || self.lanes.are_over(rules.quiet) || self.has_called_enough(rules.events)
    }
}

/// Serves both ports of a board at once, one of them in this thread and one in a thread of its own, and gives back what it was lent. Each worker
/// makes its turns in slices of one. While both serve, what is left of the agenda happens, each at its time, in another thread where something
/// is left. It ends once a worker or the scanner finds the history full, once both workers made all their turns, and by the rules: once both links
/// were quiet for so many turns in a row, or once the history has so many events; what happens on the board by the agenda is not heard over a link.
/// Where one of the three ends so, the bell rings, the workers end with their slices, and have the turns that they didn't make, and of the agenda
/// the rest is left. So a caller can go on with the same ports, links and agenda on another history. Each of the other two brings one event more
/// at most: with room for two events behind the rule's number no request finds the history full. Where the other worker heard a frame in that
/// slice, neither was quiet, and all go on. Nothing waits for an agenda whose times come later than that.
pub fn run_agenda<J, A, B, G, R>(
    rt: &R,
    shared: &Shared<J, Records>,
    seats: Seats<J>,
    lanes: Lanes<A, B>,
    agenda: Agenda<'_>,
    gate: &G,
    rules: StopRules<'_>,
) -> Result<RunResult<J, A, B>, NoThread>
where
    J: Opening + Send + Sync,
    A: Link + Send + Drop,
    B: Link + Send + Drop,
    G: Gate + Sync,
    R: Threads + Wait + Clock + Sync,
    ensures back { IfOk result
        (λ run. AreBack A.Link B.Link seats lanes agenda.entry run) }
    ensures done { IfOk result (λ run. IsDone rules.entry.quiet run.first_end run.second_end
        run.scanner_end run.lanes ⊎ HaveCalledEnough rules.entry.events run.seats) }
{
    let most = u64::from(lanes.first.turns) + u64::from(lanes.second.turns);
    let next = agenda.table.next;
    let mut sliced = match run_once(rt, shared, seats, lanes, agenda.from(next), gate, rules) {
        Ok(sliced) => sliced,
        Err(why) => return Err(why),
    };
    for _ in 0..most {
        if sliced.is_done(rules) {
            return Ok(sliced);
        }
        let RunResult {
            seats,
            lanes,
            next,
            first_end: _,
            second_end: _,
            scanner_end: _,
        } = sliced;
        match run_once(rt, shared, seats, lanes, agenda.from(next), gate, rules) {
            Ok(next) => sliced = next,
            Err(why) => return Err(why),
        }
    }
    Ok(sliced)
}

/// The same with a timetable that is gone through once, until the history is full, both workers made all their turns, or both links were quiet for
/// the least number of turns in a row, where there is one.
pub fn run_slices<J, A, B, G, R>(
    rt: &R,
    shared: &Shared<J, Records>,
    seats: Seats<J>,
    lanes: Lanes<A, B>,
    table: Timetable<'_>,
    gate: &G,
    least: Option<u32>,
) -> Result<RunResult<J, A, B>, NoThread>
where
    J: Opening + Send + Sync,
    A: Link + Send + Drop,
    B: Link + Send + Drop,
    G: Gate + Sync,
    R: Threads + Wait + Clock + Sync,
    ensures back { IfOk result (λ run. AreBack A.Link B.Link seats lanes
        (once_through table.entry) run) }
    ensures done { IfOk result (λ run. IsDone least run.first_end run.second_end
        run.scanner_end run.lanes) }
{
    let bell = AtomicBool::new(false);
    let rules = StopRules {
        quiet: least,
        events: None,
        bell: &bell,
    };
    run_agenda(rt, shared, seats, lanes, Agenda::once(table), gate, rules)
}
