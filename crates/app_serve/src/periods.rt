//! A board that is served period by period, each with a history of its own, over the same ports and links, while an agenda goes on.
ghost use Rattle.std.specs.Prelude.{◌≡◌, ◌<◌, ◌+◌, ◌^◌, ◌↔◌, IfOk, IsTrue};
ghost use Rattle.bmc_ports.specs.Slices.{EndsAt};
ghost use Rattle.bmc_board.specs.State.{state_of};
ghost use Rattle.app_serve.specs.Served.{most_events};
ghost use Rattle.app_serve.specs.Periods.{EndsServing, IsClosed, GoesToNext, RunsTo, events_of_period};

use crate::board::{OpenGate, open_board};
use app_base::ReportFault;
use bmc_board::{Board, Records};
use bmc_ports::{
    Agenda, History, Lanes, Link, MOST_EVENTS, Opening, RunResult, Shared, StopRules, run_agenda,
};
use std::alloc::Global;
use std::marker::Brand;
use std::sync::Wait;
use std::sync::atomic::AtomicBool;
use std::sync::ledger::Blank;
use std::thread::Threads;
use std::time::Clock;

/// With how much room left a period ends, where another one follows: the two others who bring events each have one under way at most.
const ROOM_LEFT: usize = 2;

/// How a board is served.
#[derive(Clone, Copy)]
pub struct ServeRules<'b> {
    /// Whether a history whose room is over is closed, and the next one opened.
    pub periods: bool,
    /// For how many turns in a row both ports hear nothing before the serving ends, where their turns alone don't end it.
    pub quiet: Option<u32>,
    /// What is set once a port's worker is to stop. A link that waits for a frame may look at it.
    pub bell: &'b AtomicBool,
}

impl<'b> ServeRules<'b> {
    /// What ends the serving of one history. Where another one follows, it ends while there is room for all that is under way.
    fn stop_rules(self) -> StopRules<'b>
        ensures quiet { result.quiet ≡ self.entry.quiet }
        ensures events { result.events ≡ events_of_period self.entry.periods }
    {
        let events = if self.periods {
            Some(MOST_EVENTS - ROOM_LEFT)
        } else {
            None
        };
        StopRules {
            quiet: self.quiet,
            events,
            bell: self.bell,
        }
    }
}

/// A board that was served so far: with which ports, links and turns it's served on, what is to happen on it, and how many events its
/// histories have in all.
#[derive(Drop)]
pub struct PeriodState<'a, A, B> {
    pub board: Board<Records>,
    pub lanes: Lanes<A, B>,
    pub agenda: Agenda<'a>,
    pub events: usize,
}

/// What a period left, and its history.
#[derive(Drop)]
struct Period<A, B> {
    board: Board<Records>,
    lanes: Lanes<A, B>,
    /// The place of the first of the agenda that hasn't happened.
    next: usize,
    history: History,
}

/// The board and the history of a period that is over, where the seats' lists are the history's.
fn close_period<J: Opening, A: Drop, B: Drop>(
    shared: Shared<J, Records>,
    sliced: RunResult<J, A, B>,
) -> Result<Period<A, B>, ReportFault>
    requires three { J.parts ≡ 3 }
    ensures closed { IfOk result (λ period. IsClosed J.setup J.opening
        (state_of period.board) J.room sliced.seats period.history) }
    ensures setup { IfOk result (λ period. period.board.setup ≡ J.setup) }
    ensures lanes { IfOk result (λ period. period.lanes ≡ sliced.lanes) }
    ensures next { IfOk result (λ period. period.next ≡ sliced.next) }
{
    let RunResult {
        seats,
        lanes,
        next,
        first_end: _,
        second_end: _,
        scanner_end: _,
    } = sliced;
    match shared.close(seats) {
        Ok((board, history)) => Ok(Period {
            board,
            lanes,
            next,
            history,
        }),
        Err(_) => {
            drop(lanes);
            Err(ReportFault::Stopped)
        }
    }
}

impl<'a, A: Link + Send + Drop, B: Link + Send + Drop> PeriodState<'a, A, B> {
    /// A board that is to be served.
    pub fn new(board: Board<Records>, lanes: Lanes<A, B>, agenda: Agenda<'a>) -> Self
        ensures setup { result.board.setup ≡ board.setup }
        ensures state { state_of result.board ≡ state_of board }
        ensures lanes { result.lanes ≡ lanes }
        ensures agenda { result.agenda ≡ agenda.entry }
        ensures events { result.events ≡ 0 }
    {
        PeriodState {
            board,
            lanes,
            agenda,
            events: 0,
        }
    }

    /// Whether both workers made all their turns, or both links were quiet for so many turns in a row, where a number is given.
    pub fn is_over(&self, quiet: Option<u32>) -> bool
        ensures { IsTrue result ↔ EndsAt quiet self.now.lanes }
    {
        self.lanes.are_over(quiet)
    }
}

/// Serves a board for a period more, and counts its history: until both workers made their turns, until both links were quiet for so many turns in
/// a row, where a number is given, or until its room is over. A period's room is taken anew, and the agenda goes on where it was.
fn serve_period<'a, J, A, B, R>(
    rt: &R,
    alloc: Global,
    blank: Blank,
    course: PeriodState<'a, A, B>,
    rules: ServeRules<'_>,
) -> Result<PeriodState<'a, A, B>, ReportFault>
where
    J: Opening + Send + Sync,
    A: Link + Send + Drop,
    B: Link + Send + Drop,
    R: Threads + Wait + Clock + Sync,
    requires name { blank.name ≡ J.name }
    requires parts { blank.parts ≡ J.parts }
    requires three { blank.parts ≡ 3 }
    requires setup { course.board.setup ≡ J.setup }
    requires opening { state_of course.board ≡ J.opening }
    requires room { J.room ≡ most_events }
    requires counted { course.events + most_events < 2 ^ 64 }
    ensures { IfOk result (GoesToNext A.Link B.Link rules.entry.periods rules.entry.quiet
        course.entry) }
{
    let PeriodState {
        board,
        lanes,
        agenda,
        events,
    } = course;
    let left = agenda.from(agenda.table.next);
    let (shared, seats) = match open_board::<J>(alloc, blank, board, MOST_EVENTS) {
        Ok(opened) => opened,
        Err(why) => {
            drop(lanes);
            return Err(why);
        }
    };
    let stops = rules.stop_rules();
    let Ok(sliced) = run_agenda(rt, &shared, seats, lanes, left, &OpenGate, stops) else {
        drop(shared);
        return Err(ReportFault::Stopped);
    };
    let Period {
        board,
        lanes,
        next,
        history,
    } = match close_period(shared, sliced) {
        Ok(period) => period,
        Err(why) => return Err(why),
    };
    let events = events + history.len();
    drop(history);
    Ok(PeriodState {
        board,
        lanes,
        agenda: agenda.from(next),
        events,
    })
}

/// Serves a board over two lanes until both workers made all their turns, or until nothing was heard over either link for so many turns in a
/// row, where a number is given; with one history, or by periods. Meanwhile what the agenda has happens on the board. One history ends the serving
/// once it is full. By periods, a history is closed while it has room for all that is under way, which checks that its seats' lists are the
/// history's; then the next period begins with the same board, ports and links, the turns that are left, and what is left of the agenda. What comes
/// meanwhile waits in the links.
pub fn serve_periods<'a, A, B, R>(
    rt: &R,
    alloc: Global,
    board: Board<Records>,
    lanes: Lanes<A, B>,
    agenda: Agenda<'a>,
    rules: ServeRules<'_>,
) -> Result<PeriodState<'a, A, B>, ReportFault>
where
    A: Link + Send + Drop,
    B: Link + Send + Drop,
    R: Threads + Wait + Clock + Sync,
    ensures runs { IfOk result (RunsTo A.Link B.Link rules.entry.periods rules.entry.quiet
        board.setup (state_of board) lanes agenda.entry) }
    ensures ends { IfOk result (EndsServing rules.entry.periods rules.entry.quiet) }
{
    let most = u64::from(lanes.first.turns) + u64::from(lanes.second.turns);
    let begun = PeriodState::new(board, lanes, agenda);
    let mut course = match serve_period::<Brand, A, B, R>(rt, alloc, Blank::new(3), begun, rules) {
        Ok(course) => course,
        Err(why) => return Err(why),
    };
    if !rules.periods {
        return Ok(course);
    }
    for _ in 0..most {
        if course.is_over(rules.quiet) {
            return Ok(course);
        }
        match serve_period::<Brand, A, B, R>(rt, alloc, Blank::new(3), course, rules) {
            Ok(next) => course = next,
            Err(why) => return Err(why),
        }
    }
    Ok(course)
}
