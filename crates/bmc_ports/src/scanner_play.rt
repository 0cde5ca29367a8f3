//! A scanner beside two workers, in a thread of its own: it has happen what is left of an agenda, and gives its seat back.
use crate::agenda::Agenda;
use crate::at_once::Work;
use crate::happening::happen_by_agenda;
use crate::stop_signal::StopSignal;
use crate::timetable::TimedEnd;
use bmc_board::Records;
use bmc_shared::{Opening, Seat, Shared};
use std::sync::Wait;
use std::time::Clock;

/// What a scanner is lent: its seat, and what is to happen.
#[derive(Drop)]
pub(crate) struct ScannerLoan<'a, J: Opening> {
    pub seat: Seat<J>,
    pub agenda: Agenda<'a>,
}

/// What it gives back: its seat, the place of what is next, and why it ended.
#[derive(Drop)]
pub(crate) struct ScannerReturn<J: Opening> {
    pub seat: Seat<J>,
    pub next: usize,
    pub end: TimedEnd,
}

/// What is to be played, until the workers end.
#[derive(Drop)]
pub(crate) struct ScannerPlay<'a, 'b, J: Opening, R: Wait + Clock> {
    pub rt: &'a R,
    pub shared: &'a Shared<J, Records>,
    pub script: ScannerLoan<'a, J>,
    pub bell: &'b StopSignal<'b>,
}

impl<'a, 'b, J: Opening, R: Wait + Clock> Work for ScannerPlay<'a, 'b, J, R> {
    ghost use Rattle.bmc_ports.specs.Timing.{ScannerRun};

    type Given = ScannerReturn<J>;

    ghost gives = { λ work played. ScannerRun work.script played };

    /// Has all happen that is left. Where it's stopped before that, or there is no room for what is next, it rings the bell.
    fn run(self) -> ScannerReturn<J> {
        let ScannerPlay {
            rt,
            shared,
            mut script,
            bell,
        } = self;
        let ScannerLoan { seat, agenda } = &mut script;
        let end = happen_by_agenda(rt, shared, seat, agenda, bell.stops(), bell.room());
        if end != TimedEnd::Over {
            bell.ring();
        }
        ScannerReturn {
            next: script.agenda.table.next,
            seat: script.seat,
            end,
        }
    }
}
