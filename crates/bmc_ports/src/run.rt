//! Two port workers and a scanner, at once.
ghost use Rattle.std.specs.Prelude.{IfOk};
ghost use Rattle.bmc_ports.specs.Seated.{AllComeBack};

use crate::at_once::{NoThread, TrioReturn, Work, run_three};
use crate::scanner::scan;
use bmc_board::{Bench, Records};
use bmc_core::Port;
use bmc_shared::{End, Gate, Opening, Seat, Seats, Shared, serve_port};
use std::sync::Wait;
use std::sync::atomic::AtomicBool;
use std::thread::Threads;
use wire_links::Link;

/// What a worker or the scanner gives back: its seat, with what it called, and why it ended.
#[derive(Drop)]
struct Ended<J: Opening> {
    seat: Seat<J>,
    end: End,
}

/// A port to be served, with its seat and its link.
#[derive(Drop)]
struct Serving<'a, J: Opening, L: Link, G: Gate, R: Wait> {
    rt: &'a R,
    shared: &'a Shared<J, Records>,
    seat: Seat<J>,
    port: Port,
    link: &'a mut L,
    gate: &'a G,
    turns: u32,
}

impl<'a, J: Opening, L: Link, G: Gate, R: Wait> Work for Serving<'a, J, L, G, R> {
    ghost use Rattle.bmc_ports.specs.Seated.{ComesBack};

    type Given = Ended<J>;

    ghost gives = { λ work ended. ComesBack work.seat ended.seat ended.end };

    fn run(self) -> Ended<J> {
        let Serving {
            rt,
            shared,
            mut seat,
            mut port,
            link,
            gate,
            turns,
        } = self;
        let end = serve_port(rt, shared, &mut seat, &mut port, link, gate, turns);
        drop(port);
        Ended { seat, end }
    }
}

/// Events that are to happen, with the scanner's seat.
#[derive(Drop)]
struct Happening<'a, J: Opening, R: Wait> {
    rt: &'a R,
    shared: &'a Shared<J, Records>,
    seat: Seat<J>,
    bench: &'a [Bench],
    turns: u32,
}

impl<'a, J: Opening, R: Wait> Work for Happening<'a, J, R> {
    ghost use Rattle.bmc_ports.specs.Seated.{ComesBack};

    type Given = Ended<J>;

    ghost gives = { λ work ended. ComesBack work.seat ended.seat ended.end };

    fn run(self) -> Ended<J> {
        let Happening {
            rt,
            shared,
            mut seat,
            bench,
            turns,
        } = self;
        let end = scan(rt, shared, &mut seat, bench, turns);
        Ended { seat, end }
    }
}

/// Serves both ports of a board at once and has events happen on it, until all three end. One of the three runs in the caller's thread, and the
/// others in threads of their own. Each makes at most so many turns: a port's worker makes one with each call of its link's `next`, and the scanner
/// with each event of its list.
pub fn run_two<J, A, B, G, R>(
    rt: &R,
    shared: &Shared<J, Records>,
    seats: Seats<J>,
    ports: [Port; 2],
    first_link: &mut A,
    second_link: &mut B,
    bench: &[Bench],
    gate: &G,
    turns: u32,
) -> Result<(Seats<J>, [End; 3]), NoThread>
where
    J: Opening + Send + Sync,
    A: Link + Send,
    B: Link + Send,
    G: Gate + Sync,
    R: Threads + Wait + Sync,
    ensures { IfOk result (λ run. AllComeBack seats.first seats.second seats.scanner run.0 run.1) }
{
    let Seats {
        first,
        second,
        scanner,
    } = seats;
    let [first_port, second_port] = ports;
    let first = Serving {
        rt,
        shared,
        seat: first,
        port: first_port,
        link: first_link,
        gate,
        turns,
    };
    let second = Serving {
        rt,
        shared,
        seat: second,
        port: second_port,
        link: second_link,
        gate,
        turns,
    };
    let scanner = Happening {
        rt,
        shared,
        seat: scanner,
        bench,
        turns,
    };
    let over = AtomicBool::new(false);
    let TrioReturn {
        scanner,
        first,
        second,
    } = run_three(rt, !bench.is_empty(), scanner, first, second, &over)?;
    let seats = Seats {
        first: first.seat,
        second: second.seat,
        scanner: scanner.seat,
    };
    Ok((seats, [first.end, second.end, scanner.end]))
}
