//! The scanner: what happens on a board beside requests.
ghost use Rattle.std.specs.Prelude.{◌≡◌, true};
ghost use Rattle.bmc_shared.specs.declared.worker.End.TheVariants.{Turns, Full};
ghost use Rattle.bmc_ports.specs.Scanning.{ScannerTurns};

use bmc_board::Bench;
use bmc_shared::{End, Opening, PeriodFull, Seat, Shared};
use cfg_records::Store;
use std::sync::Wait;

/// Has events happen on the board, one a turn, for so many turns, or up to the list's end, or until the board's history is full.
pub(crate) fn scan<J: Opening, S: Store + Drop, R: Wait>(
    rt: &R,
    shared: &Shared<J, S>,
    seat: &mut Seat<J>,
    bench: &[Bench],
    turns: u32,
) -> End
    ensures scanned { ScannerTurns result turns bench.now
        seat.old.calls.items seat.new.calls.items }
    ensures marked { result ≡ Full → seat.new.refused ≡ true }
    ensures mark { result ≡ Turns → seat.new.refused ≡ seat.old.refused }
    ensures number { seat.new.number ≡ seat.old.number }
{
    for turn in 0..turns as usize {
        let Some(event) = bench.get(turn) else {
            return End::Turns;
        };
        match shared.bench(rt, seat, *event) {
            Ok(_) => {}
            Err(PeriodFull) => return End::Full,
        }
    }
    End::Turns
}
