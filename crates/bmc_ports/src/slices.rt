//! Two port workers that are lent ports and links, and give them back after some of their turns.
ghost use Rattle.std.specs.Prelude.{◌≡◌, ◌≤◌, true, [], ◌∷◌};
ghost use Rattle.bmc_shared.specs.declared.worker.End.TheVariants.{Turns, Full};
ghost use Rattle.bmc_ports.specs.Slices.{IsQuiet, SomeTurn, WorkerEnd};

use crate::at_once::Work;
use crate::lane::Lane;
use crate::silence::forget_silent;
use crate::stop_signal::StopHandle;
use bmc_board::Records;
use bmc_shared::{End, Gate, Opening, Seat, Shared, WorkerState, turn};
use cfg_records::Store;
use std::sync::Wait;
use two_wire::Frame;
use wire_links::Link;

/// What a worker is lent.
#[derive(Drop)]
pub(crate) struct WorkerLoan<J: Opening, L> {
    pub seat: Seat<J>,
    pub lane: Lane<L>,
}

/// What a worker gives back: what it was lent, once it worked with it, and why it ended.
#[derive(Drop)]
pub(crate) struct WorkerReturn<J: Opening, L> {
    pub lent: WorkerLoan<J, L>,
    pub end: End,
}

/// How many quiet turns there are in a row, behind a turn that heard this.
fn quiet_behind(heard: &Option<Frame>, quiet: u32) -> u32
    ensures { IsQuiet quiet (heard.now ∷ []) result }
{
    match heard {
        Some(_) => 0,
        None => quiet.saturating_add(1),
    }
}

/// Makes a turn of a lane, counts it, and says how its worker ends by it, or would.
fn make_turn<J: Opening, S: Store + Drop, L: Link, G: Gate, R: Wait>(
    rt: &R,
    shared: &Shared<J, S>,
    seat: &mut Seat<J>,
    lane: &mut Lane<L>,
    desk: &mut WorkerState<'_, G>,
) -> End
    requires { 1 ≤ lane.old.turns }
    ensures turn { SomeTurn L.Link result
        seat.old.calls.items seat.new.calls.items lane.old lane.new }
    ensures marked { result ≡ Full → seat.new.refused ≡ true }
    ensures mark { result ≡ Turns → seat.new.refused ≡ seat.old.refused }
    ensures number { seat.new.number ≡ seat.old.number }
{
    let Lane {
        port,
        link,
        turns,
        quiet,
        forget,
        silence,
    } = lane;
    let turned = turn(rt, shared, seat, port, link, desk);
    *turns -= 1;
    *quiet = quiet_behind(&turned.heard, *quiet);
    forget_silent(port, silence, *forget, &turned.heard);
    turned.end
}

/// Serves a port, a slice of one turn at a time, until its turns are over, its worker finds no room, or the bell rings. A worker that finds
/// no room rings it, and so does one that fills the room as far as it's to be, and one whose link was quiet for long enough, where the other's
/// was.
fn serve_slices<J: Opening, S: Store + Drop, L: Link, G: Gate, R: Wait>(
    rt: &R,
    shared: &Shared<J, S>,
    seat: &mut Seat<J>,
    lane: &mut Lane<L>,
    gate: &G,
    rope: &StopHandle<'_>,
) -> End
    ensures goes { WorkerEnd L.Link result
        seat.old.calls.items seat.new.calls.items lane.old lane.new }
    ensures marked { result ≡ Full → seat.new.refused ≡ true }
    ensures mark { result ≡ Turns → seat.new.refused ≡ seat.old.refused }
    ensures number { seat.new.number ≡ seat.old.number }
{
    let mut desk = WorkerState::new(gate);
    for _ in 0..lane.turns {
        let held = seat.calls().len();
        match make_turn(rt, shared, seat, lane, &mut desk) {
            End::Full => {
                rope.ring();
                return End::Full;
            }
            End::Turns => {}
        }
        let gained = seat.calls().len().saturating_sub(held);
        if rope.tell(gained, lane.quiet) {
            return End::Turns;
        }
    }
    End::Turns
}

/// A port to be served that is lent.
#[derive(Drop)]
pub(crate) struct Serving<'a, 'b, J: Opening, L, G: Gate, R: Wait> {
    pub rt: &'a R,
    pub shared: &'a Shared<J, Records>,
    pub lent: WorkerLoan<J, L>,
    pub gate: &'a G,
    pub rope: StopHandle<'b>,
}

impl<'a, 'b, J: Opening, L: Link + Drop, G: Gate, R: Wait> Work for Serving<'a, 'b, J, L, G, R> {
    ghost use Rattle.bmc_ports.specs.Slices.{GivesBack};

    type Given = WorkerReturn<J, L>;

    ghost gives = { λ work back. GivesBack L.Link work.lent back.lent back.end };

    fn run(self) -> WorkerReturn<J, L> {
        let Serving {
            rt,
            shared,
            mut lent,
            gate,
            rope,
        } = self;
        let WorkerLoan { seat, lane } = &mut lent;
        let end = serve_slices(rt, shared, seat, lane, gate, &rope);
        WorkerReturn { lent, end }
    }
}
