//! What carries out what a worker's port hears: the board that workers share.
use crate::gate::Gate;
use crate::held::PeriodFull;
use crate::opening::Opening;
use crate::seat::Seat;
use crate::shared::Shared;
use bmc_board::{AskedRef, Carrier, Reply};
use cfg_records::Store;
use std::sync::Wait;
use two_wire::Code;

/// The call of a shared board: it passes the gate, and then waits for the lock.
#[derive(Drop)]
pub(crate) struct Caller<'a, J: Opening, S: Store + Drop, G: Gate, R: Wait> {
    rt: &'a R,
    shared: &'a Shared<J, S>,
    gate: &'a G,
    /// How often the gate was passed before.
    passed: u64,
}

impl<'a, J: Opening, S: Store + Drop, G: Gate, R: Wait> Caller<'a, J, S, G, R> {
    /// The next call of this board, past this gate.
    pub fn new(rt: &'a R, shared: &'a Shared<J, S>, gate: &'a G, passed: u64) -> Self {
        Caller {
            rt,
            shared,
            gate,
            passed,
        }
    }
}

impl<'a, J: Opening, S: Store + Drop, G: Gate, R: Wait> Carrier for Caller<'a, J, S, G, R> {
    ghost use Rattle.bmc_shared.specs.Calling.{HasCalled, HasFoundNoRoom};

    type Kept = Seat<J>;

    type Refusal = PeriodFull;

    ghost carries = { λ caller before asked answered after. HasCalled before asked answered after };

    ghost refuses = { λ caller before why after. HasFoundNoRoom before after };

    #[inline(always)]
    fn carry<B: Reply>(
        &self,
        seat: &mut Seat<J>,
        asked: &AskedRef<'_>,
        reply: &mut B,
    ) -> Result<Result<(), Code>, PeriodFull> {
        self.gate.pass(seat.number(), self.passed);
        self.shared.exchange_into(self.rt, seat, asked, reply)
    }
}
