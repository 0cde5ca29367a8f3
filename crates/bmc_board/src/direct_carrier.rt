//! A board that carries requests out itself.
ghost use Rattle.std.specs.Prelude.{◌≡◌, ◌+◌, ◌≤◌, length};
ghost use Rattle.record_base.specs.Meaning.{room_for};
ghost use Rattle.bmc_board.specs.Gives.{GivesReply};
ghost use Rattle.bmc_board.specs.Serves.{given_by};
ghost use Rattle.bmc_board.specs.State.{state_of};
ghost use Rattle.bmc_board.specs.Asking.{as_asked};

use crate::asked_ref::AskedRef;
use crate::board::Board;
use crate::carrier::Carrier;
use crate::reply::Reply;
use cfg_records::Store;
use std::convert::Infallible;
use std::marker::PhantomData;
use two_wire::Code;

/// Has the board answer a request, and appends the data of the reply. It takes no memory.
#[inline(always)]
pub fn answer_into<S: Store, B: Reply>(
    board: &mut Board<S>,
    asked: &AskedRef<'_>,
    reply: &mut B,
) -> Result<(), Code>
    requires room { length (B.bytes reply.old) + room_for (as_asked asked.now) ≤ B.capacity }
    ensures given { GivesReply result (B.bytes reply.old) (B.bytes reply.new)
        (given_by board.old (as_asked asked.now)).0 }
    ensures left { state_of board.new
        ≡ (given_by board.old (as_asked asked.now)).1 }
    ensures setup { board.new.setup ≡ board.old.setup }
    ensures fits { length (given_by board.old (as_asked asked.now)).0.body
        ≤ room_for (as_asked asked.now) }
{
    board.reply(asked.requester(), asked.command(), asked.body(), reply)
}

/// Has a board carry out whatever it is asked, with no history.
#[derive(Clone, Copy)]
pub struct DirectCarrier<S> {
    of: PhantomData<S>,
}

impl<S> DirectCarrier<S> {
    /// The one that there is.
    pub fn new() -> Self {
        DirectCarrier { of: PhantomData }
    }
}

impl<S: Store> Carrier for DirectCarrier<S> {
    ghost use Rattle.bmc_board.specs.Carrying.{IsOneAnswer};

    type Kept = Board<S>;

    type Refusal = Infallible;

    ghost carries = { λ alone before asked answered after.
        IsOneAnswer before asked answered after };

    ghost refuses = { λ alone before why after. ⊥ };

    #[inline(always)]
    fn carry<B: Reply>(
        &self,
        kept: &mut Board<S>,
        asked: &AskedRef<'_>,
        reply: &mut B,
    ) -> Result<Result<(), Code>, Infallible> {
        Ok(answer_into(kept, asked, reply))
    }
}
