//! What carries requests out.
use crate::asked_ref::AskedRef;
use crate::reply::Reply;
use two_wire::Code;

/// What carries requests out, or refuses to. A port asks one, and knows no more of it.
pub trait Carrier {
    ghost use Rattle.std.specs.Prelude.{◌+◌, ◌≤◌, length, IfOk, IfErr};
    ghost use Rattle.record_base.specs.declared.message.Asked.{Asked};
    ghost use Rattle.record_base.specs.declared.message.Answered.{Answered};
    ghost use Rattle.record_base.specs.Meaning.{room_for};
    ghost use Rattle.bmc_board.specs.Asking.{as_asked};
    ghost use Rattle.bmc_board.specs.Carrying.{IsCarriedRequest};

    /// What it changes.
    type Kept;

    /// Why it carries a request out no more.
    type Refusal;

    /// A request with this answer changed what is kept so.
    ghost carries: { Self → Self.Kept → Asked → Answered → Self.Kept → Type 0 };

    /// A request that the carrier refused to carry out changed what is kept so.
    ghost refuses: { Self → Self.Kept → Self.Refusal → Self.Kept → Type 0 };

    /// Carries the request out, and appends the data of the reply.
    fn carry<B: Reply>(
        &self,
        kept: &mut Self::Kept,
        asked: &AskedRef<'_>,
        reply: &mut B,
    ) -> Result<Result<(), Code>, Self::Refusal>
        requires room { length (B.bytes reply.old) + room_for (as_asked asked.now) ≤ B.capacity }
        ensures carried { IfOk result (λ given.
            IsCarriedRequest (carries self.now kept.old) (as_asked asked.now)
            given (B.bytes reply.old) (B.bytes reply.new) kept.new) }
        ensures refused { IfErr result (λ why. refuses self.now kept.old why kept.new) };
}
