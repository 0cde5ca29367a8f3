//! What a board does with a step's Set.
ghost use Rattle.std.specs.Prelude.{◌≡◌, IfOk, IfErr};
ghost use Rattle.bmc_board.specs.State.{state_of};
ghost use Rattle.bmc_lab.specs.Answers.{CarriesOutOp, RefusesSet};

use bmc_board::{Board, Records};
use record_base::{Op, RecordKind};
use record_kinds::Limits;
use two_wire::Code;
use undo_plans::MOST_REQUESTS;

/// Has the board carry the operation out, or gives the code with which it refuses that.
pub(crate) fn set(board: &mut Board<Records>, op: &Op<'_>) -> Result<(), Code>
    ensures done { IfOk result (λ _.
        CarriesOutOp board.old.setup op.now (state_of board.old) (state_of board.new)) }
    ensures refused { IfErr result (λ code.
        RefusesSet board.old.setup op.now (state_of board.old) code (state_of board.new)) }
    ensures setup { board.new.setup ≡ board.old.setup }
{
    let whole = Limits::set_data(op);
    let _count = whole.as_slice().len();
    let mut asked = Limits::set_asked(op);
    for place in 0..MOST_REQUESTS {
        let reply = board.answer(&asked);
        if let Some(code) = Code::new(reply.code) {
            return Err(code);
        }
        let Some(next) = Limits::set_next(op, place + 1) else {
            return Ok(());
        };
        asked = next;
    }
    Ok(())
}
