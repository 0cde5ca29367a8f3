//! What a history is of.
use std::marker::Brand;
use std::sync::ledger::Ledger;

/// The board that a history opened with, the room that it has, and the ledger that counts its events. They stand in contracts alone: each call of a
/// program picks them, and no board is copied for them.
pub trait Opening: Ledger {
    ghost use Rattle.std.specs.Prelude.{ℕ};
    ghost use Rattle.cfg_records.specs.declared.board_file.BoardFile.{BoardFile};
    ghost use Rattle.bmc_board.specs.State.{State};

    /// What never changes of the board.
    ghost setup: { BoardFile };

    /// The state that it opened in.
    ghost opening: { State };

    /// How many events there may be.
    ghost room: { ℕ };
}

impl Opening for Brand {
    ghost use Rattle.bmc_board.specs.State.{opened};
    ghost use Rattle.bmc_shared.specs.BareLaws.{bare_file};

    ghost setup = { bare_file };

    ghost opening = { opened bare_file };

    ghost room = { 0 };
}
