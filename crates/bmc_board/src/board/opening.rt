//! A board's beginning.
ghost use Rattle.std.specs.Prelude.{◌≡◌, IfOk};
ghost use Rattle.bmc_board.specs.State.{opened, state_of};

use crate::board::Board;
use cfg_records::{BoardFile, PackedStore};
use std::alloc::{AllocError, Global};

/// The store that a controller's board keeps its records in. The programs name it so, and no store by its own name.
pub type Records = PackedStore;

impl Board<Records> {
    /// A board of this file over a store of its own.
    pub fn of_file(alloc: Global, file: BoardFile) -> Result<Self, AllocError>
        ensures setup { IfOk result (λ board. board.setup ≡ file) }
        ensures state { IfOk result
            (λ board. state_of board ≡ opened file) }
    {
        match Records::of_file(alloc, &file) {
            Ok(store) => Board::open(alloc, file, store),
            Err(AllocError) => Err(AllocError),
        }
    }
}
