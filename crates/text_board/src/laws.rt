//! Laws of the texts of board files.
ghost use Rattle.std.specs.Prelude.{◌≡◌, ℕ, List, Result};
ghost use Rattle.cfg_records.specs.declared.board_file.BoardFile.{BoardFile as AnyBoard};
ghost use Rattle.text_board.specs.declared.fault.FileFault.{FileFault as AnyFault};
ghost use Rattle.text_board.specs.Holds.{ReadsText};

/// A text is read in one way: as one board, or with one fault.
pub fn one_board()
    ensures { (text : List ℕ) (a b : Result AnyBoard AnyFault)
        → ReadsText text a → ReadsText text b → a ≡ b }
{}
