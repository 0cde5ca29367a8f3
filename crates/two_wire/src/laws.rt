//! What holds of the definitions.
ghost use Rattle.std.specs.Prelude.{◌≡◌, List, ℕ};
ghost use Rattle.two_wire.specs.Pec.{IsPec, pec};

/// All bytes have a packet error code.
pub fn all_bytes_have_a_pec()
    ensures { (bytes : List ℕ) → IsPec bytes (pec bytes) }
{}

/// No bytes have two of them.
pub fn one_pec()
    ensures { (bytes : List ℕ) (code check : ℕ) → IsPec bytes code → IsPec bytes check
        → code ≡ check }
{}
