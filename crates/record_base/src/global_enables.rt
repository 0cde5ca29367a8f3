//! The global enables: in a board file, and as they are set.
ghost use Rattle.std.specs.Prelude.{◌≡◌, [], ◌∷◌};
ghost use Rattle.record_base.specs.GlobalEnables.{AreGlobalEnables, are_enables};
ghost use Rattle.record_base.specs.PartLaws.{AreGlobalEnables-prop};

use crate::key::Key;
use crate::mask::has;
use crate::start_value::StartValue;

/// The reserved bit, which no global enables have.
const RESERVED_PLACE: usize = 4;

/// The enables of the whole controller, by the bits of Set BMC Global Enables (IPMI 2.0): bit 3 says whether events go into the
/// log. Bit 4 is reserved.
#[derive(Clone, Copy, Debug)]
pub struct GlobalEnables {
    pub byte: u8,
    ghost valid: { AreGlobalEnables (byte ∷ []) } by { AreGlobalEnables-prop (byte ∷ []) },
}

/// Sets the global enables, by the byte of the request.
#[derive(Clone, Copy)]
pub struct SetGlobalEnables {
    pub byte: u8,
}

/// Whether global enables can have this byte: its reserved bit is 0.
pub fn are_enables(byte: u8) -> bool
    ensures { result ≡ are_enables byte }
{
    !has(byte, RESERVED_PLACE)
}

impl GlobalEnables {
    ghost use Rattle.std.specs.Prelude.{◌≡◌, ◌↔◌, [], ◌∷◌, IsSome, IfSome};
    ghost use Rattle.record_base.specs.GlobalEnables.{AreGlobalEnables};
    ghost use Rattle.record_base.specs.Values.{enables_value};

    /// The enables of this byte, or nothing where its reserved bit is set.
    pub fn new(byte: u8) -> Option<GlobalEnables>
        ensures made { IsSome result ↔ AreGlobalEnables (byte ∷ []) }
        ensures byte { IfSome result (λ made. made.byte ≡ byte) }
    {
        if !are_enables(byte) {
            return None;
        }
        Some(GlobalEnables { byte })
    }

    /// The record of the enables.
    pub fn pair(&self) -> (Key, StartValue)
        ensures { result ≡ (Key.GlobalEnables, enables_value self.now) }
    {
        (Key::GlobalEnables, StartValue::few(&[self.byte]))
    }
}
