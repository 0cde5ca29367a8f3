//! The power restore policy: in a board file, and as it is set.
ghost use Rattle.std.specs.Prelude.{[], ◌∷◌};
ghost use Rattle.record_base.specs.PowerPolicy.{IsPowerPolicy};
ghost use Rattle.record_base.specs.PartLaws.{IsPowerPolicy-prop};

use crate::key::Key;
use crate::start_value::StartValue;

/// What a board does when power comes back (IPMI 2.0): 0 stay off, 1 as before, 2 power up, 3 unknown.
#[derive(Clone, Copy, Debug)]
pub struct PowerPolicy {
    pub number: u8,
    ghost valid: { IsPowerPolicy (number ∷ []) } by { IsPowerPolicy-prop (number ∷ []) },
}

/// Sets the power restore policy, by the byte of the request: bits 2:0 are the policy, and 3 changes nothing.
#[derive(Clone, Copy)]
pub struct SetPowerPolicy {
    pub policy: u8,
}

impl PowerPolicy {
    ghost use Rattle.std.specs.Prelude.{◌≡◌, ◌↔◌, [], ◌∷◌, IsSome, IfSome};
    ghost use Rattle.record_base.specs.PowerPolicy.{IsPowerPolicy};
    ghost use Rattle.record_base.specs.Values.{policy_value};

    /// The policy of this number, or nothing where the number is above 3.
    pub fn new(number: u8) -> Option<PowerPolicy>
        ensures made { IsSome result ↔ IsPowerPolicy (number ∷ []) }
        ensures number { IfSome result (λ made. made.number ≡ number) }
    {
        if number > 3 {
            return None;
        }
        Some(PowerPolicy { number })
    }

    /// The record of the policy.
    pub fn pair(&self) -> (Key, StartValue)
        ensures { result ≡ (Key.PowerPolicy, policy_value self.now) }
    {
        (Key::PowerPolicy, StartValue::few(&[self.number]))
    }
}
