//! To whom frames go.

/// To whom a frame goes.
#[derive(Clone, Copy)]
pub enum Way {
    ToPort,
    ToManager,
    ToOthers,
}

impl Way {
    ghost use Rattle.std.specs.Prelude.{◌≡◌};
    ghost use Rattle.model_lab.specs.Faults.{same_way};

    /// Whether it's this one.
    pub fn is(self, other: Way) -> bool
        ensures { result ≡ same_way self other }
    {
        match (self, other) {
            (Way::ToPort, Way::ToPort)
            | (Way::ToManager, Way::ToManager)
            | (Way::ToOthers, Way::ToOthers) => true,
            _ => false,
        }
    }
}
