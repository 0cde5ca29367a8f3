//! What came of looking at files.
ghost use Rattle.std.specs.Prelude.{◌≡◌};
ghost use Rattle.text_check.specs.Outcomes.{is_among, worst_of};

/// What came of looking at a file.
#[derive(Clone, Copy, Debug, PartialEq, Eq)]
pub enum Outcome {
    /// Nothing is told but what it holds.
    Fine,
    /// The file has a key that is unknown, or that isn't used, or a sensor data record that fits no sensor.
    Told,
    /// The file is refused.
    Refused,
}

/// Whether this came of one of the files.
fn is_among(outcome: Outcome, outcomes: &[Outcome]) -> bool
    ensures { result ≡ is_among outcome outcomes.now }
{
    outcomes.iter().any(|other| *other == outcome)
}

/// What came of several files: one is refused, or else something is told of one.
pub fn worst(outcomes: &[Outcome]) -> Outcome
    ensures { result ≡ worst_of outcomes.now }
{
    if is_among(Outcome::Refused, outcomes) {
        return Outcome::Refused;
    }
    if is_among(Outcome::Told, outcomes) {
        return Outcome::Told;
    }
    Outcome::Fine
}
