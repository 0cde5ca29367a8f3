//! What holds of the records of every board.
ghost use Rattle.app_change.specs.PreviewRuns.{ForeseesConfiguration, ForeseesSteps, MeansSo};

/// Where a record accepts the steps of a plan that are on it and can be taken back, its Get then shows all that `foresee` says, while the
/// activity is the same, and the configuration, whatever the activity is; and the next step that it accepts leaves it, or makes another of it, as
/// `foresee` says.
pub fn steps_are_foreseen()
    ensures shown { ForeseesSteps }
    ensures configured { ForeseesConfiguration }
    ensures meant { MeansSo }
{}
