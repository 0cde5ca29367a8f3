//! What holds of the records of every board.
ghost use Rattle.app_change.specs.Runs.{KeptLeadAlike};

/// Where a record accepts the steps of a plan that are on it and can be taken back, those that are kept lead it from the value that was found of it to
/// the one to which the plan leads it.
pub fn kept_steps_lead_alike()
    ensures { KeptLeadAlike }
{}
