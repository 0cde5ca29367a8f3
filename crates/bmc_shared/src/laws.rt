//! What holds of histories alone, apart from any lock.
ghost use Rattle.bmc_shared.specs.Follows.{ReplaysByRelation, HistoryGoesOn};
ghost use Rattle.bmc_shared.specs.Gets.{GetsWhatWasSet};

/// A history replays exactly where the command relation leads from each of its states to the next, and it goes on by each call that the
/// board answers at its end.
pub fn replay_law()
    ensures relation { ReplaysByRelation }
    ensures goes_on { HistoryGoesOn }
{}

/// Whoever asks, a Get of a record shows what the last Set of it in the history wrote, or the part of it that is asked for.
pub fn get_law()
    ensures { GetsWhatWasSet }
{}
