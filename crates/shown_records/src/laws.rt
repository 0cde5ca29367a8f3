//! What holds of the records of every board.
ghost use Rattle.shown_records.specs.AsItIs.{SetsBack};
ghost use Rattle.shown_records.specs.Foresight.{ChangesRecord, Foresees, ForeseesAll, LeavesAll, StaysSame};

/// Where a record accepts operations, its Get then shows what `shown_after` foresees: of one all that it shows, while the activity is the same,
/// and of one after another the configuration, whatever the activity is.
pub fn gets_are_foreseen()
    ensures foresees { Foresees }
    ensures in_turn { ForeseesAll }
    ensures leaves_all { LeavesAll }
{}

/// Where a record accepts an operation that can be taken back, it stays what it was where `meaning_of` says `Same`, and is another where that
/// says `Changes`.
pub fn meanings_are_right()
    ensures same { StaysSame }
    ensures changes { ChangesRecord }
{}

/// The operation that `op_as_it_is` gives sets its record, from any other value, to what shows the configuration that the Get showed.
pub fn records_are_set_back()
    ensures { SetsBack }
{}
