//! What the definitions of Sets say of requests from outside: each is the contract of a function without a body.
ghost use Rattle.cfg_records.specs.Records.{Records};
ghost use Rattle.cfg_records.specs.declared.board_file.BoardFile.{BoardFile};
ghost use Rattle.record_base.specs.declared.live.Live.{Live as LivePart};
ghost use Rattle.test_records.specs.PartsSet.{HasText, GoesInThree};
ghost use Rattle.test_records.specs.StoresSet.{HasChannel, ChangesTogether};
ghost use Rattle.test_records.specs.WholeSet.{HasSettings, SetsWhole};

/// A text of 400 bytes comes in three parts, among others that are refused.
fn text_goes_in_three()
    ensures { (setup : BoardFile) (records : Records) (live : LivePart) → HasText setup records
        → GoesInThree setup records live }
{}

/// Two stores of a channel change, or neither does.
fn stores_change_together()
    ensures { (setup : BoardFile) (records : Records) → HasChannel setup records
        → ChangesTogether setup records }
{}

/// A Set changes its record and the live part, or neither.
fn watchdog_is_set()
    ensures { (setup : BoardFile) (records : Records) (live : LivePart) → HasSettings records
        → SetsWhole setup records live }
{}

#[test]
fn definitions_say_what_comes_of_sets(_: HostRuntime) {
    text_goes_in_three();
    stores_change_together();
    watchdog_is_set();
}
