//! The law.

ghost use Rattle.std.specs.Prelude.{List};
ghost use Rattle.cfg_records.specs.declared.board_file.BoardFile.{BoardFile};
ghost use Rattle.text_lines.specs.declared.event.Event.{Event};
ghost use Rattle.model_lab.specs.Lab.{Lab};
ghost use Rattle.model_lab.specs.Played.{plans};
ghost use Rattle.model_headline.specs.Histories.{HasHistory};

/// The events of the board in any run of the lab, in the order in which they happen, are a history: what both ports carried out, under the seats 0 and 1,
/// and what happened on the bench, under seat 2. It replays from the board as the run began to the board as it ended.
pub fn runs_are_histories()
    ensures { (file : BoardFile) (events : List Event) (x : Lab plans)
        → HasHistory file events x }
{}
