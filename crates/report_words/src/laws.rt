//! The law of the list of changed records.
ghost use Rattle.std.specs.Prelude.{◌≡◌, length};
ghost use Rattle.cfg_records.specs.declared.board_file.BoardFile.{BoardFile as AnyFile};
ghost use Rattle.cfg_records.specs.Boards.{pairs_of};
ghost use Rattle.cfg_records.specs.Changed.{changed_in};
ghost use Rattle.cfg_records.specs.Records.{Records as AllRecords};
ghost use Rattle.report_words.specs.Changes.{changed_lines};

/// There are as many lines as records are counted to have another value.
pub fn each_change_is_listed()
    ensures { (file : AnyFile) (records : AllRecords)
        → length (changed_lines file records) ≡ changed_in records (pairs_of file) }
{}
