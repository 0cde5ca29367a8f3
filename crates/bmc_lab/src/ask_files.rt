//! One request to a fresh controller whose board a file may hold.
ghost use Rattle.std.specs.Option.{option_copied};
ghost use Rattle.app_base.specs.Ending.{RunEnds};
ghost use Rattle.bmc_lab.specs.AskFiles.{SaysOfAsk};

use crate::asking::ask_run;
use app_base::files::refuse;
use app_base::{Console, TextFiles, text_of};
use record_base::Asked;
use std::alloc::Global;
use std::io;

/// Sends a request to a fresh controller with the board of the file that a word names, or with the sample board where no word is given: what `ask_run`
/// does, once the file is read. Where it can't be read, standard error gets `file` and the word, and the status is 3.
pub fn answer_of_file<F: TextFiles, W: io::Write, E: io::Write>(
    alloc: Global,
    files: &F,
    board: Option<&str>,
    asked: &Asked,
    console: &mut Console<W, E>,
) -> u8
    ensures { RunEnds W.contents E.contents
        (SaysOfAsk (F.gives files.now) (option_copied board.entry) asked.now)
        console.old console.new result }
{
    let Some(word) = board else {
        return ask_run(alloc, None, asked, console);
    };
    match text_of(files, word) {
        Ok(text) => ask_run(alloc, Some(text.as_str()), asked, console),
        Err(unread) => refuse(alloc, &unread, console),
    }
}
