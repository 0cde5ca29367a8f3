//! A schedule of a plan on a board: what is said of two files.
ghost use Rattle.std.specs.Prelude.{IfOk, IfErr, string_bytes};
ghost use Rattle.app_base.specs.Ending.{RunEnds};
ghost use Rattle.app_base.specs.Files.{FirstUnread};
ghost use Rattle.app_bmclab.specs.ScheduledFiles.{words_of, ArePlanTexts, PrintsScheduleOfFiles};

use crate::schedule_text::schedule_run;
use app_base::files::refuse;
use app_base::{Console, ReadFault, TextFiles, text_of};
use lab_play::ScheduleOptions;
use std::alloc::Global;
use std::io;

/// The words that name the files of a schedule to be made.
#[derive(Clone, Copy)]
pub struct ScheduleFiles<'a> {
    /// The board file's word.
    pub board: &'a str,
    /// The plan's word.
    pub plan: &'a str,
}

/// The texts of these files.
#[derive(Drop)]
struct Texts {
    board: String,
    plan: String,
}

/// The texts of the files, or the first that isn't read.
fn texts_of<'a, F: TextFiles>(files: &F, words: ScheduleFiles<'a>) -> Result<Texts, ReadFault<'a>>
    ensures texts { IfOk result
        (λ texts. ArePlanTexts (F.gives files.now) (words_of words.entry)
        (string_bytes texts.board) (string_bytes texts.plan)) }
    ensures unread { IfErr result
        (λ unread. FirstUnread (F.gives files.now) (words_of words.entry)
        unread.word.now unread.why) }
{
    let board = text_of(files, words.board)?;
    let plan = text_of(files, words.plan)?;
    Ok(Texts { board, plan })
}

/// Writes a schedule of a plan on the board of a board file: what `schedule_run` does, once both files are read, in the order of the words.
/// Where one can't be read, standard error gets `file` and its word, and the status is 3.
pub fn schedule_of_files<F: TextFiles, N: io::Write, W: io::Write, E: io::Write>(
    alloc: Global,
    files: &F,
    wanted: ScheduleOptions,
    words: ScheduleFiles,
    notes: &mut N,
    console: &mut Console<W, E>,
) -> u8
    ensures { RunEnds W.contents E.contents
        (PrintsScheduleOfFiles (F.gives files.now) wanted (words_of words.entry))
        console.old console.new result }
{
    match texts_of(files, words) {
        Ok(Texts { board, plan }) => {
            schedule_run(alloc, wanted, board.as_str(), plan.as_str(), notes, console)
        }
        Err(unread) => refuse(alloc, &unread, console),
    }
}
