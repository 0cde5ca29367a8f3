//! What the program does: what its words ask for, with its files.
ghost use Rattle.std.specs.Prelude.{map, string_bytes};
ghost use Rattle.app_base.specs.Ending.{RunEnds};
ghost use Rattle.app_bmclab.specs.Run.{SaysOfLine, SaysOfWords};

use crate::against::check_against;
use crate::ask_words::AskWords;
use crate::check::{TellsCause, check_files};
use crate::check_words::{CheckWay, CheckWords};
use crate::explained::explained_play_of_files;
use crate::notes::Notes;
use crate::schedule_files::{ScheduleFiles, schedule_of_files};
use crate::schedule_words::ScheduleWords;
use crate::words::{FrameWords, PlayWords, Words, read};
use app_base::{Console, TextFiles, refuse, tell_version};
use app_play::PlayFiles;
use bmc_lab::{answer_of_file, explained_of_file, frame_of_file};
use std::alloc::Global;
use std::io;

/// Sends the frame that the words ask for.
fn send<F: TextFiles, W: io::Write, E: io::Write>(
    alloc: Global,
    files: &F,
    words: &FrameWords,
    console: &mut Console<W, E>,
) -> u8
    ensures { RunEnds W.contents E.contents
        (SaysOfWords (F.gives files.now) (Words.Frame words.now))
        console.old console.new result }
{
    let frame = &words.frame;
    let board = words.board.as_deref();
    let bytes = frame.bytes.as_slice();
    if words.explain {
        return explained_of_file(alloc, files, frame.bus, board, bytes, console);
    }
    frame_of_file(alloc, files, frame.bus, board, bytes, console)
}

/// Sends the request that the words ask for.
fn ask<F: TextFiles, W: io::Write, E: io::Write>(
    alloc: Global,
    files: &F,
    words: &AskWords,
    console: &mut Console<W, E>,
) -> u8
    ensures { RunEnds W.contents E.contents
        (SaysOfWords (F.gives files.now) (Words.Ask words.now))
        console.old console.new result }
{
    answer_of_file(
        alloc,
        files,
        words.board.as_deref(),
        &words.request,
        console,
    )
}

/// Plays what the words ask for.
fn play<F: TextFiles, N: io::Write, W: io::Write, E: io::Write>(
    alloc: Global,
    files: &F,
    words: &PlayWords,
    notes: &mut Notes<N>,
    console: &mut Console<W, E>,
) -> u8
    ensures { RunEnds W.contents E.contents
        (SaysOfWords (F.gives files.now) (Words.Play words.now))
        console.old console.new result }
{
    let named = PlayFiles {
        board: words.board.as_str(),
        plan: words.plan.as_str(),
        schedule: words.schedule.as_str(),
    };
    let explain = notes.explain(words.explain);
    let restarts = words.restarts.as_slice();
    explained_play_of_files(
        alloc,
        files,
        explain,
        words.options,
        words.shown,
        restarts,
        named,
        &mut notes.writer,
        console,
    )
}

/// Writes the schedule that the words ask for.
fn write<F: TextFiles, N: io::Write, W: io::Write, E: io::Write>(
    alloc: Global,
    files: &F,
    words: &ScheduleWords,
    notes: &mut Notes<N>,
    console: &mut Console<W, E>,
) -> u8
    ensures { RunEnds W.contents E.contents
        (SaysOfWords (F.gives files.now) (Words.Schedule words.now))
        console.old console.new result }
{
    let named = ScheduleFiles {
        board: words.board.as_str(),
        plan: words.plan.as_str(),
    };
    schedule_of_files(
        alloc,
        files,
        words.wanted,
        named,
        &mut notes.writer,
        console,
    )
}

/// Checks the files that the words name.
fn check<F: TextFiles + TellsCause, W: io::Write, E: io::Write>(
    alloc: Global,
    files: &F,
    words: &CheckWords,
    console: &mut Console<W, E>,
) -> u8
    ensures { RunEnds W.contents E.contents
        (SaysOfWords (F.gives files.now) (Words.Check words.now))
        console.old console.new result }
{
    let named = words.files.as_slice();
    match &words.way {
        CheckWay::Alone(form) => check_files(alloc, files, *form, named, console),
        CheckWay::Against(board) => { check_against(alloc, files, board.as_str(), named, console) }
    }
}

/// Does what the words ask for.
fn carry_out<F: TextFiles + TellsCause, N: io::Write, W: io::Write, E: io::Write>(
    alloc: Global,
    files: &F,
    words: &Words,
    notes: &mut Notes<N>,
    console: &mut Console<W, E>,
) -> u8
    ensures { RunEnds W.contents E.contents (SaysOfWords (F.gives files.now) words.now)
        console.old console.new result }
{
    match words {
        Words::Frame(words) => send(alloc, files, words, console),
        Words::Ask(words) => ask(alloc, files, words, console),
        Words::Play(words) => play(alloc, files, words, notes, console),
        Words::Schedule(words) => write(alloc, files, words, notes, console),
        Words::Check(words) => check(alloc, files, words, console),
        Words::Version => tell_version(console),
    }
}

/// Does what the words of a command line ask for, the program's own name first among them, with these files: what `frame_of_file`,
/// `explained_of_file`, `answer_of_file`, `play_of_files`, `schedule_of_files`, `check_files`, `check_against` or `tell_version` does. Where they
/// ask for nothing it reads no file, standard error gets why or the help that is asked for, and the status is 2. What explains a play, where the
/// words ask for that or the notes go to a terminal, and what is told of a schedule that is written, goes to the notes.
pub fn run_line<F: TextFiles + TellsCause, N: io::Write, W: io::Write, E: io::Write>(
    alloc: Global,
    files: &F,
    words: &[String],
    notes: &mut Notes<N>,
    console: &mut Console<W, E>,
) -> u8
    ensures { RunEnds W.contents E.contents
        (SaysOfLine (F.gives files.now) (map string_bytes words.now))
        console.old console.new result }
{
    match read(alloc, words) {
        Ok(asked) => carry_out(alloc, files, &asked, notes, console),
        Err(refusal) => refuse(&refusal, console),
    }
}
