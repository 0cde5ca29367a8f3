//! Plays and schedules that are explained.
ghost use Rattle.app_base.specs.Ending.{RunEnds};
ghost use Rattle.app_play.specs.Files.{words_of};
ghost use Rattle.app_play.specs.Strict.{PrintsAskedOfFiles};

use crate::check::{form_words, shown_name};
use app_base::files::refuse;
use app_base::{Console, Ending, Status, TextFiles};
use app_play::{
    Inputs, PlayFiles, PlayOptions, PlayTexts, Shown, is_memory, play_of_files, read_inputs,
    show_asked, texts_of,
};
use lab_play::{explanation, schedule_note};
use std::alloc::{AllocError, Global};
use std::io;
use text_check::{TextForm, form_or};

/// What explains a play.
#[derive(Drop)]
struct Explanation {
    /// A line for each file that looks like something else than what it is read as.
    looks: String,
    /// The lines that explain what was played.
    lines: String,
}

/// Writes the text. Whether that succeeds changes nothing.
pub(crate) fn write_notes<N: io::Write>(notes: &mut N, text: &str) {
    match notes.write_all(text.as_bytes()) {
        Ok(()) => {}
        Err(_) => {}
    }
}

/// Writes what explains a play that ended with this status. Where a file was refused, nothing was played.
fn write_explanation<N: io::Write>(notes: &mut N, status: u8, explanation: &Explanation) {
    write_notes(notes, explanation.looks.as_str());
    if status != u8::from(Status::RefusedFile) {
        write_notes(notes, explanation.lines.as_str());
    }
}

/// Adds a line where the text of the file that the word names looks like something else than this form. An empty text may be of any.
fn push_looks(
    alloc: Global,
    lines: &mut String,
    word: &str,
    text: &str,
    form: TextForm,
) -> Result<(), AllocError> {
    let looks = form_or(alloc, None, text)?;
    if looks == form || looks == TextForm::Empty {
        return Ok(());
    }
    let name = shown_name(alloc, word)?;
    let (form, looks) = (form_words(form), form_words(looks));
    writeln!(lines, "{name} is read as {form}, and looks like {looks}")
}

/// A line for each file of a play that looks like something else than what it is read as, as a board and a plan in each other's place do.
fn looks(alloc: Global, schedule: &str, texts: PlayTexts<'_>) -> Result<String, AllocError> {
    let PlayTexts { board, plan, .. } = texts;
    let mut lines = String::new(alloc);
    push_looks(alloc, &mut lines, board.word, board.text, TextForm::Board)?;
    push_looks(alloc, &mut lines, plan.word, plan.text, TextForm::Plan)?;
    let form = TextForm::Schedule;
    push_looks(alloc, &mut lines, schedule, texts.schedule, form)?;
    Ok(lines)
}

/// Whether one of the places is behind the last of so many events.
fn has_place_behind(places: &[usize], events: usize) -> bool {
    places.iter().any(|place| *place > events)
}

/// The lines that explain the play that these texts tell, whose manager is made again behind the events of these places. Where a text is refused there are
/// none, and so it is where one of the places is behind the last event.
fn explained(alloc: Global, places: &[usize], texts: PlayTexts<'_>) -> Result<String, AllocError> {
    let schedule = texts.schedule;
    match read_inputs(alloc, texts.board.text, texts.plan.text, schedule) {
        Ok(Inputs { file, plan, events }) => {
            let events = events.as_slice();
            if has_place_behind(places, events.len()) {
                drop(file);
                drop(plan);
                return Ok(String::new(alloc));
            }
            explanation(alloc, places, file, plan, events, schedule)
        }
        Err(why) if is_memory(&why) => Err(AllocError),
        Err(_) => Ok(String::new(alloc)),
    }
}

/// What explains the play that these texts tell, of which the schedule's file has this word.
fn explanation_of(
    alloc: Global,
    places: &[usize],
    schedule: &str,
    texts: PlayTexts<'_>,
) -> Result<Explanation, AllocError> {
    Ok(Explanation {
        looks: looks(alloc, schedule, texts)?,
        lines: explained(alloc, places, texts)?,
    })
}

/// What is told of this schedule, which was made of the plan on the board. Where a text is refused it is nothing.
pub(crate) fn note_of_schedule(
    alloc: Global,
    undo: bool,
    board: &str,
    plan: &str,
    schedule: &str,
) -> Result<String, AllocError> {
    match read_inputs(alloc, board, plan, schedule) {
        Ok(Inputs { file, plan, events }) => {
            schedule_note(alloc, undo, file, plan, events.as_slice(), schedule)
        }
        Err(why) if is_memory(&why) => Err(AllocError),
        Err(_) => Ok(String::new(alloc)),
    }
}

/// Plays what `play_of_files` does. Where the play is to be explained, the notes get what explains it, behind what is written to the console. Where
/// a file is refused, they get no more than which files look like something else than what they are read as.
pub fn explained_play_of_files<F: TextFiles, N: io::Write, W: io::Write, E: io::Write>(
    alloc: Global,
    files: &F,
    explain: bool,
    options: PlayOptions,
    shown: Shown,
    places: &[usize],
    words: PlayFiles,
    notes: &mut N,
    console: &mut Console<W, E>,
) -> u8
    ensures { RunEnds W.contents E.contents
        (PrintsAskedOfFiles (F.gives files.now) options shown places.now (words_of words.entry))
        console.old console.new result }
{
    if !explain {
        return play_of_files(alloc, files, options, shown, places, words, console);
    }
    let read = match texts_of(files, words) {
        Ok(read) => read,
        Err(unread) => return refuse(alloc, &unread, console),
    };
    let texts = read.named(words);
    let Ok(told) = explanation_of(alloc, places, words.schedule, texts) else {
        return u8::from(Ending::without_report(Status::Memory).write(console));
    };
    let status = show_asked(alloc, options, shown, places, texts, console);
    write_explanation(notes, status, &told);
    status
}
