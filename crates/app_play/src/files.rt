//! A plan run and undone by a schedule: what is said of three files.
ghost use Rattle.std.specs.Prelude.{◌≡◌, IfOk, IfErr, string_bytes};
ghost use Rattle.app_base.specs.Ending.{RunEnds};
ghost use Rattle.app_base.specs.Files.{FirstUnread};
ghost use Rattle.app_play.specs.Files.{words_of, ArePlayTexts};
ghost use Rattle.app_play.specs.Strict.{PrintsAskedOfFiles};

use crate::run::Shown;
use crate::strict::{PlayOptions, PlayTexts, show_asked};
use app_base::files::refuse;
use app_base::{Console, NamedText, ReadFault, TextFiles, text_of};
use std::alloc::Global;
use std::io;

/// The words that name the files of a play.
#[derive(Clone, Copy)]
pub struct PlayFiles<'a> {
    /// The board file's word.
    pub board: &'a str,
    /// The plan's word.
    pub plan: &'a str,
    /// The schedule's word.
    pub schedule: &'a str,
}

/// The texts of the files of a play.
#[derive(Drop)]
pub struct ReadTexts {
    board: String,
    plan: String,
    schedule: String,
}

impl ReadTexts {
    /// The texts, with the words of their files.
    pub fn named<'a>(&'a self, words: PlayFiles<'a>) -> PlayTexts<'a>
        ensures board { result.board.text.now ≡ string_bytes self.now.board }
        ensures plan { result.plan.text.now ≡ string_bytes self.now.plan }
        ensures schedule { result.schedule.now ≡ string_bytes self.now.schedule }
    {
        PlayTexts {
            board: NamedText {
                word: words.board,
                text: self.board.as_str(),
            },
            plan: NamedText {
                word: words.plan,
                text: self.plan.as_str(),
            },
            schedule: self.schedule.as_str(),
        }
    }
}

/// The texts of the files, or the first that isn't read.
pub fn texts_of<'a, F: TextFiles>(
    files: &F,
    words: PlayFiles<'a>,
) -> Result<ReadTexts, ReadFault<'a>>
    ensures texts { IfOk result (λ texts. ArePlayTexts (F.gives files.now) (words_of words.entry)
        (string_bytes texts.board) (string_bytes texts.plan) (string_bytes texts.schedule)) }
    ensures unread { IfErr result (λ unread. FirstUnread (F.gives files.now)
        (words_of words.entry) unread.word.now unread.why) }
{
    let board = text_of(files, words.board)?;
    let plan = text_of(files, words.plan)?;
    let schedule = text_of(files, words.schedule)?;
    Ok(ReadTexts {
        board,
        plan,
        schedule,
    })
}

/// Plays a plan on the board of a board file by a schedule, and shows what was played: what `show_asked` does, once all three files are read,
/// in the order of the words. Where one can't be read, standard error gets `file` and its word, and the status is 3.
pub fn play_of_files<F: TextFiles, W: io::Write, E: io::Write>(
    alloc: Global,
    files: &F,
    options: PlayOptions,
    shown: Shown,
    places: &[usize],
    words: PlayFiles,
    console: &mut Console<W, E>,
) -> u8
    ensures { RunEnds W.contents E.contents
        (PrintsAskedOfFiles (F.gives files.now) options shown places.now (words_of words.entry))
        console.old console.new result }
{
    let texts = match texts_of(files, words) {
        Ok(texts) => texts,
        Err(unread) => return refuse(alloc, &unread, console),
    };
    let status = show_asked(alloc, options, shown, places, texts.named(words), console);
    drop(texts);
    status
}
