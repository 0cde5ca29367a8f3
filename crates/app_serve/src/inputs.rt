//! What a run of `serve` reads: the texts of the files that its words name, and the board and the readings that these hold.
ghost use Rattle.std.specs.Prelude.{◌∷◌, ℕ, List, Option, IfOk, IfErr, Err, option_map, string_bytes};
ghost use Rattle.app_base.specs.Ending.{ReportTells};
ghost use Rattle.app_base.specs.Files.{FilesGive, FirstUnread};
ghost use Rattle.app_base.specs.Refusals.{RefusedIf};
ghost use Rattle.app_serve.specs.declared.run.ServeWords.{ServeWords as AnyWords};
ghost use Rattle.app_serve.specs.Run.{AreInputs, AreServable, SaysUnserved, files_of, is_refused_strictly, texts_in};

use crate::readings::{list_of, readings_refusal};
use crate::readings_text::ReadingsFault;
use crate::run::ServeWords;
use app_base::{NamedText, ReadFault, Report, ReportFault, TextFiles, board_refusal, text_of};
use bmc_ports::Timed;
use cfg_records::BoardFile;
use std::alloc::{AllocError, Global};
use text_board::{FileFault, read_board};

/// The texts of the files that the words name.
#[derive(Drop)]
pub(crate) struct ServeTexts {
    pub board: String,
    /// The text of readings, where the words name one.
    pub readings: Option<String>,
}

/// The texts of the files that the words name, or the first file that isn't read.
pub(crate) fn texts_of<'a, F: TextFiles>(
    files: &F,
    words: &'a ServeWords,
) -> Result<ServeTexts, ReadFault<'a>>
    ensures texts { IfOk result (λ texts. FilesGive (F.gives files.now) (files_of words.now)
        (string_bytes texts.board ∷ texts_in (option_map string_bytes texts.readings))) }
    ensures unread { IfErr result (λ unread. FirstUnread (F.gives files.now)
        (files_of words.now) unread.word.now unread.why) }
{
    let board = text_of(files, words.board.as_str())?;
    let Some(word) = &words.readings else {
        return Ok(ServeTexts {
            board,
            readings: None,
        });
    };
    match text_of(files, word.as_str()) {
        Ok(text) => Ok(ServeTexts {
            board,
            readings: Some(text),
        }),
        Err(unread) => {
            drop(board);
            Err(unread)
        }
    }
}

/// The board that is to be served, and what is to happen on it, where there is a list.
#[derive(Drop)]
pub(crate) struct ServeInputs {
    pub file: BoardFile,
    pub readings: Option<Vec<Timed>>,
}

/// Why texts aren't served.
#[derive(Clone, Copy, Debug)]
pub(crate) enum InputFault {
    /// The first text is no board file.
    Board(FileFault),
    /// The second text stands for no list.
    Readings(ReadingsFault),
}

/// What the texts hold, or the fault of the first that has one.
fn read_inputs(alloc: Global, texts: &ServeTexts) -> Result<ServeInputs, InputFault>
    ensures { AreInputs (string_bytes texts.now.board)
        (option_map string_bytes texts.now.readings) result }
{
    let file = match read_board(alloc, texts.board.as_str()) {
        Ok(file) => file,
        Err(why) => return Err(InputFault::Board(why)),
    };
    match list_of(alloc, &texts.readings) {
        Ok(readings) => Ok(ServeInputs { file, readings }),
        Err(why) => {
            drop(file);
            Err(InputFault::Readings(why))
        }
    }
}

/// What is said of a text that holds no board.
fn board_fault(alloc: Global, why: FileFault) -> Result<Report, ReportFault>
    ensures { (words : AnyWords) (board : List ℕ) (given : Option (List ℕ))
        → AreInputs board given (Err (InputFault.Board why))
        → ReportTells (SaysUnserved words board given) result }
{
    match why {
        FileFault::Memory => Err(ReportFault::Memory),
        why => Ok(Report::of_board(alloc, why)?),
    }
}

/// What is said of texts that aren't served.
fn refusal(alloc: Global, why: InputFault) -> Result<Report, ReportFault>
    ensures { (words : AnyWords) (board : List ℕ) (given : Option (List ℕ))
        → AreInputs board given (Err why) → ReportTells (SaysUnserved words board given) result }
{
    match why {
        InputFault::Board(why) => board_fault(alloc, why),
        InputFault::Readings(why) => readings_refusal(alloc, why),
    }
}

/// What a strict run says of a board file's text that has a key which nothing reads.
fn strict_refusal(
    alloc: Global,
    words: &ServeWords,
    board: &str,
) -> Result<Option<Report>, AllocError>
    ensures { IfOk result (RefusedIf (is_refused_strictly words.now board.now)) }
{
    if !words.strict {
        return Ok(None);
    }
    let named = NamedText {
        word: words.board.as_str(),
        text: board,
    };
    board_refusal(alloc, named)
}

/// What the texts hold that are to be served; or what is said of them, where they aren't.
pub(crate) fn servable_inputs(
    alloc: Global,
    words: &ServeWords,
    texts: &ServeTexts,
) -> Result<ServeInputs, Result<Report, ReportFault>>
    ensures served { IfOk result (AreServable words.now (string_bytes texts.now.board)
        (option_map string_bytes texts.now.readings)) }
    ensures refused { IfErr result (ReportTells (SaysUnserved words.now
        (string_bytes texts.now.board) (option_map string_bytes texts.now.readings))) }
{
    let inputs = match read_inputs(alloc, texts) {
        Ok(inputs) => inputs,
        Err(why) => return Err(refusal(alloc, why)),
    };
    match strict_refusal(alloc, words, texts.board.as_str()) {
        Ok(None) => Ok(inputs),
        Ok(Some(report)) => {
            drop(inputs);
            Err(Ok(report))
        }
        Err(AllocError) => {
            drop(inputs);
            Err(Err(ReportFault::Memory))
        }
    }
}
