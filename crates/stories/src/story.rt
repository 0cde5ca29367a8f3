//! The scene of stories of a controller.
use crate::board_lines::{Happening, comes_from, happens, kept, marked, replies, ticks};
use crate::boards::{board_of, is_of_board};
use crate::bytes::is_told;
use crate::change_lines::{change, undo};
use crate::damage_lines::{Damage, damaged};
use crate::fixture::{Fixture, open_around};
use crate::line::Word;
use crate::player::report_of;
use crate::port_lines::{Heard, hears, idle};
use crate::scene::{NoOutcome, NoScene, Scene};
use crate::window_lines::window;
use bmc_board::{Board, Records};
use cfg_records::{BoardFile, sample_board};
use std::alloc::{AllocError, Global};
use text_board::FileFault;

/// A board, and what is around it.
#[derive(Drop)]
struct Controller {
    board: Board<Records>,
    around: Fixture,
}

/// A controller of a fresh board of the file.
fn open_controller(alloc: Global, file: BoardFile) -> Result<Controller, AllocError> {
    let board = Board::of_file(alloc, file)?;
    match open_around(alloc) {
        Ok(around) => Ok(Controller { board, around }),
        Err(refused) => {
            drop(board);
            Err(refused)
        }
    }
}

/// Why the lines of a story say no board.
fn no_scene(alloc: Global, fault: FileFault) -> NoScene {
    match fault {
        FileFault::Memory => NoScene::Memory,
        fault => match format!(in alloc; "{fault:?}") {
            Ok(text) => NoScene::Fault(text),
            Err(_) => NoScene::Memory,
        },
    }
}

/// Appends what comes of a line to the board and to what is around it: of its first word, and of what is behind that.
fn tell(
    alloc: Global,
    board: &mut Board<Records>,
    around: &mut Fixture,
    (word, line, rest): (Word, &str, &str),
    came: &mut String,
) -> Result<(), AllocError> {
    match word {
        Word::Board => came.push_str(if is_of_board(rest) { "" } else { "no field" }),
        Word::Ipmi => replies(alloc, board, (around.from, "ipmi", rest), came),
        Word::Pldm => replies(alloc, board, (around.from, "pldm", rest), came),
        Word::From => comes_from(around, rest, came),
        Word::Kept => kept(alloc, board, rest, came),
        Word::Marked => marked(alloc, rest, came),
        Word::Reads => happens(alloc, board, (Happening::Reading, rest), came),
        Word::Tick => ticks(board, rest, came),
        Word::Chassis => happens(alloc, board, (Happening::Chassis, rest), came),
        Word::Change => change(alloc, board, rest, came),
        Word::Undo => undo(alloc, rest, came),
        Word::Frame => hears(alloc, board, around, (Heard::Served, line), came),
        Word::Cuts => damaged(alloc, board, around, (Damage::Cut, rest), came),
        Word::Changed => damaged(alloc, board, around, (Damage::Changed, rest), came),
        Word::Idle => idle(around, rest, came),
        Word::Dropped => hears(alloc, board, around, (Heard::Dropped, rest), came),
        Word::Told => hears(alloc, board, around, (Heard::Told, rest), came),
        Word::Window => window(alloc, &mut around.windows, rest, came),
    }
}

impl Scene for Controller {
    fn open(alloc: Global, lines: &str) -> Result<Controller, NoScene> {
        match board_of(alloc, lines) {
            Ok(file) => match open_controller(alloc, file) {
                Ok(controller) => Ok(controller),
                Err(_) => Err(NoScene::Memory),
            },
            Err(fault) => Err(no_scene(alloc, fault)),
        }
    }

    fn come(&mut self, alloc: Global, words: &str, came: &mut String) -> Result<(), NoOutcome> {
        let (word, rest) = words.split_once(' ').unwrap_or((words, ""));
        let Some(word) = Word::of(word) else {
            return Err(NoOutcome::Unread);
        };
        let (board, around) = (&mut self.board, &mut self.around);
        match tell(alloc, board, around, (word, words, rest), came) {
            Ok(()) => Ok(()),
            Err(_) => Err(NoOutcome::Memory),
        }
    }

    /// However the bytes in both are written.
    fn is_told(alloc: Global, came: &str, told: &str) -> Result<bool, NoOutcome> {
        match is_told(alloc, came, told) {
            Ok(is_told) => Ok(is_told),
            Err(_) => Err(NoOutcome::Memory),
        }
    }
}

/// A fresh sample board.
pub fn open_sample(alloc: Global) -> Result<Board<Records>, AllocError> {
    Board::of_file(alloc, sample_board(alloc)?)
}

/// Plays the stories of the text, each on a fresh board with fresh ports, and gives what `stories::report_of` reports: nothing where
/// all comes as told.
pub fn play(alloc: Global, text: &str) -> Result<String, AllocError> {
    report_of::<Controller>(alloc, text)
}
