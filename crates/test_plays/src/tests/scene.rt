//! What the runs of a story find: its texts, as files in memory, `board.toml`, `plan.toml` and `schedule.txt`, and writers.
use super::paper::{Paper, new_paper};
use super::text::parted;
use app_base::{TextFiles, UnreadFile};
use app_bmclab::{Cause, TellsCause};
use std::alloc::Global;
use stories::NoOutcome;

/// A file: its text, or why it isn't read.
type File = Result<String, UnreadFile>;

/// Three files, of which no other can be read, and behind how many calls each writer fails, if it does.
#[derive(Drop)]
pub struct Scene {
    alloc: Global,
    board: File,
    plan: File,
    schedule: File,
    out_left: Option<usize>,
    err_left: Option<usize>,
}

impl Scene {
    /// No board, an empty plan and an empty schedule, and writers that don't fail.
    pub fn new(alloc: Global) -> Scene {
        Scene {
            alloc,
            board: Err(UnreadFile::NoText),
            plan: Ok(String::new(alloc)),
            schedule: Ok(String::new(alloc)),
            out_left: None,
            err_left: None,
        }
    }

    /// The text of the file of this word, or why it isn't read.
    pub fn file(&self, word: &str) -> Result<&str, UnreadFile> {
        let file = match word {
            "board.toml" => &self.board,
            "plan.toml" => &self.plan,
            "schedule.txt" => &self.schedule,
            _ => return Err(UnreadFile::NoText),
        };
        match file {
            Ok(text) => Ok(text.as_str()),
            Err(why) => Err(*why),
        }
    }

    /// The file of this name is this one from here on.
    pub fn put(&mut self, name: &str, file: File) -> Result<(), NoOutcome> {
        match name {
            "board" => self.board = file,
            "plan" => self.plan = file,
            "schedule" => self.schedule = file,
            _ => return Err(NoOutcome::Unread),
        }
        Ok(())
    }

    /// In the board the second of these words stands in the place of the first.
    pub fn swap(&mut self, words: &str) -> Result<(), NoOutcome> {
        let (old, new) = words.split_once(" => ").ok_or(NoOutcome::Unread)?;
        let Ok(board) = &self.board else {
            return Err(NoOutcome::Unread);
        };
        let (front, back) = board.as_str().split_once(old).ok_or(NoOutcome::Unread)?;
        let board = format!(in self.alloc; "{front}{new}{back}")?;
        self.put("board", Ok(board))
    }

    /// The schedule goes on so.
    pub fn go_on(&mut self, text: &str) -> Result<(), NoOutcome> {
        match &mut self.schedule {
            Ok(schedule) => Ok(schedule.push_str(text)?),
            Err(_) => Err(NoOutcome::Unread),
        }
    }

    /// The writer of this name fails behind so many calls.
    pub fn fail(&mut self, words: &str) -> Result<(), NoOutcome> {
        let (name, calls) = parted(words);
        let left = Some(calls.parse::<usize>()?);
        match name {
            "out" => self.out_left = left,
            "err" => self.err_left = left,
            _ => return Err(NoOutcome::Unread),
        }
        Ok(())
    }

    /// What a run writes to.
    pub fn paper(&self) -> Paper {
        new_paper(self.alloc, self.out_left, self.err_left)
    }
}

impl TextFiles for Scene {
    ghost gives = { λ files word given. Unit {0} };

    fn text(&self, word: &str) -> Result<String, UnreadFile> {
        match String::from_str(self.alloc, self.file(word)?) {
            Ok(text) => Ok(text),
            Err(_) => Err(UnreadFile::Memory),
        }
    }
}

impl TellsCause for Scene {
    fn cause(&self, word: &str) -> Cause {
        match word {
            "board.toml" | "plan.toml" | "schedule.txt" => Cause::Other,
            "folder" => Cause::Folder,
            "locked.toml" => Cause::Forbidden,
            "bytes" => Cause::NotUtf8,
            _ => Cause::Missing,
        }
    }
}
