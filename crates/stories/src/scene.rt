//! What the lines of stories come to.
use std::alloc::{AllocError, Global};
use std::num::ParseIntError;

/// Why a line has no outcome.
#[derive(Clone, Copy, Debug, PartialEq, Eq)]
pub enum NoOutcome {
    /// Memory was refused.
    Memory,
    /// The scene has no such line.
    Unread,
}

impl From<AllocError> for NoOutcome {
    fn from(_: AllocError) -> NoOutcome {
        NoOutcome::Memory
    }
}

impl From<ParseIntError> for NoOutcome {
    fn from(_: ParseIntError) -> NoOutcome {
        NoOutcome::Unread
    }
}

/// Why a story has no scene.
#[derive(Debug, Drop)]
pub enum NoScene {
    /// Memory was refused.
    Memory,
    /// What is wrong with the lines that say what the scene is.
    Fault(String),
}

impl From<AllocError> for NoScene {
    fn from(_: AllocError) -> NoScene {
        NoScene::Memory
    }
}

/// What the lines of a story come to, one after the other.
pub trait Scene: Sized + Drop {
    /// The scene of a story of these lines, to which none has come yet.
    fn open(alloc: Global, lines: &str) -> Result<Self, NoScene>;

    /// The words before the line's arrow come to the scene. Appends words that say what comes of them.
    fn come(&mut self, alloc: Global, words: &str, came: &mut String) -> Result<(), NoOutcome>;

    /// Whether the words that say what came are those that the line tells behind its arrow; a line without an arrow tells none.
    fn is_told(alloc: Global, came: &str, told: &str) -> Result<bool, NoOutcome>;
}
