//! `bmcnet revert` with its option: what FILE would take back is told from FILE alone.
ghost use Rattle.std.specs.Prelude.{◌≡◌, false, string_bytes};
ghost use Rattle.app_change.specs.Back.{BackEndsOf, ForetellsOf, ForetellsOn};

use crate::foretold_json::foretell_json;
use crate::foretold_words::foretell_text;
use app_apply::applying::say_on;
use app_apply::refusing::{say_refused, say_unread};
use app_base::{Console, Status, Stream, TextFiles, text_of};
use app_journal::WritesFiles;
use app_revert::reading::manager_of;
use app_revert::{RevertWords, revert, unfit_text};
use app_run::Progress;
use std::alloc::{AllocError, Global};
use std::io;
use std::net::Net;
use undo_core::Manager;

/// What the words of `bmcnet revert` ask for, with its option.
#[derive(Drop)]
pub struct BackWords {
    pub revert: RevertWords,
    /// Whether it is only told what would be taken back.
    pub preview: bool,
}

/// What is told of what a manager would take back: an object for each line, or else words.
fn text_foretold(
    alloc: Global,
    words: &RevertWords,
    manager: &Manager,
) -> Result<String, AllocError> {
    let file = words.file.as_str();
    if words.json {
        foretell_json(alloc, file, manager)
    } else {
        foretell_text(alloc, file, manager)
    }
}

/// Tells what this text would take back.
fn foretell_on<W: io::Write, E: io::Write>(
    alloc: Global,
    text: &str,
    words: &RevertWords,
    console: &mut Console<W, E>,
) -> u8
    ensures { ForetellsOn W.contents E.contents words.now.json text.now
        console.old console.new result }
{
    match manager_of(alloc, text) {
        Ok(manager) => {
            let told = text_foretold(alloc, words, &manager);
            drop(manager);
            say_on(told, Stream::Output, Status::Success, console)
        }
        Err(unfit) => {
            let why = unfit_text(alloc, words.file.as_str(), unfit);
            say_refused(alloc, words.json, why, Status::RefusedFile, console)
        }
    }
}

/// Tells what the file of the words would take back.
fn foretell<F: TextFiles, W: io::Write, E: io::Write>(
    alloc: Global,
    files: &F,
    words: &RevertWords,
    console: &mut Console<W, E>,
) -> u8
    ensures { ForetellsOf W.contents E.contents words.now.json (F.gives files.now)
        (string_bytes words.now.file) console.old console.new result }
{
    match text_of(files, words.file.as_str()) {
        Ok(text) => foretell_on(alloc, text.as_str(), words, console),
        Err(unread) => say_unread(alloc, words.json, &unread, console),
    }
}

/// Takes back what FILE says, or tells what that would be.
pub fn take_back<F: TextFiles + WritesFiles, W: io::Write, E: io::Write, P: io::Write, R: Net>(
    rt: &R,
    alloc: Global,
    files: &mut F,
    words: &BackWords,
    progress: &mut Progress<P>,
    console: &mut Console<W, E>,
) -> u8
    ensures ends { BackEndsOf W.contents E.contents F.TextFiles F.WritesFiles
        (string_bytes words.now.revert.file) words.now files.old files.new
        console.old console.new result }
    ensures untold { progress.old.on ≡ false → progress.new ≡ progress.old }
{
    if words.preview {
        foretell(alloc, &*files, &words.revert, console)
    } else {
        revert(rt, alloc, files, &words.revert, progress, console)
    }
}
