//! One frame to a fresh controller whose board a file may hold.
ghost use Rattle.std.specs.Option.{option_copied};
ghost use Rattle.app_base.specs.Ending.{RunEnds};
ghost use Rattle.bmc_lab.specs.Files.{SaysOfFile};

use crate::frame::frame_run;
use app_base::files::refuse;
use app_base::{Console, TextFiles, text_of};
use std::alloc::Global;
use std::io;
use two_wire::Bus;

/// Sends one frame to a fresh controller with the board of the file that a word names, or with the sample board where no word is given: what
/// `frame_run` does, once the file is read. Where it can't be read, standard error gets `file` and the word, and the status is 3.
pub fn frame_of_file<F: TextFiles, W: io::Write, E: io::Write>(
    alloc: Global,
    files: &F,
    bus: Bus,
    board: Option<&str>,
    bytes: &[u8],
    console: &mut Console<W, E>,
) -> u8
    ensures { RunEnds W.contents E.contents
        (SaysOfFile (F.gives files.now) (option_copied board.entry) bus bytes.now)
        console.old console.new result }
{
    let Some(word) = board else {
        return frame_run(alloc, bus, None, bytes, console);
    };
    match text_of(files, word) {
        Ok(text) => frame_run(alloc, bus, Some(text.as_str()), bytes, console),
        Err(unread) => refuse(alloc, &unread, console),
    }
}
