//! What the program does: what its words ask for, with its files.
ghost use Rattle.std.specs.Prelude.{map, string_bytes};
ghost use Rattle.bmcnet.specs.Run.{EndsAsAsked, LineEnds, LineTells, MayTellAsAsked};

use crate::words::{Words, read};
use app_base::{Console, TextFiles, refuse, tell_version};
use app_change::{change, preview, take_back};
use app_journal::WritesFiles;
use app_pair::pair;
use app_run::{Progress, run, undo};
use app_serve::serve;
use app_show::show;
use std::alloc::Global;
use std::io;
use std::net::Net;
use std::sync::Wait;
use std::thread::Threads;
use std::time::Clock;

/// Does what the words ask for.
fn carry_out<
    F: TextFiles + WritesFiles,
    W: io::Write,
    E: io::Write,
    P: io::Write,
    R: Net + Threads + Wait + Clock + Sync,
>(
    rt: &R,
    alloc: Global,
    files: &mut F,
    words: &Words,
    progress: &mut Progress<P>,
    console: &mut Console<W, E>,
) -> u8
    ensures ends { EndsAsAsked W.contents E.contents F.TextFiles F.WritesFiles
        words.now files.old files.new console.old console.new result }
    ensures told { MayTellAsAsked P.contents F.TextFiles F.WritesFiles words.now
        files.old progress.old progress.new }
{
    match words {
        Words::Serve(words) => serve(rt, alloc, &*files, words, console),
        Words::Run(words) => run(rt, alloc, files, words, progress, console),
        Words::Undo(words) => undo(rt, alloc, files, words, progress, console),
        Words::Pair(words) => pair(rt, alloc, &*files, words, console),
        Words::Apply(words) => change(rt, alloc, files, words, progress, console),
        Words::Revert(words) => take_back(rt, alloc, files, words, progress, console),
        Words::Preview(words) => preview(rt, alloc, &*files, words, console),
        Words::Show(words) => show(rt, alloc, files, words, console),
        Words::Version => tell_version(console),
    }
}

/// Does what the words of a command line ask for, the program's own name first among them, with these files: what `serve`, `run`, `undo`,
/// `pair` or `tell_version` does. Where they ask for nothing it reads no file and opens no link, standard error gets why or the help that is asked for, and the
/// status is 2. `run` and `undo` write their progress.
pub fn run_line<
    F: TextFiles + WritesFiles,
    W: io::Write,
    E: io::Write,
    P: io::Write,
    R: Net + Threads + Wait + Clock + Sync,
>(
    rt: &R,
    alloc: Global,
    files: &mut F,
    words: &[String],
    progress: &mut Progress<P>,
    console: &mut Console<W, E>,
) -> u8
    ensures ends { LineEnds W.contents E.contents F.TextFiles F.WritesFiles
        (map string_bytes words.now) files.old files.new console.old console.new result }
    ensures told { LineTells P.contents F.TextFiles F.WritesFiles (map string_bytes words.now)
        files.old progress.old progress.new }
{
    match read(alloc, words) {
        Ok(asked) => carry_out(rt, alloc, files, &asked, progress, console),
        Err(refusal) => refuse(&refusal, console),
    }
}
