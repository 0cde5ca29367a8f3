//! `bmclab frame --explain`: one frame to a fresh controller, and what it and its replies say.
ghost use Rattle.std.specs.Prelude.{◌≡◌, ℕ, List, Option, IfOk, string_bytes};
ghost use Rattle.std.specs.Option.{option_copied};
ghost use Rattle.bmc_core.specs.Outs.{sent};
ghost use Rattle.app_base.specs.declared.console.Stream.TheVariants.{Output};
ghost use Rattle.app_base.specs.Ending.{RunEnds};
ghost use Rattle.bmc_lab.specs.Report.{status_of, text_of};
ghost use Rattle.bmc_lab.specs.Run.{IsBoardOf};
ghost use Rattle.bmc_lab.specs.AskRun.{ExplainPrints, HasLines, PrintsExplained};
ghost use Rattle.bmc_lab.specs.AskFiles.{SaysOfExplained};

use crate::explained::push_explained;
use crate::frame::{board_or_sample, controller_place};
use crate::report::port_report;
use app_base::files::refuse;
use app_base::{Console, Ending, Report, TextFiles, text_of};
use bmc_core::{Board, Out, Port};
use cfg_records::BoardFile;
use std::alloc::{AllocError, Global};
use std::io;
use text_board::FileFault;
use two_wire::Bus;

/// What each frame says that the port sent.
fn replies_explained(alloc: Global, bus: Bus, out: &Out) -> Result<String, AllocError> {
    let mut text = String::new(alloc);
    for frame in out.frames.as_slice() {
        push_explained(&mut text, bus, frame.as_slice())?;
    }
    Ok(text)
}

/// What the bytes say, what the port did, and what each frame says that it sent.
fn explained_report(alloc: Global, bus: Bus, bytes: &[u8], out: &Out) -> Result<Report, AllocError>
    ensures stream { IfOk result (λ report. report.stream ≡ Output) }
    ensures text { IfOk result
        (λ report. HasLines (text_of out.now) (string_bytes report.text)) }
    ensures status { IfOk result (λ report. report.status ≡ status_of (sent out.now)) }
{
    let plain = port_report(alloc, out)?;
    let mut text = String::new(alloc);
    push_explained(&mut text, bus, bytes)?;
    text.push_str(plain.text.as_str())?;
    let behind = replies_explained(alloc, bus, out)?;
    text.push_str(behind.as_str())?;
    Ok(Report {
        stream: plain.stream,
        text,
        status: plain.status,
    })
}

/// What a fresh controller with the file's board does with the bytes where it hears them on the bus, with what they say.
fn heard_report(
    alloc: Global,
    file: BoardFile,
    bus: Bus,
    bytes: &[u8],
) -> Result<Report, AllocError>
    ensures stream { IfOk result (λ report. report.stream ≡ Output) }
    ensures told { (board : Option (List ℕ)) → IsBoardOf board file
        → IfOk result
        (λ report. ExplainPrints board bus bytes.now (string_bytes report.text) report.status) }
{
    let mut board = Board::of_file(alloc, file)?;
    let mut port = Port::new(alloc, bus, controller_place())?;
    let mut out = Out::new();
    port.on_frame(&mut board, bytes, &mut out);
    explained_report(alloc, bus, bytes, &out)
}

/// The same, or why the file holds no board.
fn frame_report(
    alloc: Global,
    bus: Bus,
    board: Option<&str>,
    bytes: &[u8],
) -> Result<Report, AllocError>
    ensures { IfOk result
        (λ report. PrintsExplained (option_copied board.entry) bus bytes.now
        report.stream (string_bytes report.text) report.status) }
{
    match board_or_sample(alloc, board) {
        Ok(file) => heard_report(alloc, file, bus, bytes),
        Err(FileFault::Memory) => Err(AllocError),
        Err(why) => Report::of_board(alloc, why),
    }
}

/// What `frame_run` does, with what the frames say.
fn explained_run<W: io::Write, E: io::Write>(
    alloc: Global,
    bus: Bus,
    board: Option<&str>,
    bytes: &[u8],
    console: &mut Console<W, E>,
) -> u8
    ensures { RunEnds W.contents E.contents
        (PrintsExplained (option_copied board.entry) bus bytes.now)
        console.old console.new result }
{
    let report = frame_report(alloc, bus, board, bytes);
    u8::from(Ending::of(&report).write(console))
}

/// What `frame_of_file` does, with what the frames say: lines of the one that is sent before what it writes, and of those that come back behind.
pub fn explained_of_file<F: TextFiles, W: io::Write, E: io::Write>(
    alloc: Global,
    files: &F,
    bus: Bus,
    board: Option<&str>,
    bytes: &[u8],
    console: &mut Console<W, E>,
) -> u8
    ensures { RunEnds W.contents E.contents
        (SaysOfExplained (F.gives files.now) (option_copied board.entry) bus bytes.now)
        console.old console.new result }
{
    let Some(word) = board else {
        return explained_run(alloc, bus, None, bytes, console);
    };
    match text_of(files, word) {
        Ok(text) => explained_run(alloc, bus, Some(text.as_str()), bytes, console),
        Err(unread) => refuse(alloc, &unread, console),
    }
}
