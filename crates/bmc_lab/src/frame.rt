//! `bmclab frame`: one frame to a fresh controller with a board.
ghost use Rattle.std.specs.Prelude.{◌≡◌, ◌⊎◌, ℕ, List, Option, IfOk, IfErr, string_bytes};
ghost use Rattle.std.specs.Option.{option_copied};
ghost use Rattle.app_base.specs.declared.console.Stream.TheVariants.{Output};
ghost use Rattle.app_base.specs.Ending.{RunEnds};
ghost use Rattle.bmc_lab.specs.Run.{controller, IsBoardOf, IsFaultOf, FramePrints, PrintsFrame};

use crate::report::port_report;
use app_base::{Console, Ending, Report};
use bmc_core::{At, Board, Out, Port};
use cfg_records::{BoardFile, sample_board};
use mctp_net::EndpointId;
use std::alloc::{AllocError, Global};
use std::io;
use text_board::{FileFault, read_board};
use two_wire::places::{CONTROLLER_EID, CONTROLLER_WIRE};
use two_wire::{Address, Bus};

/// Where the controller is.
pub fn controller_place() -> At
    ensures { result ≡ controller }
{
    At {
        wire: Address::new(CONTROLLER_WIRE).unwrap(),
        eid: EndpointId::new(CONTROLLER_EID).unwrap(),
    }
}

/// The board of the file's text, or the sample board where no file is given.
pub fn board_or_sample(alloc: Global, board: Option<&str>) -> Result<BoardFile, FileFault>
    ensures file { IfOk result (IsBoardOf (option_copied board.entry)) }
    ensures fault { IfErr result
        (λ why. (why ≡ FileFault.Memory) ⊎ IsFaultOf (option_copied board.entry) why) }
{
    match board {
        Some(text) => read_board(alloc, text),
        None => match sample_board(alloc) {
            Ok(file) => Ok(file),
            Err(_) => Err(FileFault::Memory),
        },
    }
}

/// What a fresh controller with the file's board does with the bytes where it hears them on the bus.
fn heard_report(
    alloc: Global,
    file: BoardFile,
    bus: Bus,
    bytes: &[u8],
) -> Result<Report, AllocError>
    ensures stream { IfOk result (λ report. report.stream ≡ Output) }
    ensures told { (board : Option (List ℕ)) → IsBoardOf board file
        → IfOk result
        (λ report. FramePrints board bus bytes.now (string_bytes report.text) report.status) }
{
    let mut board = Board::of_file(alloc, file)?;
    let mut port = Port::new(alloc, bus, controller_place())?;
    let mut out = Out::new();
    port.on_frame(&mut board, bytes, &mut out);
    port_report(alloc, &out)
}

/// What a fresh controller with the board does with the bytes, or why the file holds no board.
fn frame_report(
    alloc: Global,
    bus: Bus,
    board: Option<&str>,
    bytes: &[u8],
) -> Result<Report, AllocError>
    ensures { IfOk result
        (λ report. PrintsFrame (option_copied board.entry) bus bytes.now
        report.stream (string_bytes report.text) report.status) }
{
    match board_or_sample(alloc, board) {
        Ok(file) => heard_report(alloc, file, bus, bytes),
        Err(FileFault::Memory) => Err(AllocError),
        Err(why) => Report::of_board(alloc, why),
    }
}

/// Sends one frame to a fresh controller with the board of this file's text, or with the sample board. Writes each reply frame to
/// standard output in upper-case hexadecimal on a line, or `ignored` and the reason's name, or `waiting` where others of its
/// message are to come, and gives the status: 0 where a frame was sent, 1 where none was, 3 with `board` and the fault on standard
/// error where the text holds no board, 5 with `memory` on standard error where memory was refused, and 6 where a write failed.
pub fn frame_run<W: io::Write, E: io::Write>(
    alloc: Global,
    bus: Bus,
    board: Option<&str>,
    bytes: &[u8],
    console: &mut Console<W, E>,
) -> u8
    ensures { RunEnds W.contents E.contents (PrintsFrame (option_copied board.entry) bus bytes.now)
        console.old console.new result }
{
    let report = frame_report(alloc, bus, board, bytes);
    u8::from(Ending::of(&report).write(console))
}
