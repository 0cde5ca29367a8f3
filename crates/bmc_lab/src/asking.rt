//! `bmclab ask`: one request to a fresh controller with a board.
ghost use Rattle.std.specs.Prelude.{◌≡◌, ◌++◌, ℕ, List, Option, IfOk, OnOk, string_bytes};
ghost use Rattle.std.specs.List.{flat_map};
ghost use Rattle.std.specs.Option.{option_copied};
ghost use Rattle.bmc_core.specs.Outs.{sent};
ghost use Rattle.bmc_core.specs.Wires.{bus_of};
ghost use Rattle.app_base.specs.declared.console.Stream.TheVariants.{Output};
ghost use Rattle.app_base.specs.Ending.{RunEnds};
ghost use Rattle.bmc_lab.specs.Report.{done_line, status_of};
ghost use Rattle.bmc_lab.specs.Run.{IsBoardOf};
ghost use Rattle.bmc_lab.specs.Heard.{HeardByFresh};
ghost use Rattle.bmc_lab.specs.Reply.{bytes_line, reply_lines};
ghost use Rattle.bmc_lab.specs.AskRun.{AskPrints, PrintsAsk, TellsReply, exchange_lines};

use crate::frame::{board_or_sample, controller_place};
use crate::frames::request_frames;
use crate::reply::{Reply, reply_in};
use app_base::{Console, Ending, Report, Status};
use bmc_core::{Board, Disposition, Out, Port};
use cfg_records::BoardFile;
use record_base::Asked;
use report_words::NamedCode;
use std::alloc::{AllocError, Global};
use std::io;
use text_board::FileFault;
use two_wire::{Bus, Frame};

/// The bus on which a request goes.
fn bus_of(asked: &Asked) -> Bus
    ensures { result ≡ bus_of asked.now }
{
    match asked {
        Asked::Ipmi { .. } => Bus::Ipmb,
        Asked::Pldm { .. } => Bus::Smbus,
    }
}

/// Adds a line of a word and these bytes in upper-case hexadecimal.
fn push_bytes(alloc: Global, text: &mut String, word: &str, bytes: &[u8]) -> Result<(), AllocError>
    ensures { OnOk result
        (string_bytes text.new ≡ string_bytes text.old ++ bytes_line word.now bytes.now) }
{
    let digits = hex::encode_upper(alloc, bytes)?;
    let digits = digits.as_str();
    writeln!(text, "{word} {digits}")
}

/// Adds a line for each frame.
fn push_frames(
    alloc: Global,
    text: &mut String,
    word: &str,
    frames: &[Frame],
) -> Result<(), AllocError>
    ensures { OnOk result (string_bytes text.new
        ≡ string_bytes text.old ++ flat_map (bytes_line word.now) frames.now) }
{
    for frame in frames {
        push_bytes(alloc, text, word, frame.as_slice())?;
    }
    Ok(())
}

/// Adds why nothing was sent.
fn push_done(text: &mut String, done: Disposition) -> Result<(), AllocError>
    ensures { OnOk result (string_bytes text.new ≡ string_bytes text.old ++ done_line done) }
{
    match done {
        Disposition::Ignored(reason) => writeln!(text, "ignored {reason}"),
        Disposition::Waiting => text.push_str("waiting\n"),
        Disposition::Answered | Disposition::Repeated | Disposition::Busy | Disposition::Control =>
            Ok(()),
    }
}

/// Adds the reply's code by name, and its data where it has some.
fn push_reply(alloc: Global, text: &mut String, bus: Bus, reply: &Reply) -> Result<(), AllocError>
    ensures { OnOk result (string_bytes text.new
        ≡ string_bytes text.old ++ reply_lines bus reply.now.code reply.now.body) }
{
    let code = NamedCode {
        bus,
        code: reply.code,
    };
    writeln!(text, "code {code}")?;
    match reply.body.as_slice() {
        [] => Ok(()),
        body => push_bytes(alloc, text, "data", body),
    }
}

/// Adds the lines of the frames that were sent, of those that came back, and why none did.
fn push_exchange(
    alloc: Global,
    text: &mut String,
    frames: &[Frame],
    out: &Out,
) -> Result<(), AllocError>
    ensures { OnOk result (string_bytes text.new
        ≡ string_bytes text.old ++ exchange_lines frames.now out.now) }
{
    push_frames(alloc, text, "sent", frames)?;
    push_frames(alloc, text, "came", out.frames.as_slice())?;
    push_done(text, out.done)
}

/// Adds what is told of the reply that the frames carry, if they carry one.
fn push_told(alloc: Global, text: &mut String, bus: Bus, frames: &[Frame]) -> Result<(), AllocError>
    ensures { OnOk result ((lines : List ℕ) × TellsReply bus frames.now lines
        × (string_bytes text.new ≡ string_bytes text.old ++ lines)) }
{
    match reply_in(alloc, bus, frames)? {
        Some(reply) => push_reply(alloc, text, bus, &reply),
        None => Ok(()),
    }
}

/// What a fresh controller with the file's board does with the frames of the request, which it hears in turn: with the last of them.
fn heard(alloc: Global, file: BoardFile, bus: Bus, frames: &[Frame]) -> Result<Out, AllocError>
    ensures { IfOk result (HeardByFresh file bus frames.now) }
{
    let mut board = Board::of_file(alloc, file)?;
    let mut port = Port::new(alloc, bus, controller_place())?;
    let mut out = Out::new();
    for frame in frames {
        port.on_frame(&mut board, frame.as_slice(), &mut out);
    }
    Ok(out)
}

/// Whether a frame came back.
fn status_of(out: &Out) -> Status
    ensures { result ≡ status_of (sent out.now) }
{
    match out.frames.as_slice() {
        [] => Status::NotSent,
        _ => Status::Success,
    }
}

/// What is told of a request: its frames, those that come back, and the reply's code and data.
fn told(alloc: Global, file: BoardFile, asked: &Asked) -> Result<Report, AllocError>
    ensures stream { IfOk result (λ report. report.stream ≡ Output) }
    ensures told { (board : Option (List ℕ)) → IsBoardOf board file → IfOk result
        (λ report. AskPrints board asked.now (string_bytes report.text) report.status) }
{
    let bus = bus_of(asked);
    let frames = request_frames(asked);
    let out = heard(alloc, file, bus, frames.as_slice())?;
    let mut text = String::new(alloc);
    push_exchange(alloc, &mut text, frames.as_slice(), &out)?;
    push_told(alloc, &mut text, bus, out.frames.as_slice())?;
    Ok(Report::output(text, status_of(&out)))
}

/// What is told of the request, or why the file holds no board.
fn ask_report(alloc: Global, board: Option<&str>, asked: &Asked) -> Result<Report, AllocError>
    ensures { IfOk result (λ report. PrintsAsk (option_copied board.entry) asked.now
        report.stream (string_bytes report.text) report.status) }
{
    match board_or_sample(alloc, board) {
        Ok(file) => told(alloc, file, asked),
        Err(FileFault::Memory) => Err(AllocError),
        Err(why) => Report::of_board(alloc, why),
    }
}

/// Sends a request to a fresh controller with the board of this file's text, or with the sample board. Writes to standard output `sent` and each of its
/// frames, `came` and each frame that comes back, and `code` and `data` of the reply, and gives the status: 0 where a frame came back, 1 where none did, and
/// else as `frame_run`.
pub(crate) fn ask_run<W: io::Write, E: io::Write>(
    alloc: Global,
    board: Option<&str>,
    asked: &Asked,
    console: &mut Console<W, E>,
) -> u8
    ensures { RunEnds W.contents E.contents (PrintsAsk (option_copied board.entry) asked.now)
        console.old console.new result }
{
    let report = ask_report(alloc, board, asked);
    u8::from(Ending::of(&report).write(console))
}
