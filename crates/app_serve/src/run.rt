//! `bmcnet serve`: a board's ports over UDP.
ghost use Rattle.std.specs.Prelude.{◌≡◌, Err, IfErr, IfOk, OnOk, string_bytes};
ghost use Rattle.app_base.specs.Ending.{RunEnds, SaysReport, ReportTells};
ghost use Rattle.app_serve.specs.Run.{HoldServable, SaysNothing, SaysPorts, SaysTally, SaysUnopened, ServeEnds, TallyEnds, TellsPorts, TellsRoom};

use crate::counting::{ReadyBoard, accounted, ready_board};
use crate::ends::{BusLinks, open_ends, ports_text, unopened_report};
use crate::inputs::{ServeInputs, servable_inputs, texts_of};
use crate::periods::{ServeRules, serve_periods};
use crate::readings::{CLOCK, agenda_of};
use crate::tally::{ListedBoard, ROOM_LINE, ServeAccount, Tally, report};
use app_base::files::refuse;
use app_base::{Console, Report, ReportFault, Status, Stream, TextFiles, end_run};
use std::alloc::Global;
use std::io;
use std::net::Net;
use std::sync::Wait;
use std::sync::atomic::AtomicBool;
use std::thread::Threads;
use std::time::Clock;

/// How many milliseconds a link waits for a frame, where the words don't say.
pub const WAIT_MS: u32 = 200;

/// What the words of `bmcnet serve` ask for.
#[derive(Drop)]
pub struct ServeWords {
    /// The word of the board file.
    pub board: String,
    /// The UDP port of the controller's end of IPMB.
    pub ipmb_port: u16,
    /// The UDP port of the end of SMBus.
    pub smbus_port: u16,
    /// How many turns each worker makes.
    pub turns: u32,
    /// How many milliseconds a link waits for a frame.
    pub wait_ms: u32,
    /// Whether a history whose room is over is closed, and the next one opened.
    pub periods: bool,
    /// For how many turns in a row both ports hear nothing before the serving ends, where their turns alone don't end it.
    pub quiet: Option<u32>,
    /// In how many turns of a port in a row nothing comes from a requester before the port forgets it, where it forgets any.
    pub forget: Option<u32>,
    /// The word of the file of readings, where there is one.
    pub readings: Option<String>,
    /// Whether what that file says begins anew once it is over.
    pub repeats: bool,
    /// Whether the board's clock runs in place of that: a tick each tenth of a second.
    pub clock: bool,
    /// Whether a board file with a key that nothing reads is refused, and the status says whether records are changed.
    pub strict: bool,
    /// Whether each changed record is told.
    pub list: bool,
}

/// Writes the report of a run, lets it go, and gives the status.
fn finish<W: io::Write, E: io::Write>(
    report: Result<Report, ReportFault>,
    console: &mut Console<W, E>,
) -> u8
    ensures { RunEnds W.contents E.contents (SaysReport report) console.old console.new result }
{
    let status = end_run(&report, console);
    drop(report);
    status
}

/// Tells of these ports, or gives the status of a run that can't tell of them.
fn tell_ports<W: io::Write, E: io::Write>(
    alloc: Global,
    ipmb: u16,
    smbus: u16,
    console: &mut Console<W, E>,
) -> Result<(), u8>
    ensures told { OnOk result
        (SaysPorts W.contents E.contents ipmb smbus console.old console.new) }
    ensures untold { IfErr result
        (RunEnds W.contents E.contents SaysNothing console.old console.new) }
{
    let Ok(text) = ports_text(alloc, ipmb, smbus) else {
        return Err(finish(Err(ReportFault::Memory), console));
    };
    let written = console.write(Stream::Error, text.as_bytes());
    drop(text);
    match written {
        Ok(()) => Ok(()),
        Err(why) => {
            drop(why);
            Err(u8::from(Status::Output))
        }
    }
}

/// The ends at the ports that the words name, once these are told; or the status of a run that has no ends, once it is said which can't be had, or
/// that can't tell of them.
fn told_ends<'a, W: io::Write, E: io::Write, R: Net + Clock>(
    rt: &'a R,
    alloc: Global,
    bell: &'a AtomicBool,
    words: &ServeWords,
    console: &mut Console<W, E>,
) -> Result<BusLinks<'a, R>, u8>
    ensures told { OnOk result
        (TellsPorts W.contents E.contents words.now console.old console.new) }
    ensures untold { IfErr result
        (RunEnds W.contents E.contents (SaysUnopened words.now) console.old console.new) }
{
    let ends = match open_ends(rt, bell, words) {
        Ok(ends) => ends,
        Err(why) => return Err(finish(unopened_report(alloc, why), console)),
    };
    match tell_ports(alloc, ends.ipmb.port, ends.smbus.port, console) {
        Ok(()) => Ok(ends),
        Err(status) => {
            drop(ends);
            Err(status)
        }
    }
}

/// Tells that the room of the one history is over, where it is, or gives the status of a run that can't tell it.
fn tell_room<W: io::Write, E: io::Write>(
    tally: Tally,
    words: &ServeWords,
    console: &mut Console<W, E>,
) -> Result<(), u8>
    ensures told { OnOk result (TellsRoom W.contents E.contents words.now.periods tally.events
        console.old console.new) }
    ensures untold { IfErr result
        (RunEnds W.contents E.contents SaysNothing console.old console.new) }
{
    if words.periods || !tally.is_full() {
        return Ok(());
    }
    match console.write(Stream::Error, ROOM_LINE) {
        Ok(()) => Ok(()),
        Err(why) => {
            drop(why);
            Err(u8::from(Status::Output))
        }
    }
}

/// What is told of a board that was served.
fn account_report(
    alloc: Global,
    account: &ServeAccount,
    strict: bool,
) -> Result<Report, ReportFault>
    ensures { ReportTells (SaysTally strict account.now.tally.events account.now.tally.changed
        (string_bytes account.now.changes)) result }
{
    Ok(report(alloc, account, strict)?)
}

/// Says what came of a board that was served.
fn tell_account<W: io::Write, E: io::Write>(
    alloc: Global,
    account: &ServeAccount,
    words: &ServeWords,
    console: &mut Console<W, E>,
) -> u8
    ensures { TallyEnds W.contents E.contents words.now account.now.tally.events
        account.now.tally.changed (string_bytes account.now.changes)
        console.old console.new result }
{
    match tell_room(account.tally, words, console) {
        Ok(()) => finish(account_report(alloc, account, words.strict), console),
        Err(status) => status,
    }
}

/// Says what came of a board that was served, or that its serving came to no end.
fn tell_served<W: io::Write, E: io::Write>(
    alloc: Global,
    account: Result<ServeAccount, ReportFault>,
    words: &ServeWords,
    console: &mut Console<W, E>,
) -> u8
    ensures tally { IfOk account (λ told. TallyEnds W.contents E.contents words.now
        told.tally.events told.tally.changed (string_bytes told.changes)
        console.old console.new result) }
    ensures unended { IfErr account (λ why. RunEnds W.contents E.contents
        (SaysReport (Err why)) console.old console.new result) }
{
    match account {
        Ok(account) => tell_account(alloc, &account, words, console),
        Err(why) => finish(Err(why), console),
    }
}

/// What the files hold that the words name, or the status of a run that serves nothing, once it is said why.
fn told_inputs<F: TextFiles, W: io::Write, E: io::Write>(
    alloc: Global,
    files: &F,
    words: &ServeWords,
    console: &mut Console<W, E>,
) -> Result<ServeInputs, u8>
    ensures hold { IfOk result (HoldServable (F.gives files.now) words.now) }
    ensures same { OnOk result (console.new ≡ console.old) }
    ensures ends { IfErr result (ServeEnds W.contents E.contents (F.gives files.now) words.now
        console.old console.new) }
{
    let texts = match texts_of(files, words) {
        Ok(texts) => texts,
        Err(unread) => return Err(refuse(alloc, &unread, console)),
    };
    match servable_inputs(alloc, words, &texts) {
        Ok(inputs) => Ok(inputs),
        Err(report) => Err(finish(report, console)),
    }
}

/// Serves the board of the file that the words name at their two ports, while on the board happens what the file of readings says, where the
/// words name one, or what a clock does. Both files are read first, the board's before the other, and then their texts are checked in that
/// order. Once both ports are bound, standard error gets their line: with the port that was taken where the words say 0; and from then on the
/// times of the readings count. At the end it writes to standard output how many events the board's history has, those of the readings among
/// them, and whether records are changed, and with `list` which; where the room of the one history is over, standard error gets a line before
/// that which says so. It gives the status: 0, or 3 with `file`, `board` or `readings` and the fault on standard error where a file can't be
/// read, or the first holds no board, or the second no readings; 4 where a port can't be opened, which standard error names, and 4 and no more where
/// a thread can't be had or the board isn't closed; 5 with `memory` on standard error where memory was refused, and 6 where a write failed; where
/// that of the ports' line fails, nothing is served. With `strict` it is 13 in place of 0 where records are changed, and 3 with what `bmclab check`
/// tells of them on standard error where the board file has keys that nothing reads.
pub fn serve<F: TextFiles, W: io::Write, E: io::Write, R: Net + Threads + Wait + Clock + Sync>(
    rt: &R,
    alloc: Global,
    files: &F,
    words: &ServeWords,
    console: &mut Console<W, E>,
) -> u8
    ensures { ServeEnds W.contents E.contents (F.gives files.now) words.now
        console.old console.new result }
{
    let inputs = match told_inputs(alloc, files, words, console) {
        Ok(inputs) => inputs,
        Err(status) => return status,
    };
    let ServeInputs { file, readings } = inputs;
    let bell = AtomicBool::new(false);
    let ends = match told_ends(rt, alloc, &bell, words, console) {
        Ok(ends) => ends,
        Err(status) => {
            drop(file);
            return status;
        }
    };
    let ready = match ready_board(alloc, file, ends, words) {
        Ok(ready) => ready,
        Err(why) => return finish(Err(why), console),
    };
    let ReadyBoard { begun, lanes } = ready;
    let ListedBoard { first, board } = begun;
    let clock = CLOCK;
    let agenda = agenda_of(rt, &clock, &readings, words);
    let rules = ServeRules {
        periods: words.periods,
        quiet: words.quiet,
        bell: &bell,
    };
    match serve_periods(rt, alloc, board, lanes, agenda, rules) {
        Ok(course) => tell_served(alloc, accounted(alloc, first, course), words, console),
        Err(why) => {
            drop(first);
            finish(Err(why), console)
        }
    }
}
