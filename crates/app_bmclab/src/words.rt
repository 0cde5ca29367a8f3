//! The words of the command line.
ghost use Rattle.std.specs.Prelude.{◌≡◌, IfOk, IfErr, codes, map, string_bytes};
ghost use Rattle.clap.specs.Words.{app_of, first_of, found_of, rows_of, subcommand_rows_of};
ghost use Rattle.app_base.specs.Line.{IsCommand};
ghost use Rattle.app_base.specs.Asked.{RefusesWords};
ghost use Rattle.app_bmclab.specs.Line.{frame_app, play_app, program};
ghost use Rattle.app_bmclab.specs.Asked.{AsksBy, AsksFor, AsksFrame, AsksPlay, shown_of};
ghost use Rattle.app_bmclab.specs.Places.{NamesPlaces};

use crate::ask_words::{AskWords, ask_command, ask_words};
use crate::check_words::{CheckWords, check_command, check_words};
use crate::places::places_of;
use crate::schedule_words::{ScheduleWords, schedule_command, schedule_words};
use app_base::{
    Argument, Refusal, Status, given, has_flag, lacking, named, new_command, new_program,
    refusal_by, refusal_of, version_command, with_command, word_of,
};
use app_play::{PlayOptions, Shown};
use bmc_lab::{AskedFrame, asked_frame};
use clap::error::ErrorKind;
use clap::{ArgMatches, Command};
use std::alloc::{AllocError, Global};
use two_wire::Bus;

/// What the words ask for.
#[derive(Drop)]
pub enum Words {
    Frame(FrameWords),
    Ask(AskWords),
    Play(PlayWords),
    Schedule(ScheduleWords),
    Check(CheckWords),
    Version,
}

/// What the words of `bmclab frame` ask for.
#[derive(Drop)]
pub struct FrameWords {
    /// The word of the board file, where one is given.
    pub board: Option<String>,
    pub frame: AskedFrame,
    /// Whether the frames are explained.
    pub explain: bool,
}

/// What the words of `bmclab play` ask for.
#[derive(Drop)]
pub struct PlayWords {
    /// How the play is shown.
    pub shown: Shown,
    /// Whether it is explained.
    pub explain: bool,
    pub options: PlayOptions,
    /// The places of the events behind which the manager's process ends, which rise from 1.
    pub restarts: Vec<usize>,
    /// The word of the board file.
    pub board: String,
    /// The word of the plan.
    pub plan: String,
    /// The word of the schedule.
    pub schedule: String,
}

const BUS_HELP: &str = "The bus, as in --bus smbus:
ipmb   the frame is one of IPMB; so it is where no bus is named
smbus  it is a packet of MCTP";

const BOARD_HELP: &str =
    "The board file, as in --board sample.toml; the sample board where none is named";

const HEX_FORM: &str = "two hexadecimal digits for each byte, without spaces and without 0x";

const HEX_HELP: &str =
    "The frame, as in 2018C82C0001D3: two hexadecimal digits for each byte, without spaces and without 0x";

const FRAME_ABOUT: &str = "Sends one frame to a fresh controller, and prints what it sends back";

const FRAME_EXAMPLES: &str = "Examples:
  bmclab frame 2018C82C0001D3
  bmclab frame --bus smbus --board sample.toml 200F0931010A08C801800002BE
  bmclab frame --explain 2010D02C002705A8";

const FRAME_EXPLAIN_HELP: &str =
    "Says what the frame and its replies say, part by part, and what a wrong check byte would be";

const FRAME_ARGUMENTS: [Argument<'static>; 4] = [
    Argument::Flag("explain", FRAME_EXPLAIN_HELP),
    Argument::Option("bus", "BUS", BUS_HELP),
    Argument::Option("board", "FILE", BOARD_HELP),
    Argument::Needed("HEX", HEX_HELP),
];

/// `frame [--explain] [--bus ipmb|smbus] [--board FILE] HEX`.
fn frame_command<'a>(alloc: Global) -> Result<Command<'a>, AllocError>
    ensures { IfOk result (IsCommand frame_app) }
{
    new_command(
        alloc,
        "frame",
        FRAME_ABOUT,
        FRAME_EXAMPLES,
        &FRAME_ARGUMENTS,
    )
}

const PLAY_ABOUT: &str = "Plays a plan on a board, over buses that lose, repeat and delay frames";

const FRAMES_HELP: &str = "Prints each frame, too, as in frame 0 mgr ipmb 2010D02C002905A6";

const PREMISES_HELP: &str =
    "Prints the first event at which a packet joined one that had waited too long, or premises kept";

const EXPLAIN_HELP: &str =
    "Says on standard error where the plan halts and why, and in which line of the schedule; it does so unasked where that is a terminal";

const SCHEDULE_HELP: &str = "The schedule: what comes when, as examples/clean/schedule.txt";

const RESTART_HELP: &str =
    "Ends the manager's process behind these events and makes it anew of its journal, as in --restart 3,7";

const STRICT_HELP: &str =
    "Ends with a status of 10 to 13 where a plan halted, a request isn't settled, an undo was refused or records changed, \
and refuses a file with a key that nothing reads";

const LIST_HELP: &str =
    "Prints each record that changed, too, as in sensor 5 upper critical: 95 (5Fh) -> 90 (5Ah)";

const PLAY_EXAMPLES: &str = "Examples:
  bmclab play sample.toml examples/clean/plan.toml examples/clean/schedule.txt
  bmclab play --frames sample.toml examples/clean/plan.toml examples/clean/schedule.txt
  bmclab play --premises sample.toml examples/clean/plan.toml examples/clean/schedule.txt
  bmclab play --chart sample.toml examples/clean/plan.toml examples/clean/schedule.txt
  bmclab play --explain sample.toml examples/refused/plan.toml examples/refused/schedule.txt
  bmclab play --strict --list sample.toml examples/clean/plan.toml examples/clean/schedule.txt
  bmclab play --restart 4 sample.toml examples/set_unheard/plan.toml examples/set_unheard/schedule.txt";

const PLAY_ARGUMENTS: [Argument<'static>; 10] = [
    Argument::Flag("frames", FRAMES_HELP),
    Argument::Flag("premises", PREMISES_HELP),
    Argument::Flag("chart", "Draws the play in place of its lines"),
    Argument::Flag("explain", EXPLAIN_HELP),
    Argument::Flag("list", LIST_HELP),
    Argument::Flag("strict", STRICT_HELP),
    Argument::Option("restart", "PLACES", RESTART_HELP),
    Argument::Needed("BOARD", "The board file, as sample.toml"),
    Argument::Needed("PLAN", "The plan, as examples/clean/plan.toml"),
    Argument::Needed("SCHEDULE", SCHEDULE_HELP),
];

/// `play [[--frames] [--premises] [--list] | --chart] [--explain] [--strict] [--restart PLACES] BOARD PLAN SCHEDULE`.
fn play_command<'a>(alloc: Global) -> Result<Command<'a>, AllocError>
    ensures { IfOk result (IsCommand play_app) }
{
    new_command(alloc, "play", PLAY_ABOUT, PLAY_EXAMPLES, &PLAY_ARGUMENTS)
}

const VERSION_EXAMPLES: &str = "Examples:
  bmclab version";

const ABOUT: &str =
    "Sends frames to a modelled board controller, plays plans on it and takes them back, writes schedules, and checks files";

const EXAMPLES: &str = "Examples:
  bmclab frame 2018C82C0001D3
  bmclab ask 04 27 05
  bmclab play sample.toml examples/clean/plan.toml examples/clean/schedule.txt
  bmclab schedule --undo sample.toml examples/clean/plan.toml
  bmclab check sample.toml examples/clean/plan.toml examples/clean/schedule.txt";

/// `bmclab`, and what it can do.
fn command<'a>(alloc: Global) -> Result<Command<'a>, AllocError>
    ensures { IfOk result (λ command. app_of command ≡ program) }
{
    let program = new_program(alloc, "bmclab", ABOUT, EXAMPLES)?;
    let program = with_command(program, frame_command(alloc))?;
    let program = with_command(program, ask_command(alloc))?;
    let program = with_command(program, play_command(alloc))?;
    let program = with_command(program, schedule_command(alloc))?;
    let program = with_command(program, check_command(alloc))?;
    with_command(program, version_command(alloc, VERSION_EXAMPLES))
}

/// What is wrong with the words BUS and HEX that name no frame.
fn frame_fault(alloc: Global, bus: Option<&str>, digits: &str) -> Result<String, AllocError> {
    match bus {
        Some(name) if Bus::named(name).is_none() => {
            format!(in alloc;
                "invalid value '{name}' for '--bus <BUS>'\n  [possible values: ipmb, smbus]"
            )
        }
        _ => format!(in alloc; "invalid value '{digits}' for '<HEX>': {HEX_FORM}"),
    }
}

/// The refusal of words BUS and HEX that name no frame, or for which memory was refused.
fn frame_refusal(alloc: Global, status: Status, bus: Option<&str>, digits: &str) -> Refusal
    ensures { status ≡ Status.Memory → result ≡ Refusal.Memory }
{
    if status == Status::Memory {
        return Refusal::Memory;
    }
    match frame_fault(alloc, bus, digits) {
        Ok(fault) => {
            let command = frame_command(alloc);
            let kind = ErrorKind::InvalidValue;
            refusal_by(alloc, command, "bmclab frame", kind, fault.as_str())
        }
        Err(_) => Refusal::Memory,
    }
}

/// What the words behind `frame` ask for.
fn frame_words(alloc: Global, matches: &ArgMatches) -> Result<FrameWords, Refusal>
    ensures asked { IfOk result (AsksFrame (rows_of (found_of matches.now))) }
    ensures refused { IfErr result (RefusesWords (AsksFrame (rows_of (found_of matches.now)))) }
{
    let Some(digits) = word_of(matches, "HEX") else {
        return Err(lacking(alloc));
    };
    let board = given(alloc, matches, "board")?;
    let explain = has_flag(matches, "explain");
    let bus = word_of(matches, "bus");
    match asked_frame(alloc, bus, digits) {
        Ok(frame) => Ok(FrameWords {
            board,
            frame,
            explain,
        }),
        Err(status) => Err(frame_refusal(alloc, status, bus, digits)),
    }
}

/// How a play is shown with these flags. A chart has no lines of frames, none of the premise on packets, and none of records.
fn shown(frames: bool, premises: bool, list: bool, chart: bool) -> Option<Shown>
    ensures { result ≡ shown_of frames premises list chart }
{
    match (frames, premises, list, chart) {
        (frames, premises, _, false) => Some(Shown::Lines { frames, premises }),
        (false, false, false, true) => Some(Shown::Chart),
        _ => None,
    }
}

/// The refusal of flags that don't go with `--chart`: `--frames`, or else `--premises`, or else `--list`.
fn shown_refusal(alloc: Global, frames: bool, premises: bool) -> Refusal {
    let command = play_command(alloc);
    let kind = ErrorKind::ArgumentConflict;
    let message = match (frames, premises) {
        (true, _) => "the argument '--frames' cannot be used with '--chart'",
        (false, true) => "the argument '--premises' cannot be used with '--chart'",
        (false, false) => "the argument '--list' cannot be used with '--chart'",
    };
    refusal_by(alloc, command, "bmclab play", kind, message)
}

/// The refusal of a word that names no places.
fn places_refusal(alloc: Global, word: &str) -> Refusal {
    let message = format!(in alloc;
        "invalid value '{word}' for '--restart <PLACES>': decimal numbers from 1, each above the one before it, with a comma between two"
    );
    match message {
        Ok(message) => {
            let command = play_command(alloc);
            let kind = ErrorKind::ValueValidation;
            refusal_by(alloc, command, "bmclab play", kind, message.as_str())
        }
        Err(_) => Refusal::Memory,
    }
}

/// The places behind whose events the manager's process ends.
fn restarts(alloc: Global, matches: &ArgMatches) -> Result<Vec<usize>, Refusal>
    ensures named { IfOk result (λ places.
        NamesPlaces (first_of (codes "restart") (rows_of (found_of matches.now))) places.items) }
    ensures refused { IfErr result (RefusesWords
        (NamesPlaces (first_of (codes "restart") (rows_of (found_of matches.now))))) }
{
    let Some(word) = word_of(matches, "restart") else {
        return Ok(Vec::new(alloc));
    };
    match places_of(alloc, word) {
        Ok(Some(places)) => Ok(places),
        Ok(None) => Err(places_refusal(alloc, word)),
        Err(_) => Err(Refusal::Memory),
    }
}

/// What the words behind `play` ask for.
fn play_words(alloc: Global, matches: &ArgMatches) -> Result<PlayWords, Refusal>
    ensures asked { IfOk result (AsksPlay (rows_of (found_of matches.now))) }
    ensures refused { IfErr result (RefusesWords (AsksPlay (rows_of (found_of matches.now)))) }
{
    let frames = has_flag(matches, "frames");
    let premises = has_flag(matches, "premises");
    let chart = has_flag(matches, "chart");
    let list = has_flag(matches, "list");
    let Some(shown) = shown(frames, premises, list, chart) else {
        return Err(shown_refusal(alloc, frames, premises));
    };
    let explain = has_flag(matches, "explain");
    let restarts = restarts(alloc, matches)?;
    Ok(PlayWords {
        shown,
        explain,
        options: PlayOptions {
            strict: has_flag(matches, "strict"),
            list,
        },
        restarts,
        board: named(alloc, matches, "BOARD")?,
        plan: named(alloc, matches, "PLAN")?,
        schedule: named(alloc, matches, "SCHEDULE")?,
    })
}

/// What the words that were matched ask for.
fn matched_words(alloc: Global, matches: &ArgMatches) -> Result<Words, Refusal>
    ensures asked { IfOk result (AsksBy (subcommand_rows_of matches.now)) }
    ensures refused { IfErr result (RefusesWords (AsksBy (subcommand_rows_of matches.now))) }
{
    if let Some(frame) = matches.subcommand_matches("frame") {
        return Ok(Words::Frame(frame_words(alloc, frame)?));
    }
    if let Some(ask) = matches.subcommand_matches("ask") {
        return Ok(Words::Ask(ask_words(alloc, ask)?));
    }
    if let Some(play) = matches.subcommand_matches("play") {
        return Ok(Words::Play(play_words(alloc, play)?));
    }
    if let Some(schedule) = matches.subcommand_matches("schedule") {
        return Ok(Words::Schedule(schedule_words(alloc, schedule)?));
    }
    if let Some(check) = matches.subcommand_matches("check") {
        return Ok(Words::Check(check_words(alloc, check)?));
    }
    let Some(_version) = matches.subcommand_matches("version") else {
        return Err(lacking(alloc));
    };
    Ok(Words::Version)
}

/// What the words ask for, the program's own name first among them.
pub fn read(alloc: Global, words: &[String]) -> Result<Words, Refusal>
    ensures asked { IfOk result (AsksFor (map string_bytes words.now)) }
    ensures refused { IfErr result (RefusesWords (AsksFor (map string_bytes words.now))) }
{
    let Ok(command) = command(alloc) else {
        return Err(Refusal::Memory);
    };
    match command.try_get_matches_from(words) {
        Ok(matches) => matched_words(alloc, &matches),
        Err(error) => Err(refusal_of(alloc, &error)),
    }
}
