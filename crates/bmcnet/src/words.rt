//! The words of the command line.
ghost use Rattle.std.specs.Prelude.{◌≡◌, IfOk, IfErr, IfSome, IfNone, map, string_bytes};
ghost use Rattle.clap.specs.Words.{found_of, rows_of, subcommand_rows_of};
ghost use Rattle.app_base.specs.Asked.{RefusesWords};
ghost use Rattle.bmcnet.specs.Asked.{AsksBy, AsksFor, AsksPair, AsksRun, AsksServe, AsksUndo};
ghost use Rattle.bmcnet.specs.Asked.{AsksApply, AsksBack, AsksChange, AsksPreview, AsksRevert};
ghost use Rattle.bmcnet.specs.Asked.{IsFileOf, NamesFile, NamesPortOr, NamesReach};
ghost use Rattle.bmcnet.specs.Asked.{AsksShow, NamesIdRanges};
ghost use Rattle.bmcnet.specs.Asked.{NamesOption, NamesOr, NamesPort, NamesTurns, NamesWait, OptionsStand, StandBeside};

use crate::ids::id_ranges;
use crate::number::{number_from, number_of, port_of};
use crate::tasks::{Task, command};
use app_apply::{ApplyWords, Reach};
use app_base::{Refusal, given, has_flag, lacking, named, refusal_by, refusal_of, word_of};
use app_change::{BackWords, ChangeWords, PreviewWords};
use app_pair::{PairOptions, PairWords};
use app_revert::RevertWords;
use app_run::{RunWords, UndoWords, WAIT_MS};
use app_serve::ServeWords;
use app_show::{IdRange, ShowWords};
use clap::ArgMatches;
use clap::error::ErrorKind;
use std::alloc::{AllocError, Global};

/// What the words ask for.
#[derive(Drop)]
pub enum Words {
    Serve(ServeWords),
    Run(RunWords),
    Undo(UndoWords),
    Pair(PairWords),
    Apply(ChangeWords),
    Revert(BackWords),
    Preview(PreviewWords),
    Show(ShowWords),
    Version,
}

/// The refusal of a word that isn't such a number, for the reason that the message gives.
fn value_refusal(alloc: Global, task: Task, message: Result<String, AllocError>) -> Refusal {
    match message {
        Ok(message) => refusal_by(
            alloc,
            task.command(alloc),
            task.name(),
            ErrorKind::ValueValidation,
            message.as_str(),
        ),
        Err(_) => Refusal::Memory,
    }
}

/// The refusal of a word that isn't a decimal number up to this one.
fn number_refusal(alloc: Global, task: Task, name: &str, word: &str, most: u32) -> Refusal {
    let message = format!(in alloc;
        "invalid value '{word}' for '<{name}>': a decimal number from 0 to {most}"
    );
    value_refusal(alloc, task, message)
}

/// The refusal of an option's word that isn't a decimal number of 32 bits from the least one on.
fn option_refusal(
    alloc: Global,
    task: Task,
    name: &str,
    value: &str,
    least: u32,
    word: &str,
) -> Refusal {
    let most = u32::MAX;
    let message = format!(in alloc;
        "invalid value '{word}' for '--{name} <{value}>': a decimal number from {least} to {most}"
    );
    value_refusal(alloc, task, message)
}

/// The port that the word of this name is.
fn port(alloc: Global, matches: &ArgMatches, task: Task, name: &str) -> Result<u16, Refusal>
    ensures port { IfOk result (NamesPort (rows_of (found_of matches.now)) name.now) }
    ensures refused { IfErr result
        (RefusesWords (NamesPort (rows_of (found_of matches.now)) name.now)) }
{
    let Some(word) = word_of(matches, name) else {
        return Err(lacking(alloc));
    };
    match port_of(word) {
        Some(port) => Ok(port),
        None => Err(number_refusal(alloc, task, name, word, u32::from(u16::MAX))),
    }
}

/// The turns that the word TURNS is.
fn turns(alloc: Global, matches: &ArgMatches, task: Task) -> Result<u32, Refusal>
    ensures turns { IfOk result (NamesTurns (rows_of (found_of matches.now))) }
    ensures refused { IfErr result (RefusesWords (NamesTurns (rows_of (found_of matches.now)))) }
{
    let Some(word) = word_of(matches, "TURNS") else {
        return Err(lacking(alloc));
    };
    match number_of(word) {
        Some(turns) => Ok(turns),
        None => Err(number_refusal(alloc, task, "TURNS", word, u32::MAX)),
    }
}

/// The number, from the least one on, that the option of this name is, where it is given. Its usage calls the number `value`.
fn number_given(
    alloc: Global,
    matches: &ArgMatches,
    task: Task,
    name: &str,
    value: &str,
    least: u32,
) -> Result<Option<u32>, Refusal>
    ensures number { IfOk result (NamesOption least (rows_of (found_of matches.now)) name.now) }
    ensures refused { IfErr result
        (RefusesWords (NamesOption least (rows_of (found_of matches.now)) name.now)) }
{
    let Some(word) = word_of(matches, name) else {
        return Ok(None);
    };
    match number_from(least, word) {
        Some(number) => Ok(Some(number)),
        None => Err(option_refusal(alloc, task, name, value, least, word)),
    }
}

/// The option's number, or the usual one where the option isn't given.
fn number_or(
    alloc: Global,
    matches: &ArgMatches,
    task: Task,
    name: &str,
    value: &str,
    least: u32,
    usual: u32,
) -> Result<u32, Refusal>
    ensures number { IfOk result (NamesOr least usual (rows_of (found_of matches.now)) name.now) }
    ensures refused { IfErr result
        (RefusesWords (NamesOr least usual (rows_of (found_of matches.now)) name.now)) }
{
    match number_given(alloc, matches, task, name, value, least) {
        Ok(Some(number)) => Ok(number),
        Ok(None) => Ok(usual),
        Err(refusal) => Err(refusal),
    }
}

/// How many milliseconds of quiet end a turn, by the option `--wait`.
fn wait(alloc: Global, matches: &ArgMatches, task: Task) -> Result<u32, Refusal>
    ensures wait { IfOk result (NamesWait (rows_of (found_of matches.now))) }
    ensures refused { IfErr result (RefusesWords (NamesWait (rows_of (found_of matches.now)))) }
{
    number_or(alloc, matches, task, "wait", "MS", 1, WAIT_MS)
}

/// What is wrong with these options of `serve`, if anything: what goes on without an end needs periods, only a file that is there begins anew, and
/// a clock stands in place of a file.
fn misfit(clock: bool, repeats: bool, periods: bool, readings: bool) -> Option<&'static str>
    ensures fits { IfNone result (StandBeside clock repeats periods readings) }
    ensures misfits { IfSome result (λ message. ¬ StandBeside clock repeats periods readings) }
{
    if (clock || repeats) && !periods {
        return Some("'--clock' and '--repeat-readings' need '--periods'");
    }
    if repeats && !readings {
        return Some("'--repeat-readings' needs '--readings <FILE>'");
    }
    if clock && readings {
        return Some("'--clock' cannot be used with '--readings <FILE>'");
    }
    None
}

/// Refuses options behind `serve` that don't stand beside each other.
fn stand_beside(alloc: Global, matches: &ArgMatches) -> Result<(), Refusal>
    ensures fits { IfOk result (λ done. OptionsStand (rows_of (found_of matches.now))) }
    ensures refused { IfErr result
        (RefusesWords (λ (none : Unit {0}). OptionsStand (rows_of (found_of matches.now)))) }
{
    let clock = has_flag(matches, "clock");
    let repeats = has_flag(matches, "repeat-readings");
    let periods = has_flag(matches, "periods");
    let readings = word_of(matches, "readings").is_some();
    match misfit(clock, repeats, periods, readings) {
        None => Ok(()),
        Some(message) => Err(refusal_by(
            alloc,
            Task::Serve.command(alloc),
            Task::Serve.name(),
            ErrorKind::ArgumentConflict,
            message,
        )),
    }
}

/// What the words behind `serve` ask for.
fn serve_words(alloc: Global, matches: &ArgMatches) -> Result<ServeWords, Refusal>
    ensures asked { IfOk result (AsksServe (rows_of (found_of matches.now))) }
    ensures refused { IfErr result (RefusesWords (AsksServe (rows_of (found_of matches.now)))) }
{
    stand_beside(alloc, matches)?;
    Ok(ServeWords {
        board: named(alloc, matches, "BOARD")?,
        ipmb_port: port(alloc, matches, Task::Serve, "P0")?,
        smbus_port: port(alloc, matches, Task::Serve, "P1")?,
        turns: turns(alloc, matches, Task::Serve)?,
        wait_ms: wait(alloc, matches, Task::Serve)?,
        periods: has_flag(matches, "periods"),
        quiet: number_given(alloc, matches, Task::Serve, "quiet", "N", 1)?,
        forget: number_given(alloc, matches, Task::Serve, "forget", "N", 1)?,
        readings: given(alloc, matches, "readings")?,
        repeats: has_flag(matches, "repeat-readings"),
        clock: has_flag(matches, "clock"),
        strict: has_flag(matches, "strict"),
        list: has_flag(matches, "list"),
    })
}

/// What the words behind `run` ask for.
fn run_words(alloc: Global, matches: &ArgMatches) -> Result<RunWords, Refusal>
    ensures asked { IfOk result (AsksRun (rows_of (found_of matches.now))) }
    ensures refused { IfErr result (RefusesWords (AsksRun (rows_of (found_of matches.now)))) }
{
    Ok(RunWords {
        plan: named(alloc, matches, "PLAN")?,
        ipmb_port: port(alloc, matches, Task::Run, "P0")?,
        smbus_port: port(alloc, matches, Task::Run, "P1")?,
        turns: turns(alloc, matches, Task::Run)?,
        undo: named(alloc, matches, "UNDO")?,
        wait_ms: wait(alloc, matches, Task::Run)?,
        again: number_or(alloc, matches, Task::Run, "again", "N", 0, 0)?,
        forget: number_given(alloc, matches, Task::Run, "forget", "N", 1)?,
        greet: has_flag(matches, "greet"),
        replace: has_flag(matches, "replace"),
        strict: has_flag(matches, "strict"),
    })
}

/// What the words behind `undo` ask for.
fn undo_words(alloc: Global, matches: &ArgMatches) -> Result<UndoWords, Refusal>
    ensures asked { IfOk result (AsksUndo (rows_of (found_of matches.now))) }
    ensures refused { IfErr result (RefusesWords (AsksUndo (rows_of (found_of matches.now)))) }
{
    Ok(UndoWords {
        undo: named(alloc, matches, "UNDO")?,
        ipmb_port: port(alloc, matches, Task::Undo, "P0")?,
        smbus_port: port(alloc, matches, Task::Undo, "P1")?,
        turns: turns(alloc, matches, Task::Undo)?,
        wait_ms: wait(alloc, matches, Task::Undo)?,
        greet: has_flag(matches, "greet"),
        strict: has_flag(matches, "strict"),
    })
}

/// What the words behind `pair` ask for.
fn pair_words(alloc: Global, matches: &ArgMatches) -> Result<PairWords, Refusal>
    ensures asked { IfOk result (AsksPair (rows_of (found_of matches.now))) }
    ensures refused { IfErr result (RefusesWords (AsksPair (rows_of (found_of matches.now)))) }
{
    Ok(PairWords {
        board: named(alloc, matches, "BOARD")?,
        plan: named(alloc, matches, "PLAN")?,
        options: PairOptions {
            turns: turns(alloc, matches, Task::Pair)?,
            strict: has_flag(matches, "strict"),
            list: has_flag(matches, "list"),
        },
    })
}

/// The port that the word of this name is, where one is given.
fn port_given(
    alloc: Global,
    matches: &ArgMatches,
    task: Task,
    name: &str,
) -> Result<Option<u16>, Refusal>
    ensures port { IfOk result (NamesPortOr (rows_of (found_of matches.now)) name.now) }
    ensures refused { IfErr result
        (RefusesWords (NamesPortOr (rows_of (found_of matches.now)) name.now)) }
{
    let Some(word) = word_of(matches, name) else {
        return Ok(None);
    };
    match port_of(word) {
        Some(port) => Ok(Some(port)),
        None => Err(number_refusal(alloc, task, name, word, u32::from(u16::MAX))),
    }
}

/// Where the controller is, and how long it is listened to, by the words behind `apply`, `revert`, `preview` or `show`.
fn reach(alloc: Global, matches: &ArgMatches, task: Task) -> Result<Reach, Refusal>
    ensures reach { IfOk result (NamesReach (rows_of (found_of matches.now))) }
    ensures refused { IfErr result (RefusesWords (NamesReach (rows_of (found_of matches.now)))) }
{
    Ok(Reach {
        ipmb_port: port(alloc, matches, task, "P0")?,
        smbus_port: port_given(alloc, matches, task, "P1")?,
        wait_ms: wait(alloc, matches, task)?,
        again: number_or(alloc, matches, task, "again", "N", 0, 0)?,
    })
}

/// The word of the file that gets what takes back a plan of this word, where none is given.
fn file_of(alloc: Global, plan: &str) -> Result<String, AllocError>
    ensures { IfOk result (λ file. IsFileOf plan.now (string_bytes file)) }
{
    match plan.strip_suffix(".toml") {
        Some(stem) => format!(in alloc; "{stem}.undo"),
        None => format!(in alloc; "{plan}.undo"),
    }
}

/// The word of the file that gets what takes back a plan of this word.
fn file_given(alloc: Global, matches: &ArgMatches, plan: &str) -> Result<String, Refusal>
    ensures file { IfOk result
        (λ file. NamesFile (rows_of (found_of matches.now)) plan.now (string_bytes file)) }
    ensures memory { IfErr result (λ refusal. refusal ≡ Refusal.Memory) }
{
    let file = match given(alloc, matches, "undo")? {
        Some(file) => Ok(file),
        None => file_of(alloc, plan),
    };
    match file {
        Ok(file) => Ok(file),
        Err(AllocError) => Err(Refusal::Memory),
    }
}

/// What the words behind `apply` ask for, but for its options that change what is carried out.
fn apply_words(alloc: Global, matches: &ArgMatches) -> Result<ApplyWords, Refusal>
    ensures asked { IfOk result (AsksApply (rows_of (found_of matches.now))) }
    ensures refused { IfErr result (RefusesWords (AsksApply (rows_of (found_of matches.now)))) }
{
    let plan = named(alloc, matches, "PLAN")?;
    let file = file_given(alloc, matches, plan.as_str())?;
    let replace = has_flag(matches, "replace");
    let json = has_flag(matches, "json");
    Ok(ApplyWords {
        plan,
        file,
        replace,
        reach: reach(alloc, matches, Task::Apply)?,
        json,
    })
}

/// What the words behind `apply` ask for.
fn change_words(alloc: Global, matches: &ArgMatches) -> Result<ChangeWords, Refusal>
    ensures asked { IfOk result (AsksChange (rows_of (found_of matches.now))) }
    ensures refused { IfErr result (RefusesWords (AsksChange (rows_of (found_of matches.now)))) }
{
    Ok(ChangeWords {
        apply: apply_words(alloc, matches)?,
        only_changes: has_flag(matches, "only-changes"),
        all_or_none: has_flag(matches, "all-or-none"),
    })
}

/// What the words behind `revert` ask for, but for whether that is only told.
fn revert_words(alloc: Global, matches: &ArgMatches) -> Result<RevertWords, Refusal>
    ensures asked { IfOk result (AsksRevert (rows_of (found_of matches.now))) }
    ensures refused { IfErr result (RefusesWords (AsksRevert (rows_of (found_of matches.now)))) }
{
    Ok(RevertWords {
        file: named(alloc, matches, "FILE")?,
        reach: reach(alloc, matches, Task::Revert)?,
        json: has_flag(matches, "json"),
    })
}

/// What the words behind `revert` ask for.
fn back_words(alloc: Global, matches: &ArgMatches) -> Result<BackWords, Refusal>
    ensures asked { IfOk result (AsksBack (rows_of (found_of matches.now))) }
    ensures refused { IfErr result (RefusesWords (AsksBack (rows_of (found_of matches.now)))) }
{
    Ok(BackWords {
        revert: revert_words(alloc, matches)?,
        preview: has_flag(matches, "preview"),
    })
}

/// What the words behind `preview` ask for.
fn preview_words(alloc: Global, matches: &ArgMatches) -> Result<PreviewWords, Refusal>
    ensures asked { IfOk result (AsksPreview (rows_of (found_of matches.now))) }
    ensures refused { IfErr result (RefusesWords (AsksPreview (rows_of (found_of matches.now)))) }
{
    Ok(PreviewWords {
        plan: named(alloc, matches, "PLAN")?,
        json: has_flag(matches, "json"),
        reach: reach(alloc, matches, Task::Preview)?,
    })
}

/// The ids of effecters that the option `--effecters` names.
fn effecters(alloc: Global, matches: &ArgMatches) -> Result<Vec<IdRange>, Refusal>
    ensures ids { IfOk result (λ ids. NamesIdRanges (rows_of (found_of matches.now)) ids.items) }
    ensures refused { IfErr result
        (RefusesWords (NamesIdRanges (rows_of (found_of matches.now)))) }
{
    let Some(word) = word_of(matches, "effecters") else {
        return Ok(Vec::new(alloc));
    };
    match id_ranges(alloc, word) {
        Ok(Some(ids)) => Ok(ids),
        Ok(None) => {
            let message = format!(in alloc;
                "invalid value '{word}' for '--effecters <LIST>': decimal numbers from 0 to 65535, as 1,2,10-20"
            );
            Err(value_refusal(alloc, Task::Show, message))
        }
        Err(AllocError) => Err(Refusal::Memory),
    }
}

/// What the words behind `show` ask for.
fn show_words(alloc: Global, matches: &ArgMatches) -> Result<ShowWords, Refusal>
    ensures asked { IfOk result (AsksShow (rows_of (found_of matches.now))) }
    ensures refused { IfErr result (RefusesWords (AsksShow (rows_of (found_of matches.now)))) }
{
    Ok(ShowWords {
        effecters: effecters(alloc, matches)?,
        out: given(alloc, matches, "out")?,
        json: has_flag(matches, "json"),
        reach: reach(alloc, matches, Task::Show)?,
    })
}

/// What the words that were matched ask for.
fn matched_words(alloc: Global, matches: &ArgMatches) -> Result<Words, Refusal>
    ensures asked { IfOk result (AsksBy (subcommand_rows_of matches.now)) }
    ensures refused { IfErr result (RefusesWords (AsksBy (subcommand_rows_of matches.now))) }
{
    if let Some(serve) = matches.subcommand_matches("serve") {
        return Ok(Words::Serve(serve_words(alloc, serve)?));
    }
    if let Some(run) = matches.subcommand_matches("run") {
        return Ok(Words::Run(run_words(alloc, run)?));
    }
    if let Some(undo) = matches.subcommand_matches("undo") {
        return Ok(Words::Undo(undo_words(alloc, undo)?));
    }
    if let Some(pair) = matches.subcommand_matches("pair") {
        return Ok(Words::Pair(pair_words(alloc, pair)?));
    }
    if let Some(apply) = matches.subcommand_matches("apply") {
        return Ok(Words::Apply(change_words(alloc, apply)?));
    }
    if let Some(revert) = matches.subcommand_matches("revert") {
        return Ok(Words::Revert(back_words(alloc, revert)?));
    }
    if let Some(preview) = matches.subcommand_matches("preview") {
        return Ok(Words::Preview(preview_words(alloc, preview)?));
    }
    if let Some(show) = matches.subcommand_matches("show") {
        return Ok(Words::Show(show_words(alloc, show)?));
    }
    let Some(_version) = matches.subcommand_matches("version") else {
        return Err(lacking(alloc));
    };
    Ok(Words::Version)
}

/// What the words ask for, the program's own name first among them.
pub fn read(alloc: Global, words: &[String]) -> Result<Words, Refusal>
    ensures asked { IfOk result (AsksFor (map string_bytes words.now)) }
    ensures refused { IfErr result (RefusesWords (AsksFor (map string_bytes words.now))) }
{
    let Ok(command) = command(alloc) else {
        return Err(Refusal::Memory);
    };
    match command.try_get_matches_from(words) {
        Ok(matches) => matched_words(alloc, &matches),
        Err(error) => Err(refusal_of(alloc, &error)),
    }
}
