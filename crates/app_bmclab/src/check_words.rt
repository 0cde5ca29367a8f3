//! The words behind `check`.
ghost use Rattle.std.specs.Prelude.{IfOk, IfErr};
ghost use Rattle.clap.specs.Words.{found_of, rows_of};
ghost use Rattle.app_base.specs.Line.{IsCommand};
ghost use Rattle.app_base.specs.Asked.{RefusesWords};
ghost use Rattle.app_bmclab.specs.Line.{check_app};
ghost use Rattle.app_bmclab.specs.Looked.{AsksCheck, AsksForm, AsksWay};

use app_base::{Argument, Refusal, all_named, given, new_command, refusal_by, word_of};
use clap::error::ErrorKind;
use clap::{ArgMatches, Command};
use std::alloc::{AllocError, Global};
use text_check::TextForm;

/// How files are checked.
#[derive(Drop)]
pub enum CheckWay {
    /// Each for itself, as what it is said to be, or else as what it looks like.
    Alone(Option<TextForm>),
    /// Each as a plan on the board of the file that this word names.
    Against(String),
}

/// What the words of `bmclab check` ask for.
#[derive(Drop)]
pub struct CheckWords {
    /// How the files are checked.
    pub way: CheckWay,
    /// The words of the files, at least one.
    pub files: Vec<String>,
}

const CHECK_ABOUT: &str = "Tells what files hold, where a fault is, and which keys nothing reads";

const CHECK_EXAMPLES: &str = "Examples:
  bmclab check sample.toml
  bmclab check sample.toml examples/clean/plan.toml examples/clean/schedule.txt
  bmclab check --as plan examples/clean/plan.toml
  bmclab check --against sample.toml examples/clean/plan.toml";

const AGAINST_HELP: &str =
    "The board file of a board on which each step of the files, which are plans, is tried, as in --against sample.toml";

const FORM_HELP: &str =
    "What the files are, as in --as plan: board, plan, undo, journal, readings or schedule; what they look like where it isn't named";

const FILES_HELP: &str =
    "The files: board files, plans, schedules, undo texts, journals and readings";

const CHECK_ARGUMENTS: [Argument<'static>; 3] = [
    Argument::Option("as", "FORM", FORM_HELP),
    Argument::Option("against", "BOARD", AGAINST_HELP),
    Argument::Several("FILE", FILES_HELP),
];

/// `check [--as FORM | --against BOARD] FILE..`.
pub fn check_command<'a>(alloc: Global) -> Result<Command<'a>, AllocError>
    ensures { IfOk result (IsCommand check_app) }
{
    new_command(
        alloc,
        "check",
        CHECK_ABOUT,
        CHECK_EXAMPLES,
        &CHECK_ARGUMENTS,
    )
}

/// The refusal of a word that names no form.
fn form_refusal(alloc: Global, word: &str) -> Refusal {
    let message = format!(in alloc;
        "invalid value '{word}' for '--as <FORM>'\n  [possible values: board, plan, undo, journal, readings, schedule]"
    );
    match message {
        Ok(message) => {
            let command = check_command(alloc);
            let kind = ErrorKind::InvalidValue;
            refusal_by(alloc, command, "bmclab check", kind, message.as_str())
        }
        Err(_) => Refusal::Memory,
    }
}

/// What the files are said to be, where they are.
fn form(alloc: Global, matches: &ArgMatches) -> Result<Option<TextForm>, Refusal>
    ensures form { IfOk result (AsksForm (rows_of (found_of matches.now))) }
    ensures refused { IfErr result (RefusesWords (AsksForm (rows_of (found_of matches.now)))) }
{
    let Some(word) = word_of(matches, "as") else {
        return Ok(None);
    };
    match TextForm::named(word) {
        Some(form) => Ok(Some(form)),
        None => Err(form_refusal(alloc, word)),
    }
}

/// The refusal of `--as` beside `--against`.
fn way_refusal(alloc: Global) -> Refusal {
    let command = check_command(alloc);
    let kind = ErrorKind::ArgumentConflict;
    let message = "the argument '--as <FORM>' cannot be used with '--against <BOARD>'";
    refusal_by(alloc, command, "bmclab check", kind, message)
}

/// How the files are checked.
fn way(alloc: Global, matches: &ArgMatches) -> Result<CheckWay, Refusal>
    ensures way { IfOk result (AsksWay (rows_of (found_of matches.now))) }
    ensures refused { IfErr result (RefusesWords (AsksWay (rows_of (found_of matches.now)))) }
{
    let Some(board) = given(alloc, matches, "against")? else {
        return Ok(CheckWay::Alone(form(alloc, matches)?));
    };
    match word_of(matches, "as") {
        None => Ok(CheckWay::Against(board)),
        Some(_) => Err(way_refusal(alloc)),
    }
}

/// What the words behind `check` ask for.
pub fn check_words(alloc: Global, matches: &ArgMatches) -> Result<CheckWords, Refusal>
    ensures asked { IfOk result (AsksCheck (rows_of (found_of matches.now))) }
    ensures refused { IfErr result (RefusesWords (AsksCheck (rows_of (found_of matches.now)))) }
{
    let way = way(alloc, matches)?;
    let files = all_named(alloc, matches, "FILE")?;
    Ok(CheckWords { way, files })
}
