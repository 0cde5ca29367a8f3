//! The words behind `schedule`.
ghost use Rattle.std.specs.Prelude.{◌≡◌, ◌<◌, ◌≤◌, IfOk, IfErr};
ghost use Rattle.clap.specs.Words.{first_of, found_of, rows_of};
ghost use Rattle.app_base.specs.Line.{IsCommand};
ghost use Rattle.app_base.specs.Asked.{RefusesWords};
ghost use Rattle.app_base.specs.Numbers.{NamesBelow};
ghost use Rattle.app_bmclab.specs.Line.{schedule_app};
ghost use Rattle.app_bmclab.specs.Drawn.{AsksOptions, AsksSchedule, NamesSeed, is_empty, links_of};

use crate::number::{DELAY_END, PERCENT_END, number_of, percent_of};
use app_base::{Argument, Refusal, has_flag, named, new_command, refusal_by, word_of};
use clap::error::ErrorKind;
use clap::{ArgMatches, Command};
use lab_play::{Chances, Links, Percent, ScheduleOptions};
use std::alloc::{AllocError, Global};

/// What the words of `bmclab schedule` ask for.
#[derive(Drop)]
pub struct ScheduleWords {
    pub wanted: ScheduleOptions,
    /// The word of the board file.
    pub board: String,
    /// The word of the plan.
    pub plan: String,
}

/// The options by which a schedule is drawn, each where it is given.
#[derive(Clone, Copy)]
pub struct Options {
    pub lose: Option<Percent>,
    pub repeat: Option<Percent>,
    pub delay: Option<Percent>,
    pub others: Option<Percent>,
    pub seed: Option<u64>,
}

const SCHEDULE_ABOUT: &str =
    "Writes a schedule of a plan on a board: a clean one, or one that is drawn";

const LOSE_HELP: &str = "So many frames in a hundred are lost, as in --lose 10";

const REPEAT_HELP: &str = "So many in a hundred of the others come twice, as in --repeat 10";

const DELAY_HELP: &str = "So many in a hundred let later ones past, as in --delay 10";

const OTHERS_HELP: &str =
    "So often in a hundred somebody else asks before an event, as in --others 10";

const SEED_HELP: &str = "What all of that is drawn from, as in --seed 7; 0 where none is named";

const UNDO_HELP: &str = "Takes the plan back, too, once it is done or has halted";

const SCHEDULE_EXAMPLES: &str = "Examples:
  bmclab schedule sample.toml examples/clean/plan.toml
  bmclab schedule --undo sample.toml examples/clean/plan.toml
  bmclab schedule --lose 20 --repeat 10 --delay 10 --others 5 --seed 7 --undo sample.toml examples/clean/plan.toml

Without --lose, --repeat, --delay, --others and --seed it is the clean one: each frame comes once, as soon as it was sent.";

const SCHEDULE_ARGUMENTS: [Argument<'static>; 8] = [
    Argument::Option("lose", "N", LOSE_HELP),
    Argument::Option("repeat", "N", REPEAT_HELP),
    Argument::Option("delay", "N", DELAY_HELP),
    Argument::Option("others", "N", OTHERS_HELP),
    Argument::Option("seed", "S", SEED_HELP),
    Argument::Flag("undo", UNDO_HELP),
    Argument::Needed("BOARD", "The board file, as sample.toml"),
    Argument::Needed("PLAN", "The plan, as examples/clean/plan.toml"),
];

/// `schedule [--lose N] [--repeat N] [--delay N] [--others N] [--seed S] [--undo] BOARD PLAN`.
pub fn schedule_command<'a>(alloc: Global) -> Result<Command<'a>, AllocError>
    ensures { IfOk result (IsCommand schedule_app) }
{
    new_command(
        alloc,
        "schedule",
        SCHEDULE_ABOUT,
        SCHEDULE_EXAMPLES,
        &SCHEDULE_ARGUMENTS,
    )
}

/// The refusal of a word that isn't a decimal number up to this one, of the option with this name and this value.
fn number_refusal(alloc: Global, name: &str, value: &str, word: &str, most: u64) -> Refusal {
    let message = format!(in alloc;
        "invalid value '{word}' for '--{name} <{value}>': a decimal number from 0 to {most}"
    );
    match message {
        Ok(message) => {
            let command = schedule_command(alloc);
            let kind = ErrorKind::ValueValidation;
            refusal_by(alloc, command, "bmclab schedule", kind, message.as_str())
        }
        Err(_) => Refusal::Memory,
    }
}

/// How many of a hundred, below the end, the option of this name says, where it is given.
fn percent(
    alloc: Global,
    matches: &ArgMatches,
    name: &str,
    end: u64,
) -> Result<Option<Percent>, Refusal>
    requires some { 0 < end }
    requires few { end ≤ 101 }
    ensures percent { IfOk result
        (NamesBelow end (first_of name.now (rows_of (found_of matches.now)))) }
    ensures refused { IfErr result
        (RefusesWords (NamesBelow end (first_of name.now (rows_of (found_of matches.now))))) }
{
    let Some(word) = word_of(matches, name) else {
        return Ok(None);
    };
    match percent_of(word, end) {
        Some(percent) => Ok(Some(percent)),
        None => Err(number_refusal(alloc, name, "N", word, end - 1)),
    }
}

/// The seed that is given, where one is.
fn seed(alloc: Global, matches: &ArgMatches) -> Result<Option<u64>, Refusal>
    ensures seed { IfOk result (NamesSeed (rows_of (found_of matches.now))) }
    ensures refused { IfErr result (RefusesWords (NamesSeed (rows_of (found_of matches.now)))) }
{
    let Some(word) = word_of(matches, "seed") else {
        return Ok(None);
    };
    match number_of(word) {
        Some(seed) => Ok(Some(seed)),
        None => Err(number_refusal(alloc, "seed", "S", word, u64::MAX)),
    }
}

/// The options that are given.
fn given_options(alloc: Global, matches: &ArgMatches) -> Result<Options, Refusal>
    ensures options { IfOk result (AsksOptions (rows_of (found_of matches.now))) }
    ensures refused { IfErr result (RefusesWords (AsksOptions (rows_of (found_of matches.now)))) }
{
    Ok(Options {
        lose: percent(alloc, matches, "lose", PERCENT_END)?,
        repeat: percent(alloc, matches, "repeat", PERCENT_END)?,
        delay: percent(alloc, matches, "delay", DELAY_END)?,
        others: percent(alloc, matches, "others", PERCENT_END)?,
        seed: seed(alloc, matches)?,
    })
}

impl Options {
    /// Whether none is given.
    fn is_empty(&self) -> bool
        ensures { result ≡ is_empty self.now }
    {
        self.lose.is_none()
            && self.repeat.is_none()
            && self.delay.is_none()
            && self.others.is_none()
            && self.seed.is_none()
    }

    /// What the buses do: with no option they are clean, and else what isn't given never happens, and is drawn from 0.
    fn links(self) -> Links
        ensures { result ≡ links_of self }
    {
        let is_clean = self.is_empty();
        let Options {
            lose,
            repeat,
            delay,
            others,
            seed,
        } = self;
        if is_clean {
            return Links::Clean;
        }
        let never = Percent::new(0);
        Links::Drawn(Chances {
            lose: lose.unwrap_or(never),
            repeat: repeat.unwrap_or(never),
            delay: delay.unwrap_or(never),
            others: others.unwrap_or(never),
            seed: seed.unwrap_or(0),
            late_joins: false,
        })
    }
}

/// What the words behind `schedule` ask for.
pub fn schedule_words(alloc: Global, matches: &ArgMatches) -> Result<ScheduleWords, Refusal>
    ensures asked { IfOk result (AsksSchedule (rows_of (found_of matches.now))) }
    ensures refused { IfErr result (RefusesWords (AsksSchedule (rows_of (found_of matches.now)))) }
{
    let options = given_options(alloc, matches)?;
    let wanted = ScheduleOptions {
        links: options.links(),
        undo: has_flag(matches, "undo"),
    };
    Ok(ScheduleWords {
        wanted,
        board: named(alloc, matches, "BOARD")?,
        plan: named(alloc, matches, "PLAN")?,
    })
}
