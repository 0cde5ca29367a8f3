//! What the program can do, and its command line.
ghost use Rattle.std.specs.Prelude.{◌≡◌, IfOk};
ghost use Rattle.clap.specs.Words.{App, app_of};
ghost use Rattle.app_base.specs.Line.{IsArg, IsCommand};
ghost use Rattle.bmcnet.specs.Line.{app_named, program, smbus_rule, with_smbus_port};

use app_base::{Argument, new_command, new_program, version_command, with_command};
use clap::{Arg, Command};
use std::alloc::{AllocError, Global};

/// What `bmcnet` can do.
#[derive(Clone, Copy)]
pub enum Task {
    Serve,
    Run,
    Undo,
    Pair,
    Apply,
    Revert,
    Preview,
    Show,
}

const BOARD_HELP: &str = "The board file, as sample.toml";

const PLAN_HELP: &str = "The plan, as examples/clean/plan.toml";

const P0_HELP: &str = "The UDP port of IPMB on 127.0.0.1, as 9620: a decimal number up to 65535";

const P1_HELP: &str = "The UDP port of SMBus on 127.0.0.1, as 9621: a decimal number up to 65535";

const TURNS_HELP: &str =
    "How often to listen, each time for a datagram or 200 ms of quiet, as 1000: \
a decimal number up to 4294967295";

const WAIT_HELP: &str =
    "How many milliseconds of quiet end a turn, as in --wait 500; 200 where none are given: \
a decimal number from 1 to 4294967295";

const SERVE_ABOUT: &str =
    "Serves a board's two ports over UDP, and prints how many requests it carried out and which records differ";

const PERIODS_HELP: &str =
    "Goes on where the room for 4096 events is full, with a new room, as in --periods";

const QUIET_HELP: &str =
    "Ends once both ports heard nothing for so many turns in a row, as in --quiet 50: \
a decimal number from 1 to 4294967295";

const FORGET_HELP: &str =
    "Forgets a requester once nothing came from it for so many turns of a port in a row, as in --forget 50: \
a decimal number from 1 to 4294967295";

const READINGS_HELP: &str =
    "The file of what happens on the board meanwhile, a line each, as in --readings examples/readings.txt";

const REPEAT_READINGS_HELP: &str =
    "Has what that file says begin anew once it is over, with --periods, as in --repeat-readings";

const CLOCK_HELP: &str =
    "Has the board's clock and watchdog run, a tick each 100 ms, with --periods and without a file, as in --clock";

const SERVE_STRICT_HELP: &str =
    "Ends with 13 where records are changed, and refuses a board file with a key that nothing reads, as in --strict";

const LIST_HELP: &str = "Prints each record that is changed, in words, as in --list";

const SERVE_EXAMPLES: &str = "Examples:
  bmcnet serve --periods sample.toml 9620 9621 1000
  bmcnet serve --periods --clock sample.toml 9620 9621 1000
  bmcnet serve --periods --wait 500 sample.toml 9620 9621 1000
  bmcnet serve --periods --quiet 50 sample.toml 9620 9621 100000
  bmcnet serve --periods --forget 50 sample.toml 9620 9621 1000
  bmcnet serve --periods --strict --list sample.toml 9620 9621 1000
  bmcnet serve --periods --readings examples/readings.txt --repeat-readings sample.toml 9620 9621 1000";

const SERVE_ARGUMENTS: [Argument<'static>; 13] = [
    Argument::Option("wait", "MS", WAIT_HELP),
    Argument::Flag("periods", PERIODS_HELP),
    Argument::Option("quiet", "N", QUIET_HELP),
    Argument::Option("forget", "N", FORGET_HELP),
    Argument::Option("readings", "FILE", READINGS_HELP),
    Argument::Flag("repeat-readings", REPEAT_READINGS_HELP),
    Argument::Flag("clock", CLOCK_HELP),
    Argument::Flag("strict", SERVE_STRICT_HELP),
    Argument::Flag("list", LIST_HELP),
    Argument::Needed("BOARD", BOARD_HELP),
    Argument::Needed("P0", P0_HELP),
    Argument::Needed("P1", P1_HELP),
    Argument::Needed("TURNS", TURNS_HELP),
];

/// `serve [--wait MS] [--periods] [--quiet N] [--forget N] [--readings FILE] [--repeat-readings] [--clock] [--strict] [--list] BOARD P0 P1 TURNS`.
fn serve_command<'a>(alloc: Global) -> Result<Command<'a>, AllocError>
    ensures { IfOk result (IsCommand (app_named Task.Serve)) }
{
    new_command(
        alloc,
        "serve",
        SERVE_ABOUT,
        SERVE_EXAMPLES,
        &SERVE_ARGUMENTS,
    )
}

const RUN_ABOUT: &str = "Runs a plan on a controller that is served, and writes the undo text";

const UNDO_FILE_HELP: &str = "The file that gets the undo text, as undo.txt";

const AGAIN_HELP: &str =
    "How often to begin anew with a request that no retry brought a reply to, as in --again 3; \
0 where none is given: a decimal number from 0 to 4294967295";

const FORGETTING_HELP: &str =
    "How many turns to wait first, so that a server with the same --forget has forgotten an earlier run, \
as in --forget 50: a decimal number from 1 to 4294967295";

const GREET_HELP: &str =
    "Greets the controller first on each bus that is used, so that what it kept of an earlier run doesn't matter, \
as in --greet; where it doesn't answer, nothing is begun";

const REPLACE_HELP: &str =
    "Puts a journal aside, under a free name, that an earlier run left and that has something to take back, as in --replace";

const RUN_STRICT_HELP: &str =
    "Ends with 10 where the plan halted, and with 11 where a request or a greeting isn't answered, and refuses a plan with a key \
that nothing reads, or without a step, as in --strict";

const RUN_EXAMPLES: &str = "Examples:
  bmcnet run examples/clean/plan.toml 9620 9621 1000 undo.txt
  bmcnet run --greet --strict examples/clean/plan.toml 9620 9621 1000 undo.txt
  bmcnet run --wait 500 --again 3 examples/clean/plan.toml 9620 9621 1000 undo.txt
  bmcnet run --forget 50 examples/clean/plan.toml 9620 9621 1000 undo.txt
  bmcnet run --replace examples/clean/plan.toml 9620 9621 1000 undo.txt";

const RUN_ARGUMENTS: [Argument<'static>; 11] = [
    Argument::Option("wait", "MS", WAIT_HELP),
    Argument::Option("again", "N", AGAIN_HELP),
    Argument::Option("forget", "N", FORGETTING_HELP),
    Argument::Flag("greet", GREET_HELP),
    Argument::Flag("replace", REPLACE_HELP),
    Argument::Flag("strict", RUN_STRICT_HELP),
    Argument::Needed("PLAN", PLAN_HELP),
    Argument::Needed("P0", P0_HELP),
    Argument::Needed("P1", P1_HELP),
    Argument::Needed("TURNS", TURNS_HELP),
    Argument::Needed("UNDO", UNDO_FILE_HELP),
];

/// `run [--wait MS] [--again N] [--forget N] [--greet] [--replace] [--strict] PLAN P0 P1 TURNS UNDO`.
fn run_command<'a>(alloc: Global) -> Result<Command<'a>, AllocError>
    ensures { IfOk result (IsCommand (app_named Task.Run)) }
{
    new_command(alloc, "run", RUN_ABOUT, RUN_EXAMPLES, &RUN_ARGUMENTS)
}

const UNDO_ABOUT: &str = "Takes back what a run did on a controller that is served";

const UNDO_TEXT_HELP: &str = "The undo text that the run wrote, as undo.txt";

const UNDO_STRICT_HELP: &str =
    "Ends with 11 where a request or a greeting isn't answered, and with 12 where a request that undoes was refused, as in --strict";

const UNDO_EXAMPLES: &str = "Examples:
  bmcnet undo undo.txt 9620 9621 1000
  bmcnet undo --greet --strict undo.txt 9620 9621 1000
  bmcnet undo --wait 500 undo.txt 9620 9621 1000";

const UNDO_ARGUMENTS: [Argument<'static>; 7] = [
    Argument::Option("wait", "MS", WAIT_HELP),
    Argument::Flag("greet", GREET_HELP),
    Argument::Flag("strict", UNDO_STRICT_HELP),
    Argument::Needed("UNDO", UNDO_TEXT_HELP),
    Argument::Needed("P0", P0_HELP),
    Argument::Needed("P1", P1_HELP),
    Argument::Needed("TURNS", TURNS_HELP),
];

/// `undo [--wait MS] [--greet] [--strict] UNDO P0 P1 TURNS`.
fn undo_command<'a>(alloc: Global) -> Result<Command<'a>, AllocError>
    ensures { IfOk result (IsCommand (app_named Task.Undo)) }
{
    new_command(alloc, "undo", UNDO_ABOUT, UNDO_EXAMPLES, &UNDO_ARGUMENTS)
}

const PAIR_ABOUT: &str =
    "Serves a board, runs a plan on it and takes the plan back, in one process over UDP";

const PAIR_STRICT_HELP: &str =
    "Ends with 10 to 13 where the plan halted, a request isn't settled, an undo was refused or records are changed, and refuses \
a file with a key that nothing reads, as in --strict";

const PAIR_EXAMPLES: &str = "Examples:
  bmcnet pair sample.toml examples/reply_lost/plan.toml 20
  bmcnet pair --strict --list sample.toml examples/reply_lost/plan.toml 20";

const PAIR_ARGUMENTS: [Argument<'static>; 5] = [
    Argument::Flag("strict", PAIR_STRICT_HELP),
    Argument::Flag("list", LIST_HELP),
    Argument::Needed("BOARD", BOARD_HELP),
    Argument::Needed("PLAN", PLAN_HELP),
    Argument::Needed("TURNS", TURNS_HELP),
];

/// `pair [--strict] [--list] BOARD PLAN TURNS`.
fn pair_command<'a>(alloc: Global) -> Result<Command<'a>, AllocError>
    ensures { IfOk result (IsCommand (app_named Task.Pair)) }
{
    new_command(alloc, "pair", PAIR_ABOUT, PAIR_EXAMPLES, &PAIR_ARGUMENTS)
}

const APPLY_ABOUT: &str =
    "Changes a controller by a plan, and keeps in a file at each moment what takes that back";

const FILE_HELP: &str =
    "The file that gets what takes the plan back, as in --undo fans.undo; else the plan's name with .undo for .toml";

const FILE_REPLACE_HELP: &str =
    "Puts that file aside, under a free name, where it has something to take back, as in --replace";

const REACH_AGAIN_HELP: &str =
    "How often to begin anew with a request that no retry brought a reply to, as in --again 3; \
0 where none is given: a decimal number from 0 to 4294967295";

const ONLY_CHANGES_HELP: &str =
    "Looks at the records first, and carries out those steps alone that change something, as in --only-changes";

const ALL_OR_NONE_HELP: &str =
    "Takes back at once what was done where the plan halts, as in --all-or-none";

const JSON_HELP: &str =
    "Says what came of it as one object in a line of standard output, in place of the sentences, as in --json";

const P1_MAYBE_HELP: &str =
    "The UDP port of SMBus on 127.0.0.1, as 9621, where requests go on SMBus: a decimal number up to 65535";

/// A word that may be left out: the port of SMBus.
fn smbus_port<'a>(alloc: Global) -> Arg<'a>
    ensures { IsArg smbus_rule result }
{
    Arg::new(alloc, "P1").help(P1_MAYBE_HELP)
}

/// The command with that as its last word.
fn with_smbus_port<'a>(alloc: Global, command: Command<'a>) -> Result<Command<'a>, AllocError>
    ensures { (app : App) → IsCommand app command.entry
        → IfOk result (IsCommand (with_smbus_port app)) }
{
    command.arg(smbus_port(alloc))
}

const APPLY_EXAMPLES: &str = "Examples:
  bmcnet apply examples/clean/plan.toml 9620 9621
  bmcnet apply --undo fans.undo examples/clean/plan.toml 9620 9621
  bmcnet apply --undo fans.undo --replace examples/clean/plan.toml 9620 9621
  bmcnet apply --only-changes --all-or-none examples/clean/plan.toml 9620 9621
  bmcnet apply --wait 500 --again 3 --json examples/clean/plan.toml 9620 9621";

const APPLY_ARGUMENTS: [Argument<'static>; 9] = [
    Argument::Option("undo", "FILE", FILE_HELP),
    Argument::Flag("replace", FILE_REPLACE_HELP),
    Argument::Flag("only-changes", ONLY_CHANGES_HELP),
    Argument::Flag("all-or-none", ALL_OR_NONE_HELP),
    Argument::Option("wait", "MS", WAIT_HELP),
    Argument::Option("again", "N", REACH_AGAIN_HELP),
    Argument::Flag("json", JSON_HELP),
    Argument::Needed("PLAN", PLAN_HELP),
    Argument::Needed("P0", P0_HELP),
];

/// `apply [--undo FILE] [--replace] [--only-changes] [--all-or-none] [--wait MS] [--again N] [--json] PLAN P0 [P1]`.
fn apply_command<'a>(alloc: Global) -> Result<Command<'a>, AllocError>
    ensures { IfOk result (IsCommand (app_named Task.Apply)) }
{
    let command = new_command(
        alloc,
        "apply",
        APPLY_ABOUT,
        APPLY_EXAMPLES,
        &APPLY_ARGUMENTS,
    )?;
    with_smbus_port(alloc, command)
}

const REVERT_ABOUT: &str =
    "Takes back on a controller what a file says, to which a plan was applied";

const REVERT_FILE_HELP: &str =
    "The file that apply kept, as fans.undo: a journal or an undo text. Meanwhile it is the journal of the way back";

const REVERT_PREVIEW_HELP: &str =
    "Tells from that file alone what would be taken back, and sends nothing, as in --preview";

const REVERT_EXAMPLES: &str = "Examples:
  bmcnet revert examples/clean/plan.undo 9620 9621
  bmcnet revert --preview examples/clean/plan.undo 9620
  bmcnet revert --wait 500 --again 3 --json fans.undo 9620";

const REVERT_ARGUMENTS: [Argument<'static>; 6] = [
    Argument::Flag("preview", REVERT_PREVIEW_HELP),
    Argument::Option("wait", "MS", WAIT_HELP),
    Argument::Option("again", "N", REACH_AGAIN_HELP),
    Argument::Flag("json", JSON_HELP),
    Argument::Needed("FILE", REVERT_FILE_HELP),
    Argument::Needed("P0", P0_HELP),
];

/// `revert [--preview] [--wait MS] [--again N] [--json] FILE P0 [P1]`.
fn revert_command<'a>(alloc: Global) -> Result<Command<'a>, AllocError>
    ensures { IfOk result (IsCommand (app_named Task.Revert)) }
{
    let command = new_command(
        alloc,
        "revert",
        REVERT_ABOUT,
        REVERT_EXAMPLES,
        &REVERT_ARGUMENTS,
    )?;
    with_smbus_port(alloc, command)
}

const PREVIEW_ABOUT: &str =
    "Tells what each step of a plan would change on a controller, and sets nothing";

const PREVIEW_JSON_HELP: &str =
    "Says what each step would do as an object in a line, in place of the words, as in --json";

const PREVIEW_EXAMPLES: &str = "Examples:
  bmcnet preview examples/clean/plan.toml 9620 9621
  bmcnet preview --wait 500 --again 3 --json examples/clean/plan.toml 9620";

const PREVIEW_ARGUMENTS: [Argument<'static>; 5] = [
    Argument::Option("wait", "MS", WAIT_HELP),
    Argument::Option("again", "N", REACH_AGAIN_HELP),
    Argument::Flag("json", PREVIEW_JSON_HELP),
    Argument::Needed("PLAN", PLAN_HELP),
    Argument::Needed("P0", P0_HELP),
];

/// `preview [--wait MS] [--again N] [--json] PLAN P0 [P1]`.
fn preview_command<'a>(alloc: Global) -> Result<Command<'a>, AllocError>
    ensures { IfOk result (IsCommand (app_named Task.Preview)) }
{
    let command = new_command(
        alloc,
        "preview",
        PREVIEW_ABOUT,
        PREVIEW_EXAMPLES,
        &PREVIEW_ARGUMENTS,
    )?;
    with_smbus_port(alloc, command)
}

const SHOW_ABOUT: &str =
    "Reads a controller's records, and prints plans that set each to what it is: a backup. Nothing is set";

const EFFECTERS_HELP: &str =
    "The ids of the effecters that are read, as in --effecters 1,2,10-20; none where none are given: decimal numbers up to 65535";

const OUT_HELP: &str =
    "The name of the files that get the plans, as in --out backup: backup.toml, or backup-1.toml, backup-2.toml and so on \
where there are several. None of them may be there. Without it standard output gets them";

const SHOW_JSON_HELP: &str =
    "Says what each record is set to as an object in a line, in place of the plans, as in --json; it goes without --out";

const SHOW_EXAMPLES: &str = "Examples:
  bmcnet show 9620
  bmcnet show --out backup 9620 9621
  bmcnet show --json 9620
  bmcnet show --wait 500 --again 3 --effecters 1,2,10-20 --out backup 9620 9621";

const SHOW_ARGUMENTS: [Argument<'static>; 6] = [
    Argument::Option("wait", "MS", WAIT_HELP),
    Argument::Option("again", "N", REACH_AGAIN_HELP),
    Argument::Option("effecters", "LIST", EFFECTERS_HELP),
    Argument::Option("out", "NAME", OUT_HELP),
    Argument::Flag("json", SHOW_JSON_HELP),
    Argument::Needed("P0", P0_HELP),
];

/// `show [--wait MS] [--again N] [--effecters LIST] [--out NAME] [--json] P0 [P1]`.
fn show_command<'a>(alloc: Global) -> Result<Command<'a>, AllocError>
    ensures { IfOk result (IsCommand (app_named Task.Show)) }
{
    let command = new_command(alloc, "show", SHOW_ABOUT, SHOW_EXAMPLES, &SHOW_ARGUMENTS)?;
    with_smbus_port(alloc, command)
}

impl Task {
    /// The command that does it.
    pub fn command<'a>(self, alloc: Global) -> Result<Command<'a>, AllocError>
        ensures { IfOk result (IsCommand (app_named self)) }
    {
        match self {
            Task::Serve => serve_command(alloc),
            Task::Run => run_command(alloc),
            Task::Undo => undo_command(alloc),
            Task::Pair => pair_command(alloc),
            Task::Apply => apply_command(alloc),
            Task::Revert => revert_command(alloc),
            Task::Preview => preview_command(alloc),
            Task::Show => show_command(alloc),
        }
    }

    /// What its usage calls it.
    pub fn name(self) -> &'static str {
        match self {
            Task::Serve => "bmcnet serve",
            Task::Run => "bmcnet run",
            Task::Undo => "bmcnet undo",
            Task::Pair => "bmcnet pair",
            Task::Apply => "bmcnet apply",
            Task::Revert => "bmcnet revert",
            Task::Preview => "bmcnet preview",
            Task::Show => "bmcnet show",
        }
    }
}

const VERSION_EXAMPLES: &str = "Examples:
  bmcnet version";

const ABOUT: &str =
    "Serves a modelled board controller over UDP on this machine, and runs plans on one and takes them back";

const EXAMPLES: &str = "Examples:
  bmcnet serve --periods sample.toml 9620 9621 1000
  bmcnet run examples/clean/plan.toml 9620 9621 1000 undo.txt
  bmcnet undo undo.txt 9620 9621 1000
  bmcnet pair sample.toml examples/reply_lost/plan.toml 20
  bmcnet apply examples/clean/plan.toml 9620 9621
  bmcnet revert examples/clean/plan.undo 9620 9621
  bmcnet preview examples/clean/plan.toml 9620 9621
  bmcnet show --out backup 9620 9621";

/// `bmcnet`, and what it can do.
pub fn command<'a>(alloc: Global) -> Result<Command<'a>, AllocError>
    ensures { IfOk result (λ command. app_of command ≡ program) }
{
    let program = new_program(alloc, "bmcnet", ABOUT, EXAMPLES)?;
    let program = with_command(program, serve_command(alloc))?;
    let program = with_command(program, run_command(alloc))?;
    let program = with_command(program, undo_command(alloc))?;
    let program = with_command(program, pair_command(alloc))?;
    let program = with_command(program, apply_command(alloc))?;
    let program = with_command(program, revert_command(alloc))?;
    let program = with_command(program, preview_command(alloc))?;
    let program = with_command(program, show_command(alloc))?;
    with_command(program, version_command(alloc, VERSION_EXAMPLES))
}
