//! A command line, as it is built.
ghost use Rattle.std.specs.Prelude.{◌≡◌, IfOk, fold, map};
ghost use Rattle.clap.specs.Words.{App, app_of, new_app, with_rule, with_subcommand};
ghost use Rattle.app_base.specs.Line.{
  IsArg,
  IsCommand,
  argument_rule,
  flag_rule,
  needed_rule,
  needing_subcommand,
  option_rule,
  several_rule,
};

use clap::{Arg, ArgAction, Command};
use std::alloc::{AllocError, Global};

/// An argument of a command: its name, what its value is called, and what help says of it.
#[derive(Clone, Copy)]
pub enum Argument<'a> {
    /// A flag.
    Flag(&'a str, &'a str),
    /// An option with a value.
    Option(&'a str, &'a str, &'a str),
    /// A word that must be there.
    Needed(&'a str, &'a str),
    /// Words of which at least one must be there.
    Several(&'a str, &'a str),
}

/// A flag of this name.
fn flag<'a>(alloc: Global, name: &'a str, help: &'a str) -> Arg<'a>
    ensures { IsArg (flag_rule name.entry.now) result }
{
    Arg::new(alloc, name)
        .long(name)
        .action(ArgAction::SetTrue)
        .help(help)
}

/// An option of this name, with what its value is called.
fn option<'a>(alloc: Global, name: &'a str, value: &'a str, help: &'a str) -> Arg<'a>
    ensures { IsArg (option_rule name.entry.now) result }
{
    Arg::new(alloc, name)
        .long(name)
        .value_name(value)
        .help(help)
}

/// A word that must be there.
fn needed<'a>(alloc: Global, name: &'a str, help: &'a str) -> Arg<'a>
    ensures { IsArg (needed_rule name.entry.now) result }
{
    Arg::new(alloc, name).required(true).help(help)
}

/// Words of which at least one must be there.
fn several<'a>(alloc: Global, name: &'a str, help: &'a str) -> Arg<'a>
    ensures { IsArg (several_rule name.entry.now) result }
{
    Arg::new(alloc, name)
        .required(true)
        .num_args(1..)
        .help(help)
}

impl<'a> Argument<'a> {
    /// The argument, as clap has it.
    fn arg(self, alloc: Global) -> Arg<'a>
        ensures { IsArg (argument_rule self.entry) result }
    {
        match self {
            Argument::Flag(name, help) => flag(alloc, name, help),
            Argument::Option(name, value, help) => option(alloc, name, value, help),
            Argument::Needed(name, help) => needed(alloc, name, help),
            Argument::Several(name, help) => several(alloc, name, help),
        }
    }
}

/// A command of this name without arguments, with what its help says at its begin and at its end.
fn bare_command<'a>(alloc: Global, name: &'a str, about: &'a str, end: &'a str) -> Command<'a>
    ensures { IsCommand (new_app name.entry.now) result }
{
    Command::new(alloc, name).about(about).after_help(end)
}

/// A command of this name with these arguments in turn, and with what its help says at its begin and at its end.
pub fn new_command<'a>(
    alloc: Global,
    name: &'a str,
    about: &'a str,
    end: &'a str,
    arguments: &[Argument<'a>],
) -> Result<Command<'a>, AllocError>
    ensures { IfOk result (IsCommand
        (fold with_rule (new_app name.entry.now) (map argument_rule arguments.now))) }
{
    let mut command = bare_command(alloc, name, about, end);
    for argument in arguments {
        command = command.arg(argument.arg(alloc))?;
    }
    Ok(command)
}

/// A program of this name that needs a subcommand, with what its help says at its begin and at its end.
pub fn new_program<'a>(
    alloc: Global,
    name: &'a str,
    about: &'a str,
    end: &'a str,
) -> Result<Command<'a>, AllocError>
    ensures { IfOk result (λ program.
        app_of program ≡ needing_subcommand (new_app name.entry.now)) }
{
    let program = bare_command(alloc, name, about, end).subcommand_required(true);
    program.bin_name(name)
}

/// The program with one more subcommand.
pub fn with_command<'a>(
    program: Command<'a>,
    command: Result<Command<'a>, AllocError>,
) -> Result<Command<'a>, AllocError>
    ensures { IfOk result (λ both. (app : App) → IfOk command.entry (IsCommand app)
        → app_of both ≡ with_subcommand (app_of program.entry) app.top) }
{
    match command {
        Ok(command) => program.subcommand(command),
        Err(error) => {
            drop(program);
            Err(error)
        }
    }
}
