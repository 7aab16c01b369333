ghost use Rattle.std.specs.Prelude.{◌≡◌, IfOk, find, fold, false};
ghost use Rattle.std.specs.Str.{bytes_eq};
ghost use Rattle.clap.specs.Words.{app_of, rule_of};
ghost use Rattle.clap.specs.declared.builder.Command.TheViews.{out-Command};
ghost use Rattle.pip_words.specs.Arguments.{rule_given, app_given, with_entry};

use clap::{Arg, ArgAction, Command};
use std::alloc::{AllocError, Global};

// An argument of a command, by its name.
#[derive(Clone, Copy)]
pub(crate) enum Argument<'a> {
    /// `--NAME`, which takes no value.
    Flag(&'a str),
    /// `--NAME VALUE`.
    Setting(&'a str),
    /// A required value without a name.
    Needed(&'a str),
    /// Any number of values without a name.
    Values(&'a str),
}

// A command's name and its arguments.
#[derive(Clone, Copy)]
pub(crate) struct Entry<'a> {
    pub(crate) name: &'a str,
    pub(crate) arguments: &'a [Argument<'a>],
}

// The argument for `clap`.
fn made_argument<'a>(alloc: Global, argument: Argument<'a>) -> Arg<'a>
    ensures rule { rule_of result ≡ rule_given argument.entry }
    ensures local { result.global ≡ false }
{
    match argument {
        Argument::Flag(name) => Arg::new(alloc, name).long(name).action(ArgAction::SetTrue),
        Argument::Setting(name) => Arg::new(alloc, name).long(name),
        Argument::Needed(name) => Arg::new(alloc, name).required(true),
        Argument::Values(name) => Arg::new(alloc, name).num_args(0..),
    }
}

// The command for `clap`.
pub(crate) fn made_command<'a>(alloc: Global, entry: Entry<'a>) -> Result<Command<'a>, AllocError>
    ensures made { IfOk result (λ command. app_of command ≡ app_given entry.entry) }
    ensures local { IfOk result (λ command. (out-Command command).has_globals ≡ false) }
{
    let mut command = Command::new(alloc, entry.name);
    for added in entry.arguments {
        command = command.arg(made_argument(alloc, *added))?;
    }
    Ok(command)
}

// The program with these commands besides its own.
pub(crate) fn with_commands<'a>(
    alloc: Global,
    program: Command<'a>,
    entries: &[Entry<'a>],
) -> Result<Command<'a>, AllocError>
    ensures { IfOk result (λ made. app_of made ≡ fold with_entry (app_of program.entry) entries.entry.now) }
{
    let mut program = program;
    for entry in entries {
        program = program.subcommand(made_command(alloc, *entry)?)?;
    }
    Ok(program)
}

// The first of these commands that has this name.
pub(crate) fn first_named<'a>(entries: &[Entry<'a>], name: &str) -> Option<Entry<'a>>
    ensures { result ≡ find (λ entry. bytes_eq entry.name.now name.entry.now) entries.entry.now }
{
    for entry in entries {
        if *entry.name == *name {
            return Some(*entry);
        }
    }
    None
}
