ghost use Rattle.std.specs.Prelude.{◌≡◌, IfOk, IfSome, Some, [], drop, option_map};
ghost use Rattle.clap.specs.Words.{app_of, rows_of, found_of};
ghost use Rattle.program_model.specs.Commands.{Simplify, Pieces};
ghost use Rattle.pip_words.specs.Alone.{app_alone, spelling_named};
ghost use Rattle.pip_words.specs.Arguments.{app_given};
ghost use Rattle.pip_words.specs.Words.{Gives, meaning_of, pip_app, command_named, named_in, spellings, solve_of, eval_of, counted_of, trial_of};

use crate::arguments::{Argument, Entry, first_named, with_commands};
use crate::command::{Command, PiecesOptions, SimplifyOptions, SolveOptions, TrialOptions};
use crate::names;
use crate::parameter_vector::ParameterVector;
use crate::refusal::WordsRefusal;
use crate::values::{is_set, limits, parameter_count, parameters, required_number, walk};
use clap::ArgMatches;
use pip_problem::Limits;
use std::alloc::{AllocError, Global};

const MOST_DRAWN: u64 = 10_000;

// The program's commands with their arguments.
static ENTRIES: [Entry<'static>; 10] = [
    Entry {
        name: "solve",
        arguments: &[
            Argument::Flag(names::POLYLIB),
            Argument::Flag(names::SIMPLIFY),
            Argument::Flag(names::CERTIFICATE),
            Argument::Setting(names::PIVOTS),
            Argument::Setting(names::CUTS),
            Argument::Setting(names::SPLITS),
            Argument::Setting(names::NESTING),
        ],
    },
    Entry {
        name: "eval",
        arguments: &[Argument::Values(names::PARAMETER)],
    },
    Entry {
        name: "simplify",
        arguments: &[Argument::Needed(names::PARAMETERS)],
    },
    Entry {
        name: "check",
        arguments: &[],
    },
    Entry {
        name: "share",
        arguments: &[],
    },
    Entry {
        name: "trial",
        arguments: &[
            Argument::Needed(names::SEED),
            Argument::Needed(names::COUNT),
        ],
    },
    Entry {
        name: "pieces",
        arguments: &[Argument::Needed(names::PARAMETERS)],
    },
    Entry {
        name: "restrict",
        arguments: &[
            Argument::Needed(names::PARAMETERS),
            Argument::Setting(names::PIVOTS),
            Argument::Setting(names::CUTS),
        ],
    },
    Entry {
        name: "same",
        arguments: &[
            Argument::Needed(names::PARAMETERS),
            Argument::Setting(names::PIVOTS),
            Argument::Setting(names::CUTS),
            Argument::Setting(names::SPLITS),
        ],
    },
    Entry {
        name: "least",
        arguments: &[
            Argument::Needed(names::PARAMETERS),
            Argument::Setting(names::PIVOTS),
            Argument::Setting(names::CUTS),
            Argument::Setting(names::SPLITS),
            Argument::Setting(names::NESTING),
        ],
    },
];

// The program with all its commands, for `clap`.
pub(crate) fn pip<'a>(alloc: Global) -> Result<clap::Command<'a>, AllocError>
    ensures { IfOk result (λ command. app_of command ≡ pip_app) }
{
    let program = clap::Command::new(alloc, "pip").subcommand_required(true);
    with_commands(alloc, program, &ENTRIES)
}

// The command of this name with its arguments.
pub(crate) fn entry_named(name: &str) -> Option<Entry<'static>>
    ensures { option_map app_given result ≡ option_map app_alone (spelling_named name.now) }
{
    first_named(&ENTRIES, name)
}

// The command of a name.
pub(crate) fn command_of_name(
    alloc: Global,
    name: &str,
    matches: &ArgMatches<'_>,
) -> Result<Command, WordsRefusal>
    ensures { Gives meaning_of (command_named name.now (rows_of (found_of matches.now))) result }
{
    if name == "solve" {
        solve(matches).ok_or(WordsRefusal::Usage)
    } else if name == "eval" {
        eval(alloc, matches)
    } else {
        later_command(name, matches).ok_or(WordsRefusal::Usage)
    }
}

// The same of a name that stands behind those two.
fn later_command(name: &str, matches: &ArgMatches<'_>) -> Option<Command>
    ensures { option_map meaning_of result ≡ named_in name.now (rows_of (found_of matches.now)) (drop 2 spellings) }
{
    if name == "simplify" {
        simplify(matches)
    } else if name == "check" {
        Some(Command::Check)
    } else if name == "share" {
        Some(Command::Share)
    } else if name == "trial" {
        trial(matches)
    } else if name == "pieces" {
        pieces(matches)
    } else {
        walking_command(name, matches)
    }
}

// The same of a name that stands behind those seven: each of these commands has the options of a walk.
fn walking_command(name: &str, matches: &ArgMatches<'_>) -> Option<Command>
    ensures { option_map meaning_of result ≡ named_in name.now (rows_of (found_of matches.now)) (drop 7 spellings) }
{
    let options = walk(matches)?;
    if name == "restrict" {
        Some(Command::Restrict(options))
    } else if name == "same" {
        Some(Command::Same(options))
    } else if name == "least" {
        Some(Command::Least(options))
    } else {
        None
    }
}

// The command of a name that no values stand behind, if it needs none.
pub(crate) fn command_without_values(alloc: Global, name: &str) -> Option<Command>
    ensures { IfSome result (λ command. command_named name.now [] ≡ Some (meaning_of command)) }
{
    if name == "solve" {
        Some(Command::Solve(SolveOptions {
            polylib: false,
            simplify: false,
            certificate: false,
            limits: Limits::standard(),
        }))
    } else if name == "eval" {
        Some(Command::Eval(ParameterVector::new(alloc)))
    } else if name == "check" {
        Some(Command::Check)
    } else if name == "share" {
        Some(Command::Share)
    } else {
        None
    }
}

fn solve(matches: &ArgMatches<'_>) -> Option<Command>
    ensures { option_map meaning_of result ≡ solve_of (rows_of (found_of matches.now)) }
{
    let polylib = is_set(matches, names::POLYLIB);
    let simplify = is_set(matches, names::SIMPLIFY);
    let certificate = is_set(matches, names::CERTIFICATE);
    if simplify && certificate {
        return None;
    }
    let limits = limits(matches)?;
    Some(Command::Solve(SolveOptions {
        polylib,
        simplify,
        certificate,
        limits,
    }))
}

#[tactic(auto, using(crate::proofs::Rows::value_rows, crate::proofs::Giving::refused_mapped))]
fn eval(alloc: Global, matches: &ArgMatches<'_>) -> Result<Command, WordsRefusal>
    ensures { Gives meaning_of (eval_of (rows_of (found_of matches.now))) result }
{
    match matches.get_strs(names::PARAMETER) {
        Some(texts) => match parameters(alloc, texts) {
            Ok(vector) => Ok(Command::Eval(vector)),
            Err(refusal) => Err(refusal),
        },
        None => Ok(Command::Eval(ParameterVector::new(alloc))),
    }
}

fn simplify(matches: &ArgMatches<'_>) -> Option<Command>
    ensures { option_map meaning_of result ≡ counted_of Simplify (rows_of (found_of matches.now)) }
{
    let params = parameter_count(matches)?;
    Some(Command::Simplify(SimplifyOptions { params }))
}

fn pieces(matches: &ArgMatches<'_>) -> Option<Command>
    ensures { option_map meaning_of result ≡ counted_of Pieces (rows_of (found_of matches.now)) }
{
    let params = parameter_count(matches)?;
    Some(Command::Pieces(PiecesOptions { params }))
}

fn trial(matches: &ArgMatches<'_>) -> Option<Command>
    ensures { option_map meaning_of result ≡ trial_of (rows_of (found_of matches.now)) }
{
    let seed = required_number(matches, names::SEED, u64::MAX)?;
    let count = required_number(matches, names::COUNT, MOST_DRAWN)? as u16;
    Some(Command::Trial(TrialOptions { seed, count }))
}
