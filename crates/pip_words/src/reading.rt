ghost use Rattle.std.specs.Prelude.{◌≡◌, ◌≢◌, IfOk, IfErr, Some, None, map, option_map, true, string_bytes};
ghost use Rattle.clap.specs.Words.{is_simple_and_free, kind_of, subcommand_rows_of};
ghost use Rattle.clap.specs.declared.error.ErrorKind.TheVariants.{OutOfMemory};
ghost use Rattle.pip_words.specs.Alone.{app_alone, command_alone, spelling_named};
ghost use Rattle.pip_words.specs.Arguments.{app_given};
ghost use Rattle.pip_words.specs.declared.refusal.WordsRefusal.TheVariants as refused;
ghost use Rattle.pip_words.specs.Words.{command_given, command_of, meaning_of, Gives, command_in};

use crate::arguments::{Entry, made_command};
use crate::command::Command;
use crate::commands::{command_of_name, command_without_values, entry_named, pip};
use crate::refusal::WordsRefusal;
use clap::error::ErrorKind;
use clap::{ArgMatches, Error};
use std::alloc::Global;

/// The command that the words of the command line give; the first word is the program's name and is not looked at.
///
/// Usage is answered exactly where the words are no command: `clap` refuses them, a request for help among it, or
/// a number word is not one or more decimal digits in its range.
pub fn read_words(alloc: Global, words: &Vec<String>) -> Result<Command, WordsRefusal>
    ensures ok { IfOk result (λ command. command_given words.now ≡ Some (meaning_of command)) }
    ensures usage { IfErr result (λ e. e ≡ WordsRefusal.Usage → command_given words.now ≡ None) }
{
    let words = words.as_slice();
    if let Some(word) = words.get(1) {
        let name = word.as_str();
        if let Some(entry) = entry_named(name) {
            return named(alloc, entry, name, &words[1..]);
        }
    }
    unnamed(alloc, words)
}

// The command that the words give by the entry of this name alone, which is the first word. `clap` is not asked where
// there are no others and it needs none.
fn named(
    alloc: Global,
    entry: Entry<'_>,
    name: &str,
    words: &[String],
) -> Result<Command, WordsRefusal>
    requires { Some (app_given entry) ≡ option_map app_alone (spelling_named name.now) }
    ensures { Gives meaning_of (command_alone (app_given entry.entry) name.now (map string_bytes words.now)) result }
{
    if words.len() == 1 {
        if let Some(command) = command_without_values(alloc, name) {
            return Ok(command);
        }
    }
    parsed(alloc, entry, name, words)
}

// The same by `clap`.
fn parsed(
    alloc: Global,
    entry: Entry<'_>,
    name: &str,
    words: &[String],
) -> Result<Command, WordsRefusal>
    requires { is_simple_and_free (app_given entry) ≡ true }
    ensures { Gives meaning_of (command_alone (app_given entry.entry) name.now (map string_bytes words.now)) result }
{
    let command = made_command(alloc, entry)?;
    match command.try_get_matches_from(words) {
        Ok(matches) => command_of_name(alloc, name, &matches),
        Err(error) => Err(refusal(error)),
    }
}

// The command that the words give by all entries.
fn unnamed(alloc: Global, words: &[String]) -> Result<Command, WordsRefusal>
    ensures { Gives meaning_of (command_of (map string_bytes words.now)) result }
{
    let pip = pip(alloc)?;
    match pip.try_get_matches_from(words) {
        Ok(matches) => command(alloc, &matches),
        Err(error) => Err(refusal(error)),
    }
}

// Why `clap` refuses the words.
fn refusal(error: Error) -> WordsRefusal
    ensures { result ≡ refused.Usage → kind_of error ≢ OutOfMemory }
{
    match error.kind() {
        ErrorKind::OutOfMemory => WordsRefusal::WantOfMemory,
        _ => WordsRefusal::Usage,
    }
}

fn command(alloc: Global, matches: &ArgMatches<'_>) -> Result<Command, WordsRefusal>
    ensures { Gives meaning_of (command_in (subcommand_rows_of matches.now)) result }
{
    match matches.subcommand() {
        Some((name, matches)) => command_of_name(alloc, name, matches),
        None => Err(WordsRefusal::Usage),
    }
}
